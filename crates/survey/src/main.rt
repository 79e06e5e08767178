// Surveys the playbook of an input: reads it from standard input, and prints two numbers and words. Where it is refused
// before its script the numbers are the answer and the ordinal of the record at fault, 0 for none, and the words are
// why. Else they are 0 and the number of the playbook's records, and the words tell what it uses of each limit.
#![tactic(auto)]

mod keys;
mod uses;

ghost use Rattle.std.specs.Prelude.{◌≡◌, ◌+◌, length};
ghost use Rattle.notation.specs.Limits.{input_limit};

use answer::limits;
use notation::INPUT;
use playbook::Playbook;
use prose::Out;
use std::fmt;
use std::fmt::Write;
use uses::Use;

const STDIN_FILENO: i32 = 0;

// The longest input that has a text, and one byte further to tell a longer one.
const SPACE: usize = INPUT + 1;

fn for_input() -> [u8; SPACE]
    ensures { input_limit + 1 ≡ length result }
{
    [0u8; SPACE]
}

// The longest script, in bytes.
const SCRIPT: usize = 8192;

// An input that is not refused before its script: its playbook, and how many bytes of script follow it.
#[derive(Clone, Copy)]
struct Prepared {
    book: Playbook,
    script: usize,
}

// The input's questions in their order: 30, 20, those of the playbook, 28. A refusal is the answer's number.
fn prepare(input: &[u8]) -> Result<Prepared, u8> {
    let Some((n, bytes)) = input.split_first() else {
        return Err(answer::CUT_SHORT);
    };
    if !(1..=limits::CONTROLLERS).contains(n) {
        return Err(answer::LIMITS_BROKEN);
    }
    let outcome = playbook::read_first(bytes);
    let script = bytes.len().saturating_sub(outcome.used);
    if outcome.answer != answer::DONE {
        Err(outcome.answer)
    } else if SCRIPT < script {
        Err(answer::SCRIPT_TOO_LONG)
    } else {
        let book = outcome.playbook;
        Ok(Prepared { book, script })
    }
}

fn say_refused(out: &mut Out, answer: u8, input: &[u8]) -> fmt::Result {
    let record = faults::RecordOrdinal { answer, input };
    let room = SPACE;
    let why = faults::Words {
        answer,
        input,
        room,
    };
    writeln!(out, "{answer} {record}\nrefused, {why}")
}

fn say_prepared(out: &mut Out, found: &Prepared) -> fmt::Result {
    let records = uses::records_of(&found.book);
    writeln!(out, "{} {records}", answer::DONE)?;
    uses::say_uses(out, &found.book)?;
    let script = Use {
        used: found.script,
        most: SCRIPT,
        what: "bytes of script",
    };
    writeln!(out, "{script}")
}

fn survey(out: &mut Out, input: &[u8]) -> fmt::Result {
    match prepare(input) {
        Ok(found) => say_prepared(out, &found),
        Err(answer) => say_refused(out, answer, input),
    }
}

fn main() -> fmt::Result {
    let mut out = Out::new();
    let mut space = for_input();
    let n = io::read_full(STDIN_FILENO, &mut space);
    let said = survey(&mut out, &space[..n]);
    out.end();
    said
}

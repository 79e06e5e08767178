// Assembles the notation of a rehearsal (docs/NOTATION.md): reads text from standard input whole and writes the bytes
// that it stands for to standard output and the map of records to lines to standard error, or a line on the first fault
// to standard error alone.
#![tactic(auto)]

mod buffer;
mod fields;
mod hints;
mod known;
mod near;
mod output;
mod parse;
mod pattern;
mod progress;
mod records;
mod telling;
mod values;
mod words;

ghost use Rattle.std.specs.Prelude.{◌≡◌, ◌+◌, ◌≤◌, length};
ghost use Rattle.notation.specs.Limits.{text_limit};

use notation::TEXT;
use output::Output;
use progress::Progress;
use prose::Errors;
use std::fmt;
use std::fmt::Write;
use telling::Problem;
use words::Words;

const STDIN_FILENO: i32 = 0;

const STDOUT_FILENO: i32 = 1;

// The longest text, and one byte further to tell a longer one.
const SPACE: usize = TEXT + 1;

// The byte-order mark that some editors write in front of a text.
const MARK: [u8; 3] = [0xEF, 0xBB, 0xBF];

fn for_text() -> [u8; SPACE]
    ensures { text_limit + 1 ≡ length result }
{
    [0u8; SPACE]
}

fn tell(number: usize, problem: Problem<'_>) -> fmt::Result {
    let mut errors = Errors;
    writeln!(errors, "{number}: {problem}")
}

fn write(output: &Output) -> fmt::Result {
    let mut errors = Errors;
    if io::write_all(STDOUT_FILENO, output.input()) {
        errors.write_bytes(output.map());
        Ok(())
    } else {
        writeln!(errors, "not all of the output could be written")
    }
}

fn assemble(text: &[u8]) -> fmt::Result {
    let mut progress = Progress::new();
    for (number, line) in (1..).zip(text.split_inclusive(|b| *b == b'\n')) {
        if let [b'\n' | b'#', ..] = line {
            continue;
        }
        let words = Words::new(line);
        if words.next.is_empty() {
            continue;
        }
        if let Err(problem) = progress.add_line(words, number) {
            return tell(number, problem);
        }
    }
    write(progress.output())
}

// How many lines end in a text.
fn ends_in(text: &[u8]) -> usize
    ensures { result ≤ length text.now }
{
    text.iter().filter(|b| **b == b'\n').count()
}

// The bytes of a text, or why it is refused.
fn turn(text: &[u8]) -> fmt::Result {
    if TEXT < text.len() {
        let ends = ends_in(&text[..TEXT]);
        return tell(1 + ends, Problem::TooMany(TEXT, "bytes of text"));
    }
    assemble(text.strip_prefix(&MARK).unwrap_or(text))
}

fn main() -> fmt::Result {
    let mut space = for_text();
    let n = io::read_full(STDIN_FILENO, &mut space);
    turn(&space[..n])
}

// Prints the notation of a rehearsal (docs/NOTATION.md): reads its bytes from standard input whole and writes the text
// that stands for them to standard output.
#![tactic(auto)]

mod fields;

ghost use Rattle.std.specs.Prelude.{◌≡◌, ◌+◌, ◌≤◌, IfSome, length};
ghost use Rattle.notation.specs.Kinds.{byte_of, record_size};
ghost use Rattle.notation.specs.Limits.{input_limit};

use fields::RecordFields;
use notation::{INPUT, Kind, LINE};
use prose::Out;
use std::fmt;
use std::fmt::Write;

const STDIN_FILENO: i32 = 0;

const STDERR_FILENO: i32 = 2;

// The longest input, and one byte further to tell a longer one.
const SPACE: usize = INPUT + 1;

fn for_input() -> [u8; SPACE]
    ensures { input_limit + 1 ≡ length result }
{
    [0u8; SPACE]
}

// A record on its line: a blank line stands before a plan, two spaces before a change of it, and a blank line after the
// playbook's end.
fn say_record(out: &mut Out, kind: Kind, record: &[u8]) -> fmt::Result {
    let before = match kind {
        Kind::Plan => "\n",
        Kind::Change => "  ",
        _ => "",
    };
    let after = if kind == Kind::End { "\n" } else { "" };
    writeln!(
        out,
        "{before}{}{}{after}",
        kind.name(),
        RecordFields { kind, record }
    )
}

// A hexadecimal digit.
fn digit(n: u8) -> u8 {
    if n < 10 { b'0' + n } else { b'A' + n % 16 % 10 }
}

// What is no record, in full lines but for the last. It may be long, and a format for each byte takes half as long again.
fn say_unnamed(out: &mut Out, s: &[u8]) {
    for line in s.chunks(LINE) {
        out.write_bytes(b"bytes");
        for byte in line {
            out.write_bytes(&[b' ', digit(byte / 16), digit(byte % 16)]);
        }
        out.write_bytes(b"\n");
    }
}

// The kind of the record at the front, which is whole.
fn whole(s: &[u8]) -> Option<Kind>
    ensures { IfSome result (λ kind. record_size (byte_of kind) ≤ length s.now) }
{
    let kind = Kind::try_from(*s.first()?).ok()?;
    if kind.size() <= s.len() {
        Some(kind)
    } else {
        None
    }
}

// Record after record, up to what is none.
fn say_records(out: &mut Out, s: &[u8]) -> fmt::Result {
    let mut rest = s;
    while let Some(kind) = whole(rest) {
        let (record, behind) = rest.split_at(kind.size());
        say_record(out, kind, record)?;
        rest = behind;
    }
    say_unnamed(out, rest);
    Ok(())
}

fn disassemble(out: &mut Out, input: &[u8]) -> fmt::Result {
    match input {
        [] => Ok(()),
        [controllers, records @ ..] => {
            writeln!(out, "controllers {controllers}")?;
            say_records(out, records)
        }
    }
}

fn main() -> fmt::Result {
    let mut out = Out::new();
    let mut space = for_input();
    let n = io::read_full(STDIN_FILENO, &mut space);
    let said = if n == SPACE {
        io::write_all(STDERR_FILENO, b"expected at most ");
        io::print_decimal(STDERR_FILENO, INPUT as u64);
        io::write_all(STDERR_FILENO, b" bytes\n");
        Ok(())
    } else {
        disassemble(&mut out, &space[..n])
    };
    out.end();
    said
}

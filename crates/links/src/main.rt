// Turns a text of links (docs/ISOLATION.md) into its bytes: reads standard input whole and writes the bytes to standard
// output, or a line on the first fault to standard error alone.
#![tactic(auto)]

mod fields;
mod network;
mod output;
mod parse;
mod records;
mod seen;
mod telling;
mod values;
mod words;

ghost use Rattle.std.specs.Prelude.{◌≡◌, ◌≤◌, length};

use network::Network;
use output::Output;
use prose::Errors;
use std::fmt;
use std::fmt::Write;
use telling::Problem;

const STDIN_FILENO: i32 = 0;

const STDOUT_FILENO: i32 = 1;

const TEXT: usize = 65536;

// The longest text, and one byte further to tell a longer one.
const SPACE: usize = TEXT + 1;

// The byte-order mark that some editors write in front of a text.
const MARK: [u8; 3] = [0xEF, 0xBB, 0xBF];

fn for_text() -> [u8; SPACE]
    ensures { 65537 ≡ length result }
{
    [0u8; SPACE]
}

fn tell(number: usize, problem: Problem<'_>) -> fmt::Result {
    let mut errors = Errors;
    writeln!(errors, "{number}: {problem}")
}

fn write(output: &Output) -> fmt::Result {
    let mut errors = Errors;
    if io::write_all(STDOUT_FILENO, output.bytes()) {
        Ok(())
    } else {
        writeln!(errors, "not all of the output could be written")
    }
}

// An empty text has one line, as an editor shows it.
fn assemble(text: &[u8]) -> fmt::Result {
    let mut network = Network::new();
    let mut last = 1;
    for (number, line) in (1..).zip(text.split_inclusive(|b| *b == b'\n')) {
        if let Err(problem) = network.add_line(line, number) {
            return tell(number, problem);
        }
        last = number;
    }
    match network.finished() {
        Ok(output) => write(&output),
        Err(problem) => tell(last, problem),
    }
}

// How many lines end in a text.
fn ends_in(text: &[u8]) -> usize
    ensures { result ≤ length text.now }
{
    text.iter().filter(|b| **b == b'\n').count()
}

// The bytes of a text, or why it is refused.
fn turn(text: &[u8]) -> fmt::Result {
    if TEXT < text.len() {
        let ends = ends_in(&text[..TEXT]);
        return tell(1 + ends, Problem::TooMany(TEXT, "bytes of text"));
    }
    assemble(text.strip_prefix(&MARK).unwrap_or(text))
}

fn main() -> fmt::Result {
    let mut space = for_text();
    let n = io::read_full(STDIN_FILENO, &mut space);
    turn(&space[..n])
}

// Explains a rehearsal: its playbook, each record in words beside document 01's line, the ends after the last one, and a
// verdict.
#![tactic(auto)]

mod changes;
mod decisions;
mod ends;
mod made;
mod plans;
mod ranges;
mod refusals;
mod shares;
mod standings;
mod untold;
mod verdict;

ghost use Rattle.std.specs.Prelude.{◌≡◌, ◌+◌, length};
ghost use Rattle.rehearsal.specs.Limits.{longest_input};

use prose::Out;
use rehearsal::{Deed, Told};
use std::fmt;
use std::fmt::Write;
use story::{Line, Words};
use verdict::Notes;

const STDIN_FILENO: i32 = 0;

// Room for the longest input and one byte further.
fn for_input() -> [u8; rehearsal::INPUT]
    ensures { longest_input + 1 ≡ length result }
{
    [0u8; rehearsal::INPUT]
}

// The number of controllers, and how many of them a change needs.
fn say_controllers(out: &mut Out, n: u8) -> fmt::Result {
    let word = if n == 1 { "controller" } else { "controllers" };
    let quorum = switch::quorum(n);
    writeln!(out, "{n} {word}; a change needs {quorum} of them\n")
}

// Document 01's line of the record at a place, from 0, and the record in words beside it.
fn say_deed(out: &mut Out, n: u8, place: u16, deed: &Deed) -> fmt::Result {
    let line = Line {
        ordinal: usize::from(place) + 1,
        answer: deed.answer,
        figure: deed.figure,
    };
    writeln!(out, "{line}  {}", Words { n, deed })
}

// One walk over the deeds tells each and notes what the verdict needs.
fn explain(out: &mut Out, told: &Told) -> fmt::Result {
    let world = &told.world;
    let deeds = told.deeds.get(..told.count).unwrap_or(&told.deeds);
    let mut notes = Notes::new();
    say_controllers(out, world.n)?;
    plans::say_plans(out, &world.controllers[0].playbook)?;
    writeln!(out)?;
    for (deed, place) in deeds.iter().zip(0u16..) {
        say_deed(out, world.n, place, deed)?;
        notes.note(deeds, place, deed);
    }
    ends::say_ends(out, world)?;
    verdict::say_verdict(out, deeds, world, &notes)
}

// A fault before the script, and where in the playbook it is.
fn say_fault(out: &mut Out, answer: u8, input: &[u8]) -> fmt::Result {
    let line = Line {
        ordinal: 0,
        answer,
        figure: 0,
    };
    let why = faults::Words {
        answer,
        input,
        room: rehearsal::INPUT,
    };
    let place = faults::PlaceWords { answer, input };
    writeln!(out, "{line}  before the script: refused, {why}{place}")
}

fn main() -> fmt::Result {
    let mut out = Out::new();
    let mut space = for_input();
    let n = io::read_full(STDIN_FILENO, &mut space);
    let input = &space[..n];
    let told = story::tell(input);
    let said = match told.answer {
        answer::DONE => explain(&mut out, &told),
        refusal => say_fault(&mut out, refusal, input),
    };
    out.end();
    said
}

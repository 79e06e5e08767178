// Which refusals occur in a rehearsal. An empty place and a controller with nothing ready are refused by one question;
// each has its own meaning, and its own line.
ghost use Rattle.std.specs.Prelude.{◌≤◌};

use crate::listed::Item;
use prose::Out;
use rehearsal::{Deed, Kind};
use std::fmt;
use std::fmt::Write;
use story::Meaning;

// No question has a number from 64 on.
const QUESTIONS: usize = 64;

// Which questions refused, apart from an empty place, and whether a place was empty.
#[derive(Clone, Copy)]
pub(crate) struct Refusals {
    met: [bool; QUESTIONS],
    empty: bool,
}

fn is_empty_place(deed: &Deed) -> bool {
    deed.answer == answer::NOTHING_TO_SEND && matches!(deed.item.kind, Kind::Deliver)
}

impl Refusals {
    pub(crate) fn among(deeds: &[Deed]) -> Refusals {
        let mut met = [false; QUESTIONS];
        for deed in deeds {
            if answer::REPEAT < deed.answer
                && !is_empty_place(deed)
                && let Some(met) = met.get_mut(deed.answer as usize)
            {
                *met = true;
            }
        }
        Refusals {
            met,
            empty: deeds.iter().any(is_empty_place),
        }
    }

    // How many there are.
    pub(crate) fn count(&self) -> usize
        ensures { result ≤ 65 }
    {
        self.met.iter().filter(|met| **met).count() + usize::from(self.empty)
    }

    // A line for each, by rising number.
    pub(crate) fn say(&self, out: &mut Out, x: u64) -> fmt::Result {
        for (met, answer) in self.met.iter().zip(0u8..) {
            if *met {
                say_refusal(out, Kind::Send, answer, x)?;
            }
            if self.empty && answer == answer::NOTHING_TO_SEND {
                say_refusal(out, Kind::Deliver, answer, x)?;
            }
        }
        Ok(())
    }
}

fn say_refusal(out: &mut Out, kind: Kind, answer: u8, x: u64) -> fmt::Result {
    let meaning = Meaning { kind, answer };
    let words = format_args!("<tspan class='bad'>{answer}</tspan> {meaning}");
    write!(out, "{}", Item { x, words })
}

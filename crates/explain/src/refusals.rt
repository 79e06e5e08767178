// What was refused: the usual refusals are counted, a repeat (2), a share that is too late (16) and nothing ready (26); of
// the others each record's ordinal is told, with its answer. That nothing is kept in a place (26 too) is not usual.
use crate::ranges::{Named, Number, either};
use arrayvec::ArrayVec;
use prose::Out;
use rehearsal::{DEEDS, Deed, Kind};
use std::fmt;
use std::fmt::Write;

// A refusal, by how usual it is.
#[derive(Clone, Copy)]
enum Refusal {
    Repeat,
    Late,
    Unready,
    Other,
}

// How a record was refused, if it was.
fn refusal_of(deed: &Deed) -> Option<Refusal> {
    let item = deed.item;
    match deed.answer {
        answer::DONE | answer::APPLIED => None,
        answer::REPEAT => Some(Refusal::Repeat),
        answer::NOT_ABOVE_APPLIED => Some(Refusal::Late),
        answer::NOTHING_TO_SEND if !matches!(item.kind, Kind::Deliver) => Some(Refusal::Unready),
        _ => Some(Refusal::Other),
    }
}

// The usual refusals, counted.
#[derive(Clone, Copy, Default)]
struct Usual {
    repeats: usize,
    late: usize,
    unready: usize,
}

impl fmt::Display for Usual {
    fn fmt<W: fmt::Write>(&self, f: &mut fmt::Formatter<W>) -> fmt::Result {
        let counts = [
            (
                self.repeats,
                either(self.repeats, "repeat (2)", "repeats (2)"),
            ),
            (self.late, "too late (16)"),
            (self.unready, "with nothing ready (26)"),
        ];
        let mut separator = "";
        for (count, words) in counts {
            if count != 0 {
                write!(f, "{separator}{count} {words}")?;
                separator = ", ";
            }
        }
        if separator.is_empty() {
            f.write_str("none")?;
        }
        Ok(())
    }
}

/// What was refused: the usual refusals, and the ordinals of the others, marked with their answers.
#[derive(Drop)]
pub(crate) struct Refusals {
    usual: Usual,
    others: ArrayVec<Number, DEEDS>,
}

impl Refusals {
    pub(crate) fn new() -> Refusals {
        Refusals {
            usual: Usual::default(),
            others: ArrayVec::new(),
        }
    }

    /// The same after a record with an ordinal.
    pub(crate) fn note(&mut self, ordinal: u32, deed: &Deed) {
        match refusal_of(deed) {
            None => {}
            Some(Refusal::Repeat) => self.usual.repeats = self.usual.repeats.saturating_add(1),
            Some(Refusal::Late) => self.usual.late = self.usual.late.saturating_add(1),
            Some(Refusal::Unready) => self.usual.unready = self.usual.unready.saturating_add(1),
            Some(Refusal::Other) => {
                let mark = Some(deed.answer);
                let _ = self.others.try_push(Number {
                    value: ordinal,
                    mark,
                });
            }
        }
    }
}

pub(crate) fn say_refusals(out: &mut Out, refusals: &Refusals) -> fmt::Result {
    writeln!(out, "  usual refusals: {}", refusals.usual)?;
    if refusals.others.is_empty() {
        return writeln!(out, "  other refusals: none");
    }
    let records = Named {
        one: "record",
        many: "records",
        numbers: refusals.others.as_slice(),
    };
    writeln!(out, "  other refusals: {records}")
}

// The decisions that each controller took, and which of them are agreed. A controller's decisions are the switch, serial
// and cause of its records `decide` with answer 0, in order. Agreed is the list of which the most controllers' lists are
// a beginning; of several such the longest; of several such that of the lowest controller.
use answer::limits;
use arrayvec::ArrayVec;
use rehearsal::{Deed, Kind};
use std::fmt;

/// A list has at most 1,024 decisions: a record `decide` has eight of a script's 8,192 bytes.
pub(crate) const LONGEST: usize = 1024;

/// A decision, as event 1 of switch 5, cause 2.
#[derive(Clone, Copy, PartialEq, Eq, Default)]
pub(crate) struct Decision {
    pub(crate) switch: u8,
    pub(crate) serial: u32,
    pub(crate) cause: u8,
}

impl fmt::Display for Decision {
    fn fmt<W: fmt::Write>(&self, f: &mut fmt::Formatter<W>) -> fmt::Result {
        write!(
            f,
            "event {} of switch {}, cause {}",
            self.serial, self.switch, self.cause
        )
    }
}

// The decision that a record is, if one was taken.
fn decision_of(deed: &Deed) -> Option<Decision> {
    let item = deed.item;
    let is_taken = matches!(item.kind, Kind::Decide) && deed.answer == answer::DONE;
    is_taken.then_some(Decision {
        switch: deed.switch,
        serial: item.serial,
        cause: item.cause,
    })
}

// A decision, and the controller that took it.
#[derive(Clone, Copy, Default)]
struct Taken {
    controller: u8,
    decision: Decision,
}

/// The decisions that were taken, in the order of the records.
#[derive(Drop)]
pub(crate) struct Decisions {
    taken: ArrayVec<Taken, LONGEST>,
}

impl Decisions {
    pub(crate) fn new() -> Decisions {
        Decisions {
            taken: ArrayVec::new(),
        }
    }

    /// These after a record.
    pub(crate) fn note(&mut self, deed: &Deed) {
        if let Some(decision) = decision_of(deed) {
            let controller = deed.controller;
            let _ = self.taken.try_push(Taken {
                controller,
                decision,
            });
        }
    }
}

/// The decisions of each controller, one list behind another, and where each of them ends.
#[derive(Drop)]
pub(crate) struct Lists {
    decisions: ArrayVec<Decision, LONGEST>,
    ends: [usize; limits::OF_CONTROLLERS],
}

impl Lists {
    pub(crate) fn of_all(all: &Decisions) -> Lists {
        let mut decisions = ArrayVec::new();
        let mut ends = [0; limits::OF_CONTROLLERS];
        for (controller, end) in ends.iter_mut().enumerate() {
            for taken in all.taken.as_slice() {
                if usize::from(taken.controller) == controller {
                    let _ = decisions.try_push(taken.decision);
                }
            }
            *end = decisions.len();
        }
        Lists { decisions, ends }
    }

    // Where the list of a controller ends, and that of the next one begins.
    fn end_of(&self, controller: usize) -> usize {
        self.ends.get(controller).copied().unwrap_or(0)
    }

    /// The decisions of a controller.
    pub(crate) fn of(&self, controller: u8) -> &[Decision] {
        let controller = usize::from(controller);
        let begin = match controller.checked_sub(1) {
            None => 0,
            Some(before) => self.end_of(before),
        };
        self.decisions
            .as_slice()
            .get(begin..self.end_of(controller))
            .unwrap_or(&[])
    }

    /// The place, from 0, at which a controller's list first differs from another's; none if it is a beginning of that.
    pub(crate) fn first_difference(&self, controller: u8, other: u8) -> Option<usize> {
        let mut others = self.of(other).iter();
        self.of(controller)
            .iter()
            .position(|decision| others.next() != Some(decision))
    }

    // How many of n controllers' lists are a beginning of a controller's.
    fn beginnings_of(&self, n: u8, controller: u8) -> usize {
        (0..n)
            .filter(|other| self.first_difference(*other, controller).is_none())
            .count()
    }

    /// The controller, of n, whose list is the agreed one. Of equal ones `max_by_key` gives the last, here the lowest.
    pub(crate) fn agreed_by(&self, n: u8) -> u8 {
        (0..n)
            .rev()
            .max_by_key(|c| (self.beginnings_of(n, *c), self.of(*c).len()))
            .unwrap_or(0)
    }
}

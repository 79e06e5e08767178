// The agreed changes: those that the playbook plans for the agreed decisions, numbered from 1 in order. One is made if
// some record was answered 1 with its number, switch and rule.
use crate::decisions::{Decision, LONGEST};
use crate::plans::changes_of;
use arrayvec::ArrayVec;
use flow::Rule;
use playbook::{Change, Playbook, limits};
use rehearsal::{DEEDS, Deed};
use std::fmt;
use story::ChangeWords;

// No more changes are agreed: those of the longest list.
const MOST: usize = LONGEST * limits::CHANGES_OF_PLAN;

/// A numbered change of a rule on a switch.
#[derive(Clone, Copy)]
pub(crate) struct Numbered {
    number: u32,
    switch: u8,
    rule: Rule,
}

impl Numbered {
    /// The change that a record is about.
    pub(crate) fn of(deed: &Deed) -> Numbered {
        let slot = deed.wish.slot;
        Numbered {
            number: slot.number,
            switch: deed.switch,
            rule: slot.rule,
        }
    }

    pub(crate) fn is_same(self, other: Numbered) -> bool {
        self.number == other.number
            && self.switch == other.switch
            && flow::same_rule(self.rule, other.rule)
    }
}

impl fmt::Display for Numbered {
    fn fmt<W: fmt::Write>(&self, f: &mut fmt::Formatter<W>) -> fmt::Result {
        let change = ChangeWords {
            number: self.number,
            rule: self.rule,
        };
        write!(f, "{change}, on switch {}", self.switch)
    }
}

/// The places, from 0, of the records that were answered 1.
#[derive(Drop)]
pub(crate) struct Applied {
    places: ArrayVec<u16, DEEDS>,
}

impl Applied {
    pub(crate) fn new() -> Applied {
        Applied {
            places: ArrayVec::new(),
        }
    }

    /// These after the record at a place.
    pub(crate) fn note(&mut self, place: u16, deed: &Deed) {
        if deed.answer == answer::APPLIED {
            let _ = self.places.try_push(place);
        }
    }

    pub(crate) fn places(&self) -> &[u16] {
        self.places.as_slice()
    }
}

/// A record that was answered 1, and the change that it made.
#[derive(Clone, Copy)]
pub(crate) struct Making {
    pub(crate) ordinal: u32,
    pub(crate) change: Numbered,
}

impl Making {
    /// That of the record at a place.
    pub(crate) fn at(deeds: &[Deed], place: u16) -> Option<Making> {
        let deed = deeds.get(usize::from(place))?;
        Some(Making {
            ordinal: u32::from(place) + 1,
            change: Numbered::of(deed),
        })
    }
}

// The changes that a playbook plans for a decision.
fn planned_for(book: &Playbook, decision: Decision) -> &[Change] {
    book.plans
        .iter()
        .take(book.planned)
        .find(|plan| plan.switch == decision.switch && plan.cause == decision.cause)
        .map_or(&[], |plan| changes_of(book, plan))
}

// The place, from 0, of the change with a number.
fn place_of(number: u32) -> Option<usize> {
    (number as usize).checked_sub(1)
}

// The changes of an agreed decision, behind so many of the decisions before it.
#[derive(Clone, Copy)]
struct Planned<'a> {
    before: usize,
    changes: &'a [Change],
}

impl Default for Planned<'_> {
    fn default() -> Self {
        Planned {
            before: 0,
            changes: &[],
        }
    }
}

/// The agreed changes, decision by decision, and which of them are made.
#[derive(Drop)]
pub(crate) struct AgreedChanges<'a> {
    planned: ArrayVec<Planned<'a>, LONGEST>,
    made: [bool; MOST],
    total: usize,
}

impl<'a> AgreedChanges<'a> {
    /// The changes that a playbook plans for decisions, none of them made yet.
    pub(crate) fn new(book: &'a Playbook, decisions: &[Decision]) -> AgreedChanges<'a> {
        let mut agreed = AgreedChanges {
            planned: ArrayVec::new(),
            made: [false; MOST],
            total: 0,
        };
        for decision in decisions {
            agreed.plan(planned_for(book, *decision));
        }
        agreed
    }

    // The changes of one decision more.
    fn plan(&mut self, changes: &'a [Change]) {
        let before = self.total;
        let _ = self.planned.try_push(Planned { before, changes });
        self.total = before.saturating_add(changes.len());
    }

    /// A change was made, which may be an agreed one.
    pub(crate) fn mark(&mut self, change: Numbered) {
        if !self.has(change) {
            return;
        }
        if let Some(made) = self.made.get_mut(place_of(change.number).unwrap_or(MOST)) {
            *made = true;
        }
    }

    /// The change with a number.
    pub(crate) fn get(&self, number: u32) -> Option<Numbered> {
        let all = self.planned.as_slice();
        let place = place_of(number)?;
        let upto = all.partition_point(|planned| planned.before <= place);
        let planned = all.get(upto.checked_sub(1)?)?;
        let change = planned.changes.get(place.checked_sub(planned.before)?)?;
        Some(Numbered {
            number,
            switch: change.switch,
            rule: change.rule,
        })
    }

    /// Whether a change is agreed.
    pub(crate) fn has(&self, change: Numbered) -> bool {
        self.get(change.number)
            .is_some_and(|agreed| agreed.is_same(change))
    }

    /// Whether each of them is made, in order.
    pub(crate) fn are_made(&self) -> &[bool] {
        self.made.get(..self.total).unwrap_or(&self.made)
    }
}

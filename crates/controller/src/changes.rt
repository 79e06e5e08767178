// Undone changes: empty places, what is done, and the changes held.
ghost use Rattle.std.specs.Prelude.{◌≡◌, [], ◌+◌, ◌<◌, ◌^◌};
ghost use Rattle.controller.specs.Changes.{undone_empty, undone_in, is_undone, still_undone, held_of};
ghost use Rattle.controller.specs.Moving.{with_change};

use crate::{Held, Undone, limits};
use flow::{Action, Rule};

impl Undone {
    pub(crate) const EMPTY: Undone = Undone {
        number: 0,
        first: 0,
        flow: 0,
        switch: 0,
        rule: Rule {
            prefix: 0,
            length: 0,
            action: Action::Remove,
        },
    };

    pub(crate) fn is_empty(&self) -> bool
        ensures { result ≡ undone_empty self.now }
    {
        self.number == 0
            && self.first == 0
            && self.flow == 0
            && self.switch == 0
            && flow::rule_empty(self.rule)
    }

    // Whether its number is above the acknowledged one of its switch; an unknown switch has acknowledged nothing.
    pub(crate) fn is_undone(&self, acknowledged: &[u32]) -> bool
        ensures { result ≡ is_undone acknowledged.now self.now }
    {
        acknowledged.get(self.switch as usize).copied().unwrap_or(0) < self.number
    }
}

impl Held {
    pub(crate) fn none() -> Held
        ensures { result ≡ held_of [] }
    {
        Held {
            changes: [Undone::EMPTY; limits::UNDONE],
            count: 0,
        }
    }

    // The changes in use: as many as are counted, where there are places for them.
    pub(crate) fn in_use(&self) -> &[Undone]
        ensures { result.now ≡ undone_in self.now }
    {
        &self.changes[..self.count.min(limits::UNDONE)]
    }

    // One more is counted, and kept where there is a place for it.
    pub(crate) fn push(&mut self, u: Undone)
        requires { self.old.count + 1 < 2 ^ 64 }
        ensures { self.new ≡ with_change self.old u }
    {
        if self.count < limits::UNDONE {
            self.changes[self.count] = u;
        }
        self.count += 1;
    }

    // The changes that are not done by these acknowledged numbers, moved together.
    pub(crate) fn still_undone(&self, acknowledged: &[u32]) -> Held
        ensures { result ≡ held_of (still_undone acknowledged.now (undone_in self.now)) }
    {
        let mut left = Held::none();
        let changes = self.in_use();
        for u in changes {
            if u.is_undone(acknowledged) {
                left.push(*u);
            }
        }
        left
    }
}

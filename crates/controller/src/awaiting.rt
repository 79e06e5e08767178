// Why nothing is ready for a switch: the change that waits, and the one that it waits for.
ghost use Rattle.std.specs.Prelude.{◌≡◌, ◌≤◌, length};
ghost use Rattle.answer.specs.Limits.{most_undone};
ghost use Rattle.controller.specs.Awaiting.{first_on, first_awaited};
ghost use Rattle.controller.specs.Changes.{undone_in};
ghost use Rattle.controller.specs.Readiness.{waits_for};

use crate::{Held, Undone};

// How many undone changes there are: as many as are counted, where there are places for them.
pub fn undone_in(h: Held) -> usize
    ensures { (result ≡ length (undone_in h)) × (result ≤ most_undone) }
{
    h.in_use().len()
}

impl Undone {
    // Whether it has to wait for another change.
    fn waits_for(&self, other: &Undone) -> bool
        ensures { result ≡ waits_for self.now other.now }
    {
        other.number < self.number && (other.switch == self.switch || self.is_tied(other))
    }
}

// The first undone change on a switch, or an empty one.
// Stays: an empty change and no Option, here and below, since its one caller says number 0 where there is none.
pub fn first_on(h: Held, switch: u8) -> Undone
    ensures { result ≡ first_on switch (undone_in h) }
{
    let first = h.in_use().iter().find(|u| u.switch == switch);
    first.copied().unwrap_or(Undone::EMPTY)
}

// The first undone change that a change waits for, or an empty one.
pub fn first_awaited(h: Held, u: Undone) -> Undone
    ensures { result ≡ first_awaited u (undone_in h) }
{
    let first = h.in_use().iter().find(|v| u.waits_for(v));
    first.copied().unwrap_or(Undone::EMPTY)
}

// All sets of changes that an order of arrival can make, for one address: by rising number each change is left out, where
// that makes a difference, and made, where it may be.
ghost use Rattle.std.specs.Prelude.{◌≡◌, false, ◌&&◌, ◌+◌, ◌-◌, ◌≤◌, ◌<◌, length, take, get_or, ltb};
ghost use Rattle.lists.specs.Arrays.{pad};
ghost use Rattle.isolation.specs.Check as checks;
ghost use Rattle.isolation.specs.Check.{covering, wanted_after};
ghost use Rattle.checker.specs.Layout.{most_changes, no_change, changes_in, covers_address};
ghost use Rattle.checker.specs.Layout.{network_for, traffic_of};
ghost use Rattle.checker.specs.Marks.{made_in};
ghost use Rattle.checker.specs.Verdicts.{end_of, wanted_by, blamed};
ghost use Rattle.checker.specs.Checked.{marks_of, outcome_of};

use crate::changes::skips_none;
use crate::ways::follow;
use crate::{AgreedChange, Aim, Ending, FailingPacket, PortLink, Quest, Refusal, limits};

// The marks of the first changes alone.
fn first_marks(marks: &[bool; limits::CHANGES], count: usize) -> [bool; limits::CHANGES]
    requires { count ≤ most_changes }
    ensures { result ≡ pad most_changes false (take count marks.now) }
{
    let mut out = [false; limits::CHANGES];
    out[..count].copy_from_slice(&marks[..count]);
    out
}

impl Quest {
    // Whether a way ends as it is wanted to.
    fn is_wanted(&self, ending: Ending) -> bool
        ensures { result ≡ wanted_by self.now.aim (traffic_of self.now) (end_of ending) }
    {
        match (self.aim, ending) {
            (_, Ending::Arrived | Ending::Circling) => true,
            (Aim::Losing, Ending::Lost(switch)) => switch == self.line.entry,
            (Aim::Losing, Ending::Crossed(_, _)) => true,
            (_, Ending::Lost(_)) => true,
            (_, Ending::Crossed(_, _)) => false,
        }
    }

    // A packet of this line fails, once the marked ones of the first changes are made.
    pub(crate) fn failing(
        &self,
        address: u64,
        marks: &[bool; limits::CHANGES],
        count: usize,
    ) -> Result<u64, Refusal>
        requires { count ≤ most_changes }
        ensures { result ≡ outcome_of (checks.fails (blamed self.now address (made_in marks.now count))) }
    {
        Err(Refusal::Fails(FailingPacket {
            line: self.line,
            address,
            made: first_marks(marks, count),
        }))
    }
}

// The packets of a client to an address, once the marked changes are made. That costs one.
fn tested(
    changes: &[AgreedChange],
    links: &[PortLink],
    marks: &[bool; limits::CHANGES],
    q: Quest,
    address: u64,
    budget: u64,
) -> Result<u64, Refusal>
    requires { length changes.now ≤ most_changes }
    ensures { result
        ≡ outcome_of (checks.tested (wanted_after (changes_in changes.now) (wanted_by q.aim) q.settled
        (network_for links.now) (traffic_of q)
        (covering (changes_in changes.now) address) (made_in marks.now (length changes.now)))
        (blamed q address (made_in marks.now (length changes.now))) budget) }
{
    if budget == 0 {
        return Err(Refusal::Undecided);
    }
    let ending = follow(changes, links, marks, q.line, address);
    if q.is_wanted(ending) {
        Ok(budget - 1)
    } else {
        q.failing(address, marks, changes.len())
    }
}

// Whether the change at place k may stay unmade: it covers the address, and is not one of those known to be made.
fn may_wait(changes: &[AgreedChange], q: Quest, address: u64, k: usize) -> bool
    requires { (k < length changes.now) × (length changes.now ≤ most_changes) }
    ensures { result
        ≡ covers_address (get_or changes.now k no_change) address && ltb q.settled (k + 1) }
{
    changes[k].is_covering(address) && q.settled < k + 1
}

// The changes from place k on; the marked ones before it are made.
pub(crate) fn explore(
    changes: &[AgreedChange],
    links: &[PortLink],
    marks: [bool; limits::CHANGES],
    q: Quest,
    address: u64,
    k: usize,
    budget: u64,
) -> Result<u64, Refusal>
    requires { (k ≤ length changes.now) × (length changes.now ≤ most_changes) }
    ensures { result
        ≡ outcome_of (checks.explore (changes_in changes.now)
        (covering (changes_in changes.now) address)
        (wanted_after (changes_in changes.now) (wanted_by q.aim) q.settled
        (network_for links.now) (traffic_of q)
        (covering (changes_in changes.now) address))
        (blamed q address) q.settled (length changes.now - k) (k + 1) (made_in marks k) budget) }
{
    if changes.len() <= k {
        return tested(changes, links, &marks, q, address, budget);
    }
    let mut without = marks;
    without[k] = false;
    if !skips_none(changes, &marks, k) {
        return explore(changes, links, without, q, address, k + 1, budget);
    }
    let mut left = budget;
    if may_wait(changes, q, address, k) {
        left = explore(changes, links, without, q, address, k + 1, budget)?;
    }
    let mut with = marks;
    with[k] = true;
    explore(changes, links, with, q, address, k + 1, left)
}

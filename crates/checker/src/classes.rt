// One address of each class: where the client's prefix and the prefixes of changes begin and end. Each is asked about, and
// one that comes again later in their list is asked about there.
ghost use Rattle.std.specs.Prelude.{◌≡◌, not, ◌&&◌, ◌+◌, ◌*◌, ◌≤◌, length, get_or, drop};
ghost use Rattle.lists.specs.Kinds.{is_among};
ghost use Rattle.flow.specs.Lookups as lookups;
ghost use Rattle.isolation.specs.Check.{in_turn, addresses};
ghost use Rattle.checker.specs.Layout.{most_changes, changes_in, network_for, traffic_of, bounds_for};
ghost use Rattle.checker.specs.Verdicts.{aimed_at};
ghost use Rattle.checker.specs.Checked.{outcome_of};

use crate::exploring::explore;
use crate::flights::fly;
use crate::{AgreedChange, Aim, PortLink, Quest, Refusal, limits};

// A bound by its place: first where the client's prefix begins, then where the prefix of each change begins and ends.
fn bound_at(changes: &[AgreedChange], q: Quest, i: usize) -> u64
    requires { i ≤ 2 * length changes.now }
    ensures { result ≡ get_or (bounds_for changes.now q) i 0 }
{
    if i == 0 {
        return q.line.prefix as u64;
    }
    let change = changes[(i - 1) / 2];
    if i % 2 == 1 {
        change.begins()
    } else {
        change.ends()
    }
}

// Whether an address is among the bounds from a place on.
fn comes_again(changes: &[AgreedChange], q: Quest, address: u64, from: usize) -> bool
    requires { length changes.now ≤ most_changes }
    ensures { result ≡ is_among address (drop from (bounds_for changes.now q)) }
{
    for i in from..2 * changes.len() + 1 {
        if bound_at(changes, q, i) == address {
            return true;
        }
    }
    false
}

// Whether the bound at a place is asked about: the client's prefix covers it, and it does not come again.
fn is_asked(changes: &[AgreedChange], q: Quest, i: usize, address: u64) -> bool
    requires { (i ≤ 2 * length changes.now) × (length changes.now ≤ most_changes) }
    ensures { result
        ≡ lookups.covers (q.line.prefix, q.line.length) address
        && not (is_among address (drop (i + 1) (bounds_for changes.now q))) }
{
    q.line.is_covering(address) && !comes_again(changes, q, address, i + 1)
}

// What is asked of the packets to one address.
fn ask(
    changes: &[AgreedChange],
    links: &[PortLink],
    q: Quest,
    address: u64,
    budget: u64,
) -> Result<u64, Refusal>
    requires { length changes.now ≤ most_changes }
    ensures { result
        ≡ outcome_of (aimed_at q.aim (changes_in changes.now) q.settled (network_for links.now)
        (traffic_of q) address budget) }
{
    match q.aim {
        Aim::Resting | Aim::Losing => {
            let none = [false; limits::CHANGES];
            explore(changes, links, none, q, address, 0, budget)
        }
        Aim::Moving => fly(changes, links, q, address, budget),
    }
}

// What is asked of the packets of one line of traffic to every address.
pub(crate) fn ask_all(
    changes: &[AgreedChange],
    links: &[PortLink],
    q: Quest,
    budget: u64,
) -> Result<u64, Refusal>
    requires { length changes.now ≤ most_changes }
    ensures { result
        ≡ outcome_of (in_turn (λ address b. aimed_at q.aim (changes_in changes.now) q.settled
        (network_for links.now) (traffic_of q) address b)
        (addresses (changes_in changes.now) (traffic_of q)) budget) }
{
    let mut left = budget;
    for i in 0..2 * changes.len() + 1 {
        let address = bound_at(changes, q, i);
        if is_asked(changes, q, i, address) {
            left = ask(changes, links, q, address, left)?;
        }
    }
    Ok(left)
}

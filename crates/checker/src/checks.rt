// The check of a network and an evening's agreed changes.
ghost use Rattle.std.specs.Prelude.{◌≡◌, false, ◌≤◌, length, take};
ghost use Rattle.lists.specs.Arrays.{every};
ghost use Rattle.isolation.specs.Networks.{traffic_ok};
ghost use Rattle.checker.specs.Layout.{most_changes, changes_in, traffic_from, traffic_in, network_in};
ghost use Rattle.checker.specs.Checked.{aimed, outcome_of, is_network, checked_of};

use crate::classes::ask_all;
use crate::{AgreedChange, Aim, Line, PortLink, Quest, Refusal, limits};

impl Line {
    // Whether it comes in at a switch of the domain, and its prefix is well formed.
    fn is_formed(&self) -> bool
        ensures { result ≡ traffic_ok (traffic_from self.now) }
    {
        self.entry < limits::SWITCHES
            && self.length <= 32
            && flow::prefix_ok(self.prefix, self.length as u8)
    }
}

// Whether all lines of traffic are so.
fn are_formed(traffic: &[Line]) -> bool
    ensures { result ≡ every traffic_ok (traffic_in traffic.now) }
{
    for line in traffic {
        if !line.is_formed() {
            return false;
        }
    }
    true
}

// Whether there is room for all, and they are a network.
fn is_network(changes: &[AgreedChange], links: &[PortLink], traffic: &[Line]) -> bool
    ensures { result ≡ is_network changes.now links.now traffic.now }
{
    changes.len() <= limits::CHANGES
        && links.len() <= limits::LINKS
        && traffic.len() <= limits::LINES
        && are_formed(traffic)
}

// What is asked of each line of traffic, where the changes up to a number are known to be made.
fn each_line(
    aim: Aim,
    settled: usize,
    budget: u64,
    changes: &[AgreedChange],
    links: &[PortLink],
    traffic: &[Line],
) -> Result<u64, Refusal>
    requires { length changes.now ≤ most_changes }
    ensures { result
        ≡ outcome_of (aimed aim (changes_in changes.now) settled (network_in links.now traffic.now)
        budget) }
{
    let mut left = budget;
    for line in traffic {
        let line = *line;
        left = ask_all(changes, links, Quest { aim, settled, line }, left)?;
    }
    Ok(left)
}

// The check of changes, links and lines of traffic, where the changes up to a number are known to be made: what is left of
// the budget where all is fine.
pub fn check(
    aim: Aim,
    settled: usize,
    budget: u64,
    changes: &[AgreedChange],
    links: &[PortLink],
    traffic: &[Line],
) -> Result<u64, Refusal>
    ensures { result ≡ checked_of aim settled budget changes.now links.now traffic.now }
{
    if !is_network(changes, links, traffic) {
        return Err(Refusal::NoNetwork);
    }
    each_line(aim, settled, budget, changes, links, traffic)
}

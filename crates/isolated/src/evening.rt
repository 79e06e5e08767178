// A packet's way over the tables of an evening, and fewest changes with which it still crosses.
ghost use Rattle.std.specs.Prelude.{◌≤◌, ◌<◌};

use answer::limits::OF_SWITCHES;
use checker::limits::CHANGES;
use checker::{AgreedChange, Line, Onward, PortLink};

// Whether a packet of a line of traffic to an address crosses, the marked changes made.
fn crosses(
    changes: &[AgreedChange],
    links: &[PortLink],
    made: &[bool; CHANGES],
    line: Line,
    address: u64,
) -> bool {
    let mut switch = line.entry;
    for _hop in 0..OF_SWITCHES {
        let Some(port) = checker::port_at(changes, made, switch, address) else {
            return false;
        };
        match checker::over_port(links, line.client, switch, port) {
            Onward::Foreign => return true,
            Onward::Leaves => return false,
            Onward::GoesTo(next) => switch = next,
        }
    }
    false
}

// Whether the change at a place is marked and waits for none before it that is not.
fn is_kept(changes: &[AgreedChange], made: &[bool; CHANGES], k: usize) -> bool
    requires { k < 256 }
{
    made[k] && !(0..k).any(|j| !made[j] && checker::awaits(changes, k, j))
}

// The marked changes without the one at a place and those that wait for it.
fn without(changes: &[AgreedChange], made: &[bool; CHANGES], k: usize) -> [bool; CHANGES]
    requires { k < 256 }
{
    let mut out = *made;
    out[k] = false;
    for j in k + 1..CHANGES {
        out[j] = is_kept(changes, &out, j);
    }
    out
}

// Fewer changes with which the packet still crosses: none above the settled number can be left out, with what waits for
// it.
pub(crate) fn fewest(
    changes: &[AgreedChange],
    links: &[PortLink],
    settled: usize,
    made: &[bool; CHANGES],
    line: Line,
    address: u64,
) -> [bool; CHANGES] {
    let mut out = *made;
    for k in (settled..CHANGES).rev() {
        if out[k] {
            let less = without(changes, &out, k);
            if crosses(changes, links, &less, line, address) {
                out = less;
            }
        }
    }
    out
}

// The way of a packet: what a switch finds for its address once some changes are made, and what a port does with it.
ghost use Rattle.std.specs.Prelude.{◌≡◌, ℕ, ◌≤◌, length, get_or};
ghost use Rattle.answer.specs.Limits.{switch_count};
ghost use Rattle.isolation.specs.Traces as traces;
ghost use Rattle.isolation.specs.Check.{longest_to, covering, finds_after};
ghost use Rattle.checker.specs.Layout.{most_changes, first_changes, changes_in, links_in};
ghost use Rattle.checker.specs.Layout.{behind_link, found_of, capped};
ghost use Rattle.checker.specs.Marks.{made_in, ports_in};
ghost use Rattle.checker.specs.Verdicts.{step_of, end_of};

use crate::{AgreedChange, Ending, Line, Onward, PortLink, limits};

// The port of each length that covers an address at a switch, 0 for none, once the marked ones of the first changes are
// made.
fn ports_of(
    changes: &[AgreedChange],
    marks: &[bool; limits::CHANGES],
    upto: usize,
    switch: u32,
    address: u64,
) -> [u32; limits::LENGTHS]
    requires { (upto ≤ length changes.now) × (upto ≤ most_changes) }
    ensures { result ≡ ports_in changes.now marks.now switch address upto }
{
    let mut ports = [0u32; limits::LENGTHS];
    for i in 0..upto {
        let change = changes[i];
        if marks[i] && change.is_at(switch, address) && change.length <= 32 {
            ports[change.length as usize] = change.port;
        }
    }
    ports
}

// The port of the greatest length that has one.
fn longest(ports: &[u32; limits::LENGTHS]) -> Option<u32>
    ensures { result ≡ longest_to 32 (λ l. found_of (get_or ports.now l 0)) }
{
    for l in (0..limits::LENGTHS).rev() {
        if ports[l] != 0 {
            return Some(ports[l]);
        }
    }
    None
}

// The port that a switch finds for an address once the marked ones of the first changes are made.
pub(crate) fn finds(
    changes: &[AgreedChange],
    marks: &[bool; limits::CHANGES],
    upto: usize,
    switch: u32,
    address: u64,
) -> Option<u32>
    requires { (upto ≤ length changes.now) × (upto ≤ most_changes) }
    ensures { result
        ≡ finds_after (first_changes changes.now upto)
        (covering (first_changes changes.now upto) address) (made_in marks.now upto) switch }
{
    longest(&ports_of(changes, marks, upto, switch, address))
}

impl PortLink {
    // What it does with a client's packet: 0 owns what every client may use, and no switch past the last one lies behind.
    fn behind(&self, client: u32) -> Onward
        ensures { step_of result ≡ behind_link self.now client }
    {
        if self.owner != 0 && self.owner != client {
            Onward::Foreign
        } else if self.far < limits::SWITCHES {
            Onward::GoesTo(self.far)
        } else {
            Onward::Leaves
        }
    }
}

// What a port of a switch does with a client's packet: the first link listed for it counts.
pub fn over_port(links: &[PortLink], client: u32, switch: u32, port: u32) -> Onward
    ensures { step_of result ≡ traces.over client (links_in links.now) switch port }
{
    for link in links {
        if link.switch == switch && link.port == port {
            return link.behind(client);
        }
    }
    Onward::Foreign
}

// The way of a packet of a line of traffic to an address once the marked changes are made.
pub(crate) fn follow(
    changes: &[AgreedChange],
    links: &[PortLink],
    marks: &[bool; limits::CHANGES],
    line: Line,
    address: u64,
) -> Ending
    requires { length changes.now ≤ most_changes }
    ensures { end_of result
        ≡ traces.follow line.client (links_in links.now)
        (λ (s : ℕ). finds_after (changes_in changes.now)
        (covering (changes_in changes.now) address)
        (made_in marks.now (length changes.now)) s) switch_count line.entry }
{
    let mut switch = line.entry;
    for _hop in 0..limits::HOPS {
        let Some(port) = finds(changes, marks, changes.len(), switch, address) else {
            return Ending::Lost(switch);
        };
        match over_port(links, line.client, switch, port) {
            Onward::Foreign => return Ending::Crossed(switch, port),
            Onward::Leaves => return Ending::Arrived,
            Onward::GoesTo(next) => switch = next,
        }
    }
    Ending::Circling
}

// The port that a switch finds for an address once the marked ones of the changes are made; changes past the places for
// marks are not made.
pub fn port_at(
    changes: &[AgreedChange],
    made: &[bool; limits::CHANGES],
    switch: u32,
    address: u64,
) -> Option<u32>
    ensures { result
        ≡ finds_after (first_changes changes.now (capped (length changes.now)))
        (covering (first_changes changes.now (capped (length changes.now))) address)
        (made_in made.now (capped (length changes.now))) switch }
{
    finds(
        changes,
        made,
        changes.len().min(limits::CHANGES),
        switch,
        address,
    )
}

// The check that no order of arrival takes a packet off its client's links (crate isolation, specs/Check.antt and
// specs/Flights.antt), over changes, links and lines of traffic that the caller lends, and the agreed changes of a playbook
// and decisions laid out for it. Every public function takes every input.
#![tactic(auto)]

mod agreeing;
mod changes;
mod checks;
mod classes;
mod exploring;
mod flights;
pub mod limits;
mod ways;

pub use agreeing::agree;
pub use changes::awaits;
pub use checks::check;
pub use ways::{over_port, port_at};

// What is asked of every packet: that it keeps to its client's links, the tables standing still; that it is not lost past
// its first switch; that it keeps to its client's links though tables change while it is under way.
#[derive(Clone, Copy)]
pub enum Aim {
    Resting,
    Losing,
    Moving,
}

// An agreed change: the number of its decision's first change, its flow, its switch, and the rule that it sets there: a
// prefix, its length and a port. Port 0 removes.
#[derive(Clone, Copy)]
pub struct AgreedChange {
    pub first: u32,
    pub flow: u32,
    pub switch: u32,
    pub prefix: u32,
    pub length: u32,
    pub port: u32,
}

// The link at a port of a switch: the switch behind it, where there is one of that number, and the client that it belongs
// to, 0 for every client.
#[derive(Clone, Copy)]
pub struct PortLink {
    pub switch: u32,
    pub port: u32,
    pub far: u32,
    pub owner: u32,
}

// A line of traffic: a client, the prefix and length that its packets go to, and the switch at which they come in.
#[derive(Clone, Copy)]
pub struct Line {
    pub client: u32,
    pub prefix: u32,
    pub length: u32,
    pub entry: u32,
}

// A packet that fails: its line of traffic, the address that it goes to, and the changes made by then.
#[derive(Clone, Copy)]
pub struct FailingPacket {
    pub line: Line,
    pub address: u64,
    pub made: [bool; limits::CHANGES],
}

// Why the check does not say that all is fine: a packet fails, the budget was too small, or what was lent is no network.
#[derive(Clone, Copy)]
pub enum Refusal {
    Fails(FailingPacket),
    Undecided,
    NoNetwork,
}

// The agreed changes laid out: the first `count` are in use. More than there is room for are counted, and not laid out.
// The answer is 0, or 20 with none for a playbook that its reader would not store.
#[derive(Clone, Copy)]
pub struct Agreed {
    pub answer: u8,
    pub changes: [AgreedChange; limits::CHANGES],
    pub count: usize,
}

// Along a list of decisions: the last serial of each switch, and the changes so far.
#[derive(Clone, Copy)]
pub(crate) struct Course {
    pub(crate) serials: [u32; answer::limits::OF_SWITCHES],
    pub(crate) changes: [AgreedChange; limits::CHANGES],
    pub(crate) count: usize,
}

// What is asked about one line of traffic, where all changes up to a number are made.
#[derive(Clone, Copy)]
pub(crate) struct Quest {
    pub(crate) aim: Aim,
    pub(crate) settled: usize,
    pub(crate) line: Line,
}

// What a port does with a client's packet: it may not go there, it leaves the domain, or it goes to a switch.
#[derive(Clone, Copy)]
pub enum Onward {
    Foreign,
    Leaves,
    GoesTo(u32),
}

// How a packet's way ends.
#[derive(Clone, Copy)]
pub(crate) enum Ending {
    Arrived,
    Lost(u32),
    Crossed(u32, u32),
    Circling,
}

// What becomes of a packet at a switch: nothing bad, with what is left of the budget; the budget is spent; it crosses a
// link that its client may not use; it goes on to a switch.
#[derive(Clone, Copy)]
pub(crate) enum Trial {
    Passes(u64),
    Spent,
    Crosses,
    GoesOn(u32, u64),
}

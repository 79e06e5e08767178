// The controller end (document 01, "Controller end"): its state by value, events offered, acknowledgements and
// decisions taken, and the share of a switch's ready change written. Every call takes every state, byte string and
// number.
#![tactic(auto)]

use flow::Rule;
use playbook::Playbook;

mod acknowledgements;
mod awaiting;
mod changes;
mod decisions;
mod limits;
mod readiness;
mod receiving;
mod states;
mod writing;

pub use awaiting::{first_awaited, first_on, undone_in};
pub use decisions::decide;
pub use receiving::receive;
pub use states::setup;
pub use writing::write_share;

// A change that was given a number and is not done: its number, its decision's first number, and what the playbook
// says of it.
#[derive(Clone, Copy)]
pub struct Undone {
    pub number: u32,
    pub first: u32,
    pub flow: u8,
    pub switch: u8,
    pub rule: Rule,
}

// The undone changes: the first `count` places are in use, by rising number.
// Stays: places with a count, since an end uses fixed memory and no heap.
#[derive(Clone, Copy)]
pub struct Held {
    pub changes: [Undone; limits::UNDONE],
    pub count: usize,
}

// The parts of a state that calls move: for each switch the highest number acknowledged and the last decided serial,
// the last number given, and the undone changes.
#[derive(Clone, Copy)]
pub struct Progress {
    pub acknowledged: [u32; limits::PLACES],
    pub serials: [u32; limits::PLACES],
    pub last: u32,
    pub undone: Held,
}

// A controller: its id, the number of controllers, the playbook, and how far it has come.
#[derive(Clone, Copy)]
pub struct Controller {
    pub id: u8,
    pub n: u8,
    pub playbook: Playbook,
    pub progress: Progress,
}

// A received event, as it is offered for agreement.
#[derive(Clone, Copy, PartialEq, Eq)]
pub struct Event {
    pub switch: u8,
    pub serial: u32,
    pub cause: u8,
}

// What a call gives: its answer, what it offers for agreement, and the state that the next call gets.
#[derive(Clone, Copy)]
pub struct Reply {
    pub answer: u8,
    pub offer: Option<Event>,
    pub state: Controller,
}

// What a call comes to beside the state: its answer, and what it offers.
#[derive(Clone, Copy)]
pub(crate) struct Outcome {
    pub answer: u8,
    pub offer: Option<Event>,
}

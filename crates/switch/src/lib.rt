// The switch end (document 01, "Switch end"): its state by value, shares received and counted, events raised, events
// and acknowledgements written, and lookup. Every call takes every state, byte string and number.
#![tactic(auto)]

use flow::{Rule, Table};

mod limits;
mod lookups;
mod raising;
mod receiving;
mod shares;
mod slots;
mod states;
mod writing;

pub use lookups::lookup;
pub use raising::{raise, raise_in_place};
pub use receiving::receive;
pub use slots::{agreeing, quorum};
pub use states::setup;
pub use writing::{write_acknowledgement, write_event};

// A share's number and rule. A slot holds the latest share from its controller; number 0 marks an empty slot.
// Stays: no Option, since a caller's state may have number 0 beside a rule, and `slot_ok` answers 20 to that.
#[derive(Clone, Copy)]
pub struct Slot {
    pub number: u32,
    pub rule: Rule,
}

// The last raised event; serial 0 if none was raised.
// Stays: no Option, since a caller's state may have serial 0 beside a cause, and `raised_by` keeps it where it refuses.
#[derive(Clone, Copy)]
pub struct Raised {
    pub serial: u32,
    pub cause: u8,
}

// A switch: its id, the number of controllers, the last applied number, the flow table, a slot for each controller, and
// the last raised event.
#[derive(Clone, Copy)]
pub struct Switch {
    pub id: u8,
    pub n: u8,
    pub last: u32,
    pub table: Table,
    pub slots: [Slot; limits::CONTROLLERS],
    pub raised: Raised,
}

// What a call gives: its answer, and the state that the next call gets.
#[derive(Clone, Copy)]
pub struct Reply {
    pub answer: u8,
    pub state: Switch,
}

// What raising does to the last raised event: 0 and the next one, or a question's number and the event as it was.
#[derive(Clone, Copy)]
pub struct Stepped {
    pub answer: u8,
    pub raised: Raised,
}

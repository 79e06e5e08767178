// The rehearsal (document 01, "Rehearsal program"): a playbook and a script carried out on a world of sixteen switches
// and n controllers, and the lines that tell of it. It works on slices; every input is rehearsed.
#![tactic(auto)]

use controller::Controller;
use switch::{Slot, Switch};

mod begins;
mod deeds;
mod delivery;
mod digits;
mod effects;
mod keys;
mod limits;
mod printing;
mod records;
mod scripts;
mod steps;
mod storing;
mod worlds;

pub use records::{record_at, size_of};
pub use scripts::{rehearse, tell};

// No script has more records.
pub const DEEDS: usize = limits::LINES;

// Room for the longest input and one byte further, which tells a longer one: its lines are those of all its bytes.
pub const INPUT: usize = 1 + playbook::limits::LONGEST + limits::SCRIPT + 1;

// Room for what every input prints.
pub const OUTPUT: usize = limits::LINES * limits::LINE;

// A share in an array that has room for the longest one: its bytes are the first `length`.
#[derive(Clone, Copy)]
pub struct Share {
    pub bytes: [u8; limits::LONGEST_SHARE],
    pub length: usize,
}

// A kept share and the switch that it is for; an empty place has a switch past the last one.
#[derive(Clone, Copy)]
pub struct Place {
    pub switch: u8,
    pub share: Share,
}

// A world: the number of controllers, the switches, the controllers, and the places for kept shares.
#[derive(Clone, Copy)]
pub struct World {
    pub n: u8,
    pub switches: [Switch; limits::SWITCHES],
    pub controllers: [Controller; limits::CONTROLLERS],
    pub places: [Place; limits::PLACES],
}

// An input that passed the questions before its script: where the script begins, and the world before it.
#[derive(Clone, Copy)]
pub(crate) struct Begun {
    pub(crate) script: usize,
    pub(crate) world: World,
}

// The kinds of script records.
#[derive(Clone, Copy)]
pub enum Kind {
    Decide,
    Send,
    Report,
    Raw,
    Keep,
    Deliver,
}

// A script record: its kind, and what it names; 0 for what its kind has not.
#[derive(Clone, Copy)]
pub struct Record {
    pub kind: Kind,
    pub controller: u8,
    pub switch: u8,
    pub place: u8,
    pub serial: u32,
    pub cause: u8,
}

// What a record is carried out on: the controller, the switch and the place that it names.
#[derive(Clone, Copy)]
pub(crate) struct Ends {
    pub(crate) controller: Controller,
    pub(crate) switch: Switch,
    pub(crate) place: Place,
}

// What a record does: its answer, its figure, and the controller, the switch and the place that it was carried out on.
#[derive(Clone, Copy)]
pub(crate) struct Moved {
    pub(crate) answer: u8,
    pub(crate) figure: u32,
    pub(crate) controller: Controller,
    pub(crate) switch: Switch,
    pub(crate) place: Place,
}

// What a switch reads in bytes: whether they are a share, and then its sender, its number and its rule.
#[derive(Clone, Copy)]
pub struct Wish {
    pub shared: bool,
    pub sender: u8,
    pub slot: Slot,
}

// Why nothing was ready for a switch: the number of the change that waits, and the number and the switch of the one that
// it waits for; 0 where there is none.
#[derive(Clone, Copy)]
pub struct Delay {
    pub waiting: u32,
    pub awaited: u32,
    pub switch: u8,
}

// What a record did. `found` says that the bytes are a record, and `begun` that it passed the questions on what it names,
// so that the figure is an end's. The controller is the one that the record names, or the sender of the share that
// arrives; the switch is the one that was reached, or would have been. `share` has the bytes that were made or delivered,
// and `wish` what they ask for; `agreeing` counts the controllers whose slots hold it afterwards, and `replaced` is the
// number that was held from the sender before, or 0. A decision that was taken gave so many `numbers`, up to `last`.
#[derive(Clone, Copy)]
pub struct Deed {
    pub found: bool,
    pub item: Record,
    pub begun: bool,
    pub controller: u8,
    pub switch: u8,
    pub answer: u8,
    pub figure: u32,
    pub share: Share,
    pub wish: Wish,
    pub agreeing: u32,
    pub replaced: u32,
    pub numbers: u32,
    pub last: u32,
    pub delay: Delay,
}

// A rehearsal told: the number of the question that refuses its input before the script, or 0; its deeds, of which the
// first `count` are in use; and the world after the last.
#[derive(Clone, Copy)]
pub struct Told {
    pub answer: u8,
    pub deeds: [Deed; DEEDS],
    pub count: usize,
    pub world: World,
}

// What is printed of a record: its ordinal, the answer and the figure; ordinal 0 for a fault before the script.
#[derive(Clone, Copy)]
pub(crate) struct Line {
    pub(crate) ordinal: u32,
    pub(crate) answer: u8,
    pub(crate) figure: u32,
}

// The lines of a rehearsal: the first `count` places are in use.
#[derive(Clone, Copy)]
pub(crate) struct Lines {
    pub(crate) places: [Line; limits::LINES],
    pub(crate) count: usize,
}

// What printing gives: 0 and how many bytes were written, or a question's number and 0.
#[derive(Clone, Copy)]
pub struct Printed {
    pub answer: u8,
    pub length: usize,
}

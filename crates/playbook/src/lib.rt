// The playbook (document 01, "Bytes"): its store by value, its reader over the whole input or over a beginning of it,
// the test whether a store is such as the reader stores, and the plan of a switch and cause. Every function takes every
// input.
#![tactic(auto)]

use flow::Rule;

mod books;
mod changes;
mod keys;
pub mod limits;
mod plans;
mod reading;
mod records;
mod storing;
mod triggers;

pub use books::empty;
pub use plans::plan_of;
pub use reading::{read, read_first};
pub use storing::stored;

// A change of a plan. Its flow byte has meaning only inside the plan.
#[derive(Clone, Copy)]
pub struct Change {
    pub flow: u8,
    pub switch: u8,
    pub rule: Rule,
}

// A plan: the switch and cause that trigger it, and where its changes stand.
#[derive(Clone, Copy, PartialEq, Eq)]
pub struct Plan {
    pub switch: u8,
    pub cause: u8,
    pub first: usize,
    pub count: usize,
}

// A playbook: the first `planned` plans are in use, and the first `listed` changes, plan after plan.
#[derive(Clone, Copy)]
pub struct Playbook {
    pub plans: [Plan; limits::PLANS],
    pub planned: usize,
    pub changes: [Change; limits::CHANGES],
    pub listed: usize,
}

// What reading gives: 0, the bytes used and the playbook; or a question's number, 0 and the empty playbook.
#[derive(Clone, Copy)]
pub struct Outcome {
    pub answer: u8,
    pub used: usize,
    pub playbook: Playbook,
}

// Flow changes for other makers' switches (document 02, N1): a numbered rule written as a FLOW_MOD of OpenFlow 1.3.5 at
// an offset of an outgoing frame. It knows nothing of messages and ends, and takes every number, rule, frame and offset.
#![tactic(auto)]

mod actions;
mod headers;
mod matches;
mod standard;
mod writing;

pub use writing::{length_of, write_flow_mod};

// The most bytes that a FLOW_MOD has.
pub const LONGEST: usize = 96;

// What writing gives: 0 and how many bytes were written, or a question's number and 0.
#[derive(Clone, Copy)]
pub struct Written {
    pub answer: u8,
    pub length: usize,
}

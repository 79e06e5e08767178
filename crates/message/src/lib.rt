// The messages between switches and controllers (document 01, "Bytes"): read, written at an offset of a frame, their
// tags checked, and their senders asked. Every function takes every byte string, every offset and every message.
#![tactic(auto)]

use flow::Rule;

mod acknowledgements;
mod events;
mod fields;
pub mod keys;
pub mod layout;
mod reading;
mod senders;
mod shares;
mod writing;

pub use reading::{is_sealed, number, read};
pub use senders::sender_question;
pub use writing::{length_of, write};

// The end at which a message is received.
#[derive(Clone, Copy)]
pub enum End {
    Switch,
    Controller,
}

// A message by its kind, or the number of the question that refuses the bytes.
#[derive(Clone, Copy)]
pub enum Message {
    Event {
        switch: u8,
        controller: u8,
        serial: u32,
        cause: u8,
    },
    Share {
        controller: u8,
        switch: u8,
        number: u32,
        rule: Rule,
    },
    Acknowledgement {
        switch: u8,
        controller: u8,
        number: u32,
    },
    Refused(u8),
}

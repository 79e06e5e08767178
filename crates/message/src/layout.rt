// How a message lies in its bytes (document 01, "Bytes"): kinds, offsets of fields, and lengths.
// The same numbers as specs/Layout.antt; nothing else in this crate names one.

pub const EVENT: u8 = 1;

pub const SHARE: u8 = 2;

pub const ACKNOWLEDGEMENT: u8 = 3;

// In every message: the kind, the sending end, the receiving end, and four bytes of serial or number.
pub const KIND_AT: usize = 0;

pub const SENDER_AT: usize = 1;

pub const RECEIVER_AT: usize = 2;

pub const NUMBER_AT: usize = 3;

// Then in an event its cause, in a share its rule.
pub const CAUSE_AT: usize = NUMBER_AT + 4;

pub const PREFIX_AT: usize = NUMBER_AT + 4;

pub const LENGTH_AT: usize = PREFIX_AT + 4;

pub const PORT_AT: usize = LENGTH_AT + 1;

// The bytes before the tag.
pub const EVENT_BODY: usize = CAUSE_AT + 1;

pub const SHARE_BODY: usize = PORT_AT + 2;

pub const ACKNOWLEDGEMENT_BODY: usize = NUMBER_AT + 4;

// All bytes, the tag among them.
pub const EVENT_LENGTH: usize = EVENT_BODY + tag::LENGTH;

pub const SHARE_LENGTH: usize = SHARE_BODY + tag::LENGTH;

pub const ACKNOWLEDGEMENT_LENGTH: usize = ACKNOWLEDGEMENT_BODY + tag::LENGTH;

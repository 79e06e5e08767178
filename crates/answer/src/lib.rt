// The answers and question numbers of document 01, "The questions, in order", one constant each.
// A question's number is returned when its answer is no.
#![tactic(auto)]

pub mod limits;

// Set up, read, raised, taken, held, offered or written.
pub const DONE: u8 = 0;
// The change was applied with this share.
pub const APPLIED: u8 = 1;
// A repeat: nothing changed.
pub const REPEAT: u8 = 2;

// Is the message's length one expected here?
pub const WRONG_LENGTH: u8 = 10;
// Is its kind the one of that length?
pub const WRONG_KIND: u8 = 11;
// Is the sender, the receiver or the switch known?
pub const UNKNOWN_ID: u8 = 12;
// Is the message for this end?
pub const WRONG_RECEIVER: u8 = 13;
// Does the tag match?
pub const WRONG_TAG: u8 = 14;
// Is the rule well formed?
pub const MALFORMED_RULE: u8 = 15;
// Is the number above the last applied?
pub const NOT_ABOVE_APPLIED: u8 = 16;
// Is the number at least the one in the sender's slot?
pub const BELOW_SLOT: u8 = 17;
// If it is equal to the slot's, is the rule the same?
pub const OTHER_RULE: u8 = 18;
// A removal, or its entry present, or under 64 entries?
pub const NO_ROOM: u8 = 19;
// Does the state obey its limits?
pub const LIMITS_BROKEN: u8 = 20;
// Does the key store have the length of this end's?
pub const WRONG_KEY_STORE: u8 = 21;
// Is the serial above the last decided for that switch?
pub const SERIAL_DECIDED: u8 = 22;
// Is the last number plus the plan's changes at most 4,294,967,295?
pub const NUMBERS_EXHAUSTED: u8 = 23;
// Are the undone changes afterwards at most 64?
pub const TOO_MANY_UNDONE: u8 = 24;
// Do the bytes fit from that offset?
pub const DOES_NOT_FIT: u8 = 25;
// Is there a ready change, a raised event, or a kept share?
pub const NOTHING_TO_SEND: u8 = 26;
// Is the last serial below 4,294,967,295?
pub const SERIALS_EXHAUSTED: u8 = 27;
// Is the script at most 8,192 bytes long?
pub const SCRIPT_TOO_LONG: u8 = 28;
// Is the place at most 63?
pub const UNKNOWN_PLACE: u8 = 29;
// Is a byte left, and is the record whole?
pub const CUT_SHORT: u8 = 30;
// Is the record's kind known?
pub const UNKNOWN_KIND: u8 = 31;
// Is there a plan before this change?
pub const NO_PLAN: u8 = 34;
// Is the plan's trigger new?
pub const TRIGGER_USED: u8 = 35;
// Are the playbook's limits obeyed?
pub const OVER_LIMIT: u8 = 36;
// At most 64 different prefixes with lengths on that switch?
pub const TOO_MANY_PREFIXES: u8 = 37;
// Is nothing left after the end record?
pub const BYTES_LEFT: u8 = 38;

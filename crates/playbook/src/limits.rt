// How much a playbook may hold (document 01, "Bytes" and questions 36 and 37), and how many bytes its records have.
// The same numbers as specs/Limits.antt; nothing else names one.

pub const PLANS: usize = 64;

pub const CHANGES: usize = 512;

pub const CHANGES_OF_PLAN: usize = 32;
// Different prefixes with lengths on one switch.
pub const KEYS: usize = 64;
// Numbers by which they are told apart at first: fewer than a byte has.
pub(crate) const MARKS: usize = 251;

pub(crate) const SWITCHES: u8 = answer::limits::SWITCHES;
// One place for each switch.
pub(crate) const PLACES: usize = answer::limits::OF_SWITCHES;
// One place for each switch and byte.
pub(crate) const PAIRS: usize = BYTES * answer::limits::OF_SWITCHES;

pub(crate) const BYTES: usize = 256;

// Kinds of records.
pub(crate) const PLAN: u8 = 0x11;

pub(crate) const CHANGE: u8 = 0x12;

pub(crate) const END: u8 = 0x13;

pub const PLAN_SIZE: usize = 3;

pub const CHANGE_SIZE: usize = 10;

pub const END_SIZE: usize = 1;

// The longest playbook.
pub const LONGEST: usize = PLAN_SIZE * PLANS + CHANGE_SIZE * CHANGES + END_SIZE;

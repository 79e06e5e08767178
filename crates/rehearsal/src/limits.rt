// Sizes of a rehearsal.
pub(crate) const SWITCHES: usize = answer::limits::OF_SWITCHES;

pub(crate) const CONTROLLERS: usize = answer::limits::OF_CONTROLLERS;
// Places for kept shares.
pub(crate) const PLACES: usize = 64;
// The longest share, in bytes.
pub(crate) const LONGEST_SHARE: usize = message::layout::SHARE_LENGTH;
// The key stores of both ends have room for sixteen keys.
pub(crate) const KEYS: usize = answer::limits::OF_SWITCHES * message::keys::LENGTH;
// The longest script, in bytes.
pub(crate) const SCRIPT: usize = 8192;
// Three numbers of at most ten digits, each with a byte behind it.
pub(crate) const LINE: usize = 33;
// No record is shorter than two bytes.
pub(crate) const LINES: usize = SCRIPT / 2;

// The kinds of script records.
pub(crate) const DECIDE: u8 = 0x21;

pub(crate) const SEND: u8 = 0x22;

pub(crate) const REPORT: u8 = 0x23;

pub(crate) const RAW: u8 = 0x24;

pub(crate) const KEEP: u8 = 0x25;

pub(crate) const DELIVER: u8 = 0x26;

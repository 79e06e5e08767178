// How much the check takes: agreed changes, links and lines of traffic.
pub const CHANGES: usize = 256;

pub const LINKS: usize = 256;

pub const LINES: usize = 64;

// A packet that has met so many switches meets one of them again.
pub(crate) const HOPS: usize = answer::limits::OF_SWITCHES;

pub(crate) const SWITCHES: u32 = answer::limits::SWITCHES as u32;

// The lengths of prefixes, from 0 up.
pub(crate) const LENGTHS: usize = 33;

// The bytes of a decision: switch, serial, cause.
pub const DECISION: usize = 6;

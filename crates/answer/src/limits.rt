// The ranges of a domain (document 01, "What the domain consists of") and how much an end holds. The same numbers as
// specs/Limits.antt; every other crate takes them from here.

// Switches 0 to 15, and controllers 0 to 15 at most.
pub const SWITCHES: u8 = 16;

pub const CONTROLLERS: u8 = 16;

// A place for each switch, and for each controller.
pub const OF_SWITCHES: usize = SWITCHES as usize;

pub const OF_CONTROLLERS: usize = CONTROLLERS as usize;

// Entries of a flow table.
pub const ENTRIES: usize = 64;

// Undone changes of a controller.
pub const UNDONE: usize = 64;

// The largest number of a change, and the largest serial of an event.
pub const LARGEST: u32 = 4294967295;

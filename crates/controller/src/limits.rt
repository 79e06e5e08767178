// The ranges of a domain and of a controller's state (document 01, "What the domain consists of" and "Controller end").

pub(crate) const CONTROLLERS: u8 = answer::limits::CONTROLLERS;

pub(crate) const SWITCHES: u8 = answer::limits::SWITCHES;
// One place for each switch.
pub(crate) const PLACES: usize = answer::limits::OF_SWITCHES;

pub(crate) const UNDONE: usize = answer::limits::UNDONE;
// Changes of a playbook.
pub(crate) const LISTED: usize = playbook::limits::CHANGES;
// The largest number of a change.
pub(crate) const NUMBERS: u64 = answer::limits::LARGEST as u64;

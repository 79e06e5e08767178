// The ranges of a domain (document 01, "What the domain consists of"), as this crate's types need them.

pub(crate) const CONTROLLERS: usize = answer::limits::OF_CONTROLLERS;

pub(crate) const SWITCHES: u8 = answer::limits::SWITCHES;

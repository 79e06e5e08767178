// What earlier lines have: each port and each client line, with its line, and each name.
ghost use Rattle.std.specs.Prelude.{◌≤◌, length};

use crate::records::Entry;
use lists::same;

// The most ports or client lines, and the most names.
const PLACES: usize = 256;

pub(crate) const NAMES: usize = 64;

// What no other line may have: a port of a switch, or a client's line.
#[derive(Clone, Copy, PartialEq, Eq)]
pub(crate) enum Key {
    OfPort(u8, u16),
    OfClient(u8, Entry),
}

#[derive(Clone, Copy)]
struct Place {
    key: Key,
    line: usize,
}

// Keys, each with its line: the first `count` places are in use.
#[derive(Clone, Copy)]
pub(crate) struct Seen {
    places: [Place; PLACES],
    count: usize,
    ghost inside: { count ≤ 256 },
}

impl Seen {
    pub(crate) fn new() -> Seen {
        let none = Place {
            key: Key::OfPort(0, 0),
            line: 0,
        };
        Seen {
            places: [none; PLACES],
            count: 0,
        }
    }

    pub(crate) fn count(&self) -> usize {
        self.count
    }

    // The line that has this key.
    pub(crate) fn line_of(&self, key: Key) -> Option<usize> {
        for place in &self.places[..self.count] {
            if place.key == key {
                return Some(place.line);
            }
        }
        None
    }

    pub(crate) fn push(&mut self, key: Key, line: usize) {
        if self.count < PLACES {
            self.places[self.count] = Place { key, line };
            self.count += 1;
        }
    }
}

// Names in the order in which they first stand in the text: the first `count` places are in use.
#[derive(Clone, Copy)]
pub(crate) struct Names<'a> {
    names: [&'a [u8]; NAMES],
    count: usize,
    ghost inside: { count ≤ 64 },
}

impl<'a> Names<'a> {
    pub(crate) fn new() -> Names<'a> {
        Names {
            names: [b""; NAMES],
            count: 0,
        }
    }

    pub(crate) fn names(&self) -> &[&'a [u8]]
        ensures { length result.now ≤ 64 }
    {
        &self.names[..self.count]
    }

    // A client is numbered from 1 by its name. One that is new is added, where there is room for it.
    pub(crate) fn client_of(&mut self, name: &'a [u8]) -> Option<u8> {
        for (i, known) in self.names().iter().enumerate() {
            if same(known, name) {
                return Some((i + 1) as u8);
            }
        }
        if self.count == NAMES {
            return None;
        }
        self.names[self.count] = name;
        self.count += 1;
        Some(self.count as u8)
    }
}

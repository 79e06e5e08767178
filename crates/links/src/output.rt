// The bytes of the records so far, and of the names behind them.
ghost use Rattle.std.specs.Prelude.{◌≤◌};

use crate::records::{Entry, Link};

// The bytes of 256 links of 6, 64 client lines of 8 and 64 names of 35.
const MOST: usize = 4288;

const LINK: u8 = 0x31;

const CLIENT: u8 = 0x32;

const NAME: u8 = 0x33;

// The first `count` bytes are in use.
#[derive(Clone, Copy)]
pub(crate) struct Output {
    bytes: [u8; MOST],
    count: usize,
    ghost inside: { count ≤ 4288 },
}

impl Output {
    pub(crate) fn new() -> Output {
        Output {
            bytes: [0; MOST],
            count: 0,
        }
    }

    pub(crate) fn bytes(&self) -> &[u8] {
        &self.bytes[..self.count]
    }

    // Further bytes; no text has more than there is room for.
    fn push(&mut self, bytes: &[u8]) {
        if bytes.len() <= MOST - self.count {
            let end = self.count + bytes.len();
            self.bytes[self.count..end].copy_from_slice(bytes);
            self.count = end;
        }
    }

    pub(crate) fn push_link(&mut self, link: Link, owner: u8) {
        self.push(&[LINK, link.switch]);
        self.push(&link.port.to_be_bytes());
        self.push(&[link.far, owner]);
    }

    pub(crate) fn push_entry(&mut self, entry: Entry, client: u8) {
        self.push(&[CLIENT, client]);
        self.push(&entry.prefix.address.to_be_bytes());
        self.push(&[entry.prefix.length, entry.switch]);
    }

    // The names, by rising client. A name has at most 32 letters.
    pub(crate) fn push_names(&mut self, names: &[&[u8]]) {
        for (client, name) in (1..=u8::MAX).zip(names) {
            self.push(&[NAME, client, (name.len() % 256) as u8]);
            self.push(name);
        }
    }
}

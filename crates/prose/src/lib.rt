// Text on standard output and on standard error. What goes to standard output is collected, and written in pieces of
// eight kilobytes. No contract can say what is written; that each function is safe and ends is all there is to prove.
#![tactic(auto)]

ghost use Rattle.std.specs.Prelude.{◌≤◌};

mod errors;

pub use errors::{Errors, Found, Text};
use std::fmt;
use std::fmt::Write;

const STDOUT_FILENO: i32 = 1;

const STDERR_FILENO: i32 = 2;

// So many bytes are collected.
const ROOM: usize = 8192;

/// Standard output, and the text that waits to be written there. It must be ended: it can't be let go.
pub struct Out {
    bytes: [u8; ROOM],
    waiting: usize,
    lost: bool,
    ghost inside: { waiting ≤ 8192 },
}

impl Out {
    pub fn new() -> Out {
        Out {
            bytes: [0; ROOM],
            waiting: 0,
            lost: false,
        }
    }

    // Nothing waits any more.
    fn flush(&mut self) {
        if !io::write_all(STDOUT_FILENO, &self.bytes[..self.waiting]) {
            self.lost = true;
        }
        self.waiting = 0;
    }

    fn put(&mut self, byte: u8) {
        if self.waiting < ROOM {
            self.bytes[self.waiting] = byte;
            self.waiting += 1;
        }
        if self.waiting == ROOM {
            self.flush();
        }
    }

    /// Bytes that need not be text.
    pub fn write_bytes(&mut self, bytes: &[u8]) {
        for byte in bytes {
            self.put(*byte);
        }
    }

    /// The end of all text: what waits is written. What could not be written is told on standard error.
    pub fn end(mut self) {
        self.flush();
        let Out {
            bytes: _,
            waiting: _,
            lost,
        } = self;
        if lost {
            io::write_all(STDERR_FILENO, b"not all of the output could be written\n");
        }
    }
}

impl fmt::Write for Out {
    fn write_str(&mut self, text: &str) -> fmt::Result {
        self.write_bytes(text.as_bytes());
        Ok(())
    }
}

/// An address with the length of its prefix, as 10.0.0.0/8.
#[derive(Clone, Copy)]
pub struct Prefix {
    pub address: u32,
    pub length: u8,
}

impl fmt::Display for Prefix {
    fn fmt<W: fmt::Write>(&self, f: &mut fmt::Formatter<W>) -> fmt::Result {
        let [a, b, c, d] = self.address.to_be_bytes();
        write!(f, "{a}.{b}.{c}.{d}/{}", self.length)
    }
}

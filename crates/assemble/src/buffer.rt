// Bytes in a place of fixed size.
ghost use Rattle.std.specs.Prelude.{◌≡◌, ◌≤◌, length};

use std::fmt;

// The first `count` bytes are in use.
#[derive(Clone, Copy)]
pub(crate) struct Buffer<const N: usize> {
    bytes: [u8; N],
    count: usize,
    ghost inside: { count ≤ N },
}

impl<const N: usize> Buffer<N> {
    pub(crate) fn new() -> Buffer<N>
        ensures { N ≡ length result.bytes }
    {
        Buffer {
            bytes: [0; N],
            count: 0,
        }
    }

    pub(crate) fn bytes(&self) -> &[u8] {
        &self.bytes[..self.count]
    }

    // How many more bytes there is room for.
    pub(crate) fn room(&self) -> usize {
        N - self.count
    }

    // Further bytes, where there is room for all of them.
    pub(crate) fn push(&mut self, bytes: &[u8]) {
        if bytes.len() <= N - self.count {
            let start = self.count;
            let end = start + bytes.len();
            let all = &mut self.bytes[..];
            all[start..end].copy_from_slice(bytes);
            self.count = end;
        }
    }

    // Another byte at a place, if it is in use.
    pub(crate) fn set(&mut self, at: usize, byte: u8) {
        if at < self.count {
            self.bytes[at] = byte;
        }
    }
}

impl<const N: usize> fmt::Write for Buffer<N> {
    fn write_str(&mut self, text: &str) -> fmt::Result {
        self.push(text.as_bytes());
        Ok(())
    }
}

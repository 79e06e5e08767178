// Key stores of any length up to one key more than a controller's.
const SPACE: usize = 544;

#[derive(Clone, Copy)]
pub(crate) struct Store {
    bytes: [u8; SPACE],
    length: usize,
}

impl Store {
    pub(crate) fn empty() -> Self {
        Store {
            bytes: [0; SPACE],
            length: 0,
        }
    }

    // The bytes, or as many of them as there is space for.
    pub(crate) fn of(s: &[u8]) -> Self {
        let length = s.len().min(SPACE);
        let mut bytes = [0; SPACE];
        bytes[..length].copy_from_slice(&s[..length]);
        Store { bytes, length }
    }

    // The bytes in use.
    pub(crate) fn in_use(&self) -> &[u8] {
        lists::front(&self.bytes, self.length)
    }
}

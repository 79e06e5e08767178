// The numbers, prefixes and names that words are.
use std::fmt;

const LONGEST_PREFIX: u16 = 32;

const LONGEST_NAME: usize = 32;

// An address and a length, as 10.1.0.0/16.
#[derive(Clone, Copy, PartialEq, Eq)]
pub(crate) struct Prefix {
    pub(crate) address: u32,
    pub(crate) length: u8,
}

impl Prefix {
    // Without the bits past the length.
    pub(crate) fn cleared(&self) -> Prefix {
        let kept = u32::MAX.checked_shl(32u32.saturating_sub(self.length as u32));
        Prefix {
            address: self.address & kept.unwrap_or(0),
            length: self.length,
        }
    }
}

impl fmt::Display for Prefix {
    fn fmt<W: fmt::Write>(&self, f: &mut fmt::Formatter<W>) -> fmt::Result {
        let [a, b, c, d] = self.address.to_be_bytes();
        write!(f, "{a}.{b}.{c}.{d}/{}", self.length)
    }
}

// The number that a word is: decimal digits, of which the first of several is not 0.
pub(crate) fn decimal(word: &[u8]) -> Option<u16> {
    if word.is_empty() || word.len() > 1 && word[0] == b'0' {
        return None;
    }
    let mut n: u16 = 0;
    for digit in word {
        if !digit.is_ascii_digit() {
            return None;
        }
        n = n.checked_mul(10)?.checked_add((*digit - b'0') as u16)?;
    }
    Some(n)
}

// The number of a word up to a mark, and what stands behind the mark.
fn part_of(word: &[u8], mark: u8) -> Option<(u8, &[u8])> {
    let end = word.iter().position(|b| *b == mark)?;
    let part = u8::try_from(decimal(&word[..end])?).ok()?;
    Some((part, &word[end + 1..]))
}

// The prefix that a word is, as 10.1.0.0/16.
pub(crate) fn prefix_of(word: &[u8]) -> Option<Prefix> {
    let (a, rest) = part_of(word, b'.')?;
    let (b, rest) = part_of(rest, b'.')?;
    let (c, rest) = part_of(rest, b'.')?;
    let (d, rest) = part_of(rest, b'/')?;
    let length = decimal(rest)?;
    if LONGEST_PREFIX < length {
        return None;
    }
    Some(Prefix {
        address: u32::from_be_bytes([a, b, c, d]),
        length: length as u8,
    })
}

fn is_name_byte(b: u8) -> bool {
    matches!(b, b'0'..=b'9' | b'A'..=b'Z' | b'a'..=b'z' | b'-' | b'_')
}

pub(crate) fn is_name(word: &[u8]) -> bool {
    !word.is_empty() && word.len() <= LONGEST_NAME && word.iter().all(|b| is_name_byte(*b))
}

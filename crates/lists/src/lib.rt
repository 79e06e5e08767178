// Definitions and laws of lists: arrays with a count as lists, tests of every element, different members, numbers as
// bytes, and bytes in a frame. The crates above cite specs/ in their contracts and proofs/ in their proofs. The only code
// reads bytes, makes numbers of them, lends parts of them, compares them, and puts numbers into a frame.
#![tactic(auto)]

ghost use Rattle.std.specs.Prelude.{◌≡◌, [], ◌∷◌, take, drop};
ghost use Rattle.lists.specs.Bytes.{num, byte_at, equal};

mod writers;

pub use writers::{fits, put_u8, put_u16, put_u32, put_u64};

// The number of two bytes, the higher first.
#[tactic(auto, unfolding(crate::specs::Bytes::num))]
pub fn u16_of(a: u8, b: u8) -> u16
    ensures { result ≡ num (a ∷ b ∷ []) }
{
    u16::from_be_bytes([a, b])
}

// The number of four bytes, the highest first.
#[tactic(auto, unfolding(crate::specs::Bytes::num))]
pub fn u32_of(a: u8, b: u8, c: u8, d: u8) -> u32
    ensures { result ≡ num (a ∷ b ∷ c ∷ d ∷ []) }
{
    u32::from_be_bytes([a, b, c, d])
}

// The byte at a place, 0 past the end.
pub fn byte_at(s: &[u8], i: usize) -> u8
    ensures { result ≡ byte_at s.now i }
{
    s.get(i).copied().unwrap_or(0)
}

// The first n bytes, or all where there are fewer.
pub fn front(s: &[u8], n: usize) -> &[u8]
    ensures { result.now ≡ take n s.now }
{
    &s[..n.min(s.len())]
}

// The bytes behind the first n, or none where there are fewer.
pub fn behind(s: &[u8], n: usize) -> &[u8]
    ensures { result.now ≡ drop n s.now }
{
    &s[n.min(s.len())..]
}

// Whether two byte strings are the same. It stops at a difference: words are compared by it, and tags by `tag`.
#[tactic(auto, using(crate::proofs::Equal::equal_pointwise))]
pub fn same(a: &[u8], b: &[u8]) -> bool
    ensures { result ≡ equal a.now b.now }
{
    a == b
}

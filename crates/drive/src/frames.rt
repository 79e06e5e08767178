// The outgoing frame of a writing call: which part of it is lent, and from which offset on it is written.
ghost use Rattle.std.specs.Prelude.{◌≤◌};

use cases::u32_at;
use lists::byte_at;

// How many bytes the frame has.
pub(crate) const SIZE: usize = cases::FRAME;

// How many bytes of a frame of this size are lent: as many as the body's first byte says, or all.
pub(crate) fn lent_of(body: &[u8], size: usize) -> usize
    ensures { result ≤ size }
{
    (byte_at(body, 0) as usize).min(size)
}

// The offset of eight bytes, by its halves.
pub(crate) fn offset(high: u32, low: u32) -> usize {
    (high as usize) * 0x1_0000_0000 + low as usize
}

// The offset that stands after the receiver's byte.
pub(crate) fn offset_of(body: &[u8]) -> usize {
    offset(u32_at(body, 2), u32_at(body, 6))
}

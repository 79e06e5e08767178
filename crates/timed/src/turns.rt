// What a turn of a loop does besides its call.
ghost use Rattle.std.specs.Prelude.{◌≡◌, ◌^◌, ◌<◌, slice_set};
ghost use Rattle.timed.specs.Turns.{mixed};

// A sum that depends on every number mixed into it, and on their order.
pub(crate) fn mix(sum: u64, x: u32) -> u64
    ensures { (result ≡ mixed sum x) × (result < 2 ^ 45) }
{
    sum % 0x100_0000_0000 * 31 + (x as u64)
}

// The byte at a place is replaced, if there is one, so that no two calls in a row are of the same bytes.
pub(crate) fn stir(bytes: &mut [u8], place: usize, x: u8)
    ensures { bytes.new ≡ slice_set bytes.old place x }
{
    if place < bytes.len() {
        bytes[place] = x;
    }
}

// Numbers put into a part of a frame that is lent, big-endian: whole where they fit, and nothing where they do not.
ghost use Rattle.std.specs.Prelude.{◌≡◌, [], ◌∷◌};
ghost use Rattle.lists.specs.Bytes.{be};
ghost use Rattle.lists.specs.Frames.{room_at, placed_whole};

// Question 25: whether n bytes fit from an offset of a frame, for every offset.
pub fn fits(frame: usize, at: usize, n: usize) -> bool
    ensures { result ≡ room_at frame at n }
{
    at <= frame && n <= frame - at
}

// Bytes put into a part from an offset on.
fn put<const N: usize>(part: &mut [u8], at: usize, bytes: [u8; N])
    ensures { part.new ≡ placed_whole bytes.entry part.old at }
{
    if fits(part.len(), at, N) {
        part[at..at + N].copy_from_slice(&bytes);
    }
}

pub fn put_u8(part: &mut [u8], at: usize, x: u8)
    ensures { part.new ≡ placed_whole (x ∷ []) part.old at }
{
    put::<1>(part, at, x.to_be_bytes());
}

#[tactic(auto, using(crate::proofs::Numbers::be_high_first))]
pub fn put_u16(part: &mut [u8], at: usize, x: u16)
    ensures { part.new ≡ placed_whole (be 2 x) part.old at }
{
    put::<2>(part, at, x.to_be_bytes());
}

#[tactic(auto, using(crate::proofs::Numbers::be_high_first))]
pub fn put_u32(part: &mut [u8], at: usize, x: u32)
    ensures { part.new ≡ placed_whole (be 4 x) part.old at }
{
    put::<4>(part, at, x.to_be_bytes());
}

#[tactic(auto, using(crate::proofs::Numbers::be_high_first))]
pub fn put_u64(part: &mut [u8], at: usize, x: u64)
    ensures { part.new ≡ placed_whole (be 8 x) part.old at }
{
    put::<8>(part, at, x.to_be_bytes());
}

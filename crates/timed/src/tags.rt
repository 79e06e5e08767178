// Hashes and HMACs of bytes.
ghost use Rattle.std.specs.Prelude.{◌≡◌};
ghost use Rattle.tag.specs.Sha256.{sha256};
ghost use Rattle.tag.specs.Hmac.{hmac};
ghost use Rattle.timed.specs.Turns.{turned};
ghost use Rattle.timed.specs.Bytes as summed;

use crate::turns::{mix, stir};

// A number of the first bytes of a hash.
fn front(d: [u8; 32]) -> u32
    ensures { result ≡ summed.front d }
{
    lists::u32_of(d[0], d[1], d[2], d[3])
}

// SHA-256 of the bytes, each time with the first byte of the last hash at their front.
#[unsafe(no_mangle)]
pub extern "C" fn timed_sha256(m: &mut [u8], times: u32) -> u64
    ensures { (m.new, result) ≡ turned (summed.digested sha256) times (m.old, 0) }
{
    let mut sum = 0;
    for i in 0..times {
        let d = tag::sha256(m);
        stir(m, 0, d[0]);
        sum = mix(sum, front(d));
    }
    sum
}

// HMAC of the bytes with a key, each time with the first byte of the last one at their front.
#[unsafe(no_mangle)]
pub extern "C" fn timed_hmac(key: &[u8], m: &mut [u8], times: u32) -> u64
    ensures { (m.new, result)
        ≡ turned (summed.digested (hmac key.now)) times (m.old, 0) }
{
    let mut sum = 0;
    for i in 0..times {
        let d = tag::hmac(key, m);
        stir(m, 0, d[0]);
        sum = mix(sum, front(d));
    }
    sum
}

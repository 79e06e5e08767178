// Rehearsals of an input.
ghost use Rattle.std.specs.Prelude.{◌≡◌};
ghost use Rattle.timed.specs.Turns.{turned};
ghost use Rattle.timed.specs.Bytes.{rehearsed_once};

use crate::turns::mix;

// An input rehearsed, its lines printed to an output.
#[unsafe(no_mangle)]
pub extern "C" fn timed_rehearsed(input: &[u8], out: &mut [u8], times: u32) -> u64
    ensures { (out.new, result)
        ≡ turned (rehearsed_once input.now) times (out.old, 0) }
{
    let mut sum = 0;
    for i in 0..times {
        let r = rehearsal::rehearse(input, out);
        sum = mix(mix(sum, r.answer as u32), (r.length % 1000000) as u32);
    }
    sum
}

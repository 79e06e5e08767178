// FLOW_MODs written.
ghost use Rattle.std.specs.Prelude.{◌≡◌, ◌^◌, ◌<◌, length};

use crate::turns::mix;

// The FLOW_MODs of rules whose prefixes are a step apart, each written at an offset of a frame under the next number from
// 0 on. Port 0 removes.
#[unsafe(no_mangle)]
pub extern "C" fn timed_flow_mods(
    prefix: u32,
    step: u32,
    size: u8,
    port: u16,
    frame: &mut [u8],
    at: usize,
    times: u32,
) -> u64
    ensures { (length frame.new ≡ length frame.old) × (result < 2 ^ 45) }
{
    let mut next = prefix;
    let mut sum = 0;
    for i in 0..times {
        let r = openflow::write_flow_mod(i, flow::rule_of(next, size, port), frame, at);
        sum = mix(mix(sum, r.answer as u32), (r.length % 1000) as u32);
        next = next.wrapping_add(step);
    }
    sum
}

// Calls at one switch.
ghost use Rattle.std.specs.Prelude.{◌≡◌, ◌^◌, ◌<◌, length};

use crate::turns::mix;
use switch::Switch;

const SHARE: usize = message::layout::SHARE_LENGTH;

// What shares did: the state after them, and the sum of their answers.
#[derive(Clone, Copy)]
struct Received {
    state: Switch,
    sum: u64,
}

// Shares received one after another, the bytes of each behind those of the one before.
fn receive_all(switch: Switch, keys: &[u8], shares: &[u8], before: u64) -> Received {
    let mut state = switch;
    let mut sum = before;
    for share in shares.chunks_exact(SHARE) {
        let r = switch::receive(state, keys, share);
        state = r.state;
        sum = mix(sum, r.answer as u32);
    }
    Received { state, sum }
}

// A switch that has received shares since it was set up.
fn filled(id: u8, n: u8, keys: &[u8], shares: &[u8]) -> Switch {
    receive_all(switch::setup(id, n).state, keys, shares, 0).state
}

// Shares received by a switch, over and over from the state after those that fill it.
#[unsafe(no_mangle)]
pub extern "C" fn timed_received(
    id: u8,
    n: u8,
    keys: &[u8],
    filling: &[u8],
    shares: &[u8],
    times: u32,
) -> u64
    ensures { result < 2 ^ 45 }
{
    let state = filled(id, n, keys, filling);
    let mut sum = 0;
    for _ in 0..times {
        let r = receive_all(state, keys, shares, sum);
        sum = mix(mix(r.sum, r.state.last), (r.state.table.count % 256) as u32);
    }
    sum
}

// The state with another cause in its event, so that no two calls in a row are at the same state: a compiler might ask
// question 20 of it once for all turns.
fn stirred(s: Switch, cause: u8) -> Switch {
    let mut next = s;
    next.raised.cause = cause;
    next
}

fn looked_number(looked: Result<Option<u16>, u8>) -> u32 {
    match looked {
        Err(k) => 0x1_0000 + (k as u32),
        Ok(None) => 0,
        Ok(Some(port)) => port as u32,
    }
}

// Lookups at a switch, of addresses that are a step apart.
#[unsafe(no_mangle)]
pub extern "C" fn timed_looked_up(
    id: u8,
    n: u8,
    keys: &[u8],
    filling: &[u8],
    step: u32,
    times: u32,
) -> u64
    ensures { result < 2 ^ 45 }
{
    let mut state = filled(id, n, keys, filling);
    let mut address: u32 = 0;
    let mut sum = 0;
    for _ in 0..times {
        let port = looked_number(switch::lookup(state, address));
        state = stirred(state, (port % 256) as u8);
        sum = mix(sum, port);
        address = address.wrapping_add(step);
    }
    sum
}

// Lookups in the table of a switch, as forwarding makes them: question 20 is not asked.
#[unsafe(no_mangle)]
pub extern "C" fn timed_forwarded(
    id: u8,
    n: u8,
    keys: &[u8],
    filling: &[u8],
    step: u32,
    times: u32,
) -> u64
    ensures { result < 2 ^ 45 }
{
    let table = filled(id, n, keys, filling).table;
    let mut address: u32 = 0;
    let mut sum = 0;
    for _ in 0..times {
        sum = mix(sum, flow::lookup(table, address).map_or(0, u32::from));
        address = address.wrapping_add(step);
    }
    sum
}

// One message for a controller, written at an offset of a frame: the last raised event, or the acknowledgement.
fn write_one(
    s: Switch,
    event: bool,
    keys: &[u8],
    controller: u8,
    frame: &mut [u8],
    at: usize,
    before: u64,
) -> u64
    ensures { result < 2 ^ 45 }
{
    if event {
        let r = switch::write_event(s, keys, controller, frame, at);
        mix(before, r.answer as u32)
    } else {
        let r = switch::write_acknowledgement(s, keys, controller, frame, at);
        mix(before, r.answer as u32)
    }
}

// Events of a switch, or acknowledgements, written at an offset of a frame. For a controller past the last one they are
// refused right after the state's own questions.
#[unsafe(no_mangle)]
pub extern "C" fn timed_written(
    id: u8,
    n: u8,
    keys: &[u8],
    filling: &[u8],
    event: bool,
    controller: u8,
    frame: &mut [u8],
    at: usize,
    times: u32,
) -> u64
    ensures { (length frame.new ≡ length frame.old) × (result < 2 ^ 45) }
{
    let state = switch::raise(filled(id, n, keys, filling), 0).state;
    let mut sum = 0;
    for i in 0..times {
        let turned = stirred(state, (i % 256) as u8);
        sum = write_one(turned, event, keys, controller, frame, at, sum);
    }
    sum
}

// Calls at one controller.
ghost use Rattle.std.specs.Prelude.{◌≡◌, ◌^◌, ◌<◌, length};

use crate::turns::mix;
use controller::Controller;

const ACKNOWLEDGEMENT: usize = message::layout::ACKNOWLEDGEMENT_LENGTH;

// What calls did: the state after them, and the sum of their answers.
#[derive(Clone, Copy)]
struct Called {
    state: Controller,
    sum: u64,
}

// A controller with the playbook that bytes are.
fn set_up(id: u8, n: u8, book: &[u8]) -> Controller {
    controller::setup(id, n, playbook::read(book).playbook).state
}

// Acknowledgements received one after another, the bytes of each behind those of the one before.
fn receive_all(
    controller: Controller,
    keys: &[u8],
    acknowledgements: &[u8],
    before: u64,
) -> Called {
    let mut state = controller;
    let mut sum = before;
    for acknowledgement in acknowledgements.chunks_exact(ACKNOWLEDGEMENT) {
        let r = controller::receive(state, keys, acknowledgement);
        state = r.state;
        sum = mix(sum, r.answer as u32);
    }
    Called { state, sum }
}

// Decisions on one trigger, with the serials from 1 on.
fn decide_all(controller: Controller, switch: u8, cause: u8, times: u32) -> Called {
    let mut state = controller;
    let mut sum = 0;
    for i in 0..times {
        let r = controller::decide(state, switch, i + 1, cause);
        state = r.state;
        sum = mix(sum, r.answer as u32);
    }
    Called { state, sum }
}

impl Called {
    // The sum of the calls, with the last number given and how many changes are undone.
    fn told(self) -> u64
        ensures { result < 2 ^ 45 }
    {
        let progress = self.state.progress;
        mix(
            mix(self.sum, progress.last),
            (progress.undone.count % 256) as u32,
        )
    }
}

// Decisions on one trigger, after acknowledgements. On a switch past the last one they are refused right after question
// 20.
#[unsafe(no_mangle)]
pub extern "C" fn timed_decided(
    id: u8,
    n: u8,
    keys: &[u8],
    book: &[u8],
    acknowledgements: &[u8],
    switch: u8,
    cause: u8,
    times: u32,
) -> u64
    ensures { result < 2 ^ 45 }
{
    let begun = receive_all(set_up(id, n, book), keys, acknowledgements, 0);
    decide_all(begun.state, switch, cause, times).told()
}

// Acknowledgements received, over and over from the state after so many decisions on one trigger.
#[unsafe(no_mangle)]
pub extern "C" fn timed_acknowledged(
    id: u8,
    n: u8,
    keys: &[u8],
    book: &[u8],
    switch: u8,
    cause: u8,
    decisions: u32,
    acknowledgements: &[u8],
    times: u32,
) -> u64
    ensures { result < 2 ^ 45 }
{
    let state = decide_all(set_up(id, n, book), switch, cause, decisions).state;
    let mut sum = 0;
    for _ in 0..times {
        sum = receive_all(state, keys, acknowledgements, sum).told();
    }
    sum
}

// A decision on a trigger before each acknowledgement.
fn take_turns(
    controller: Controller,
    keys: &[u8],
    switch: u8,
    cause: u8,
    acknowledgements: &[u8],
    before: u64,
) -> Called {
    let mut state = controller;
    let mut sum = before;
    let mut serial: u32 = 0;
    for acknowledgement in acknowledgements.chunks_exact(ACKNOWLEDGEMENT) {
        serial = serial.wrapping_add(1);
        let decided = controller::decide(state, switch, serial, cause);
        let received = controller::receive(decided.state, keys, acknowledgement);
        state = received.state;
        sum = mix(mix(sum, decided.answer as u32), received.answer as u32);
    }
    Called { state, sum }
}

// Decisions on one trigger and acknowledgements in turn, over and over from the state after setup.
#[unsafe(no_mangle)]
pub extern "C" fn timed_in_turn(
    id: u8,
    n: u8,
    keys: &[u8],
    book: &[u8],
    switch: u8,
    cause: u8,
    acknowledgements: &[u8],
    times: u32,
) -> u64
    ensures { result < 2 ^ 45 }
{
    let state = set_up(id, n, book);
    let mut sum = 0;
    for _ in 0..times {
        sum = take_turns(state, keys, switch, cause, acknowledgements, sum).told();
    }
    sum
}

// The state with another last number given in each turn, so that no two calls in a row are at the same state: a compiler
// might ask question 20 of it once for all turns.
fn stirred(c: Controller, turn: u32) -> Controller {
    let mut next = c;
    next.progress.last = u32::MAX - turn;
    next
}

fn write_one(
    c: Controller,
    keys: &[u8],
    receiver: u8,
    frame: &mut [u8],
    at: usize,
    before: u64,
) -> u64
    ensures { result < 2 ^ 45 }
{
    let r = controller::write_share(c, keys, receiver, frame, at);
    mix(before, r.answer as u32)
}

// Shares for a switch, written at an offset of a frame by a controller after so many decisions on one trigger.
#[unsafe(no_mangle)]
pub extern "C" fn timed_share_written(
    id: u8,
    n: u8,
    keys: &[u8],
    book: &[u8],
    switch: u8,
    cause: u8,
    decisions: u32,
    receiver: u8,
    frame: &mut [u8],
    at: usize,
    times: u32,
) -> u64
    ensures { (length frame.new ≡ length frame.old) × (result < 2 ^ 45) }
{
    let state = decide_all(set_up(id, n, book), switch, cause, decisions).state;
    let mut sum = 0;
    for i in 0..times {
        sum = write_one(stirred(state, i), keys, receiver, frame, at, sum);
    }
    sum
}

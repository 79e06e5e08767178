// The calls at a switch.
ghost use Rattle.std.specs.Prelude.{◌≡◌};
ghost use Rattle.switch.specs.Raising.{next_event};

use crate::frames;
use crate::places::put;
use cases::{Hex, WholeRule, action_of, u16_at, u32_at};
use flow::{Entry, Rule};
use lists::byte_at;
use prose::Out;
use std::fmt;
use std::fmt::Write;
use switch::{Raised, Reply, Slot, Stepped, Switch};

#[derive(Clone, Copy)]
pub(crate) enum Call {
    SetUp,
    Receive,
    Raise,
    RaiseInPlace,
    WriteEvent,
    WriteAcknowledgement,
    LookUp,
    Forward,
    CountQuorum,
    Alter,
}

// An entry of an unused place.
fn entry_empty(e: &Entry) -> bool {
    e.prefix == 0 && e.length == 0 && e.port == 0
}

// A slot that holds nothing.
fn slot_empty(slot: &Slot) -> bool {
    slot.number == 0 && flow::rule_empty(slot.rule)
}

// The answer and the state.
#[derive(Clone, Copy)]
struct ReplyFields<'a>(&'a Reply);

impl fmt::Display for ReplyFields<'_> {
    fn fmt<W: fmt::Write>(&self, f: &mut fmt::Formatter<W>) -> fmt::Result {
        let s = &self.0.state;
        write!(
            f,
            " {} state {} {} {} {} {} count {}",
            self.0.answer, s.id, s.n, s.last, s.raised.serial, s.raised.cause, s.table.count
        )?;
        for (i, e) in s.table.entries.iter().enumerate() {
            if !entry_empty(e) {
                write!(f, " entry {i} {} {} {}", e.prefix, e.length, e.port)?;
            }
        }
        for (i, slot) in s.slots.iter().enumerate() {
            if !slot_empty(slot) {
                write!(f, " slot {i} {} {}", slot.number, WholeRule(slot.rule))?;
            }
        }
        Ok(())
    }
}

// What a lookup finds.
#[derive(Clone, Copy)]
struct Found(Option<u16>);

impl fmt::Display for Found {
    fn fmt<W: fmt::Write>(&self, f: &mut fmt::Formatter<W>) -> fmt::Result {
        match self.0 {
            None => write!(f, "nothing"),
            Some(port) => write!(f, "port {port}"),
        }
    }
}

// A call is made at a switch where it stands: a state handed out in a result would be cleared for each call.
fn set_up(out: &mut Out, s: &mut Switch, body: &[u8]) -> fmt::Result {
    let r = switch::setup(byte_at(body, 0), byte_at(body, 1));
    *s = r.state;
    write!(out, " setup{}", ReplyFields(&r))
}

fn receive(out: &mut Out, s: &mut Switch, keys: &[u8], body: &[u8]) -> fmt::Result {
    let r = switch::receive(*s, keys, body);
    *s = r.state;
    write!(out, " received{}", ReplyFields(&r))
}

fn raise(out: &mut Out, s: &mut Switch, body: &[u8]) -> fmt::Result {
    let r = switch::raise(*s, byte_at(body, 0));
    *s = r.state;
    write!(out, " raised{}", ReplyFields(&r))
}

// An event is lent, raised in place and read again.
fn raised_in_place(was: Raised, cause: u8) -> Stepped
    ensures { result ≡ next_event was cause }
{
    let mut event = was;
    let answer = switch::raise_in_place(&mut event, cause);
    Stepped {
        answer,
        raised: event,
    }
}

// The switch's own event, raised in place: question 20 is not asked.
fn raise_in_place(out: &mut Out, s: &mut Switch, body: &[u8]) -> fmt::Result {
    let step = raised_in_place(s.raised, byte_at(body, 0));
    s.raised = step.raised;
    let r = Reply {
        answer: step.answer,
        state: *s,
    };
    write!(out, " raised in place{}", ReplyFields(&r))
}

// What is written, and the frame printed whole.
fn written(out: &mut Out, s: &mut Switch, r: &Reply, frame: &[u8; frames::SIZE]) -> fmt::Result {
    *s = r.state;
    write!(out, " written{} frame {}", ReplyFields(r), Hex(frame))
}

fn write_event(out: &mut Out, s: &mut Switch, keys: &[u8], body: &[u8]) -> fmt::Result {
    let at = frames::offset_of(body);
    let n = frames::lent_of(body, frames::SIZE);
    let mut frame = [0xee; frames::SIZE];
    let r = switch::write_event(*s, keys, byte_at(body, 1), &mut frame[..n], at);
    written(out, s, &r, &frame)
}

fn write_acknowledgement(out: &mut Out, s: &mut Switch, keys: &[u8], body: &[u8]) -> fmt::Result {
    let at = frames::offset_of(body);
    let n = frames::lent_of(body, frames::SIZE);
    let mut frame = [0xee; frames::SIZE];
    let r = switch::write_acknowledgement(*s, keys, byte_at(body, 1), &mut frame[..n], at);
    written(out, s, &r, &frame)
}

fn look_up(out: &mut Out, s: &Switch, body: &[u8]) -> fmt::Result {
    match switch::lookup(*s, u32_at(body, 0)) {
        Err(k) => write!(out, " looked up refused {k}"),
        Ok(found) => write!(out, " looked up {}", Found(found)),
    }
}

fn forward(out: &mut Out, s: &Switch, body: &[u8]) -> fmt::Result {
    let found = flow::lookup(s.table, u32_at(body, 0));
    write!(out, " forwarded {}", Found(found))
}

fn count_quorum(out: &mut Out, body: &[u8]) -> fmt::Result {
    write!(out, " quorum {}", switch::quorum(byte_at(body, 0)))
}

fn raised_at(b: &[u8]) -> Raised {
    Raised {
        serial: u32_at(b, 1),
        cause: byte_at(b, 5),
    }
}

fn slot_in(b: &[u8]) -> Slot {
    Slot {
        number: u32_at(b, 2),
        rule: Rule {
            prefix: u32_at(b, 6),
            length: byte_at(b, 10),
            action: action_of(byte_at(b, 11), u16_at(b, 12)),
        },
    }
}

fn entry_in(b: &[u8]) -> Entry {
    Entry {
        prefix: u32_at(b, 2),
        length: byte_at(b, 6),
        port: u16_at(b, 7),
    }
}

// One field of the state altered, by its number in tests/DRIVE.md.
fn alter_field(next: &mut Switch, b: &[u8]) {
    let x = byte_at(b, 1);
    let i = x as usize;
    match byte_at(b, 0) {
        0 => next.id = x,
        1 => next.n = x,
        2 => next.last = u32_at(b, 1),
        3 => next.raised = raised_at(b),
        4 => put(&mut next.slots, i, slot_in(b)),
        5 => put(&mut next.table.entries, i, entry_in(b)),
        6 => next.table.count = i,
        _ => {}
    }
}

fn alter(out: &mut Out, s: &mut Switch, body: &[u8]) -> fmt::Result {
    alter_field(s, body);
    write!(out, " altered")
}

// A call made at a switch.
pub(crate) fn make(
    out: &mut Out,
    s: &mut Switch,
    keys: &[u8],
    call: Call,
    body: &[u8],
) -> fmt::Result {
    match call {
        Call::SetUp => set_up(out, s, body),
        Call::Receive => receive(out, s, keys, body),
        Call::Raise => raise(out, s, body),
        Call::RaiseInPlace => raise_in_place(out, s, body),
        Call::WriteEvent => write_event(out, s, keys, body),
        Call::WriteAcknowledgement => write_acknowledgement(out, s, keys, body),
        Call::LookUp => look_up(out, s, body),
        Call::Forward => forward(out, s, body),
        Call::CountQuorum => count_quorum(out, body),
        Call::Alter => alter(out, s, body),
    }
}

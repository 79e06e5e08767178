// The calls at a controller.
use crate::books::{Book, Counts};
use crate::frames;
use crate::places::put;
use cases::{Hex, WholeRule, action_of, u16_at, u32_at};
use controller::{Controller, Held, Reply, Undone};
use flow::Rule;
use lists::byte_at;
use playbook::{Change, Plan, Playbook};
use prose::Out;
use std::fmt;
use std::fmt::Write;

#[derive(Clone, Copy)]
pub(crate) enum Call {
    SetUp,
    Receive,
    Decide,
    Write,
    ShowBook,
    Alter,
}

// An undone change of an unused place.
fn undone_empty(u: &Undone) -> bool {
    u.number == 0 && u.first == 0 && u.flow == 0 && u.switch == 0 && flow::rule_empty(u.rule)
}

// The numbers above 0, each after its place.
#[derive(Clone, Copy)]
struct Numbers<'a> {
    name: &'static str,
    numbers: &'a [u32],
}

impl fmt::Display for Numbers<'_> {
    fn fmt<W: fmt::Write>(&self, f: &mut fmt::Formatter<W>) -> fmt::Result {
        for (i, k) in self.numbers.iter().enumerate() {
            if *k != 0 {
                write!(f, " {} {i} {k}", self.name)?;
            }
        }
        Ok(())
    }
}

#[derive(Clone, Copy)]
struct HeldFields<'a>(&'a Held);

impl fmt::Display for HeldFields<'_> {
    fn fmt<W: fmt::Write>(&self, f: &mut fmt::Formatter<W>) -> fmt::Result {
        write!(f, " count {}", self.0.count)?;
        for (i, u) in self.0.changes.iter().enumerate() {
            if !undone_empty(u) {
                write!(
                    f,
                    " undone {i} {} {} {} {} {}",
                    u.number,
                    u.first,
                    u.flow,
                    u.switch,
                    WholeRule(u.rule)
                )?;
            }
        }
        Ok(())
    }
}

// The answer, what is offered and the state.
#[derive(Clone, Copy)]
struct ReplyFields<'a>(&'a Reply);

impl fmt::Display for ReplyFields<'_> {
    fn fmt<W: fmt::Write>(&self, f: &mut fmt::Formatter<W>) -> fmt::Result {
        let c = &self.0.state;
        write!(f, " {}", self.0.answer)?;
        if let Some(event) = self.0.offer {
            write!(
                f,
                " offered {} {} {}",
                event.switch, event.serial, event.cause
            )?;
        }
        write!(
            f,
            " state {} {} {}{}",
            c.id,
            c.n,
            c.progress.last,
            Counts(&c.playbook)
        )?;
        let acknowledged = Numbers {
            name: "acknowledged",
            numbers: &c.progress.acknowledged,
        };
        let serials = Numbers {
            name: "serial",
            numbers: &c.progress.serials,
        };
        write!(
            f,
            "{acknowledged}{serials}{}",
            HeldFields(&c.progress.undone)
        )
    }
}

// A call is made at a controller where it stands: a state handed out in a result would be cleared for each call.
fn set_up(out: &mut Out, c: &mut Controller, book: &Playbook, body: &[u8]) -> fmt::Result {
    let r = controller::setup(byte_at(body, 0), byte_at(body, 1), *book);
    *c = r.state;
    write!(out, " setup{}", ReplyFields(&r))
}

fn receive(out: &mut Out, c: &mut Controller, keys: &[u8], body: &[u8]) -> fmt::Result {
    let r = controller::receive(*c, keys, body);
    *c = r.state;
    write!(out, " received{}", ReplyFields(&r))
}

fn decide(out: &mut Out, c: &mut Controller, body: &[u8]) -> fmt::Result {
    let r = controller::decide(*c, byte_at(body, 0), u32_at(body, 1), byte_at(body, 5));
    *c = r.state;
    write!(out, " decided{}", ReplyFields(&r))
}

fn write(out: &mut Out, c: &mut Controller, keys: &[u8], body: &[u8]) -> fmt::Result {
    let switch = byte_at(body, 1);
    let at = frames::offset_of(body);
    let n = frames::lent_of(body, frames::SIZE);
    let mut frame = [0xee; frames::SIZE];
    let r = controller::write_share(*c, keys, switch, &mut frame[..n], at);
    *c = r.state;
    write!(out, " written{} frame {}", ReplyFields(&r), Hex(&frame))
}

fn show_book(out: &mut Out, c: &Controller) -> fmt::Result {
    write!(out, " holds{}", Book(&c.playbook))
}

fn rule_at(b: &[u8], place: u8) -> Rule {
    let p = place.min(200);
    Rule {
        prefix: u32_at(b, p),
        length: byte_at(b, (p + 4) as usize),
        action: action_of(byte_at(b, (p + 5) as usize), u16_at(b, p + 6)),
    }
}

fn undone_in(b: &[u8]) -> Undone {
    Undone {
        number: u32_at(b, 2),
        first: u32_at(b, 6),
        flow: byte_at(b, 10),
        switch: byte_at(b, 11),
        rule: rule_at(b, 12),
    }
}

fn plan_in(b: &[u8]) -> Plan {
    Plan {
        switch: byte_at(b, 2),
        cause: byte_at(b, 3),
        first: u16_at(b, 4) as usize,
        count: byte_at(b, 6) as usize,
    }
}

fn change_in(b: &[u8]) -> Change {
    Change {
        flow: byte_at(b, 3),
        switch: byte_at(b, 4),
        rule: rule_at(b, 5),
    }
}

// One field of the state altered, by its number in tests/DRIVE.md.
fn alter_field(next: &mut Controller, b: &[u8]) {
    let x = byte_at(b, 1);
    let i = x as usize;
    match byte_at(b, 0) {
        0 => next.id = x,
        1 => next.n = x,
        2 => next.progress.last = u32_at(b, 1),
        3 => put(&mut next.progress.acknowledged, i, u32_at(b, 2)),
        4 => put(&mut next.progress.serials, i, u32_at(b, 2)),
        5 => put(&mut next.progress.undone.changes, i, undone_in(b)),
        6 => next.progress.undone.count = i,
        7 => {
            next.playbook.planned = i;
            next.playbook.listed = u16_at(b, 2) as usize;
        }
        8 => put(&mut next.playbook.plans, i, plan_in(b)),
        9 => put(
            &mut next.playbook.changes,
            u16_at(b, 1) as usize,
            change_in(b),
        ),
        _ => {}
    }
}

fn alter(out: &mut Out, c: &mut Controller, body: &[u8]) -> fmt::Result {
    alter_field(c, body);
    write!(out, " altered")
}

// A call made at a controller; a setup takes the playbook.
pub(crate) fn make(
    out: &mut Out,
    c: &mut Controller,
    book: &Playbook,
    keys: &[u8],
    call: Call,
    body: &[u8],
) -> fmt::Result {
    match call {
        Call::SetUp => set_up(out, c, book, body),
        Call::Receive => receive(out, c, keys, body),
        Call::Decide => decide(out, c, body),
        Call::Write => write(out, c, keys, body),
        Call::ShowBook => show_book(out, c),
        Call::Alter => alter(out, c, body),
    }
}

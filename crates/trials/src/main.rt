// Runs the cases of standard input through message and playbook, and prints a line for each. A case is a letter, two
// bytes of length and that many bytes. tests/trials.py makes the cases, and works out the lines from document 01 alone.
#![tactic(auto)]

use cases::{Hex, RuleFields, action_of, u16_at, u32_at};
use flow::{Action, Rule};
use lists::byte_at;
use message::{End, Message};
use playbook::{Change, Outcome, Plan, Playbook};
use prose::Out;
use std::fmt;
use std::fmt::Write;

const STDIN_FILENO: i32 = 0;

// The key of every message here.
const KEY: [u8; 32] = [0x0b; 32];

// How many bytes a frame has at most.
const FRAME: usize = cases::FRAME;

// A message with its fields.
#[derive(Clone, Copy)]
struct MessageFields(Message);

impl fmt::Display for MessageFields {
    fn fmt<W: fmt::Write>(&self, f: &mut fmt::Formatter<W>) -> fmt::Result {
        match self.0 {
            Message::Event {
                switch,
                controller,
                serial,
                cause,
            } => write!(f, "event {switch} {controller} {serial} {cause}"),
            Message::Share {
                controller,
                switch,
                number,
                rule,
            } => write!(
                f,
                "share {controller} {switch} {number} {}",
                RuleFields(rule)
            ),
            Message::Acknowledgement {
                switch,
                controller,
                number,
            } => write!(f, "acknowledgement {switch} {controller} {number}"),
            Message::Refused(k) => write!(f, "refused {k}"),
        }
    }
}

// Bytes received at an end: the message, its answer, and whether its tag matches.
fn receive(out: &mut Out, end: End, s: &[u8]) -> fmt::Result {
    let m = message::read(end, s);
    let sealed = if message::is_sealed(&KEY, s) {
        "sealed"
    } else {
        "not sealed"
    };
    writeln!(
        out,
        "{} answer {} {sealed}",
        MessageFields(m),
        message::number(m)
    )
}

fn share_of(s: &[u8]) -> Message {
    let prefix = u32_at(s, 16);
    let port = u16_at(s, 22);
    let action = action_of(byte_at(s, 21), port);
    let rule = Rule {
        prefix: prefix,
        length: byte_at(s, 20),
        action: action,
    };
    Message::Share {
        controller: byte_at(s, 10),
        switch: byte_at(s, 11),
        number: u32_at(s, 12),
        rule: rule,
    }
}

// The message to write: its kind at 9, its fields from 10 on.
fn message_of(s: &[u8]) -> Message {
    let number = u32_at(s, 12);
    match byte_at(s, 9) {
        1 => Message::Event {
            switch: byte_at(s, 10),
            controller: byte_at(s, 11),
            serial: number,
            cause: byte_at(s, 16),
        },
        2 => share_of(s),
        3 => Message::Acknowledgement {
            switch: byte_at(s, 10),
            controller: byte_at(s, 11),
            number: number,
        },
        _ => Message::Refused(byte_at(s, 10)),
    }
}

fn offset_of(s: &[u8]) -> usize {
    let high = u64::from(u32_at(s, 1));
    let low = u64::from(u32_at(s, 5));
    (high * 0x1_0000_0000 + low) as usize
}

// A message written into the front of a frame, as many bytes as the case's first byte says, or all: the answer.
fn write_into(frame: &mut [u8], s: &[u8]) -> u8 {
    let m = message_of(s);
    let at = offset_of(s);
    let n = byte_at(s, 0) as usize;
    if n < frame.len() {
        message::write(m, &KEY, &mut frame[0..n], at)
    } else {
        message::write(m, &KEY, frame, at)
    }
}

// A message written into a frame, and the whole frame afterwards.
fn write(out: &mut Out, s: &[u8]) -> fmt::Result {
    let mut space = [0xeeu8; FRAME];
    let answer = write_into(&mut space, s);
    writeln!(out, "written {answer} {}", Hex(&space))
}

#[derive(Clone, Copy)]
struct PlanFields(Plan);

impl fmt::Display for PlanFields {
    fn fmt<W: fmt::Write>(&self, f: &mut fmt::Formatter<W>) -> fmt::Result {
        let Plan {
            switch,
            cause,
            first,
            count,
        } = self.0;
        write!(f, "plan {switch} {cause} {first} {count}")
    }
}

#[derive(Clone, Copy)]
struct ChangeFields(Change);

impl fmt::Display for ChangeFields {
    fn fmt<W: fmt::Write>(&self, f: &mut fmt::Formatter<W>) -> fmt::Result {
        let Change { flow, switch, rule } = self.0;
        write!(f, "change {flow} {switch} {}", RuleFields(rule))
    }
}

// Whether a store is such as its reader stores.
fn stored(p: Playbook) -> &'static str {
    if playbook::stored(p) {
        "stored"
    } else {
        "not stored"
    }
}

fn say_outcome(out: &mut Out, r: Outcome) -> fmt::Result {
    let p = r.playbook;
    write!(
        out,
        "{} {} {} {} {}",
        r.answer,
        r.used,
        p.planned,
        p.listed,
        stored(p)
    )
}

// A playbook as the whole input, and at its front.
fn read(out: &mut Out, s: &[u8]) -> fmt::Result {
    write!(out, "whole ")?;
    say_outcome(out, playbook::read(s))?;
    write!(out, " first ")?;
    say_outcome(out, playbook::read_first(s))?;
    writeln!(out)
}

// The store of a playbook, and the plan of the trigger in the first two bytes.
fn show(out: &mut Out, s: &[u8]) -> fmt::Result {
    let [switch, cause, book @ ..] = s else {
        return Ok(());
    };
    let p = playbook::read(book).playbook;
    write!(out, "store")?;
    for plan in p.plans.iter().take(p.planned) {
        write!(out, " {}", PlanFields(*plan))?;
    }
    for change in p.changes.iter().take(p.listed) {
        write!(out, " {}", ChangeFields(*change))?;
    }
    writeln!(
        out,
        " finds {}",
        PlanFields(playbook::plan_of(p, *switch, *cause))
    )
}

fn with_plan(mut p: Playbook, at: usize, plan: Plan) -> Playbook {
    if let Some(place) = p.plans.get_mut(at) {
        *place = plan;
    }
    p
}

fn with_change(mut p: Playbook, at: usize, change: Change) -> Playbook {
    if let Some(place) = p.changes.get_mut(at) {
        *place = change;
    }
    p
}

// A change of flow 0.
fn change_of(switch: u8, prefix: u32, length: u8, action: Action) -> Change {
    Change {
        flow: 0,
        switch: switch,
        rule: Rule {
            prefix: prefix,
            length: length,
            action: action,
        },
    }
}

fn plan_of(switch: u8, cause: u8, first: usize, count: usize) -> Plan {
    Plan {
        switch: switch,
        cause: cause,
        first: first,
        count: count,
    }
}

fn recounted(mut p: Playbook, planned: usize, listed: usize) -> Playbook {
    p.planned = planned;
    p.listed = listed;
    p
}

// A store with one thing altered, by its number.
fn damaged(p: Playbook, what: u8) -> Playbook {
    let q = p.plans[0];
    match what {
        1 => recounted(p, 65, p.listed),
        2 => recounted(p, p.planned, 513),
        3 => recounted(p, 1, p.listed),
        4 => recounted(p, p.planned, 1),
        5 => with_plan(p, 0, plan_of(16, q.cause, q.first, q.count)),
        6 => with_plan(p, 0, plan_of(q.switch, q.cause, 1, q.count)),
        7 => with_plan(p, 0, plan_of(q.switch, q.cause, q.first, 33)),
        8 => with_plan(p, 1, plan_of(q.switch, q.cause, 2, 1)),
        9 => with_plan(p, 63, plan_of(0, 1, 0, 0)),
        10 => with_change(p, 0, change_of(16, 0, 0, Action::Remove)),
        11 => with_change(p, 0, change_of(0, 0, 33, Action::Remove)),
        12 => with_change(p, 0, change_of(0, 0, 0, Action::Set(0))),
        13 => with_change(p, 511, change_of(1, 0, 0, Action::Remove)),
        _ => p,
    }
}

// The first n changes on switch 0, each with another prefix.
fn spread(mut p: Playbook, n: u8) -> Playbook {
    for i in 0..n {
        p.changes[usize::from(i)] = change_of(0, u32::from(i) * 65536, 16, Action::Remove);
    }
    p
}

// The store of a playbook, damaged as the first byte says, or spread over as many prefixes as the second says.
fn damage(out: &mut Out, s: &[u8]) -> fmt::Result {
    let [what, n, book @ ..] = s else {
        return Ok(());
    };
    let p = playbook::read(book).playbook;
    let altered = if *n == 0 {
        damaged(p, *what)
    } else {
        spread(p, *n)
    };
    writeln!(out, "damaged {what} {}", stored(altered))
}

fn run_case(out: &mut Out, letter: u8, s: &[u8]) -> fmt::Result {
    match letter {
        b'S' => receive(out, End::Switch, s),
        b'C' => receive(out, End::Controller, s),
        b'W' => write(out, s),
        b'P' => read(out, s),
        b'L' => show(out, s),
        b'D' => damage(out, s),
        _ => writeln!(out, "unknown case"),
    }
}

fn run(out: &mut Out, s: &[u8]) -> fmt::Result {
    let mut rest = s;
    while let [letter, high, low, behind @ ..] = rest {
        let n = usize::from(lists::u16_of(*high, *low));
        if behind.len() < n {
            return writeln!(out, "cut case");
        }
        run_case(out, *letter, &behind[..n])?;
        rest = &behind[n..];
    }
    Ok(())
}

fn main() -> fmt::Result {
    let mut out = Out::new();
    let mut space = io::large_buffer();
    let n = io::read_full(STDIN_FILENO, &mut space);
    let said = run(&mut out, &space[..n]);
    out.end();
    said
}

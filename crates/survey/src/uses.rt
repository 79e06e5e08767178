// What a playbook uses of each limit, a line each.
use crate::keys::keys_on;
use answer::limits;
use playbook::{Change, Plan, Playbook};
use prose::Out;
use std::fmt;
use std::fmt::Write;

// How much of a limit is used.
#[derive(Clone, Copy)]
pub(crate) struct Use {
    pub(crate) used: usize,
    pub(crate) most: usize,
    pub(crate) what: &'static str,
}

impl fmt::Display for Use {
    fn fmt<W: fmt::Write>(&self, f: &mut fmt::Formatter<W>) -> fmt::Result {
        write!(f, "{} of {} {}", self.used, self.most, self.what)
    }
}

// How many records a playbook has: its plans, its changes and its end.
pub(crate) fn records_of(book: &Playbook) -> usize {
    book.planned.saturating_add(book.listed).saturating_add(1)
}

// The first plan with the most changes, if any has one.
fn longest(book: &Playbook) -> Option<Plan> {
    book.plans
        .iter()
        .take(book.planned)
        .copied()
        .filter(|plan| plan.count != 0)
        .reduce(|first, plan| if first.count < plan.count {
            plan
        } else {
            first
        })
}

fn say_longest(out: &mut Out, book: &Playbook) -> fmt::Result {
    let found = longest(book);
    let in_one = Use {
        used: found.map_or(0, |plan| plan.count),
        most: playbook::limits::CHANGES_OF_PLAN,
        what: "changes in one plan",
    };
    match found {
        None => writeln!(out, "{in_one}"),
        Some(plan) => writeln!(
            out,
            "{in_one}, that of switch {} and cause {}",
            plan.switch, plan.cause
        ),
    }
}

fn say_keys(out: &mut Out, book: &Playbook) -> fmt::Result {
    for switch in 0..limits::SWITCHES {
        let on_switch = Use {
            used: keys_on(switch, changes_of(book)),
            most: playbook::limits::KEYS,
            what: "prefixes with lengths on switch",
        };
        if on_switch.used != 0 {
            writeln!(out, "{on_switch} {switch}")?;
        }
    }
    Ok(())
}

// The changes of the playbook.
fn changes_of(book: &Playbook) -> &[Change] {
    book.changes.get(..book.listed).unwrap_or(&[])
}

pub(crate) fn say_uses(out: &mut Out, book: &Playbook) -> fmt::Result {
    let plans = Use {
        used: book.planned,
        most: playbook::limits::PLANS,
        what: "plans",
    };
    let changes = Use {
        used: book.listed,
        most: playbook::limits::CHANGES,
        what: "changes",
    };
    writeln!(out, "{plans}\n{changes}")?;
    say_longest(out, book)?;
    say_keys(out, book)
}

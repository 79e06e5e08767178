// Playbooks, read and printed. Each begins with the space before it.
use cases::WholeRule;
use playbook::{Change, Plan, Playbook};
use prose::Out;
use std::fmt;
use std::fmt::Write;

// A plan of an unused place.
fn plan_empty(q: &Plan) -> bool {
    q.switch == 0 && q.cause == 0 && q.first == 0 && q.count == 0
}

// A change of an unused place.
fn change_empty(x: &Change) -> bool {
    x.flow == 0 && x.switch == 0 && flow::rule_empty(x.rule)
}

/// How many plans and changes a playbook has.
#[derive(Clone, Copy)]
pub(crate) struct Counts<'a>(pub(crate) &'a Playbook);

impl fmt::Display for Counts<'_> {
    fn fmt<W: fmt::Write>(&self, f: &mut fmt::Formatter<W>) -> fmt::Result {
        write!(f, " book {} {}", self.0.planned, self.0.listed)
    }
}

/// A playbook, but for its unused places.
#[derive(Clone, Copy)]
pub(crate) struct Book<'a>(pub(crate) &'a Playbook);

impl fmt::Display for Book<'_> {
    fn fmt<W: fmt::Write>(&self, f: &mut fmt::Formatter<W>) -> fmt::Result {
        write!(f, "{}", Counts(self.0))?;
        for (i, q) in self.0.plans.iter().enumerate() {
            if !plan_empty(q) {
                write!(
                    f,
                    " plan {i} {} {} {} {}",
                    q.switch, q.cause, q.first, q.count
                )?;
            }
        }
        for (i, x) in self.0.changes.iter().enumerate() {
            if !change_empty(x) {
                write!(
                    f,
                    " change {i} {} {} {}",
                    x.flow,
                    x.switch,
                    WholeRule(x.rule)
                )?;
            }
        }
        Ok(())
    }
}

// The playbook of all the bytes.
pub(crate) fn read_whole(out: &mut Out, book: &mut Playbook, s: &[u8]) -> fmt::Result {
    let outcome = playbook::read(s);
    *book = outcome.playbook;
    write!(out, " read {}{}", outcome.answer, Book(book))
}

// The playbook of the bytes up to its end record.
pub(crate) fn read_first(out: &mut Out, book: &mut Playbook, s: &[u8]) -> fmt::Result {
    let outcome = playbook::read_first(s);
    *book = outcome.playbook;
    write!(
        out,
        " read first {} {}{}",
        outcome.answer,
        outcome.used,
        Book(book)
    )
}

// The playbook: each plan with its trigger, and its changes.
use playbook::{Change, Plan, Playbook};
use prose::Out;
use std::fmt;
use std::fmt::Write;
use story::RuleWords;

/// The changes of a plan.
pub(crate) fn changes_of<'a>(book: &'a Playbook, plan: &Plan) -> &'a [Change] {
    match book.changes.get(plan.first..) {
        None => &[],
        Some(changes) => changes.get(..plan.count).unwrap_or(changes),
    }
}

fn say_plan(out: &mut Out, book: &Playbook, plan: &Plan) -> fmt::Result {
    let changes = changes_of(book, plan);
    let what = if changes.is_empty() { " no change" } else { "" };
    writeln!(
        out,
        "when switch {} tells of cause {}:{what}",
        plan.switch, plan.cause
    )?;
    for change in changes {
        writeln!(
            out,
            "  flow {}, switch {}: {}",
            change.flow,
            change.switch,
            RuleWords(change.rule)
        )?;
    }
    Ok(())
}

pub(crate) fn say_plans(out: &mut Out, book: &Playbook) -> fmt::Result {
    for plan in book.plans.iter().take(book.planned) {
        say_plan(out, book, plan)?;
    }
    Ok(())
}

// How each controller stands to the agreed decisions, and what is told of it.
use crate::decisions::Decision;
use crate::ranges::{Named, chosen, either};
use crate::verdict::Verdict;
use prose::Out;
use std::fmt;
use std::fmt::Write;

/// What a controller took of the agreed decisions: all of them, the first ones, none, or others in their place.
#[derive(Clone, Copy, PartialEq, Eq)]
pub(crate) enum Standing {
    Complete,
    Late,
    Idle,
    Deviating,
}

pub(crate) fn standing_of(verdict: Verdict<'_>, controller: u8) -> Standing {
    let lists = verdict.lists;
    let took = lists.of(controller).len();
    if lists.first_difference(controller, verdict.agreed).is_some() {
        Standing::Deviating
    } else if took == lists.of(verdict.agreed).len() {
        Standing::Complete
    } else if took == 0 {
        Standing::Idle
    } else {
        Standing::Late
    }
}

// Whether some controller stands so.
fn has_any(verdict: Verdict<'_>, standing: Standing) -> bool {
    (0..verdict.world.n).any(|c| standing_of(verdict, c) == standing)
}

// Whether a decision is agreed, in another place.
#[derive(Clone, Copy)]
struct Elsewhere(Option<usize>);

impl fmt::Display for Elsewhere {
    fn fmt<W: fmt::Write>(&self, f: &mut fmt::Formatter<W>) -> fmt::Result {
        match self.0 {
            None => f.write_str(", which is not agreed"),
            Some(place) => write!(f, ", which is agreed decision {}", place.saturating_add(1)),
        }
    }
}

// Where a controller's decisions first differ from the agreed ones, and how.
#[derive(Clone, Copy)]
struct Deviation {
    controller: u8,
    place: usize,
    own: Decision,
    elsewhere: Elsewhere,
    agreed: Decision,
}

impl Deviation {
    fn of(verdict: Verdict<'_>, controller: u8) -> Option<Deviation> {
        let lists = verdict.lists;
        let place = lists.first_difference(controller, verdict.agreed)?;
        let own = lists.of(controller).get(place)?;
        let all = lists.of(verdict.agreed);
        let agreed = all.get(place)?;
        let elsewhere = all.iter().position(|decision| decision == own);
        Some(Deviation {
            controller,
            place,
            own: *own,
            elsewhere: Elsewhere(elsewhere),
            agreed: *agreed,
        })
    }
}

impl fmt::Display for Deviation {
    fn fmt<W: fmt::Write>(&self, f: &mut fmt::Formatter<W>) -> fmt::Result {
        let ordinal = self.place.saturating_add(1);
        write!(
            f,
            "controller {} deviates at decision {ordinal}: it took {}{}",
            self.controller, self.own, self.elsewhere
        )?;
        write!(f, "; agreed decision {ordinal} is {}", self.agreed)
    }
}

fn say_deviations(out: &mut Out, verdict: Verdict<'_>) -> fmt::Result {
    for controller in 0..verdict.world.n {
        if let Some(deviation) = Deviation::of(verdict, controller) {
            writeln!(out, "  {deviation}")?;
        }
    }
    Ok(())
}

// So many agreed decisions, of which some controllers took none or not all.
fn say_agreed(out: &mut Out, count: usize) -> fmt::Result {
    let are = either(count, "decision is", "decisions are");
    let them = either(count, "it", "them");
    writeln!(
        out,
        "  {count} {are} agreed; no controller deviates from {them}"
    )
}

// So many decisions, which all of n controllers took.
fn say_taken(out: &mut Out, n: u8, count: usize) -> fmt::Result {
    if n == 1 {
        let decisions = either(count, "decision", "decisions");
        writeln!(out, "  controller 0 took {count} {decisions}")
    } else if count == 1 {
        writeln!(out, "  all controllers took the same decision")
    } else {
        writeln!(
            out,
            "  all controllers took the same {count} decisions in the same order"
        )
    }
}

// The decisions where no controller deviates.
fn say_order(out: &mut Out, verdict: Verdict<'_>, count: usize) -> fmt::Result {
    if count == 0 {
        writeln!(out, "  no decision was taken")
    } else if has_any(verdict, Standing::Late) || has_any(verdict, Standing::Idle) {
        say_agreed(out, count)
    } else {
        say_taken(out, verdict.world.n, count)
    }
}

fn say_late(out: &mut Out, verdict: Verdict<'_>, count: usize) -> fmt::Result {
    for controller in 0..verdict.world.n {
        if standing_of(verdict, controller) == Standing::Late {
            let took = verdict.lists.of(controller).len();
            writeln!(
                out,
                "  controller {controller} took {took} of {count} agreed decisions"
            )?;
        }
    }
    Ok(())
}

fn say_idle(out: &mut Out, verdict: Verdict<'_>) -> fmt::Result {
    let idle = chosen(verdict.world.n, |c| {
        standing_of(verdict, c) == Standing::Idle
    });
    if idle.is_empty() {
        return Ok(());
    }
    let controllers = Named::controllers(idle.as_slice());
    writeln!(out, "  {controllers} took no decision")
}

pub(crate) fn say_decisions(out: &mut Out, verdict: Verdict<'_>) -> fmt::Result {
    let count = verdict.lists.of(verdict.agreed).len();
    if has_any(verdict, Standing::Deviating) {
        say_deviations(out, verdict)?;
    } else {
        say_order(out, verdict, count)?;
    }
    say_late(out, verdict, count)?;
    say_idle(out, verdict)
}

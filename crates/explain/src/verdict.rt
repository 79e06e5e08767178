// The verdict. Its definitions, in order:
// Of n controllers at most floor((n-1)/3) may stray.
// A controller's decisions are the switch, serial and cause of its records `decide` with answer 0, in order. Agreed is, of
// all controllers' lists, the one of which the most controllers' lists are a beginning; of several such the longest; of
// several such that of the lowest controller (decisions.rt).
// A controller deviates if its list is no beginning of the agreed one. It is late if its list is a shorter beginning of
// the agreed one (standings.rt).
// A controller is made up for if a `raw` share in its name arrived at a switch with a matching tag, and it made no share
// with this switch, number and rule by an earlier `send` or `keep` (shares.rt).
// Strays are those that deviate or are made up for. If they are more than may stray, nothing is promised.
// Agreed changes are those that the playbook plans for the agreed decisions, numbered from 1 in order. One is made if some
// record was answered 1 with its number, switch and rule (changes.rt).
// A controller was not told of its undone changes whose number is not above the last applied number of their switch
// (untold.rt). Usual refusals are 2, 16 and 26 (refusals.rt).
use crate::changes::{AgreedChanges, Applied, Making};
use crate::decisions::{Decisions, Lists};
use crate::ranges::{Named, Number, chosen, either};
use crate::refusals::Refusals;
use crate::shares::Shares;
use crate::standings::{Standing, standing_of};
use crate::{made, refusals, standings, untold};
use prose::Out;
use rehearsal::{Deed, World};
use std::fmt;
use std::fmt::Write;

/// What a verdict needs to know of the records.
#[derive(Drop)]
pub(crate) struct Notes {
    decisions: Decisions,
    shares: Shares,
    applied: Applied,
    refusals: Refusals,
}

impl Notes {
    pub(crate) fn new() -> Notes {
        Notes {
            decisions: Decisions::new(),
            shares: Shares::new(),
            applied: Applied::new(),
            refusals: Refusals::new(),
        }
    }

    /// These after the record at a place, from 0.
    pub(crate) fn note(&mut self, deeds: &[Deed], place: u16, deed: &Deed) {
        self.decisions.note(deed);
        self.shares.note(deeds, place, deed);
        self.applied.note(place, deed);
        self.refusals.note(u32::from(place) + 1, deed);
    }
}

/// What a verdict rests on: the world after the last record, what was noted of the records, each controller's decisions,
/// and the controller whose decisions are the agreed ones.
#[derive(Clone, Copy)]
pub(crate) struct Verdict<'a> {
    pub(crate) world: &'a World,
    pub(crate) notes: &'a Notes,
    pub(crate) lists: &'a Lists,
    pub(crate) agreed: u8,
}

impl Verdict<'_> {
    fn is_made_up_for(self, controller: u8) -> bool {
        self.notes.shares.is_made_up_for(controller)
    }

    fn strays(self, controller: u8) -> bool {
        standing_of(self, controller) == Standing::Deviating || self.is_made_up_for(controller)
    }
}

fn say_made_up(out: &mut Out, verdict: Verdict<'_>) -> fmt::Result {
    let found = chosen(verdict.world.n, |c| verdict.is_made_up_for(c));
    if found.is_empty() {
        return Ok(());
    }
    let names = either(found.len(), "name", "names");
    let controllers = Named::controllers(found.as_slice());
    writeln!(out, "  shares in the {names} of {controllers} were made up")
}

// How many of n controllers may stray, in words.
#[derive(Clone, Copy)]
struct May {
    n: u8,
    most: u8,
}

impl May {
    fn of(n: u8) -> May {
        May {
            n,
            most: n.saturating_sub(1) / 3,
        }
    }
}

impl fmt::Display for May {
    fn fmt<W: fmt::Write>(&self, f: &mut fmt::Formatter<W>) -> fmt::Result {
        match self.most {
            0 => f.write_str("none may"),
            most => write!(f, "{most} of {} may", self.n),
        }
    }
}

// These controllers stray, and no more than `may` says are within the promise.
fn say_strays(out: &mut Out, strays: &[Number], may: May) -> fmt::Result {
    let controllers = Named::controllers(strays);
    let stray = either(strays.len(), "strays", "stray");
    write!(out, "  {controllers} {stray}")?;
    if strays.len() <= usize::from(may.most) {
        writeln!(out, ", within the promise: {may}")
    } else if may.most == 0 {
        writeln!(out, ", and {may}: nothing is promised")
    } else {
        writeln!(out, ", and only {may}: nothing is promised")
    }
}

fn say_promise(out: &mut Out, verdict: Verdict<'_>) -> fmt::Result {
    let n = verdict.world.n;
    let strays = chosen(n, |c| verdict.strays(c));
    let may = May::of(n);
    if strays.is_empty() {
        writeln!(out, "  no controller strays; {may}")
    } else {
        say_strays(out, strays.as_slice(), may)
    }
}

// How many agreed changes are made, which are not, and what was made besides. The playbook of the first controller is
// everybody's.
fn say_changes(out: &mut Out, verdict: Verdict<'_>, deeds: &[Deed]) -> fmt::Result {
    let book = &verdict.world.controllers[0].playbook;
    let places = verdict.notes.applied.places();
    let mut agreed = AgreedChanges::new(book, verdict.lists.of(verdict.agreed));
    for making in places.iter().filter_map(|place| Making::at(deeds, *place)) {
        agreed.mark(making.change);
    }
    made::say_changes(out, &agreed, deeds, places)
}

/// The verdict on a rehearsal: what its records did, the world after the last one, and what was noted on the way.
pub(crate) fn say_verdict(
    out: &mut Out,
    deeds: &[Deed],
    world: &World,
    notes: &Notes,
) -> fmt::Result {
    let lists = Lists::of_all(&notes.decisions);
    let verdict = Verdict {
        world,
        notes,
        lists: &lists,
        agreed: lists.agreed_by(world.n),
    };
    writeln!(out, "\nverdict")?;
    say_changes(out, verdict, deeds)?;
    standings::say_decisions(out, verdict)?;
    say_made_up(out, verdict)?;
    say_promise(out, verdict)?;
    untold::say_untold(out, world)?;
    refusals::say_refusals(out, &notes.refusals)
}

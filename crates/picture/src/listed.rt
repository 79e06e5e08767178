// The lists at the end. Side by side stand what the numbers of the refusals mean, and which changes were made; below
// them which rules the letters stand for.
ghost use Rattle.std.specs.Prelude.{◌≤◌};

use crate::letters::Shares;
use crate::refusals::Refusals;
use crate::{Picture, changes, disputes};
use prose::Out;
use rehearsal::Deed;
use std::fmt;
use std::fmt::Write;

// So many changes or rules are listed.
pub(crate) const LISTED: usize = 24;

const LEFT: u64 = 14;

// Where the changes stand beside refusals.
const BESIDE: u64 = 600;

// From the top to the headings, from line to line, and below the last line.
const TOP: u64 = 16;

const LINE: u64 = 18;

const REST: u64 = 12;

// What is listed: the refusals, how many changes were made, and how many rules have letters.
#[derive(Clone, Copy)]
pub(crate) struct Lists {
    refusals: Refusals,
    changes: usize,
    pub(crate) disputes: usize,
}

// How many lines so many take: those that are not listed are counted in one more.
fn lines_of(count: usize) -> usize
    ensures { result ≤ 25 }
{
    count.min(LISTED + 1)
}

// The height of a list, none where it is empty.
fn height_for(lines: usize) -> u64
    requires { lines ≤ 128 }
    ensures { result ≤ 2332 }
{
    if lines == 0 {
        0
    } else {
        TOP + LINE * lines as u64 + REST
    }
}

impl Lists {
    pub(crate) fn of(deeds: &[Deed], shares: &Shares) -> Lists {
        Lists {
            refusals: Refusals::among(deeds),
            changes: changes::count_of(deeds),
            disputes: shares.disputes(),
        }
    }

    // How deep the rules lie below the other lists.
    fn rules_top(&self) -> u64
        ensures { result ≤ 2332 }
    {
        height_for(self.refusals.count().max(lines_of(self.changes)))
    }

    // The height of all lists.
    pub(crate) fn height(&self) -> u64
        ensures { result ≤ 5000 }
    {
        self.rules_top() + height_for(lines_of(self.disputes))
    }
}

// A line of a list at x.
#[derive(Clone, Copy)]
pub(crate) struct Item<T> {
    pub(crate) x: u64,
    pub(crate) words: T,
}

impl<T: fmt::Display> fmt::Display for Item<T> {
    fn fmt<W: fmt::Write>(&self, f: &mut fmt::Formatter<W>) -> fmt::Result {
        let x = self.x;
        writeln!(f, "<tspan x='{x}' dy='{LINE}'>{}</tspan>", self.words)
    }
}

// How many are not listed.
pub(crate) fn say_more(out: &mut Out, count: usize, x: u64) -> fmt::Result {
    if LISTED < count {
        let words = format_args!("and {} more", count - LISTED);
        write!(out, "{}", Item { x, words })?;
    }
    Ok(())
}

fn say_heading(out: &mut Out, x: u64, heading: &'static str) -> fmt::Result {
    writeln!(
        out,
        "<text class='list' x='{x}' y='{TOP}'><tspan class='title'>{heading}</tspan>"
    )
}

fn say_refused(out: &mut Out, refusals: &Refusals) -> fmt::Result {
    say_heading(out, LEFT, "refused")?;
    refusals.say(out, LEFT)?;
    out.write_str("</text>\n")
}

fn say_made(out: &mut Out, lists: &Lists, deeds: &[Deed], x: u64) -> fmt::Result {
    say_heading(out, x, "changes made")?;
    changes::say_changes(out, deeds, x)?;
    say_more(out, lists.changes, x)?;
    out.write_str("</text>\n")
}

// The refusals and the changes; these stand at the left where nothing was refused.
fn say_upper(out: &mut Out, picture: &Picture) -> fmt::Result {
    let lists = &picture.lists;
    let refused = lists.refusals.count() != 0;
    if refused {
        say_refused(out, &lists.refusals)?;
    }
    if lists.changes != 0 {
        let x = if refused { BESIDE } else { LEFT };
        say_made(out, lists, picture.deeds, x)?;
    }
    Ok(())
}

// The rules that have letters.
fn say_rules(out: &mut Out, picture: &Picture) -> fmt::Result {
    say_heading(out, LEFT, "different rules under one number at a switch")?;
    disputes::say_disputes(out, picture, LEFT)?;
    say_more(out, picture.lists.disputes, LEFT)?;
    out.write_str("</text>\n")
}

// All lists, at a depth.
pub(crate) fn say_lists(out: &mut Out, y: u64, picture: &Picture) -> fmt::Result
    requires { y ≤ 157054 }
{
    writeln!(out, "<g transform='translate(0 {y})'>")?;
    say_upper(out, picture)?;
    out.write_str("</g>\n")?;
    if picture.lists.disputes != 0 {
        let below = y + picture.lists.rules_top();
        writeln!(out, "<g transform='translate(0 {below})'>")?;
        say_rules(out, picture)?;
        out.write_str("</g>\n")?;
    }
    Ok(())
}

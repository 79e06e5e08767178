// What is told of the agreed changes: how many are made, which are not, and what was made besides.
use crate::changes::{AgreedChanges, Making};
use crate::ranges::{ITEMS, either};
use prose::Out;
use rehearsal::Deed;
use std::fmt;
use std::fmt::Write;

// All agreed changes are made.
fn say_all_made(out: &mut Out, total: usize) -> fmt::Result {
    match total {
        0 => writeln!(out, "  no change is agreed"),
        1 => writeln!(out, "  the agreed change is made"),
        2 => writeln!(out, "  both agreed changes are made"),
        _ => writeln!(out, "  all {total} agreed changes are made"),
    }
}

fn say_none_made(out: &mut Out, total: usize) -> fmt::Result {
    match total {
        1 => writeln!(out, "  the agreed change is not made"),
        _ => writeln!(out, "  none of {total} agreed changes is made"),
    }
}

// Of how many agreed changes so many are left.
fn say_made(out: &mut Out, total: usize, left: usize) -> fmt::Result {
    if left == 0 {
        return say_all_made(out, total);
    }
    if total <= left {
        return say_none_made(out, total);
    }
    let made = total - left;
    let are = either(made, "is", "are");
    writeln!(out, "  {made} of {total} agreed changes {are} made")
}

// The agreed changes that are not made, and that there are so many of them.
fn say_unmade(out: &mut Out, agreed: &AgreedChanges<'_>, count: usize) -> fmt::Result {
    for (_, number) in agreed
        .are_made()
        .iter()
        .zip(1u32..)
        .filter(|(is_made, _)| !**is_made)
        .take(ITEMS)
    {
        if let Some(change) = agreed.get(number) {
            writeln!(out, "  not made: {change}")?;
        }
    }
    if ITEMS < count {
        let more = count - ITEMS;
        let are = either(more, "is", "are");
        writeln!(out, "  and {more} more {are} not made")?;
    }
    Ok(())
}

// What the record at a place made, if that is not agreed.
fn strange_at(agreed: &AgreedChanges<'_>, deeds: &[Deed], place: u16) -> Option<Making> {
    let making = Making::at(deeds, place)?;
    (!agreed.has(making.change)).then_some(making)
}

// The records that made a change that is not agreed.
fn say_unagreed(
    out: &mut Out,
    agreed: &AgreedChanges<'_>,
    deeds: &[Deed],
    places: &[u16],
) -> fmt::Result {
    for Making { ordinal, change } in places
        .iter()
        .filter_map(|place| strange_at(agreed, deeds, *place))
        .take(ITEMS)
    {
        writeln!(out, "  record {ordinal} made {change}, which is not agreed")?;
    }
    let count = places
        .iter()
        .filter(|place| strange_at(agreed, deeds, **place).is_some())
        .count();
    if ITEMS < count {
        let more = count - ITEMS;
        let records = either(more, "record", "records");
        writeln!(out, "  and {more} more {records} made what is not agreed")?;
    }
    Ok(())
}

/// How many agreed changes are made, which are not, and what the records at some places made besides.
pub(crate) fn say_changes(
    out: &mut Out,
    agreed: &AgreedChanges<'_>,
    deeds: &[Deed],
    places: &[u16],
) -> fmt::Result {
    let are_made = agreed.are_made();
    let left = are_made.iter().filter(|is_made| !**is_made).count();
    say_made(out, are_made.len(), left)?;
    say_unmade(out, agreed, left)?;
    say_unagreed(out, agreed, deeds, places)
}

// The changes that were made in a rehearsal.
use crate::listed::{Item, LISTED};
use prose::Out;
use rehearsal::Deed;
use std::fmt;
use std::fmt::Write;
use story::ChangeWords;

fn is_made(deed: &Deed) -> bool {
    deed.answer == answer::APPLIED
}

pub(crate) fn count_of(deeds: &[Deed]) -> usize {
    deeds.iter().filter(|deed| is_made(deed)).count()
}

fn say_change(out: &mut Out, deed: &Deed, ordinal: usize, x: u64) -> fmt::Result {
    let change = ChangeWords {
        number: deed.wish.slot.number,
        rule: deed.wish.slot.rule,
    };
    let words = format_args!("record {ordinal}: switch {} at {change}", deed.switch);
    write!(out, "{}", Item { x, words })
}

// A line for each of the first ones, in order.
pub(crate) fn say_changes(out: &mut Out, deeds: &[Deed], x: u64) -> fmt::Result {
    for (deed, ordinal) in deeds
        .iter()
        .zip(1usize..)
        .filter(|(deed, _)| is_made(deed))
        .take(LISTED)
    {
        say_change(out, deed, ordinal, x)?;
    }
    Ok(())
}

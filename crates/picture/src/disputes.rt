// The rules that have letters: what each asks for, and in which record it is first met.
use crate::Picture;
use crate::letters::{FIRST, Label};
use crate::listed::{Item, LISTED};
use prose::Out;
use rehearsal::Deed;
use std::fmt;
use std::fmt::Write;
use story::RuleWords;

// A rule with its letter, first met in a record.
#[derive(Clone, Copy)]
struct Dispute<'a> {
    deed: &'a Deed,
    letter: char,
    ordinal: usize,
}

impl fmt::Display for Dispute<'_> {
    // The number and the letter are drawn as they stand on the arrows.
    fn fmt<W: fmt::Write>(&self, f: &mut fmt::Formatter<W>) -> fmt::Result {
        let deed = self.deed;
        let class = if self.letter == FIRST { "one" } else { "other" };
        let label = Label {
            number: deed.wish.slot.number,
            letter: Some(self.letter),
        };
        let rule = RuleWords(deed.wish.slot.rule);
        write!(
            f,
            "<tspan class='{class}'>{label}</tspan> at switch {}: {rule}",
            deed.switch
        )?;
        write!(
            f,
            ", first in record {}, in the name of controller {}",
            self.ordinal, deed.controller
        )
    }
}

// A line for each of the first ones, in order.
pub(crate) fn say_disputes(out: &mut Out, picture: &Picture, x: u64) -> fmt::Result {
    let disputes = picture
        .deeds
        .iter()
        .enumerate()
        .zip(1usize..)
        .filter_map(|((column, deed), ordinal)| {
            let letter = picture.shares.first_letter(column)?;
            Some(Dispute {
                deed,
                letter,
                ordinal,
            })
        })
        .take(LISTED);
    for words in disputes {
        write!(out, "{}", Item { x, words })?;
    }
    Ok(())
}

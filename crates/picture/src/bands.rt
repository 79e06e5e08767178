// A band: the rows' names, at which change each switch is when it begins, and a group for the columns.
use crate::layout::{LINES, Layout, NAMES};
use crate::names;
use crate::rows::{End, Rows};
use answer::limits;
use prose::Out;
use rehearsal::Deed;
use std::fmt;
use std::fmt::Write;

// At which change each switch is that has made one.
#[derive(Clone, Copy)]
pub(crate) struct Standing {
    changes: [Option<u32>; limits::OF_SWITCHES],
}

impl Standing {
    pub(crate) fn at_first() -> Standing {
        Standing {
            changes: [None; limits::OF_SWITCHES],
        }
    }

    // After a deed.
    pub(crate) fn follow(&mut self, deed: &Deed) {
        if deed.answer == answer::APPLIED
            && let Some(change) = self.changes.get_mut(deed.switch as usize)
        {
            *change = Some(deed.figure);
        }
    }

    // Below the name of a switch its change, and along its row the line of being at it.
    fn say(&self, out: &mut Out, rows: &Rows, right: u64) -> fmt::Result {
        for (change, switch) in self.changes.iter().zip(0u8..) {
            if let Some(change) = change
                && let Some(y) = rows.depth_of(End::Switch(switch))
            {
                writeln!(
                    out,
                    "<path class='stay' d='M{LINES} {y}H{right}'/>\
                     <text class='at' x='{NAMES}' y='{y}' dy='16'>at {change}</text>"
                )?;
            }
        }
        Ok(())
    }
}

// A band that begins with a column.
pub(crate) fn say_start(
    out: &mut Out,
    layout: Layout,
    rows: &Rows,
    standing: &Standing,
    column: usize,
) -> fmt::Result {
    let right = layout.right_of(column);
    let top = layout.band_top(column);
    writeln!(out, "<g class='band' transform='translate(0 {top})'>")?;
    names::say_lines(out, rows, right)?;
    standing.say(out, rows, right)?;
    names::say_names(out, rows)?;
    out.write_str("<g>\n")
}

pub(crate) fn say_end(out: &mut Out) -> fmt::Result {
    out.write_str("</g>\n</g>\n")
}

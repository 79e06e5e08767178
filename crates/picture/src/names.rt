// The lines through the rows, and the names at their left.
use crate::layout::{LINES, NAMES};
use crate::rows;
use crate::rows::{End, Rows};
use answer::limits;
use prose::Out;
use std::fmt;
use std::fmt::Write;

fn say_line(out: &mut Out, rows: &Rows, end: End, right: u64) -> fmt::Result {
    if let Some(y) = rows.depth_of(end) {
        writeln!(out, "<path class='row' d='M{LINES} {y}H{right}'/>")?;
    }
    Ok(())
}

// A thin line through each row. There are no more controllers than switches.
pub(crate) fn say_lines(out: &mut Out, rows: &Rows, right: u64) -> fmt::Result {
    for id in 0..limits::SWITCHES {
        say_line(out, rows, End::Controller(id), right)?;
        say_line(out, rows, End::Switch(id), right)?;
    }
    Ok(())
}

fn say_name(out: &mut Out, rows: &Rows, end: End) -> fmt::Result {
    if let Some(y) = rows.depth_of(end) {
        writeln!(
            out,
            "<text class='name' x='{NAMES}' y='{y}' dy='4'>{end}</text>"
        )?;
    }
    Ok(())
}

fn say_label(out: &mut Out, label: &'static str, y: u64) -> fmt::Result {
    writeln!(
        out,
        "<text class='label' x='{NAMES}' y='{y}' dy='4'>{label}</text>"
    )
}

// What the numbers above and below the rows are.
fn say_labels(out: &mut Out, rows: &Rows) -> fmt::Result {
    say_label(out, "record", rows::ORDINALS)?;
    say_label(out, "answer", rows.answers())?;
    say_label(out, "figure", rows.figures())?;
    if rows.outside {
        say_label(out, "no row", rows::OUTSIDE)?;
    }
    Ok(())
}

// The names and labels before the columns.
pub(crate) fn say_names(out: &mut Out, rows: &Rows) -> fmt::Result {
    say_labels(out, rows)?;
    for id in 0..limits::SWITCHES {
        say_name(out, rows, End::Controller(id))?;
        say_name(out, rows, End::Switch(id))?;
    }
    Ok(())
}

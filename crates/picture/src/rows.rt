// The rows of each band: the controllers, and below them the switches that some record reached. Above them is a line
// for what belongs to no row, if there is such a deed. Depths are those below the top of the band.
ghost use Rattle.std.specs.Prelude.{◌≤◌};

use crate::reached::Reached;
use answer::limits;
use rehearsal::Deed;
use std::fmt;

// The records' ordinals, and what belongs to no row.
pub(crate) const ORDINALS: u64 = 14;

pub(crate) const OUTSIDE: u64 = 46;

const HEIGHT: u64 = 36;

// An end, which may have a row.
#[derive(Clone, Copy)]
pub(crate) enum End {
    Controller(u8),
    Switch(u8),
}

impl fmt::Display for End {
    fn fmt<W: fmt::Write>(&self, f: &mut fmt::Formatter<W>) -> fmt::Result {
        match self {
            End::Controller(controller) => write!(f, "controller {controller}"),
            End::Switch(switch) => write!(f, "switch {switch}"),
        }
    }
}

// How many controllers there are, whether a step belongs to no row, and which switches have one.
#[derive(Clone, Copy)]
pub(crate) struct Rows {
    pub(crate) n: u8,
    pub(crate) outside: bool,
    reached: Reached,
}

impl Rows {
    pub(crate) fn of(n: u8, deeds: &[Deed]) -> Rows {
        let reached = Reached::by(deeds);
        Rows {
            n,
            outside: deeds.iter().any(|deed| reached.is_outside(n, deed)),
            reached,
        }
    }

    // Row k, counted from the first.
    fn row(&self, k: u8) -> u64
        ensures { result ≤ 9266 }
    {
        let first = if self.outside { OUTSIDE + 40 } else { OUTSIDE };
        first + HEIGHT * k as u64
    }

    // The row of a switch, or where it would lie. The switches begin a little below the controllers.
    fn switch_row(&self, switch: u8) -> u64
        ensures { result ≤ 9862 }
    {
        self.row(self.n) + 20 + HEIGHT * self.reached.below(switch)
    }

    // How deep an end's row lies, if it has one.
    pub(crate) fn depth_of(&self, end: End) -> Option<u64> {
        match end {
            End::Controller(controller) => { (controller < self.n).then_some(self.row(controller)) }
            End::Switch(switch) => self.reached.has(switch).then_some(self.switch_row(switch)),
        }
    }

    // How deep an end's row lies, or what has none.
    pub(crate) fn y_of(&self, end: End) -> u64 {
        self.depth_of(end).unwrap_or(OUTSIDE)
    }

    // The answers and the figures below the rows, and where the band ends.
    pub(crate) fn answers(&self) -> u64
        ensures { result ≤ 9862 }
    {
        self.switch_row(limits::SWITCHES)
    }

    pub(crate) fn figures(&self) -> u64 {
        self.answers() + 16
    }

    pub(crate) fn bottom(&self) -> u64 {
        self.answers() + 30
    }
}

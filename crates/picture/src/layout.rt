// Where the bands, their columns, the legend and the lists stand. Forty columns are in a band, and the bands lie one
// below the other.
ghost use Rattle.std.specs.Prelude.{◌≤◌};

// Columns of a band.
pub(crate) const BAND: usize = 40;

const LEFT: u64 = 100;

const WIDTH: u64 = 36;

// Where the names before the columns end, and where the rows' lines begin.
pub(crate) const NAMES: u64 = 88;

pub(crate) const LINES: u64 = 96;

// The legend is not narrower.
const NARROWEST: u64 = 1120;

const HEADING: u64 = 54;

const LEGEND: u64 = 234;

// No band is deeper, and below each is a gap.
const DEEPEST: u64 = 1500;

const GAP: u64 = 22;

// How deep each band is, and how many columns there are.
#[derive(Clone, Copy)]
pub(crate) struct Layout {
    pub(crate) bottom: u64,
    pub(crate) count: usize,
}

// The band that a column stands in.
fn band_of(column: usize) -> u64
    ensures { result ≤ 102 }
{
    (column.min(rehearsal::DEEDS) / BAND) as u64
}

// The middle of a column.
pub(crate) fn x_of(column: usize) -> u64 {
    LEFT + WIDTH / 2 + WIDTH * (column % BAND) as u64
}

impl Layout {
    // From band to band.
    fn pitch(self) -> u64
        ensures { result ≤ 1522 }
    {
        self.bottom.min(DEEPEST) + GAP
    }

    // How many bands there are: one also where there is no column.
    pub(crate) fn bands(self) -> u64
        ensures { result ≤ 103 }
    {
        band_of(self.count.saturating_sub(1)) + 1
    }

    // The height of so many bands.
    fn height_of(self, bands: u64) -> u64
        requires { bands ≤ 103 }
        ensures { result ≤ 156766 }
    {
        self.pitch() * bands
    }

    // A page of one band has its legend below it. Before more bands it stands first: all of them are read with it.
    fn bands_top(self) -> u64
        ensures { result ≤ 288 }
    {
        if self.bands() == 1 {
            HEADING
        } else {
            HEADING + LEGEND
        }
    }

    // Where the band lies that a column stands in.
    pub(crate) fn band_top(self, column: usize) -> u64 {
        self.bands_top() + self.height_of(band_of(column))
    }

    pub(crate) fn legend_top(self) -> u64 {
        if self.bands() == 1 {
            HEADING + self.pitch()
        } else {
            HEADING
        }
    }

    // The lists stand below the legend and the bands.
    pub(crate) fn lists_top(self) -> u64
        ensures { result ≤ 157054 }
    {
        HEADING + LEGEND + self.height_of(self.bands())
    }

    // The right end of a band that begins with a column.
    pub(crate) fn right_of(self, column: usize) -> u64
        ensures { result ≤ 1540 }
    {
        LEFT + WIDTH * self.count.saturating_sub(column).min(BAND) as u64
    }

    // The picture's width.
    pub(crate) fn width(self) -> u64 {
        (self.right_of(0) + 20).max(NARROWEST)
    }
}

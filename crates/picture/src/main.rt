// Draws a rehearsal as an SVG picture on standard output: a row for each end, a column for each record, forty columns
// in a band, and marks for what came of it. It reads what crate `rehearse` reads; what is proved is that every function
// is safe and ends.
#![tactic(auto)]

ghost use Rattle.std.specs.Prelude.{◌≡◌, ◌+◌, ◌≤◌, length};
ghost use Rattle.rehearsal.specs.Limits.{longest_input, most_lines};

use crate::layout::Layout;
use crate::letters::Shares;
use crate::listed::Lists;
use crate::rows::Rows;
use prose::Out;
use rehearsal::Deed;
use std::fmt;

const STDIN_FILENO: i32 = 0;

mod bands;
mod changes;
mod disputes;
mod layout;
mod legend;
mod letters;
mod listed;
mod marks;
mod names;
mod page;
mod reached;
mod refusals;
mod rows;
mod steps;

fn for_input() -> [u8; rehearsal::INPUT]
    ensures { longest_input + 1 ≡ length result }
{
    [0u8; rehearsal::INPUT]
}

// A rehearsal as it is drawn: what its records did, the lists at the end, what the shares ask for, and the rows.
#[derive(Drop)]
pub(crate) struct Picture<'a> {
    pub(crate) deeds: &'a [Deed],
    pub(crate) lists: Lists,
    pub(crate) shares: Shares,
    pub(crate) rows: Rows,
}

// Of deeds among n controllers.
fn picture_of(n: u8, deeds: &[Deed]) -> Picture<'_>
    requires { length deeds.now ≤ most_lines }
{
    let shares = Shares::of(deeds);
    Picture {
        deeds,
        lists: Lists::of(deeds, &shares),
        shares,
        rows: Rows::of(n, deeds),
    }
}

fn draw(out: &mut Out, picture: &Picture) -> fmt::Result {
    let layout = Layout {
        bottom: picture.rows.bottom(),
        count: picture.deeds.len(),
    };
    let lists_top = layout.lists_top();
    page::say_head(out, layout, lists_top + picture.lists.height())?;
    page::say_heading(out, layout, picture.rows.n)?;
    legend::say_legend(
        out,
        layout.legend_top(),
        picture.lists.disputes != 0,
        picture.rows.outside,
    )?;
    steps::say_steps(out, layout, picture)?;
    listed::say_lists(out, lists_top, picture)?;
    page::say_end(out)
}

// A rehearsal told is large, and stays where it is.
fn say_page(out: &mut Out, input: &[u8]) -> fmt::Result {
    let told = story::tell(input);
    if told.answer != answer::DONE {
        return page::say_fault(out, told.answer, input);
    }
    let count = told.count.min(rehearsal::DEEDS);
    let picture = picture_of(told.world.n, &told.deeds[..count]);
    draw(out, &picture)
}

fn main() -> fmt::Result {
    let mut out = Out::new();
    let mut space = for_input();
    let n = io::read_full(STDIN_FILENO, &mut space);
    let said = say_page(&mut out, &space[..n]);
    out.end();
    said
}

// A step's column: the record's ordinal above the rows, the marks, and the answer and the figure below.
use crate::bands::Standing;
use crate::layout::Layout;
use crate::letters::Label;
use crate::marks::{
    Arrow, At, Shape, Text, aim, asks, figure, say_failed, say_given, say_outcome, say_refused,
    say_stay,
};
use crate::rows::{End, Rows};
use crate::{Picture, bands, layout, rows};
use prose::Out;
use rehearsal::{Deed, Kind};
use std::fmt;
use std::fmt::Write;
use story::{Line, Words};

// A deed on its rows, with the letter of what its share asks for, so far from the band's end.
#[derive(Clone, Copy)]
struct Step<'a> {
    rows: &'a Rows,
    deed: &'a Deed,
    letter: Option<char>,
    length: u64,
}

// A number above or below the rows.
fn plain(number: u64, y: u64) -> Text<u64> {
    figure("plain", number, At { y, dy: "4" })
}

impl Step<'_> {
    fn controller_y(&self) -> u64 {
        self.rows.y_of(End::Controller(self.deed.controller))
    }

    fn switch_y(&self) -> u64 {
        self.rows.y_of(End::Switch(self.deed.switch))
    }

    // What its share asks for.
    fn label(&self) -> Label {
        Label {
            number: self.deed.wish.slot.number,
            letter: self.letter,
        }
    }

    fn say_decide(&self, out: &mut Out) -> fmt::Result {
        let y = self.controller_y();
        if self.deed.answer != answer::DONE {
            return say_failed(out, "square", self.deed.answer, y);
        }
        write!(out, "{}", Shape { name: "square", y })?;
        say_given(out, self.deed.numbers, self.deed.last, y)
    }

    // A kept share has no arrow yet: what it asks for stands above its place.
    fn say_keep(&self, out: &mut Out) -> fmt::Result {
        let deed = self.deed;
        let y = self.controller_y();
        if deed.answer != answer::DONE {
            say_failed(out, "diamond", deed.answer, y)?;
            return write!(out, "{}", aim(deed.switch, At { y, dy: "31" }));
        }
        let diamond = Shape { name: "diamond", y };
        let asked = asks(self.label(), At { y, dy: "-14" });
        let place = figure("in", deed.item.place as u64, At { y, dy: "3.5" });
        let aim = aim(deed.switch, At { y, dy: "21" });
        write!(out, "<g class='kept'>{diamond}</g>{asked}{place}{aim}")
    }

    // A message to a switch, from a row above it.
    fn say_share(&self, out: &mut Out, class: &'static str, from: u64) -> fmt::Result {
        let deed = self.deed;
        let to = self.switch_y();
        if deed.answer == answer::APPLIED {
            say_stay(out, to, self.length)?;
        }
        let arrow = Arrow {
            class,
            from,
            to,
            head: "down",
        };
        write!(out, "{arrow}")?;
        if deed.wish.shared {
            let gap = Shape { name: "gap", y: to };
            let asked = asks(self.label(), At { y: to, dy: "-20" });
            write!(out, "{gap}{asked}")?;
        }
        say_outcome(out, self.rows.n, deed, At { y: to, dy: "18" })
    }

    // A controller may have nothing ready: then no message is made.
    fn say_send(&self, out: &mut Out) -> fmt::Result {
        let y = self.controller_y();
        if self.deed.wish.shared {
            return self.say_share(out, "send", y);
        }
        say_refused(out, self.deed.answer, y)?;
        write!(out, "{}", aim(self.deed.switch, At { y, dy: "28" }))
    }

    // A report that is taken leaves no mark but the arrow.
    fn say_report(&self, out: &mut Out) -> fmt::Result {
        let deed = self.deed;
        let to = self.controller_y();
        let taken = deed.answer == answer::DONE;
        let arrow = Arrow {
            class: "report",
            from: self.switch_y(),
            to,
            head: if taken { "into" } else { "up" },
        };
        write!(out, "{arrow}")?;
        if taken {
            return Ok(());
        }
        say_outcome(out, self.rows.n, deed, At { y: to, dy: "-11" })
    }

    // Bytes that are no share are in nobody's name.
    fn raw_y(&self) -> u64 {
        if self.deed.wish.shared {
            self.controller_y()
        } else {
            rows::OUTSIDE
        }
    }

    // Where a record that names what there is not would have begun.
    fn unbegun_y(&self) -> u64 {
        if !self.deed.found {
            return rows::OUTSIDE;
        }
        match self.deed.item.kind {
            Kind::Decide | Kind::Send | Kind::Keep => self.controller_y(),
            Kind::Report | Kind::Raw => self.switch_y(),
            Kind::Deliver => rows::OUTSIDE,
        }
    }

    fn say_marks(&self, out: &mut Out) -> fmt::Result {
        if !self.deed.begun {
            return say_refused(out, self.deed.answer, self.unbegun_y());
        }
        match self.deed.item.kind {
            Kind::Decide => self.say_decide(out),
            Kind::Send => self.say_send(out),
            Kind::Report => self.say_report(out),
            Kind::Raw => self.say_share(out, "raw", self.raw_y()),
            Kind::Keep => self.say_keep(out),
            Kind::Deliver => self.say_share(out, "late", self.controller_y()),
        }
    }

    // A column at x. What is shown when the pointer rests on it is the rehearsal's line, and the step in words.
    fn say(&self, out: &mut Out, ordinal: usize, x: u64) -> fmt::Result {
        let deed = self.deed;
        let line = Line {
            ordinal,
            answer: deed.answer,
            figure: deed.figure,
        };
        let words = Words {
            n: self.rows.n,
            deed,
        };
        let number = plain(ordinal as u64, rows::ORDINALS);
        write!(
            out,
            "<g class='step' transform='translate({x})'><title>{line}  {words}</title>\
             <use href='#column' class='column'/>{number}"
        )?;
        self.say_marks(out)?;
        let answer = plain(deed.answer as u64, self.rows.answers());
        let figure = plain(deed.figure as u64, self.rows.figures());
        writeln!(out, "{answer}{figure}</g>")
    }
}

// One after the other in the group of their band, where every other one is shaded. Every fortieth column begins a band.
pub(crate) fn say_steps(out: &mut Out, layout: Layout, picture: &Picture) -> fmt::Result {
    let rows = &picture.rows;
    let mut standing = Standing::at_first();
    bands::say_start(out, layout, rows, &standing, 0)?;
    for (column, deed) in picture.deeds.iter().enumerate() {
        if column != 0 && column % layout::BAND == 0 {
            bands::say_end(out)?;
            bands::say_start(out, layout, rows, &standing, column)?;
        }
        let x = layout::x_of(column);
        let right = layout.right_of(column - column % layout::BAND);
        let step = Step {
            rows,
            deed,
            letter: picture.shares.letter(column),
            length: right.saturating_sub(x),
        };
        step.say(out, column + 1, x)?;
        standing.follow(deed);
    }
    bands::say_end(out)
}

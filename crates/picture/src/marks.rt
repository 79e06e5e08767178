// The marks of a step, in the middle of its column. The shapes are the page's; each is placed at a depth.
use crate::letters::{FIRST, Label};
use prose::Out;
use rehearsal::Deed;
use std::fmt;
use std::fmt::Write;

// A shape of the page, at a depth.
#[derive(Clone, Copy)]
pub(crate) struct Shape {
    pub(crate) name: &'static str,
    pub(crate) y: u64,
}

impl fmt::Display for Shape {
    fn fmt<W: fmt::Write>(&self, f: &mut fmt::Formatter<W>) -> fmt::Result {
        write!(f, "<use href='#{}' y='{}'/>", self.name, self.y)
    }
}

// Where a text stands: dy, which may be a fraction, below a depth.
#[derive(Clone, Copy)]
pub(crate) struct At {
    pub(crate) y: u64,
    pub(crate) dy: &'static str,
}

// A text of a class. More than five digits or letters may be wider than a column: they are drawn as wide as it has
// room.
#[derive(Clone, Copy)]
pub(crate) struct Text<T> {
    class: &'static str,
    at: At,
    wide: bool,
    words: T,
}

impl<T: fmt::Display> fmt::Display for Text<T> {
    fn fmt<W: fmt::Write>(&self, f: &mut fmt::Formatter<W>) -> fmt::Result {
        let At { y, dy } = self.at;
        let narrow = if self.wide {
            " textLength='34' lengthAdjust='spacingAndGlyphs'"
        } else {
            ""
        };
        write!(
            f,
            "<text class='{}' y='{y}' dy='{dy}'{narrow}>{}</text>",
            self.class, self.words
        )
    }
}

pub(crate) fn figure(class: &'static str, number: u64, at: At) -> Text<u64> {
    Text {
        class,
        at,
        wide: 99999 < number,
        words: number,
    }
}

// What a share asks for. A rule that differs from the first one stands out.
pub(crate) fn asks(label: Label, at: At) -> Text<Label> {
    let (class, widest) = match label.letter {
        None => ("asks", 99999),
        Some(FIRST) => ("asks one", 9999),
        Some(_) => ("asks other", 9999),
    };
    Text {
        class,
        at,
        wide: widest < label.number,
        words: label,
    }
}

// The switch that a share is for.
#[derive(Clone, Copy)]
pub(crate) struct Target(u8);

impl fmt::Display for Target {
    fn fmt<W: fmt::Write>(&self, f: &mut fmt::Formatter<W>) -> fmt::Result {
        write!(f, "to {}", self.0)
    }
}

// It is told where no arrow leads to the switch.
pub(crate) fn aim(switch: u8, at: At) -> Text<Target> {
    Text {
        class: "aim",
        at,
        wide: false,
        words: Target(switch),
    }
}

// Two numbers, one below the other where they are wide, as 1-4.
fn say_span(out: &mut Out, first: u32, last: u32, y: u64) -> fmt::Result {
    let at = At { y, dy: "18" };
    if last < 100 {
        let span = Text {
            class: "given",
            at,
            wide: false,
            words: format_args!("{first}-{last}"),
        };
        return write!(out, "{span}");
    }
    let above = Text {
        class: "given",
        at,
        wide: 9999 < first,
        words: format_args!("{first}-"),
    };
    let below = figure("given", last as u64, At { y, dy: "28" });
    write!(out, "{above}{below}")
}

// The numbers that a decision gave: so many, up to the last.
pub(crate) fn say_given(out: &mut Out, given: u32, last: u32, y: u64) -> fmt::Result {
    let at = At { y, dy: "18" };
    match given {
        0 => {
            let none = Text {
                class: "given",
                at,
                wide: false,
                words: "none",
            };
            write!(out, "{none}")
        }
        1 => write!(out, "{}", figure("given", last as u64, at)),
        _ => say_span(out, last.saturating_sub(given - 1), last, y),
    }
}

// A cross with the number of the question that refused.
#[derive(Clone, Copy)]
struct Cross {
    answer: u8,
    at: At,
}

impl fmt::Display for Cross {
    fn fmt<W: fmt::Write>(&self, f: &mut fmt::Formatter<W>) -> fmt::Result {
        let cross = Shape {
            name: "cross",
            y: self.at.y,
        };
        write!(f, "{cross}{}", figure("bad", self.answer as u64, self.at))
    }
}

// A refusal on a row.
pub(crate) fn say_refused(out: &mut Out, answer: u8, y: u64) -> fmt::Result {
    let clear = Shape { name: "clear", y };
    let cross = Cross {
        answer,
        at: At { y, dy: "18" },
    };
    write!(out, "{clear}{cross}")
}

// A refusal over the shape of what was tried.
pub(crate) fn say_failed(out: &mut Out, name: &'static str, answer: u8, y: u64) -> fmt::Result {
    let shape = Shape { name, y };
    let cross = Cross {
        answer,
        at: At { y, dy: "21" },
    };
    write!(out, "<g class='tried'>{shape}</g>{cross}")
}

// An arrow, with a dot where it begins and one of the shapes as its head.
#[derive(Clone, Copy)]
pub(crate) struct Arrow {
    pub(crate) class: &'static str,
    pub(crate) from: u64,
    pub(crate) to: u64,
    pub(crate) head: &'static str,
}

impl fmt::Display for Arrow {
    fn fmt<W: fmt::Write>(&self, f: &mut fmt::Formatter<W>) -> fmt::Result {
        let Arrow {
            class,
            from,
            to,
            head,
        } = *self;
        let tail = Shape {
            name: "tail",
            y: from,
        };
        let head = Shape { name: head, y: to };
        write!(
            f,
            "<g class='{class}'>{tail}<path d='M0 {from}V{to}'/>{head}</g>"
        )
    }
}

// What came of a message among n controllers, at the end of its arrow; numbers stand on the side that this leaves free.
pub(crate) fn say_outcome(out: &mut Out, n: u8, deed: &Deed, at: At) -> fmt::Result {
    let y = at.y;
    write!(out, "{}", Shape { name: "clear", y })?;
    match deed.answer {
        answer::DONE => {
            let held = Shape { name: "held", y };
            let agreeing = Text {
                class: "plain",
                at,
                wide: false,
                words: format_args!("{}/{}", deed.agreeing, switch::quorum(n)),
            };
            write!(out, "{held}{agreeing}")
        }
        answer::APPLIED => {
            let applied = Shape { name: "applied", y };
            write!(out, "{applied}{}", figure("good", deed.figure as u64, at))
        }
        answer::REPEAT => write!(out, "{}", Shape { name: "repeat", y }),
        answer => write!(out, "{}", Cross { answer, at }),
    }
}

// The line of a switch that is at a change from here on.
pub(crate) fn say_stay(out: &mut Out, y: u64, length: u64) -> fmt::Result {
    write!(out, "<path class='stay' d='M0 {y}h{length}'/>")
}

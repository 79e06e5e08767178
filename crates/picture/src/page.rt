// The document around the picture: its size, the style, the shapes that the marks are made of, and the heading.
use crate::layout::Layout;
use prose::Out;
use std::fmt;
use std::fmt::Write;
use story::Line;

const BACKGROUND: &str = "<rect width='100%' height='100%' fill='#fff'/>
";

// The step columns are shaded by turns; arrows differ in how they are drawn, and not by colour only.
const STYLE: &str = "<style>
text{font:11px sans-serif;fill:#222;text-anchor:middle}
.heading{font-size:15px;font-weight:bold;text-anchor:start}
.words,.list{font-size:12px;text-anchor:start}
.title{font-weight:bold}
.name,.label{font-size:12px;text-anchor:end}
.label{fill:#666}
.at{font-size:10px;text-anchor:end;fill:#176b2c}
.in,.aim,.given,.asks{font-size:10px}
.aim{fill:#666}
.one{font-weight:bold;fill:#5a3fc0}
.other{font-weight:bold;fill:#c2127f}
.good{fill:#176b2c;font-weight:bold}
.bad{fill:#b3151b;font-weight:bold}
.row{stroke:#ccc}
.stay{stroke:#93d3a2;stroke-width:7px}
.column{fill-opacity:0}
.step:nth-child(even)>.column{fill-opacity:.035}
.step:hover>.column{fill-opacity:.12}
.kept{fill:#fff;stroke:#222}
.tried{fill:#fff;stroke:#888}
.send,.late{fill:#164a9c;stroke:#164a9c}
.report{fill:#2b9ca8;stroke:#2b9ca8}
.raw{fill:#d9730d;stroke:#d9730d}
.send>path,.report>path,.late>path{stroke-width:1.6px}
.late>path{stroke-dasharray:5 3}
.raw>path{stroke-width:2.4px;stroke-dasharray:2.4 3.6}
</style>
";

// Each shape stands around the place on the row where it is used; an arrow's head stops short of the mark there.
const SHAPES: &str = "<rect id='square' x='-7' y='-7' width='14' height='14' stroke-width='1.6'/>
<path id='diamond' d='M0-11l11 11-11 11-11-11z' stroke-width='1.6'/>
<circle id='tail' r='2.5'/>
<path id='down' d='M0-8l-4-8h8z'/>
<path id='up' d='M0 8l-4 8h8z'/>
<path id='into' d='M0 1l-4 8h8z'/>
<circle id='clear' r='7.5' fill='#fff'/>
<path id='gap' d='M-5-30H5v12H-5z' fill='#fff'/>
<circle id='held' r='5.5' fill='#fff' stroke='#222' stroke-width='2'/>
<circle id='applied' r='7' fill='#176b2c'/>
<g id='repeat' fill='#777'><circle r='6.5'/><circle r='4.9' fill='#fff'/><circle r='2.4'/></g>
<path id='cross' d='M-5-5l10 10M-5 5l10-10' stroke='#b3151b' stroke-width='2.6'/>
";

fn say_size(out: &mut Out, width: u64, height: u64) -> fmt::Result {
    write!(
        out,
        "<svg xmlns='http://www.w3.org/2000/svg' role='img' width='{width}px' height='{height}px' \
         viewBox='0 0 {width} {height}'>\n\
         <title>A rehearsal as a timeline</title>\n\
         {BACKGROUND}{STYLE}"
    )
}

// The page before the picture. A column's whole ground reaches down to the bottom of its band.
pub(crate) fn say_head(out: &mut Out, layout: Layout, height: u64) -> fmt::Result {
    say_size(out, layout.width(), height)?;
    let bottom = layout.bottom;
    write!(
        out,
        "<defs>\n<path id='column' d='M-18 0H18V{bottom}H-18z'/>\n{SHAPES}</defs>\n"
    )
}

// So many of what has a name.
#[derive(Clone, Copy)]
struct Count {
    count: usize,
    name: &'static str,
}

impl fmt::Display for Count {
    fn fmt<W: fmt::Write>(&self, f: &mut fmt::Formatter<W>) -> fmt::Result {
        let plural = if self.count == 1 { "" } else { "s" };
        write!(f, "{} {}{plural}", self.count, self.name)
    }
}

// What the picture shows, and how it is read.
pub(crate) fn say_heading(out: &mut Out, layout: Layout, n: u8) -> fmt::Result {
    let records = Count {
        count: layout.count,
        name: "record",
    };
    let controllers = Count {
        count: n as usize,
        name: "controller",
    };
    let quorum = switch::quorum(n);
    let bands = if 1 < layout.bands() {
        " and from band to band"
    } else {
        ""
    };
    write!(
        out,
        "<text class='heading' x='12' y='22'>\
         A rehearsal: {records}, {controllers}; a change needs {quorum} of them</text>\n\
         <text class='words' x='12' y='42'>\
         Time goes from left to right{bands}, a column for each record. \
         Rest the pointer on a column to read it in words.</text>\n"
    )
}

pub(crate) fn say_end(out: &mut Out) -> fmt::Result {
    out.write_str("</svg>\n")
}

// The page of an input that is refused before its script.
pub(crate) fn say_fault(out: &mut Out, answer: u8, input: &[u8]) -> fmt::Result {
    let line = Line {
        ordinal: 0,
        answer,
        figure: 0,
    };
    let words = faults::Words {
        answer,
        input,
        room: rehearsal::INPUT,
    };
    say_size(out, 640, 64)?;
    write!(
        out,
        "<text class='heading' x='12' y='26'>{line}</text>\n\
         <text class='words' x='12' y='46'>before the script: refused, {words}</text>\n"
    )?;
    say_end(out)
}

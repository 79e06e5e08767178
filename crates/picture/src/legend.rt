// The legend: each mark with its meaning, drawn with the shapes and classes of the picture, and what the numbers below
// the rows are.
use prose::Out;
use std::fmt;
use std::fmt::Write;

// What a controller and a switch do.
const KINDS: &str = "<g transform='translate(0 0)'>
<use href='#square' x='22' y='24'/><text x='22' y='42' class='given'>1-4</text>\
<text class='words' x='40' y='28'>decides, and its changes get the numbers 1 to 4</text>
<g class='send' transform='translate(372 24)'>\
<path d='M0-16V16'/><use href='#down' y='24'/></g>\
<use href='#gap' x='372' y='46'/><text class='asks' x='372' y='26'>2</text>\
<text class='words' x='386' y='28'>sends its share, which asks for change 2</text>
<g class='report' transform='translate(676 24)'>\
<path d='M0-16V16'/><use href='#into' y='-17'/></g>\
<text class='words' x='690' y='28'>reports the last change made</text>
</g>
";

// What happens to shares on their way.
const WAYS: &str = "<g transform='translate(0 50)'>
<g class='kept'><use href='#diamond' x='22' y='24'/></g>\
<text x='22' y='10' class='asks'>2</text><text x='22' y='27.5' class='in'>3</text>\
<text x='22' y='45' class='aim'>to 9</text>\
<text class='words' x='40' y='28'>makes a share of change 2 for switch 9, kept in place 3</text>
<g class='late' transform='translate(412 24)'>\
<path d='M0-16V16'/><use href='#down' y='24'/></g>\
<use href='#gap' x='412' y='46'/><text class='asks' x='412' y='26'>2</text>\
<text class='words' x='426' y='28'>a kept share arrives</text>
<g class='raw' transform='translate(596 24)'>\
<path d='M0-16V16'/><use href='#down' y='24'/></g>\
<use href='#gap' x='596' y='46'/><text class='asks' x='596' y='26'>2</text>\
<text class='words' x='610' y='28'>a made-up message arrives, in this controller's name</text>
</g>
";

// What came of it.
const OUTCOMES: &str = "<g transform='translate(0 94)'>
<use href='#held' x='22' y='24'/><text x='22' y='42' class='plain'>1/2</text>\
<text class='words' x='36' y='28'>held, has 1 of the 2 controllers it needs</text>
<path class='stay' d='M300 24h30'/><use href='#applied' x='300' y='24'/>\
<text x='300' y='42' class='good'>2</text>\
<text class='words' x='338' y='28'>change 2 applied; the switch is at it from here on</text>
<use href='#repeat' x='686' y='24'/>\
<text class='words' x='700' y='28'>a repeat, nothing changed</text>
<use href='#cross' x='890' y='24'/><text x='890' y='42' class='bad'>16</text>\
<text class='words' x='904' y='28'>refused by question 16</text>
</g>
";

const ANSWERS: &str = "0 done, 1 applied, 2 a repeat, \
    else the number of the question in document 01 that refused";

const FIGURES: &str = "after a decision or a report, changes still undone at the controller; \
    else the switch's last applied change";

const LETTERS: &str = "different rules are asked for under number 2 at one switch; \
    the list at the end says which";

const OUTSIDE: &str = "unknown controller, switch or place; empty place; bytes that are no record; \
    a message in nobody's name";

fn say_note(out: &mut Out, y: u64, name: &'static str, words: &'static str) -> fmt::Result {
    writeln!(
        out,
        "<text class='words' x='14' y='{y}'>{name}: {words}</text>"
    )
}

// What the numbers are, and what only some pictures have.
fn say_notes(out: &mut Out, lettered: bool, outside: bool) -> fmt::Result {
    say_note(out, 18, "answer", ANSWERS)?;
    say_note(out, 36, "figure", FIGURES)?;
    if lettered {
        say_note(out, 54, "2a, 2b", LETTERS)?;
    }
    if outside {
        say_note(out, if lettered { 72 } else { 54 }, "no row", OUTSIDE)?;
    }
    Ok(())
}

// At a depth.
pub(crate) fn say_legend(out: &mut Out, y: u64, lettered: bool, outside: bool) -> fmt::Result {
    write!(
        out,
        "<g transform='translate(0 {y})'>\n\
         {KINDS}{WAYS}{OUTCOMES}\
         <g transform='translate(0 140)'>\n"
    )?;
    say_notes(out, lettered, outside)?;
    out.write_str("</g>\n</g>\n")
}

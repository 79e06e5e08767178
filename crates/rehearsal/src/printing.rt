// The lines of a rehearsal, printed into an output: measured first, so that one that is too short keeps its bytes.
ghost use Rattle.std.specs.Prelude.{◌≡◌, ◌+◌, ◌≤◌, length};
ghost use Rattle.std.proofs.lemmas.List.Edits.{sets};
ghost use Rattle.rehearsal.specs.Limits.{most_lines};
ghost use Rattle.rehearsal.specs.Lines.{text_of, text, printed};

use crate::digits::{put_number, width};
use crate::{Line, Printed};

impl Line {
    // How many bytes it has.
    fn width(self) -> usize
        ensures { result ≡ length (text_of self) }
    {
        width(self.ordinal) + width(self.answer as u32) + width(self.figure) + 3
    }

    // Put into an output; the place after it is returned.
    fn put(self, out: &mut [u8], at: usize) -> usize
        requires { at + length (text_of self) ≤ length out.old }
        ensures { (result ≡ at + length (text_of self)) × (out.new ≡ sets out.old at (text_of self)) }
    {
        let answer = put_number(out, at, self.ordinal, b' ');
        let figure = put_number(out, answer, self.answer as u32, b' ');
        put_number(out, figure, self.figure, b'\n')
    }
}

fn text_width(lines: &[Line]) -> usize
    requires { length lines.now ≤ most_lines }
    ensures { result ≡ length (text lines.now) }
{
    let mut n = 0;
    for line in lines {
        n += line.width();
    }
    n
}

fn put_lines(out: &mut [u8], lines: &[Line])
    requires { length (text lines.now) ≤ length out.old }
    ensures { out.new ≡ sets out.old 0 (text lines.now) }
{
    let mut at = 0;
    for line in lines {
        at = line.put(out, at);
    }
}

// Lines printed from the start of an output.
pub(crate) fn print(lines: &[Line], out: &mut [u8]) -> Printed
    requires { length lines.now ≤ most_lines }
    ensures { (result, out.new) ≡ printed (text lines.now) out.old }
{
    let n = text_width(lines);
    if out.len() < n {
        return Printed {
            answer: answer::DOES_NOT_FIT,
            length: 0,
        };
    }
    put_lines(out, lines);
    Printed {
        answer: answer::DONE,
        length: n,
    }
}

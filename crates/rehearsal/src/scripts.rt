// A script carried out record after record, and the whole input rehearsed.
ghost use Rattle.std.specs.Prelude.{◌≡◌, [], ◌∷◌, ◌≤◌, length};
ghost use Rattle.answer.specs.Limits.{most_controllers};
ghost use Rattle.rehearsal.specs.Limits.{longest_script, most_lines};
ghost use Rattle.rehearsal.specs.Scripts.{line_of, lines_of, rehearsed};
ghost use Rattle.rehearsal.specs.Storing.{no_line, lines_stored, lines_in};
ghost use Rattle.rehearsal.specs.Deeds.{deeds_from, told_by, told_of};

use crate::begins::begin;
use crate::printing::print;
use crate::records::{record_at, size_of};
use crate::{DEEDS, Deed, Line, Lines, Printed, Told, World, limits};

impl Line {
    // A line that says nothing yet.
    fn none() -> Self
        ensures { result ≡ no_line }
    {
        Line {
            ordinal: 0,
            answer: 0,
            figure: 0,
        }
    }
}

impl Lines {
    // A fault before the script.
    fn fault(answer: u8) -> Self
        ensures { result ≡ lines_stored (line_of 0 answer 0 ∷ []) }
    {
        let mut places = [Line::none(); limits::LINES];
        places[0] = Line {
            ordinal: 0,
            answer,
            figure: 0,
        };
        Lines { places, count: 1 }
    }

    // The lines in use.
    fn in_use(&self) -> &[Line]
        requires { self.now.count ≤ most_lines }
        ensures { result.now ≡ lines_in self.now }
    {
        &self.places[..self.count]
    }
}

// The script carried out. Each record takes what it names out of the world and puts it back: the world is large, and
// stays where it is.
fn follow(dropped: Option<u8>, mut world: World, script: &[u8]) -> Told
    requires few { world.n ≤ most_controllers }
    requires short { length script.now ≤ longest_script }
    ensures { result ≡ told_by 0 (deeds_from dropped 0 script.now world) }
{
    let mut deeds = [Deed::broken(0); DEEDS];
    let mut count = 0;
    let mut rest = script;
    while !rest.is_empty() {
        match record_at(rest) {
            Err(question) => {
                deeds[count] = Deed::broken(question);
                return Told {
                    answer: answer::DONE,
                    deeds,
                    count: count + 1,
                    world,
                };
            }
            Ok(r) => {
                let (bytes, behind) = rest.split_at(size_of(r.kind));
                deeds[count] = world.carry_out(dropped, r, bytes);
                count += 1;
                rest = behind;
            }
        }
    }
    Told {
        answer: answer::DONE,
        deeds,
        count,
        world,
    }
}

// An input carried out: a byte n, a playbook up to its end record, and a script. The shares of the sender with the
// number `dropped` are dropped on their way to a switch, or nobody's.
pub fn tell(dropped: Option<u8>, input: &[u8]) -> Told
    ensures { result ≡ told_of dropped input.now }
{
    match begin(input) {
        Err(answer) => Told {
            answer,
            deeds: [Deed::broken(0); DEEDS],
            count: 0,
            world: World::new(0, playbook::empty()),
        },
        Ok(start) => follow(dropped, start.world, &input[start.script..]),
    }
}

// The lines of an input. What is told is large, and stays where it is.
fn play(input: &[u8]) -> Lines
    ensures { result ≡ lines_stored (lines_of input.now) }
{
    let told = tell(None, input);
    if told.answer != answer::DONE {
        return Lines::fault(told.answer);
    }
    let mut places = [Line::none(); limits::LINES];
    let deeds = &told.deeds[..told.count];
    for (i, deed) in deeds.iter().enumerate() {
        places[i] = Line {
            ordinal: i as u32 + 1,
            answer: deed.answer,
            figure: deed.figure,
        };
    }
    Lines {
        places,
        count: told.count,
    }
}

// The rehearsal of an input, printed to the start of an output. An output that is too short gets 25, and no byte of it
// is written.
pub fn rehearse(input: &[u8], out: &mut [u8]) -> Printed
    ensures { (result, out.new) ≡ rehearsed input.now out.old }
{
    print(play(input).in_use(), out)
}

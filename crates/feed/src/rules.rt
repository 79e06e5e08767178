// The rules that a switch applied in a rehearsal.
ghost use Rattle.std.specs.Prelude.{◌≡◌, replicate};
ghost use Rattle.switch.specs.Slots.{empty_slot};
ghost use Rattle.rehearsal.specs.Limits.{most_lines};
ghost use Rattle.feed.specs.Rules.{is_applied, applied_of};

use crate::Applied;
use flow::{Action, Rule};
use rehearsal::{DEEDS, Deed};
use switch::Slot;

// Whether a record had a rule applied at a switch.
fn is_applied(d: &Deed, switch: u8) -> bool
    ensures { result ≡ is_applied switch d.now }
{
    d.answer == answer::APPLIED && d.switch == switch
}

// An array with no rule in it.
fn no_rules() -> [Slot; DEEDS]
    ensures { result ≡ replicate most_lines empty_slot }
{
    let none = Slot {
        number: 0,
        rule: Rule {
            prefix: 0,
            length: 0,
            action: Action::Remove,
        },
    };
    [none; DEEDS]
}

// The rules that the switch with a number applied in the rehearsal of an input, after 12 and the questions that the
// rehearsal asks before its script. What is told is large, and stays where it is.
pub fn applied_at(switch: u8, input: &[u8]) -> Applied
    ensures { result ≡ applied_of switch input.now }
{
    let mut rules = no_rules();
    if answer::limits::SWITCHES <= switch {
        return Applied {
            answer: answer::UNKNOWN_ID,
            rules,
            count: 0,
        };
    }
    let told = rehearsal::tell(None, input);
    let mut count = 0;
    let deeds = &told.deeds[..told.count];
    for deed in deeds {
        if is_applied(deed, switch) {
            rules[count] = deed.wish.slot;
            count += 1;
        }
    }
    Applied {
        answer: told.answer,
        rules,
        count,
    }
}

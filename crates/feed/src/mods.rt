// The FLOW_MODs of the rules that a switch applied, one after another.
ghost use Rattle.std.specs.Prelude.{◌≡◌, true, ◌++◌, ◌≤◌, length, drop};
ghost use Rattle.lists.specs.Arrays.{every};
ghost use Rattle.rehearsal.specs.Limits.{most_lines};
ghost use Rattle.feed.specs.Rules.{rules_in};
ghost use Rattle.feed.specs.Mods.{is_formed, mods_of, mods_written};

use crate::Applied;
use openflow::Written;
use switch::Slot;

impl Applied {
    // The rules in use; a count past the places counts as all of them.
    fn in_use(&self) -> &[Slot]
        ensures { result.now ≡ rules_in self.now }
    {
        &self.rules[..self.count.min(rehearsal::DEEDS)]
    }
}

// Whether each rule is well formed.
fn all_formed(rules: &[Slot]) -> bool
    ensures { result ≡ every is_formed rules.now }
{
    rules.iter().all(|slot| flow::well_formed(slot.rule))
}

// How many bytes the FLOW_MODs of rules have.
fn measure(rules: &[Slot]) -> usize
    requires { length rules.now ≤ most_lines }
    ensures { result ≡ length (mods_of rules.now) }
{
    let mut total = 0;
    for slot in rules {
        total += openflow::length_of(slot.rule);
    }
    total
}

// The FLOW_MODs of rules, put to the start of an output with room for them.
fn put_all(rules: &[Slot], out: &mut [u8])
    requires formed { every is_formed rules.now ≡ true }
    requires room { length (mods_of rules.now) ≤ length out.old }
    ensures { out.new ≡ mods_of rules.now ++ drop (length (mods_of rules.now)) out.old }
{
    let mut at = 0;
    for slot in rules {
        at += openflow::write_flow_mod(slot.number, slot.rule, out, at).length;
    }
}

// The FLOW_MODs of the rules applied, written to the start of an output, after questions 15 and 25.
pub fn flow_mods(a: Applied, out: &mut [u8]) -> Written
    ensures { (result, out.new) ≡ mods_written (rules_in a) out.old }
{
    let rules = a.in_use();
    if !all_formed(rules) {
        return Written {
            answer: answer::MALFORMED_RULE,
            length: 0,
        };
    }
    let size = measure(rules);
    if out.len() < size {
        return Written {
            answer: answer::DOES_NOT_FIT,
            length: 0,
        };
    }
    put_all(rules, out);
    Written {
        answer: answer::DONE,
        length: size,
    }
}

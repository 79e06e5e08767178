// The FLOW_MODs that another maker's switch is fed, in words: reads standard input, one byte for the switch and then a
// rehearsal, and prints a line for each rule that this switch applied, or one with the number of the refusal.
#![tactic(auto)]

ghost use Rattle.std.specs.Prelude.{◌≡◌, ◌+◌, ◌≤◌, length};
ghost use Rattle.rehearsal.specs.Limits.{longest_input, most_lines};

use flow::{Action, Rule};
use prose::{Out, Prefix};
use std::fmt;
use std::fmt::Write;
use switch::Slot;

const STDIN_FILENO: i32 = 0;

// The switch's byte, and the longest rehearsal with one byte further.
const SPACE: usize = 1 + rehearsal::INPUT;

fn for_input() -> [u8; SPACE]
    ensures { longest_input + 2 ≡ length result }
{
    [0u8; SPACE]
}

// What a rule has the switch do.
#[derive(Clone, Copy)]
struct Command(Rule);

impl fmt::Display for Command {
    fn fmt<W: fmt::Write>(&self, f: &mut fmt::Formatter<W>) -> fmt::Result {
        let rule = self.0;
        let prefix = Prefix {
            address: rule.prefix,
            length: rule.length,
        };
        match rule.action {
            Action::Remove => write!(f, "delete {prefix}"),
            Action::Set(port) => write!(f, "add {prefix} to port {port}"),
        }
    }
}

fn say_rule(out: &mut Out, slot: Slot) -> fmt::Result {
    let rule = slot.rule;
    writeln!(
        out,
        "change {}: {} (priority {}, {} bytes)",
        slot.number,
        Command(rule),
        rule.length,
        openflow::length_of(rule)
    )
}

// A count of rules, within their places.
fn used(count: usize) -> usize
    ensures { result ≤ most_lines }
{
    if count < rehearsal::DEEDS {
        count
    } else {
        rehearsal::DEEDS
    }
}

// What was applied is large, and stays where it is.
fn say_applied(out: &mut Out, switch: u8, input: &[u8]) -> fmt::Result {
    let applied = feed::applied_at(switch, input);
    if applied.answer != answer::DONE {
        return writeln!(out, "fault {}", applied.answer);
    }
    for slot in &applied.rules[..used(applied.count)] {
        say_rule(out, *slot)?;
    }
    Ok(())
}

fn main() -> fmt::Result {
    let mut out = Out::new();
    let mut space = for_input();
    let n = io::read_full(STDIN_FILENO, &mut space);
    let input = &space[..n];
    let said = say_applied(&mut out, lists::byte_at(input, 0), lists::behind(input, 1));
    out.end();
    said
}

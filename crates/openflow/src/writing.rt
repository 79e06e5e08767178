// A FLOW_MOD written at an offset of an outgoing frame.
ghost use Rattle.std.specs.Prelude.{◌≡◌, ◌+◌, ◌≤◌, length};
ghost use Rattle.std.proofs.lemmas.List.Edits.{sets};
ghost use Rattle.lists.specs.Fields.{width_of};
ghost use Rattle.openflow.specs.FlowMods.{match_of, command_of, length_of, bytes_of};
ghost use Rattle.openflow.specs.Writing.{flow_mod_written};

use crate::actions::put_instruction;
use crate::headers::{put_flow_mod, put_header};
use crate::matches::put_match;
use crate::{Written, standard};
use flow::{Action, Rule};

// Where the match of a rule ends: at length 0 it has no destination.
fn match_end(rule: Rule) -> usize
    ensures { result ≡ 48 + width_of (match_of rule.prefix rule.length) }
{
    if rule.length == 0 { 64 } else { 72 }
}

// How many bytes the FLOW_MOD of a rule has.
pub fn length_of(rule: Rule) -> usize
    ensures { result ≡ length_of rule }
{
    match rule.action {
        Action::Remove => match_end(rule),
        Action::Set(_) => match_end(rule) + 24,
    }
}

fn command_of(action: Action) -> u8
    ensures { result ≡ command_of action }
{
    match action {
        Action::Remove => standard::OFPFC_DELETE_STRICT,
        Action::Set(_) => standard::OFPFC_ADD,
    }
}

// The FLOW_MOD of a rule from the start of a part of a frame.
fn put(part: &mut [u8], number: u32, rule: Rule)
    requires { (length_of rule ≤ length part.old) × (rule.length ≤ 32) }
    ensures { part.new ≡ sets part.old 0 (bytes_of number rule) }
{
    let size = length_of(rule);
    let command = command_of(rule.action);
    put_header(part, size as u16, number);
    put_flow_mod(part, command, rule.length);
    put_match(part, rule.prefix, rule.length);
    if let Action::Set(port) = rule.action {
        let end = match_end(rule);
        put_instruction(&mut part[end..], port);
    }
}

// A numbered rule written as a FLOW_MOD at an offset of a frame, after questions 15 and 25: its xid is the number.
pub fn write_flow_mod(number: u32, rule: Rule, frame: &mut [u8], at: usize) -> Written
    ensures { (result, frame.new) ≡ flow_mod_written number rule frame.old at }
{
    if !flow::well_formed(rule) {
        return Written {
            answer: answer::MALFORMED_RULE,
            length: 0,
        };
    }
    let n = length_of(rule);
    if !lists::fits(frame.len(), at, n) {
        return Written {
            answer: answer::DOES_NOT_FIT,
            length: 0,
        };
    }
    put(&mut frame[at..], number, rule);
    Written {
        answer: answer::DONE,
        length: n,
    }
}

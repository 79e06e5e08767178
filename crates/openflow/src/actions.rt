// The instruction of a FLOW_MOD that sets a port: apply-actions with one output.
ghost use Rattle.std.specs.Prelude.{◌≡◌, ◌+◌, ◌≤◌, length};
ghost use Rattle.std.proofs.lemmas.List.Edits.{sets};
ghost use Rattle.lists.specs.Fields.{laid_out};
ghost use Rattle.openflow.specs.FlowMods.{output, apply_actions};

use crate::standard;
use lists::{put_u16, put_u32};

// 7.2.5, ofp_action_output: type, len, port, max_len, pad.
fn put_output(part: &mut [u8], at: usize, port: u16)
    requires { at + 16 ≤ length part.old }
    ensures { part.new ≡ sets part.old at (laid_out (output port)) }
{
    put_u16(part, at, standard::OFPAT_OUTPUT);
    put_u16(part, at + 2, 16);
    put_u32(part, at + 4, port as u32);
    put_u16(part, at + 8, 0);
    put_u16(part, at + 10, 0);
    put_u32(part, at + 12, 0);
}

// 7.2.4, ofp_instruction_actions: type, len, pad, and the action. The one comparison spares each field its own.
pub(crate) fn put_instruction(part: &mut [u8], port: u16)
    requires { 24 ≤ length part.old }
    ensures { part.new ≡ sets part.old 0 (laid_out (apply_actions (output port))) }
{
    if part.len() < 24 {
        return;
    }
    put_u16(part, 0, standard::OFPIT_APPLY_ACTIONS);
    put_u16(part, 2, 24);
    put_u32(part, 4, 0);
    put_output(part, 8, port);
}

// The front of a FLOW_MOD, put into the part of a frame that is lent for it: its header, and its own fields. Each field
// stands at its offset from the message's first byte.
ghost use Rattle.std.specs.Prelude.{◌≡◌, ◌≤◌, length};
ghost use Rattle.std.proofs.lemmas.List.Edits.{sets};
ghost use Rattle.lists.specs.Fields.{laid_out};
ghost use Rattle.openflow.specs.FlowMods.{header, flow_mod};

use crate::standard;
use lists::{put_u8, put_u16, put_u32, put_u64};

// 7.1, ofp_header: version, type, length, xid. The xid is put first: where nothing is put before a number, the compiler
// makes one store of its bytes.
pub(crate) fn put_header(part: &mut [u8], size: u16, xid: u32)
    requires { 8 ≤ length part.old }
    ensures { part.new ≡ sets part.old 0 (laid_out (header size xid)) }
{
    put_u32(part, 4, xid);
    put_u8(part, 0, standard::OFP_VERSION);
    put_u8(part, 1, standard::OFPT_FLOW_MOD);
    put_u16(part, 2, size);
}

// 7.3.4.1, ofp_flow_mod up to its match: cookie, cookie_mask, table_id, command, idle_timeout, hard_timeout, priority,
// buffer_id, out_port, out_group, flags, pad.
pub(crate) fn put_flow_mod(part: &mut [u8], command: u8, priority: u8)
    requires { 48 ≤ length part.old }
    ensures { part.new ≡ sets part.old 8 (laid_out (flow_mod command priority)) }
{
    put_u64(part, 8, 0);
    put_u64(part, 16, 0);
    put_u8(part, 24, 0);
    put_u8(part, 25, command);
    put_u16(part, 26, 0);
    put_u16(part, 28, 0);
    put_u16(part, 30, priority as u16);
    put_u32(part, 32, standard::OFP_NO_BUFFER);
    put_u32(part, 36, standard::OFPP_ANY);
    put_u32(part, 40, standard::OFPG_ANY);
    put_u16(part, 44, 0);
    put_u16(part, 46, 0);
}

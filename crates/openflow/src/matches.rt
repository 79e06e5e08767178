// The match of a FLOW_MOD, from its byte 48 on: IPv4, and the destination where the prefix has a length.
ghost use Rattle.std.specs.Prelude.{◌≡◌, [], ◌∷◌, ◌++◌, ◌+◌, ◌*◌, ◌≤◌, ◌<◌, length};
ghost use Rattle.std.proofs.lemmas.List.Edits.{sets};
ghost use Rattle.lists.specs.Fields.{laid_out, width_of};
ghost use Rattle.openflow.specs.Standard.{OFPMT_OXM};
ghost use Rattle.openflow.specs.FlowMods.{oxm, eth_type, mask_of, whole_dst, masked_dst, flow_match, match_of};

use crate::standard;
use lists::{put_u8, put_u16, put_u32};

// 7.2.3.2, the header of a field: oxm_class, oxm_field with oxm_hasmask, oxm_length.
fn put_oxm(part: &mut [u8], at: usize, field: u8, hasmask: u8, size: u8)
    requires { (at + 4 ≤ length part.old) × (field * 2 + hasmask < 256) }
    ensures { part.new ≡ sets part.old at (laid_out (oxm field hasmask size)) }
{
    put_u16(part, at, standard::OFPXMC_OPENFLOW_BASIC);
    put_u8(part, at + 2, field * 2 + hasmask);
    put_u8(part, at + 3, size);
}

// 7.2.3.1, the front of ofp_match, and its field for the Ethernet type. The match's length leaves its padding out.
fn put_ethernet(part: &mut [u8], size: u16)
    requires { 58 ≤ length part.old }
    ensures { part.new
        ≡ sets part.old 48 (laid_out ((2, OFPMT_OXM) ∷ (2, size) ∷ eth_type)) }
{
    put_u16(part, 48, standard::OFPMT_OXM);
    put_u16(part, 50, size);
    put_oxm(part, 52, standard::OFPXMT_OFB_ETH_TYPE, 0, 2);
    put_u16(part, 56, standard::ETH_TYPE_IPV4);
}

// Every IPv4 packet.
fn put_all(part: &mut [u8])
    requires { 64 ≤ length part.old }
    ensures { part.new ≡ sets part.old 48 (laid_out (flow_match eth_type)) }
{
    put_ethernet(part, 10);
    put_u16(part, 58, 0);
    put_u32(part, 60, 0);
}

// One destination.
fn put_whole(part: &mut [u8], prefix: u32)
    requires { 72 ≤ length part.old }
    ensures { part.new
        ≡ sets part.old 48 (laid_out (flow_match (eth_type ++ whole_dst prefix))) }
{
    put_ethernet(part, 18);
    put_oxm(part, 58, standard::OFPXMT_OFB_IPV4_DST, 0, 4);
    put_u32(part, 62, prefix);
    put_u16(part, 66, 0);
    put_u32(part, 68, 0);
}

// As many leading ones as a prefix is long.
fn mask_of(size: u8) -> u32
    requires { (1 ≤ size) × (size ≤ 32) }
    ensures { result ≡ mask_of size }
{
    (0x1_0000_0000 - flow::size_of(size)) as u32
}

// The destinations under a prefix.
fn put_masked(part: &mut [u8], prefix: u32, mask: u32)
    requires { 72 ≤ length part.old }
    ensures { part.new
        ≡ sets part.old 48 (laid_out (flow_match (eth_type ++ masked_dst prefix mask))) }
{
    put_ethernet(part, 22);
    put_oxm(part, 58, standard::OFPXMT_OFB_IPV4_DST, 1, 8);
    put_u32(part, 62, prefix);
    put_u32(part, 66, mask);
    put_u16(part, 70, 0);
}

// The match of a prefix and its length.
pub(crate) fn put_match(part: &mut [u8], prefix: u32, size: u8)
    requires { (48 + width_of (match_of prefix size) ≤ length part.old) × (size ≤ 32) }
    ensures { part.new
        ≡ sets part.old 48 (laid_out (match_of prefix size)) }
{
    if size == 0 {
        put_all(part);
    } else if size == 32 {
        put_whole(part, prefix);
    } else {
        put_masked(part, prefix, mask_of(size));
    }
}

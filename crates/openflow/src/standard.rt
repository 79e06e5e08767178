// Numbers of OpenFlow 1.3.5 under the standard's own names; the same as specs/Standard.antt.

pub(crate) const OFP_VERSION: u8 = 0x04;

pub(crate) const OFPT_FLOW_MOD: u8 = 14;

pub(crate) const OFPFC_ADD: u8 = 0;

pub(crate) const OFPFC_DELETE_STRICT: u8 = 4;

pub(crate) const OFP_NO_BUFFER: u32 = 0xffff_ffff;

pub(crate) const OFPP_ANY: u32 = 0xffff_ffff;

pub(crate) const OFPG_ANY: u32 = 0xffff_ffff;

pub(crate) const OFPMT_OXM: u16 = 1;

pub(crate) const OFPXMC_OPENFLOW_BASIC: u16 = 0x8000;

pub(crate) const OFPXMT_OFB_ETH_TYPE: u8 = 5;

pub(crate) const OFPXMT_OFB_IPV4_DST: u8 = 12;

pub(crate) const OFPIT_APPLY_ACTIONS: u16 = 4;

pub(crate) const OFPAT_OUTPUT: u16 = 0;

pub(crate) const ETH_TYPE_IPV4: u16 = 0x0800;

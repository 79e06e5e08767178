// A share read from its bytes, and put into the part of a frame that is lent for it.
ghost use Rattle.std.specs.Prelude.{◌≡◌, ◌≤◌, length};
ghost use Rattle.std.proofs.lemmas.List.Edits.{sets};
ghost use Rattle.message.specs.Layout.{share_body, share_length};
ghost use Rattle.message.specs.Shares.{share_of, share_bytes};

use crate::fields::{u16_at, u32_at};
use crate::{Message, layout};
use flow::Rule;
use lists::{put_u8, put_u16, put_u32};

pub(crate) fn read_share(s: &[u8]) -> Message
    requires { length s.now ≡ share_length }
    ensures { result ≡ share_of s.now }
{
    Message::Share {
        controller: s[layout::SENDER_AT],
        switch: s[layout::RECEIVER_AT],
        number: u32_at(s, layout::NUMBER_AT),
        rule: flow::rule_of(
            u32_at(s, layout::PREFIX_AT),
            s[layout::LENGTH_AT],
            u16_at(s, layout::PORT_AT),
        ),
    }
}

pub(crate) fn put_share(part: &mut [u8], controller: u8, switch: u8, number: u32, rule: Rule)
    requires { share_body ≤ length part.old }
    ensures { part.new
        ≡ sets part.old 0 (share_bytes controller switch number rule) }
{
    put_u8(part, layout::KIND_AT, layout::SHARE);
    put_u8(part, layout::SENDER_AT, controller);
    put_u8(part, layout::RECEIVER_AT, switch);
    put_u32(part, layout::NUMBER_AT, number);
    put_u32(part, layout::PREFIX_AT, rule.prefix);
    put_u8(part, layout::LENGTH_AT, rule.length);
    put_u16(part, layout::PORT_AT, flow::port_of(rule.action));
}

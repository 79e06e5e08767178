// An acknowledgement read from its bytes, and put into the part of a frame that is lent for it.
ghost use Rattle.std.specs.Prelude.{◌≡◌, ◌≤◌, length};
ghost use Rattle.std.proofs.lemmas.List.Edits.{sets};
ghost use Rattle.message.specs.Layout.{acknowledgement_body, acknowledgement_length};
ghost use Rattle.message.specs.Acknowledgements.{acknowledgement_of, acknowledgement_bytes};

use crate::fields::u32_at;
use crate::{Message, layout};
use lists::{put_u8, put_u32};

pub(crate) fn read_acknowledgement(s: &[u8]) -> Message
    requires { length s.now ≡ acknowledgement_length }
    ensures { result ≡ acknowledgement_of s.now }
{
    Message::Acknowledgement {
        switch: s[layout::SENDER_AT],
        controller: s[layout::RECEIVER_AT],
        number: u32_at(s, layout::NUMBER_AT),
    }
}

pub(crate) fn put_acknowledgement(part: &mut [u8], switch: u8, controller: u8, number: u32)
    requires { acknowledgement_body ≤ length part.old }
    ensures { part.new
        ≡ sets part.old 0 (acknowledgement_bytes switch controller number) }
{
    put_u8(part, layout::KIND_AT, layout::ACKNOWLEDGEMENT);
    put_u8(part, layout::SENDER_AT, switch);
    put_u8(part, layout::RECEIVER_AT, controller);
    put_u32(part, layout::NUMBER_AT, number);
}

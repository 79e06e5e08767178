// An event read from its bytes, and put into the part of a frame that is lent for it.
ghost use Rattle.std.specs.Prelude.{◌≡◌, ◌≤◌, length};
ghost use Rattle.std.proofs.lemmas.List.Edits.{sets};
ghost use Rattle.message.specs.Layout.{event_body, event_length};
ghost use Rattle.message.specs.Events.{event_of, event_bytes};

use crate::fields::u32_at;
use crate::{Message, layout};
use lists::{put_u8, put_u32};

pub(crate) fn read_event(s: &[u8]) -> Message
    requires { length s.now ≡ event_length }
    ensures { result ≡ event_of s.now }
{
    Message::Event {
        switch: s[layout::SENDER_AT],
        controller: s[layout::RECEIVER_AT],
        serial: u32_at(s, layout::NUMBER_AT),
        cause: s[layout::CAUSE_AT],
    }
}

pub(crate) fn put_event(part: &mut [u8], switch: u8, controller: u8, serial: u32, cause: u8)
    requires { event_body ≤ length part.old }
    ensures { part.new
        ≡ sets part.old 0 (event_bytes switch controller serial cause) }
{
    put_u8(part, layout::KIND_AT, layout::EVENT);
    put_u8(part, layout::SENDER_AT, switch);
    put_u8(part, layout::RECEIVER_AT, controller);
    put_u32(part, layout::NUMBER_AT, serial);
    put_u8(part, layout::CAUSE_AT, cause);
}

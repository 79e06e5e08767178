// Bytes read as a message at an end, and the check of their tag.
ghost use Rattle.std.specs.Prelude.{◌≡◌};
ghost use Rattle.message.specs.Reading.{decode, message_said, is_sealed};
ghost use Rattle.message.specs.declared.End.TheVariants as ends;

use crate::acknowledgements::read_acknowledgement;
use crate::events::read_event;
use crate::shares::read_share;
use crate::{End, Message, layout};

// A switch expects shares.
fn read_at_switch(s: &[u8]) -> Message
    ensures { result ≡ decode ends.Switch s.now }
{
    if s.len() != layout::SHARE_LENGTH {
        return Message::Refused(answer::WRONG_LENGTH);
    }
    if s[layout::KIND_AT] != layout::SHARE {
        return Message::Refused(answer::WRONG_KIND);
    }
    read_share(s)
}

// A controller expects events and acknowledgements, and their lengths differ.
fn read_at_controller(s: &[u8]) -> Message
    ensures { result ≡ decode ends.Controller s.now }
{
    if s.len() == layout::EVENT_LENGTH {
        if s[layout::KIND_AT] != layout::EVENT {
            return Message::Refused(answer::WRONG_KIND);
        }
        return read_event(s);
    }
    if s.len() != layout::ACKNOWLEDGEMENT_LENGTH {
        return Message::Refused(answer::WRONG_LENGTH);
    }
    if s[layout::KIND_AT] != layout::ACKNOWLEDGEMENT {
        return Message::Refused(answer::WRONG_KIND);
    }
    read_acknowledgement(s)
}

// The message that bytes are where they are received: questions 10 and 11.
pub fn read(end: End, s: &[u8]) -> Message
    ensures { result ≡ decode end s.now }
{
    match end {
        End::Switch => read_at_switch(s),
        End::Controller => read_at_controller(s),
    }
}

// The number of a refusal, and 0 of a message.
pub fn number(m: Message) -> u8
    ensures { result ≡ (message_said m).0 }
{
    match m {
        Message::Event { .. } | Message::Share { .. } | Message::Acknowledgement { .. } => {
            answer::DONE
        }
        Message::Refused(k) => k,
    }
}

// Question 14: whether the last bytes are the tag of all bytes before them.
pub fn is_sealed(key: &[u8], s: &[u8]) -> bool
    ensures { result ≡ is_sealed key.now s.now }
{
    if s.len() < tag::LENGTH {
        return false;
    }
    let body = s.len() - tag::LENGTH;
    tag::matches(key, &s[..body], &s[body..])
}

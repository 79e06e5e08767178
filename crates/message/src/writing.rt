// A message written at an offset of an outgoing frame.
ghost use Rattle.std.specs.Prelude.{◌≡◌, ◌≤◌, length};
ghost use Rattle.std.proofs.lemmas.List.Edits.{sets};
ghost use Rattle.message.specs.Writing.{encode, length_of, port_said, write_to};

use crate::acknowledgements::put_acknowledgement;
use crate::events::put_event;
use crate::fields::seal;
use crate::shares::put_share;
use crate::{Message, layout};

// The message from the start of a part of a frame; nothing for a refusal.
fn put(part: &mut [u8], m: Message, key: &[u8])
    requires { length_of m ≤ length part.old }
    ensures { part.new ≡ sets part.old 0 (encode key.now m) }
{
    match m {
        Message::Event {
            switch,
            controller,
            serial,
            cause,
        } => {
            put_event(part, switch, controller, serial, cause);
            seal(part, layout::EVENT_BODY, key);
        }
        Message::Share {
            controller,
            switch,
            number,
            rule,
        } => {
            put_share(part, controller, switch, number, rule);
            seal(part, layout::SHARE_BODY, key);
        }
        Message::Acknowledgement {
            switch,
            controller,
            number,
        } => {
            put_acknowledgement(part, switch, controller, number);
            seal(part, layout::ACKNOWLEDGEMENT_BODY, key);
        }
        Message::Refused(_) => {}
    }
}

// The bytes that a message takes, its tag among them; a refusal takes none.
pub fn length_of(m: Message) -> usize
    ensures { result ≡ length_of m }
{
    match m {
        Message::Event { .. } => layout::EVENT_LENGTH,
        Message::Share { .. } => layout::SHARE_LENGTH,
        Message::Acknowledgement { .. } => layout::ACKNOWLEDGEMENT_LENGTH,
        Message::Refused(_) => 0,
    }
}

// Whether bytes can say the message: none say a rule that sets port 0.
fn port_said(m: Message) -> bool
    ensures { result ≡ port_said m }
{
    match m {
        Message::Share { rule, .. } => flow::port_ok(rule.action),
        Message::Event { .. } | Message::Acknowledgement { .. } | Message::Refused(_) => true,
    }
}

// A message written at an offset of a frame, after questions 15, 25 and 26. A refusal is nothing to send.
pub fn write(m: Message, key: &[u8], frame: &mut [u8], at: usize) -> u8
    ensures { (result, frame.new) ≡ write_to key.now m frame.old at }
{
    if !port_said(m) {
        return answer::MALFORMED_RULE;
    }
    let n = length_of(m);
    if !lists::fits(frame.len(), at, n) {
        return answer::DOES_NOT_FIT;
    }
    if n == 0 {
        return answer::NOTHING_TO_SEND;
    }
    put(&mut frame[at..], m, key);
    answer::DONE
}

// Events and acknowledgements written at an offset of an outgoing frame.
#![tactic(auto, unfolding(answer::specs::Ask::reply, crate::specs::Writing::written))]

ghost use Rattle.std.specs.Prelude.{◌≡◌, true};
ghost use Rattle.message.specs.Writing.{is_message, port_said};
ghost use Rattle.switch.specs.States.{unchanged};
ghost use Rattle.switch.specs.Writing.{written, event_written, acknowledgement_written};

use crate::{Reply, Switch};
use message::Message;

impl Switch {
    // Questions 20, 21, 12, 25 and 26, of a message for a controller and whether there is one to send; then it is
    // written. The answer alone: the state stays, and goes into one reply.
    // Stays: a message with a test and no Option, since 25 asks its length before 26 (`write_questions`).
    fn write(
        &self,
        keys: &[u8],
        controller: u8,
        m: Message,
        there: bool,
        frame: &mut [u8],
        at: usize,
    ) -> u8
        requires { (is_message m ≡ true) × (port_said m ≡ true) }
        ensures { (unchanged self.now result, frame.new)
            ≡ written self.now keys.now controller m there frame.old at }
    {
        let k = self.state_question(keys.len());
        if k != answer::DONE {
            return k;
        }
        if self.n <= controller {
            return answer::UNKNOWN_ID;
        }
        if !lists::fits(frame.len(), at, message::length_of(m)) {
            return answer::DOES_NOT_FIT;
        }
        if !there {
            return answer::NOTHING_TO_SEND;
        }
        let key = message::keys::LENGTH * (controller as usize);
        message::write(m, &keys[key..key + message::keys::LENGTH], frame, at)
    }
}

// The last raised event, for a controller.
pub fn write_event(s: Switch, keys: &[u8], controller: u8, frame: &mut [u8], at: usize) -> Reply
    ensures { (result, frame.new)
        ≡ event_written s keys.now controller frame.old at }
{
    let m = Message::Event {
        switch: s.id,
        controller,
        serial: s.raised.serial,
        cause: s.raised.cause,
    };
    let k = s.write(keys, controller, m, 0 < s.raised.serial, frame, at);
    s.replied(k)
}

// The last applied number, for a controller.
pub fn write_acknowledgement(
    s: Switch,
    keys: &[u8],
    controller: u8,
    frame: &mut [u8],
    at: usize,
) -> Reply
    ensures { (result, frame.new)
        ≡ acknowledgement_written s keys.now controller frame.old at }
{
    let m = Message::Acknowledgement {
        switch: s.id,
        controller,
        number: s.last,
    };
    let k = s.write(keys, controller, m, true, frame, at);
    s.replied(k)
}

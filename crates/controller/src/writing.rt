// The share of a switch's ready change, written at an offset of an outgoing frame.
#![tactic(auto, unfolding(answer::specs::Ask::reply, crate::specs::Writing::share_written))]

ghost use Rattle.std.specs.Prelude.{◌≡◌, true};
ghost use Rattle.controller.specs.States.{unchanged, controller_ok};
ghost use Rattle.controller.specs.Writing.{share_for, share_written};

use crate::readiness::ready;
use crate::{Controller, Reply, limits};
use message::Message;

impl Controller {
    // The current share for a switch; without a ready change, that there is nothing to send.
    fn current_share(&self, switch: u8) -> Message
        requires { controller_ok self.now ≡ true }
        ensures { result ≡ share_for self.now switch }
    {
        match ready(self.progress.undone.in_use(), switch) {
            Some(u) => Message::Share {
                controller: self.id,
                switch,
                number: u.number,
                rule: u.rule,
            },
            None => Message::Refused(answer::NOTHING_TO_SEND),
        }
    }

    // Questions 20, 21, 12, 25 and 26; then the current share for a switch is written. The answer alone: the state
    // stays, and goes into one reply.
    fn write_share(&self, keys: &[u8], switch: u8, frame: &mut [u8], at: usize) -> u8
        ensures { (unchanged self.now result, frame.new)
            ≡ share_written self.now keys.now switch frame.old at }
    {
        let k = self.state_question(keys.len());
        if k != answer::DONE {
            return k;
        }
        if limits::SWITCHES <= switch {
            return answer::UNKNOWN_ID;
        }
        if !lists::fits(frame.len(), at, message::layout::SHARE_LENGTH) {
            return answer::DOES_NOT_FIT;
        }
        let m = self.current_share(switch);
        let key = message::keys::LENGTH * (switch as usize);
        message::write(m, &keys[key..key + message::keys::LENGTH], frame, at)
    }
}

// The current share for a switch, written after its questions. The state stays: a change is done only when its switch
// acknowledges it.
pub fn write_share(c: Controller, keys: &[u8], switch: u8, frame: &mut [u8], at: usize) -> Reply
    ensures { (result, frame.new)
        ≡ share_written c keys.now switch frame.old at }
{
    let k = c.write_share(keys, switch, frame, at);
    Reply {
        answer: k,
        offer: None,
        state: c,
    }
}

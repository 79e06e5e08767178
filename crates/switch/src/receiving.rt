// Bytes received at a switch.
#![tactic(auto, unfolding(answer::specs::Ask::reply, crate::specs::Receiving::received_by))]

ghost use Rattle.std.specs.Prelude.{◌≡◌, true};
ghost use Rattle.message.specs.declared.Message.TheVariants as kinds;
ghost use Rattle.switch.specs.States.{switch_ok};
ghost use Rattle.switch.specs.Receiving.{arrived, received_by};

use crate::{Reply, Slot, Switch};
use message::{End, Message};

impl Switch {
    // Questions 12 to 14, of the fields of a share that was read from the bytes; then it is taken.
    fn receive_share(
        self,
        keys: &[u8],
        bytes: &[u8],
        controller: u8,
        receiver: u8,
        share: Slot,
    ) -> Reply
        requires { switch_ok self ≡ true }
        ensures { result
            ≡ arrived self keys.now bytes.now (kinds.Share controller receiver share.number share.rule) }
    {
        let k = message::sender_question(self.n, self.id, keys, bytes, controller, receiver);
        if k != answer::DONE {
            return self.replied(k);
        }
        self.take_share(controller, share)
    }
}

// Questions 20, 21 and 10 to 19; then the share is a repeat, held, or applied.
pub fn receive(s: Switch, keys: &[u8], bytes: &[u8]) -> Reply
    ensures { result ≡ received_by s keys.now bytes.now }
{
    let k = s.state_question(keys.len());
    if k != answer::DONE {
        return s.replied(k);
    }
    match message::read(End::Switch, bytes) {
        Message::Share {
            controller,
            switch,
            number,
            rule,
        } => s.receive_share(keys, bytes, controller, switch, Slot { number, rule }),
        Message::Refused(k) => s.replied(k),
        Message::Event { .. } | Message::Acknowledgement { .. } => s.replied(answer::WRONG_KIND),
    }
}

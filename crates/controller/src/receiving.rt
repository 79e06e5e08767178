// Bytes received at a controller.
#![tactic(auto, unfolding(answer::specs::Ask::reply, crate::specs::Receiving::received_by))]

ghost use Rattle.std.specs.Prelude.{◌≡◌, true};
ghost use Rattle.message.specs.declared.Message.TheVariants as kinds;
ghost use Rattle.controller.specs.States.{unchanged, controller_ok};
ghost use Rattle.controller.specs.Receiving.{arrived, received_by};
ghost use Rattle.controller.specs.Moving.{replied};

use crate::{Controller, Event, Outcome, Reply, limits};
use message::{End, Message};

impl Outcome {
    // An answer, and nothing offered.
    fn answered(answer: u8) -> Outcome
        ensures { result ≡ record { answer = answer; offer = None } }
    {
        Outcome {
            answer,
            offer: None,
        }
    }
}

impl Controller {
    // Questions 12 to 14 and 22, of an event that was read from the bytes; then it is offered.
    fn receive_event(&self, keys: &[u8], bytes: &[u8], receiver: u8, event: Event) -> Outcome
        ensures { replied self.now result
            ≡ arrived self.now keys.now bytes.now (kinds.Event event.switch receiver event.serial event.cause) }
    {
        let k = message::sender_question(
            limits::SWITCHES,
            self.id,
            keys,
            bytes,
            event.switch,
            receiver,
        );
        if k != answer::DONE {
            return Outcome::answered(k);
        }
        if event.serial <= self.progress.serials[event.switch as usize] {
            return Outcome::answered(answer::SERIAL_DECIDED);
        }
        Outcome {
            answer: answer::DONE,
            offer: Some(event),
        }
    }

    // Questions 12 to 14, of an acknowledgement that was read from the bytes; then it is taken, or a repeat.
    fn receive_acknowledgement(
        &mut self,
        keys: &[u8],
        bytes: &[u8],
        receiver: u8,
        switch: u8,
        number: u32,
    ) -> u8
        requires { controller_ok self.old ≡ true }
        ensures { unchanged self.new result
            ≡ arrived self.old keys.now bytes.now (kinds.Acknowledgement switch receiver number) }
    {
        let k = message::sender_question(limits::SWITCHES, self.id, keys, bytes, switch, receiver);
        if k != answer::DONE {
            return k;
        }
        let s = switch as usize;
        if number <= self.progress.acknowledged[s] {
            return answer::REPEAT;
        }
        self.progress.acknowledge(s, number);
        answer::DONE
    }

    // Questions 20, 21, 10 and 11, then those of what was read.
    fn receive(&mut self, keys: &[u8], bytes: &[u8]) -> Outcome
        ensures { replied self.new result ≡ received_by self.old keys.now bytes.now }
    {
        let k = self.state_question(keys.len());
        if k != answer::DONE {
            return Outcome::answered(k);
        }
        match message::read(End::Controller, bytes) {
            Message::Event {
                switch,
                controller,
                serial,
                cause,
            } => self.receive_event(
                keys,
                bytes,
                controller,
                Event {
                    switch,
                    serial,
                    cause,
                },
            ),
            Message::Acknowledgement {
                switch,
                controller,
                number,
            } => {
                let k = self.receive_acknowledgement(keys, bytes, controller, switch, number);
                Outcome::answered(k)
            }
            Message::Refused(k) => Outcome::answered(k),
            Message::Share { .. } => Outcome::answered(answer::WRONG_KIND),
        }
    }
}

// Bytes received, after their questions: an event is offered, an acknowledgement is taken or a repeat.
pub fn receive(mut c: Controller, keys: &[u8], bytes: &[u8]) -> Reply
    ensures { result ≡ received_by c keys.now bytes.now }
{
    let outcome = c.receive(keys, bytes);
    Reply {
        answer: outcome.answer,
        offer: outcome.offer,
        state: c,
    }
}

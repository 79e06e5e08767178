// One record carried out on the controller, the switch and the place that it names.
ghost use Rattle.std.specs.Prelude.{◌≡◌, ◌≤◌};
ghost use Rattle.answer.specs.Limits.{most_controllers};
ghost use Rattle.rehearsal.specs.Worlds.{bytes_of};
ghost use Rattle.rehearsal.specs.Steps.{delivered, share_made, answer_of, reported, kept};
ghost use Rattle.rehearsal.specs.Steps.{by_controller, by_switch, by_place};
ghost use Rattle.rehearsal.specs.Deeds.{carried_but};

use crate::delivery::arrive;
use crate::keys::{controller_keys, switch_keys};
use crate::{Ends, Kind, Moved, Place, Record, Share, limits};
use controller::Controller;
use switch::Switch;

// A share delivered to a switch.
pub(crate) fn deliver(n: u8, s: Switch, switch: u8, share: &Share) -> switch::Reply
    requires { n ≤ most_controllers }
    ensures { result ≡ delivered n s switch (bytes_of share.now) }
{
    let keys = switch_keys(switch);
    let used = message::keys::LENGTH * (n as usize);
    switch::receive(s, &keys[..used], share.in_use())
}

// The current share of a controller for a switch, or the number of the question that refuses it; all shares have one
// length.
pub(crate) fn make_share(c: Controller, controller: u8, switch: u8) -> Result<Share, u8>
    ensures { result ≡ share_made c controller switch }
{
    let keys = controller_keys(controller);
    let mut bytes = [0; limits::LONGEST_SHARE];
    let written = controller::write_share(c, &keys, switch, &mut bytes, 0);
    if written.answer != answer::DONE {
        return Err(written.answer);
    }
    Ok(Share {
        bytes,
        length: message::layout::SHARE_LENGTH,
    })
}

// The number that answers the making of a share.
pub(crate) fn answer_of(made: Result<Share, u8>) -> u8
    ensures { result ≡ answer_of made }
{
    match made {
        Ok(_) => answer::DONE,
        Err(question) => question,
    }
}

// An acknowledgement made and delivered.
fn report(n: u8, s: Switch, c: Controller, switch: u8, controller: u8) -> controller::Reply
    requires { n ≤ most_controllers }
    ensures { result ≡ reported n s c switch controller }
{
    let keys = switch_keys(switch);
    let used = message::keys::LENGTH * (n as usize);
    let mut frame = [0; message::layout::ACKNOWLEDGEMENT_LENGTH];
    let r = switch::write_acknowledgement(s, &keys[..used], controller, &mut frame, 0);
    if r.answer != answer::DONE {
        return controller::Reply {
            answer: r.answer,
            offer: None,
            state: c,
        };
    }
    let keys = controller_keys(controller);
    controller::receive(c, &keys, &frame)
}

// A share that was made, stored; a refused one leaves the place.
fn keep(made: Result<Share, u8>, switch: u8, place: Place) -> Place
    ensures { result ≡ kept made switch place }
{
    match made {
        Ok(share) => Place { switch, share },
        Err(_) => place,
    }
}

impl Ends {
    // The controller replied; the figure is how many changes it has undone.
    fn by_controller(&self, reply: controller::Reply) -> Moved
        ensures { result ≡ by_controller self.now.controller self.now.switch self.now.place reply }
    {
        let controller = reply.state;
        Moved {
            answer: reply.answer,
            figure: controller::undone_in(controller.progress.undone) as u32,
            controller,
            switch: self.switch,
            place: self.place,
        }
    }

    // The switch replied; the figure is its last applied number.
    fn by_switch(&self, reply: switch::Reply) -> Moved
        ensures { result ≡ by_switch self.now.controller self.now.switch self.now.place reply }
    {
        let switch = reply.state;
        Moved {
            answer: reply.answer,
            figure: switch.last,
            controller: self.controller,
            switch,
            place: self.place,
        }
    }

    // A share was made for the place.
    fn by_place(&self, made: Result<Share, u8>, switch: u8) -> Moved
        ensures { result ≡ by_place self.now.controller self.now.switch self.now.place made switch }
    {
        Moved {
            answer: answer_of(made),
            figure: self.switch.last,
            controller: self.controller,
            switch: self.switch,
            place: keep(made, switch, self.place),
        }
    }

    // A record carried out with its share. The shares of the sender with the number `dropped` do not arrive.
    #[tactic(auto, unfolding(crate::specs::Deeds::carried_but))]
    pub(crate) fn carry_out(
        &self,
        dropped: Option<u8>,
        n: u8,
        r: Record,
        made: Result<Share, u8>,
    ) -> Moved
        requires { n ≤ most_controllers }
        ensures { result
            ≡ carried_but dropped self.now.controller self.now.switch self.now.place n r.kind r made }
    {
        match r.kind {
            Kind::Decide => {
                self.by_controller(controller::decide(self.controller, r.switch, r.serial, r.cause))
            }
            Kind::Send => self.by_switch(arrive(dropped, n, self.switch, r.switch, made)),
            Kind::Report => {
                self.by_controller(report(n, self.switch, self.controller, r.switch, r.controller))
            }
            Kind::Raw => self.by_switch(arrive(dropped, n, self.switch, r.switch, made)),
            Kind::Keep => self.by_place(made, r.switch),
            Kind::Deliver => {
                let to = self.place.switch;
                self.by_switch(arrive(dropped, n, self.switch, to, made))
            }
        }
    }
}

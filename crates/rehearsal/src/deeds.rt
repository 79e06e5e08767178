// What a record did, for tellers.
ghost use Rattle.std.specs.Prelude.{◌≡◌, ◌-◌, get_or, true};
ghost use Rattle.switch.specs.Slots.{empty_slot};
ghost use Rattle.controller.specs.Changes.{undone_in};
ghost use Rattle.rehearsal.specs.Worlds.{stored, bytes_of};
ghost use Rattle.rehearsal.specs.Steps.{answer_of, share_of};
ghost use Rattle.rehearsal.specs.Deeds.{no_wish, wish_in, controller_of, agreeing_with, no_delay, delay_of};
ghost use Rattle.rehearsal.specs.Deeds.{plain_deed, broken_deed, deed_by};

use crate::steps::answer_of;
use crate::{Deed, Delay, Ends, Kind, Moved, Record, Share, Wish, limits};
use controller::Held;
use flow::{Action, Rule};
use message::{End, Message};
use switch::Slot;

impl Wish {
    // What is no share.
    fn none() -> Self
        ensures { result ≡ no_wish }
    {
        Wish {
            shared: false,
            sender: 0,
            slot: Slot {
                number: 0,
                rule: Rule {
                    prefix: 0,
                    length: 0,
                    action: Action::Remove,
                },
            },
        }
    }

    // What a switch reads in a share's bytes.
    fn of(share: &Share) -> Self
        ensures { result ≡ wish_in (bytes_of share.now) }
    {
        match message::read(End::Switch, share.in_use()) {
            Message::Share {
                controller,
                switch: _,
                number,
                rule,
            } => Wish {
                shared: true,
                sender: controller,
                slot: Slot { number, rule },
            },
            _ => Wish::none(),
        }
    }

    // How many slots hold it.
    #[tactic(auto, unfolding(crate::specs::Deeds::agreeing_with))]
    fn agreeing(self, slots: [Slot; limits::CONTROLLERS]) -> u32
        ensures { result ≡ agreeing_with self slots }
    {
        if self.shared {
            return switch::agreeing(slots, self.slot);
        }
        0
    }
}

// The controller that a record is about.
fn controller_of(r: Record, w: Wish) -> u8
    ensures { result ≡ controller_of r.kind r w }
{
    match r.kind {
        Kind::Raw => w.sender,
        Kind::Deliver => w.sender,
        _ => r.controller,
    }
}

// The number in the slot of a controller; 0 where there is no slot.
fn held_from(slots: &[Slot; limits::CONTROLLERS], controller: u8) -> u32
    ensures { result ≡ (get_or slots.now controller empty_slot).number }
{
    match slots.get(controller as usize) {
        Some(slot) => slot.number,
        None => 0,
    }
}

impl Delay {
    // Nothing waits.
    fn none() -> Self
        ensures { result ≡ no_delay }
    {
        Delay {
            waiting: 0,
            awaited: 0,
            switch: 0,
        }
    }

    #[tactic(auto, unfolding(crate::specs::Deeds::delay_of))]
    // Why nothing was ready for a switch, where 26 answers the making of a share.
    fn of(answer: u8, held: Held, to: u8) -> Self
        ensures { result ≡ delay_of answer (undone_in held) to }
    {
        if answer != answer::NOTHING_TO_SEND {
            return Delay::none();
        }
        let first = controller::first_on(held, to);
        let awaited = controller::first_awaited(held, first);
        Delay {
            waiting: first.number,
            awaited: awaited.number,
            switch: awaited.switch,
        }
    }
}

impl Deed {
    // A deed of which nothing came but its answer.
    #[tactic(auto, unfolding(crate::specs::Deeds::plain_deed))]
    fn plain(found: bool, r: Record, to: u8, answer: u8) -> Self
        ensures { result ≡ plain_deed found r to answer }
    {
        Deed {
            found,
            item: r,
            begun: false,
            controller: r.controller,
            switch: to,
            answer,
            figure: 0,
            share: Share::empty(),
            wish: Wish::none(),
            agreeing: 0,
            replaced: 0,
            numbers: 0,
            last: 0,
            delay: Delay::none(),
        }
    }

    // Bytes that are no record.
    pub(crate) fn broken(answer: u8) -> Self
        ensures { result ≡ broken_deed answer }
    {
        Deed::plain(false, Record::naming(Kind::Decide, 0, 0, 0), 0, answer)
    }

    // A record that names what there is not.
    pub(crate) fn unbegun(r: Record, to: u8, answer: u8) -> Self
        ensures { result ≡ plain_deed true r to answer }
    {
        Deed::plain(true, r, to, answer)
    }

    #[tactic(auto, unfolding(crate::specs::Deeds::begun_deed))]
    // A record that was carried out: the ends before it, its share, and what it did.
    pub(crate) fn begun(
        r: Record,
        to: u8,
        ends: &Ends,
        made: Result<Share, u8>,
        moved: &Moved,
    ) -> Self
        ensures { result ≡ deed_by r to ends.now.controller ends.now.switch made moved.now }
    {
        let share = made.unwrap_or(Share::empty());
        let wish = Wish::of(&share);
        let controller = controller_of(r, wish);
        let before = ends.controller.progress;
        let last = moved.controller.progress.last;
        Deed {
            found: true,
            item: r,
            begun: true,
            controller,
            switch: to,
            answer: moved.answer,
            figure: moved.figure,
            share,
            wish,
            agreeing: wish.agreeing(moved.switch.slots),
            replaced: held_from(&ends.switch.slots, controller),
            numbers: last.saturating_sub(before.last),
            last,
            delay: Delay::of(answer_of(made), before.undone, to),
        }
    }
}

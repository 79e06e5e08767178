// A record in a world: what it names, what is asked before anything is made or delivered, and what it does.
ghost use Rattle.std.specs.Prelude.{◌≡◌, ◌≤◌, length};
ghost use Rattle.answer.specs.Ask.{first_no};
ghost use Rattle.answer.specs.Limits.{most_controllers};
ghost use Rattle.rehearsal.specs.Records.{size_of};
ghost use Rattle.rehearsal.specs.Effects.{switch_of, record_questions};
ghost use Rattle.rehearsal.specs.Storing.{turn_of};

use crate::delivery::share_in;
use crate::{Deed, Ends, Kind, Place, Record, World, limits};

impl Record {
    // The number of the switch that it is about: a kept share has its own.
    fn switch_of(self, place: &Place) -> u8
        ensures { result ≡ switch_of self.kind self place.now }
    {
        match self.kind {
            Kind::Deliver => place.switch,
            _ => self.switch,
        }
    }

    // Questions 12, 29 and 26, before anything is made or delivered.
    fn question(self, n: u8, place: &Place) -> u8
        ensures { result ≡ first_no (record_questions n self place.now) }
    {
        if n <= self.controller {
            return answer::UNKNOWN_ID;
        }
        if limits::SWITCHES <= self.switch as usize {
            return answer::UNKNOWN_ID;
        }
        if limits::PLACES <= self.place as usize {
            return answer::UNKNOWN_PLACE;
        }
        if limits::SWITCHES <= self.switch_of(place) as usize {
            return answer::NOTHING_TO_SEND;
        }
        answer::DONE
    }
}

impl World {
    // A record with its bytes, carried out unless a question refuses it. What it names is taken out and put back: the
    // world is large, and stays where it is.
    pub(crate) fn carry_out(&mut self, dropped: Option<u8>, r: Record, bytes: &[u8]) -> Deed
        requires few { self.old.n ≤ most_controllers }
        requires whole { length bytes.now ≤ size_of r.kind }
        ensures { (result, self.new) ≡ turn_of dropped self.old r bytes.now }
    {
        let place = self.place(r.place);
        let to = r.switch_of(&place);
        let question = r.question(self.n, &place);
        if question != answer::DONE {
            return Deed::unbegun(r, to, question);
        }
        let ends = Ends {
            controller: self.controllers[r.controller as usize],
            switch: self.switches[to as usize],
            place,
        };
        let made = share_in(&ends, r, bytes);
        let moved = ends.carry_out(dropped, self.n, r, made);
        self.controllers[r.controller as usize] = moved.controller;
        self.switches[to as usize] = moved.switch;
        self.places[r.place as usize] = moved.place;
        Deed::begun(r, to, &ends, made, &moved)
    }
}

// A decision that agreement brought: its questions, and the changes that it gives numbers, held with the undone ones.
#![tactic(auto, unfolding(answer::specs::Ask::reply, crate::specs::Decisions::decided_by))]

ghost use Rattle.std.specs.Prelude.{◌≡◌, true, ◌++◌, ◌+◌, ◌≤◌, ◌<◌, drop, length, take};
ghost use Rattle.answer.specs.Ask.{reply};
ghost use Rattle.answer.specs.Limits.{switch_count, most_undone, largest};
ghost use Rattle.playbook.specs.Limits.{max_changes};
ghost use Rattle.controller.specs.Changes.{undone_in, undone_of, held_of, still_undone, numbered, numbered_from};
ghost use Rattle.controller.specs.States.{unchanged, controller_ok};
ghost use Rattle.controller.specs.Decisions.{decision_questions, decided, decided_by};

use crate::{Controller, Event, Held, Reply, Undone, limits};
use playbook::{Change, Plan};

impl Undone {
    // A plan's change with a number, of the decision with a first number.
    fn of(change: &Change, first: u32, number: u32) -> Undone
        ensures { result ≡ numbered first number change.now }
    {
        Undone {
            number,
            first,
            flow: change.flow,
            switch: change.switch,
            rule: change.rule,
        }
    }
}

impl Held {
    // The changes of a plan that are not done are held behind the others, with the numbers after the last one given.
    // More than there are places for are counted and not kept.
    pub(crate) fn hold(&mut self, plan: &[Change], acknowledged: &[u32], last: u32)
        requires { (self.old ≡ held_of (undone_in self.old)) × (self.old.count ≤ most_undone)
            × (length plan.now ≤ max_changes) × (last + length plan.now ≤ largest) }
        ensures { self.new
            ≡ held_of (undone_in self.old
            ++ still_undone acknowledged.now (numbered_from (last + 1) (last + 1) plan.now)) }
    {
        let mut number = last;
        for change in plan {
            number += 1;
            let u = Undone::of(change, last + 1, number);
            if u.is_undone(acknowledged) {
                self.push(u);
            }
        }
    }
}

impl Controller {
    // The undone changes with those of a plan.
    fn held_after(&self, plan: Plan) -> Held
        requires { (self.now.progress.undone ≡ held_of (undone_of self.now))
            × (self.now.progress.undone.count ≤ most_undone) × (plan.first + plan.count ≤ max_changes)
            × (self.now.progress.last + plan.count ≤ largest) }
        ensures { let last = self.now.progress.last in
            let changes = take plan.count (drop plan.first self.now.playbook.changes) in
            result
            ≡ held_of (undone_of self.now
            ++ still_undone self.now.progress.acknowledged (numbered_from (last + 1) (last + 1) changes)) }
    {
        let changes = &self.playbook.changes[plan.first..plan.first + plan.count];
        let mut undone = self.progress.undone;
        undone.hold(changes, &self.progress.acknowledged, self.progress.last);
        undone
    }

    // Question 23, which counts the whole plan, and 24, which asks the state afterwards; then the decision is taken.
    fn take_decision(&mut self, event: Event) -> u8
        requires { (controller_ok self.old ≡ true) × (event.switch < switch_count) }
        ensures { unchanged self.new result
            ≡ reply (drop 3 (decision_questions self.old event.switch event.serial event.cause))
            (unchanged self.old) (unchanged (decided self.old event.switch event.serial event.cause) 0) }
    {
        let plan = playbook::plan_of(self.playbook, event.switch, event.cause);
        let last = self.progress.last as u64 + plan.count as u64;
        if limits::NUMBERS < last {
            return answer::NUMBERS_EXHAUSTED;
        }
        let held = self.held_after(plan);
        if limits::UNDONE < held.count {
            return answer::TOO_MANY_UNDONE;
        }
        self.progress.serials[event.switch as usize] = event.serial;
        self.progress.last = last as u32;
        self.progress.undone = held;
        answer::DONE
    }

    // Questions 20, 12 and 22, then those of the plan.
    fn decide(&mut self, event: Event) -> u8
        ensures { unchanged self.new result ≡ decided_by self.old event.switch event.serial event.cause }
    {
        if !self.is_ok() {
            return answer::LIMITS_BROKEN;
        }
        if limits::SWITCHES <= event.switch {
            return answer::UNKNOWN_ID;
        }
        if event.serial <= self.progress.serials[event.switch as usize] {
            return answer::SERIAL_DECIDED;
        }
        self.take_decision(event)
    }
}

// A decision, after its questions. The caller brings one that 24 refuses again before any other.
pub fn decide(mut c: Controller, switch: u8, serial: u32, cause: u8) -> Reply
    ensures { result ≡ decided_by c switch serial cause }
{
    let k = c.decide(Event {
        switch,
        serial,
        cause,
    });
    Reply {
        answer: k,
        offer: None,
        state: c,
    }
}

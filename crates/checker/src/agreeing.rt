// The agreed changes of a playbook and a list of decisions, laid out as the check takes them.
ghost use Rattle.std.specs.Prelude.{◌≡◌, true, ◌+◌, ◌*◌, ◌/◌, ◌≤◌, ◌<◌, length, MatchOption};
ghost use Rattle.playbook.specs.Storing.{stored_ok};
ghost use Rattle.checker.specs.Agreeing.{decision_at, decisions_in, laid_from, laid_with, course_with, agreed_of, in_use};
ghost use Rattle.checker.specs.Layout.{most_changes, no_change};
ghost use Rattle.answer.specs.Limits.{largest};

use crate::{Agreed, AgreedChange, Course, limits};
use answer::limits as bounds;
use playbook::{Change, Playbook};

impl AgreedChange {
    // What a place holds that no change is laid out in.
    fn none() -> AgreedChange
        ensures { result ≡ no_change }
    {
        AgreedChange {
            first: 0,
            flow: 0,
            switch: 0,
            prefix: 0,
            length: 0,
            port: 0,
        }
    }

    // A change of a playbook, of the decision with a first number.
    fn from_change(first: u32, change: &Change) -> AgreedChange
        ensures { result ≡ laid_from first change.now }
    {
        let rule = change.rule;
        AgreedChange {
            first,
            flow: change.flow as u32,
            switch: change.switch as u32,
            prefix: rule.prefix,
            length: rule.length as u32,
            port: flow::port_of(rule.action) as u32,
        }
    }
}

// Listed changes laid out from a place on, as far as there is room.
fn lay(laid: &mut [AgreedChange; limits::CHANGES], at: usize, listed: &[Change])
    requires { at + length listed.now ≤ largest }
    ensures { laid.new ≡ laid_with laid.old at (at + 1) listed.now }
{
    for (i, change) in listed.iter().enumerate() {
        if at + i < limits::CHANGES {
            laid[at + i] = AgreedChange::from_change((at + 1) as u32, change);
        }
    }
}

impl Course {
    // One decision more: questions 12, 22 and 23; then its serial, and its plan's changes.
    fn advance(&mut self, p: &Playbook, switch: u8, serial: u32, cause: u8)
        requires stored { stored_ok p.now ≡ true }
        requires few { self.old.count ≤ largest }
        ensures { self.new ≡ course_with p.now self.old switch serial cause }
    {
        if bounds::SWITCHES <= switch || serial <= self.serials[switch as usize] {
            return;
        }
        let plan = playbook::plan_of(*p, switch, cause);
        if (bounds::LARGEST as usize) < self.count + plan.count {
            return;
        }
        self.serials[switch as usize] = serial;
        lay(
            &mut self.changes,
            self.count,
            &p.changes[plan.first..plan.first + plan.count],
        );
        self.count += plan.count;
    }
}

impl Agreed {
    // The changes that are laid out, where there is room for all of them.
    pub fn laid(&self) -> Option<&[AgreedChange]>
        ensures { MatchOption result (most_changes < self.now.count)
            (λ laid. (self.now.count ≤ most_changes) × (laid.now ≡ in_use self.now)) }
    {
        self.changes.get(..self.count)
    }
}

// The agreed changes of a playbook and decisions, six bytes each: switch, serial, cause. Bytes past the last whole one
// are not looked at.
pub fn agree(p: Playbook, decisions: &[u8]) -> Agreed
    ensures { result ≡ agreed_of p (decisions_in decisions.now) }
{
    let none = AgreedChange::none();
    if !playbook::stored(p) {
        return Agreed {
            answer: answer::LIMITS_BROKEN,
            changes: [none; limits::CHANGES],
            count: 0,
        };
    }
    let mut course = Course {
        serials: [0; bounds::OF_SWITCHES],
        changes: [none; limits::CHANGES],
        count: 0,
    };
    for i in 0..decisions.len() / limits::DECISION {
        let at = i * limits::DECISION;
        let serial = lists::u32_of(
            decisions[at + 1],
            decisions[at + 2],
            decisions[at + 3],
            decisions[at + 4],
        );
        course.advance(&p, decisions[at], serial, decisions[at + 5]);
    }
    Agreed {
        answer: answer::DONE,
        changes: course.changes,
        count: course.count,
    }
}

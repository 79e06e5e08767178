// Plans by their triggers, and a plan's own tests.
ghost use Rattle.std.specs.Prelude.{◌≡◌, ◌&&◌, ltb, leb, eqb};
ghost use Rattle.answer.specs.Limits.{switch_count};
ghost use Rattle.playbook.specs.Limits.{max_of_plan};
ghost use Rattle.playbook.specs.Books.{book_of, trigger_of, same_trigger, new_plan};
ghost use Rattle.playbook.specs.Plans.{plan_of};
ghost use Rattle.playbook.specs.Storing.{plan_empty};

use crate::{Plan, Playbook, limits};

impl Plan {
    // What stands in unused places.
    pub(crate) const EMPTY: Plan = Plan {
        switch: 0,
        cause: 0,
        first: 0,
        count: 0,
    };

    // A plan with no changes yet.
    pub(crate) fn new(switch: u8, cause: u8, first: usize) -> Plan
        ensures { result ≡ new_plan (switch, cause) first }
    {
        Plan {
            switch,
            cause,
            first,
            count: 0,
        }
    }

    // Whether a switch and cause trigger it.
    pub(crate) fn is_for(&self, switch: u8, cause: u8) -> bool
        ensures { result ≡ same_trigger (trigger_of self.now) (switch, cause) }
    {
        self.switch == switch && self.cause == cause
    }

    // Whether it is on a known switch, not too long, and has its changes from a place on.
    pub(crate) fn spans_from(&self, start: usize) -> bool
        ensures { result ≡ (ltb self.now.switch switch_count && leb self.now.count max_of_plan
            && eqb self.now.first start) }
    {
        self.switch < limits::SWITCHES
            && self.count <= limits::CHANGES_OF_PLAN
            && self.first == start
    }

    pub(crate) fn is_empty(&self) -> bool
        ensures { result ≡ plan_empty self.now }
    {
        *self == Plan::EMPTY
    }
}

// The plan of a switch and cause; without one, a plan with no changes. Of every store, the plans in use are looked at.
pub fn plan_of(p: Playbook, switch: u8, cause: u8) -> Plan
    ensures { result ≡ plan_of (switch, cause) (book_of p).plans }
{
    let plans = p.plans;
    let in_use = p.planned.min(limits::PLANS);
    for plan in &plans[..in_use] {
        if plan.is_for(switch, cause) {
            return *plan;
        }
    }
    Plan::new(switch, cause, 0)
}

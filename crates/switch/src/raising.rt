// Events raised.
#![tactic(auto, unfolding(answer::specs::Ask::reply, crate::specs::Raising::raised_by))]

ghost use Rattle.std.specs.Prelude.{◌≡◌};
ghost use Rattle.switch.specs.Raising.{next_event, raised_by};

use crate::{Raised, Reply, Stepped, Switch};

const LAST_SERIAL: u32 = answer::limits::LARGEST;

// Question 27; then the next serial, with this cause. Document 01 names both forms: the step by value, and in place.
fn next_event(raised: Raised, cause: u8) -> Stepped
    ensures { result ≡ next_event raised cause }
{
    if raised.serial == LAST_SERIAL {
        return Stepped {
            answer: answer::SERIALS_EXHAUSTED,
            raised,
        };
    }
    Stepped {
        answer: answer::DONE,
        raised: Raised {
            serial: raised.serial + 1,
            cause,
        },
    }
}

// The same step, taken where the event stands: refused, it stays.
pub fn raise_in_place(raised: &mut Raised, cause: u8) -> u8
    ensures { record { answer = result; raised = raised.new } ≡ next_event raised.old cause }
{
    let step = next_event(*raised, cause);
    *raised = step.raised;
    step.answer
}

// Questions 20 and 27; then an event with this cause is the last raised one.
pub fn raise(mut s: Switch, cause: u8) -> Reply
    ensures { result ≡ raised_by s cause }
{
    if !s.is_ok() {
        return s.replied(answer::LIMITS_BROKEN);
    }
    let step = next_event(s.raised, cause);
    s.raised = step.raised;
    s.replied(step.answer)
}

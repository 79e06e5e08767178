// The state of a switch: set up, and its limits.
#![tactic(auto, unfolding(answer::specs::Ask::reply, crate::specs::States::switch_ok))]

ghost use Rattle.std.specs.Prelude.{◌≡◌};
ghost use Rattle.answer.specs.Ask.{first_no};
ghost use Rattle.switch.specs.States.{unchanged, in_range, fresh, setup_of, switch_ok, state_questions};

use crate::slots::slots_ok;
use crate::{Raised, Reply, Slot, Switch, limits};

// Whether a switch can have this id, and a domain so many controllers.
fn in_range(id: u8, n: u8) -> bool
    ensures { result ≡ in_range id n }
{
    id < limits::SWITCHES && 1 <= n && n as usize <= limits::CONTROLLERS
}

impl Switch {
    // A switch to which nothing has happened; all zero for id 0 and no controllers.
    fn new(id: u8, n: u8) -> Switch
        ensures { result ≡ fresh id n }
    {
        Switch {
            id,
            n,
            last: 0,
            table: flow::empty_table(),
            slots: [Slot::EMPTY; limits::CONTROLLERS],
            raised: Raised {
                serial: 0,
                cause: 0,
            },
        }
    }

    // An answer with the state.
    pub(crate) fn replied(self, answer: u8) -> Reply
        ensures { result ≡ unchanged self answer }
    {
        Reply {
            answer,
            state: self,
        }
    }

    // Question 20.
    pub(crate) fn is_ok(&self) -> bool
        ensures { result ≡ switch_ok self.now }
    {
        in_range(self.id, self.n)
            && flow::table_ok(self.table)
            && slots_ok(&self.slots, self.n as usize, self.last)
    }

    // Questions 20 and 21, of the state and the length of its key store: 0, or the number of the first whose answer is
    // no.
    pub(crate) fn state_question(&self, stored: usize) -> u8
        ensures { result ≡ first_no (state_questions self.now stored) }
    {
        if !self.is_ok() {
            return answer::LIMITS_BROKEN;
        }
        if stored != message::keys::LENGTH * (self.n as usize) {
            return answer::WRONG_KEY_STORE;
        }
        answer::DONE
    }
}

// A switch set up with its id and the number of controllers, or an all-zero state.
pub fn setup(id: u8, n: u8) -> Reply
    ensures { result ≡ setup_of id n }
{
    if in_range(id, n) {
        Switch::new(id, n).replied(answer::DONE)
    } else {
        Switch::new(0, 0).replied(answer::LIMITS_BROKEN)
    }
}

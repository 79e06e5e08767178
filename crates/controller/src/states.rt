// The state of a controller: set up, and its limits.
#![tactic(auto, unfolding(answer::specs::Ask::reply, crate::specs::States::controller_ok))]

ghost use Rattle.std.specs.Prelude.{◌≡◌, ◌&&◌, ◌≤◌, drop};
ghost use Rattle.answer.specs.Ask.{first_no};
ghost use Rattle.answer.specs.Limits.{most_undone};
ghost use Rattle.lists.specs.Arrays.{every};
ghost use Rattle.lists.specs.Rising.{rising_from};
ghost use Rattle.controller.specs.Changes.{undone_empty, undone_in, numbers_of};
ghost use Rattle.controller.specs.States.{unchanged, in_range, fresh, setup_of, state_questions};
ghost use Rattle.controller.specs.States.{undone_ok, controller_ok};

use crate::{Controller, Held, Progress, Reply, Undone, limits};
use playbook::Playbook;

// Whether a controller can have this id, and a domain so many controllers.
fn in_range(id: u8, n: u8) -> bool
    ensures { result ≡ in_range id n }
{
    1 <= n && n <= limits::CONTROLLERS && id < n
}

impl Undone {
    // Whether it is within its limits.
    fn is_ok(&self, acknowledged: &[u32], last: u32) -> bool
        ensures { result ≡ undone_ok acknowledged.now last self.now }
    {
        self.switch < limits::SWITCHES
            && self.is_undone(acknowledged)
            && self.number <= last
            && 1 <= self.first
            && self.first <= self.number
            && flow::well_formed(self.rule)
    }
}

// Whether undone changes are each within their limits and their numbers rise, from 1 on.
fn changes_ok(changes: &[Undone], acknowledged: &[u32], last: u32) -> bool
    ensures { result
        ≡ (every (undone_ok acknowledged.now last) changes.now && rising_from 0 (numbers_of changes.now)) }
{
    let mut before = 0;
    for u in changes {
        if !u.is_ok(acknowledged, last) || u.number <= before {
            return false;
        }
        before = u.number;
    }
    true
}

impl Held {
    // Whether the undone changes are each within their limits and their numbers rise, from 1 on, and the other places
    // are empty.
    fn is_ok(&self, acknowledged: &[u32], last: u32) -> bool
        requires { self.now.count ≤ most_undone }
        ensures { result
            ≡ (every (undone_ok acknowledged.now last) (undone_in self.now)
            && rising_from 0 (numbers_of (undone_in self.now))
            && every undone_empty (drop self.now.count self.now.changes)) }
    {
        let (changes, unused) = self.changes.split_at(self.count);
        changes_ok(changes, acknowledged, last) && unused.iter().all(|u| u.is_empty())
    }
}

impl Controller {
    // A controller to which nothing has happened.
    fn new(id: u8, n: u8, playbook: Playbook) -> Controller
        ensures { result ≡ fresh id n playbook }
    {
        Controller {
            id,
            n,
            playbook,
            progress: Progress {
                acknowledged: [0; limits::PLACES],
                serials: [0; limits::PLACES],
                last: 0,
                undone: Held::none(),
            },
        }
    }

    // An answer with the state, and nothing offered.
    fn replied(self, answer: u8) -> Reply
        ensures { result ≡ unchanged self answer }
    {
        Reply {
            answer,
            offer: None,
            state: self,
        }
    }

    // Question 20.
    pub(crate) fn is_ok(&self) -> bool
        ensures { result ≡ controller_ok self.now }
    {
        in_range(self.id, self.n)
            && self.progress.undone.count <= limits::UNDONE
            && self
                .progress
                .undone
                .is_ok(&self.progress.acknowledged, self.progress.last)
            && playbook::stored(self.playbook)
    }

    // Questions 20 and 21, of the state and the length of its key store: 0, or the number of the first whose answer is
    // no.
    pub(crate) fn state_question(&self, stored: usize) -> u8
        ensures { result ≡ first_no (state_questions self.now stored) }
    {
        if !self.is_ok() {
            return answer::LIMITS_BROKEN;
        }
        if stored != message::keys::LENGTH * limits::PLACES {
            return answer::WRONG_KEY_STORE;
        }
        answer::DONE
    }
}

// A controller set up with its id, the number of controllers and its playbook, or an all-zero state. The playbook is
// not asked here: where it is not such as its reader stores, every later call answers 20.
pub fn setup(id: u8, n: u8, p: Playbook) -> Reply
    ensures { result ≡ setup_of id n p }
{
    if in_range(id, n) {
        Controller::new(id, n, p).replied(answer::DONE)
    } else {
        Controller::new(0, 0, playbook::empty()).replied(answer::LIMITS_BROKEN)
    }
}

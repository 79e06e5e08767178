// Triggers of plans: a set of switches with causes.
ghost use Rattle.std.specs.Prelude.{◌≡◌, ◌<◌, false, true, not, get_or, set, replicate};
ghost use Rattle.answer.specs.Limits.{switch_count};
ghost use Rattle.playbook.specs.Gathering.{trigger_count, place_of};

use crate::limits;

// A flag for each switch and cause.
#[derive(Drop)]
pub(crate) struct Triggers {
    used: [bool; limits::PAIRS],
}

fn place_of(switch: u8, cause: u8) -> usize
    ensures { result ≡ place_of (switch, cause) }
{
    usize::from(switch) * limits::BYTES + usize::from(cause)
}

impl Triggers {
    pub(crate) fn new() -> Triggers
        ensures { result.used ≡ replicate trigger_count false }
    {
        Triggers {
            used: [false; limits::PAIRS],
        }
    }

    pub(crate) fn contains(&self, switch: u8, cause: u8) -> bool
        requires { switch < switch_count }
        ensures { result ≡ get_or self.now.used (place_of (switch, cause)) false }
    {
        self.used[place_of(switch, cause)]
    }

    // Adds a trigger, and tells whether it is new.
    pub(crate) fn insert(&mut self, switch: u8, cause: u8) -> bool
        requires { switch < switch_count }
        ensures told { result ≡ not (get_or self.old.used (place_of (switch, cause)) false) }
        ensures added { self.new.used ≡ set self.old.used (place_of (switch, cause)) true }
    {
        let place = place_of(switch, cause);
        let new = !self.used[place];
        self.used[place] = true;
        new
    }
}

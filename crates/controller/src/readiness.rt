// The ready change of a switch.
ghost use Rattle.std.specs.Prelude.{◌≡◌, true, not};
ghost use Rattle.lists.specs.Arrays.{every};
ghost use Rattle.lists.specs.Rising.{rising_from};
ghost use Rattle.controller.specs.Changes.{numbers_of};
ghost use Rattle.controller.specs.Readiness.{ties, ready_of};

use crate::Undone;

impl Undone {
    // Whether it is of the decision and flow of another change.
    #[tactic(auto, unfolding(crate::specs::Readiness::ties))]
    pub(crate) fn is_tied(&self, other: &Undone) -> bool
        ensures { result ≡ ties self.now other.now }
    {
        other.first == self.first && other.flow == self.flow
    }

    // Whether it is tied to none of these changes.
    fn is_free(&self, changes: &[Undone]) -> bool
        ensures { result ≡ every (λ v. not (ties self.now v)) changes.now }
    {
        changes.iter().all(|v| !self.is_tied(v))
    }
}

// The ready one of undone changes on a switch. Numbers rise, so only the first change on the switch can be ready, and
// it has to wait for those before it that it is tied to.
pub(crate) fn ready(changes: &[Undone], switch: u8) -> Option<Undone>
    requires { rising_from 0 (numbers_of changes.now) ≡ true }
    ensures { result ≡ ready_of switch changes.now }
{
    for (i, u) in changes.iter().enumerate() {
        if u.switch == switch {
            return if u.is_free(&changes[..i]) {
                Some(*u)
            } else {
                None
            };
        }
    }
    None
}

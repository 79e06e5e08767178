// A change's own tests.
ghost use Rattle.std.specs.Prelude.{◌≡◌};
ghost use Rattle.playbook.specs.Storing.{change_ok, change_empty};

use crate::{Change, limits};
use flow::{Action, Rule};

impl Change {
    // What stands in unused places.
    pub(crate) const EMPTY: Change = Change {
        flow: 0,
        switch: 0,
        rule: Rule {
            prefix: 0,
            length: 0,
            action: Action::Remove,
        },
    };

    // Whether it is on a known switch and its rule is well-formed.
    pub(crate) fn is_ok(&self) -> bool
        ensures { result ≡ change_ok self.now }
    {
        self.switch < limits::SWITCHES && flow::well_formed(self.rule)
    }

    pub(crate) fn is_empty(&self) -> bool
        ensures { result ≡ change_empty self.now }
    {
        self.flow == 0 && self.switch == 0 && flow::rule_empty(self.rule)
    }
}

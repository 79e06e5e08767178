// The empty store.
ghost use Rattle.std.specs.Prelude.{◌≡◌};
ghost use Rattle.playbook.specs.Books.{no_plans, store_of};

use crate::{Change, Plan, Playbook, limits};

// The playbook with no plans: what reading an end record alone stores, and what a refused playbook is.
pub fn empty() -> Playbook
    ensures { result ≡ store_of no_plans }
{
    Playbook {
        plans: [Plan::EMPTY; limits::PLANS],
        planned: 0,
        changes: [Change::EMPTY; limits::CHANGES],
        listed: 0,
    }
}

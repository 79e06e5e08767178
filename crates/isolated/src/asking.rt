// What the check says of a list of decisions, and the first list of all that is not fine.
ghost use Rattle.std.specs.Prelude.{◌≤◌, ◌<◌, IfErr};

use crate::network::Network;
use crate::{Asked, trying};
use checker::{AgreedChange, Aim, Refusal};
use playbook::Playbook;

pub(crate) fn asked_of(
    aim: Aim,
    asked: &Asked,
    changes: &[AgreedChange],
    n: &Network,
    budget: u64,
) -> Result<u64, Refusal> {
    checker::check(aim, asked.settled, budget, changes, n.links(), n.traffic())
}

// What one list of decisions leaves of a budget, where all is fine with it.
fn left_by(asked: &Asked, n: &Network, p: &Playbook, decisions: &[u8], budget: u64) -> Option<u64> {
    let agreed = checker::agree(*p, decisions);
    let changes = agreed.laid()?;
    let left = asked_of(Aim::Resting, asked, changes, n, budget).ok()?;
    asked_of(Aim::Moving, asked, changes, n, left).ok()
}

// The place of the first list that is not fine, with what those before it left.
#[derive(Clone, Copy)]
pub(crate) struct Stop {
    pub(crate) place: usize,
    pub(crate) left: u64,
}

// What so many lists leave of the budget, where all of them are fine.
pub(crate) fn left_by_all(
    asked: &Asked,
    n: &Network,
    p: &Playbook,
    plans: usize,
    all: usize,
) -> Result<u64, Stop>
    requires { plans ≤ 64 }
    ensures { IfErr result (λ stop. stop.place < all) }
{
    let mut left = asked.budget;
    for place in 0..all {
        let list = trying::list_at(p, plans, place);
        left = left_by(asked, n, p, list.bytes(), left).ok_or(Stop { place, left })?;
    }
    Ok(left)
}

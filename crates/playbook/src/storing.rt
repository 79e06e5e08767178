// Whether a store is such as the reader stores.
ghost use Rattle.std.specs.Prelude.{◌≡◌, ◌≤◌, ◌&&◌, map, length};
ghost use Rattle.answer.specs.Limits.{switch_count};
ghost use Rattle.lists.specs.Arrays.{every};
ghost use Rattle.lists.specs.Kinds.{different};
ghost use Rattle.playbook.specs.Limits.{max_plans, max_changes};
ghost use Rattle.playbook.specs.Books.{trigger_of, same_trigger};
ghost use Rattle.playbook.specs.Storing.{spans, change_ok, few_keys_below, plan_empty, change_empty, stored_ok};

use crate::keys::keys_fit;
use crate::triggers::Triggers;
use crate::{Change, Plan, Playbook, limits};

// Whether plans have their changes one after another up to an end, no trigger stands twice, and the unused plans are
// empty.
fn plans_ok(plans: &[Plan], unused: &[Plan], end: usize) -> bool
    requires { length plans.now ≤ max_plans }
    ensures { result ≡ (spans 0 end plans.now && different same_trigger (map trigger_of plans.now)
        && every plan_empty unused.now) }
{
    let mut triggers = Triggers::new();
    let mut start = 0;
    for plan in plans {
        if !plan.spans_from(start) || !triggers.insert(plan.switch, plan.cause) {
            return false;
        }
        start += plan.count;
    }
    start == end && unused.iter().all(|plan| plan.is_empty())
}

// Whether changes are on known switches with well-formed rules, the unused ones are empty, and no switch has too many
// different keys. In most playbooks each switch has few changes, and so few keys: then no two of them are compared.
fn changes_ok(changes: &[Change], unused: &[Change]) -> bool
    requires { length changes.now ≤ max_changes }
    ensures { result ≡ (every change_ok changes.now && every change_empty unused.now
        && few_keys_below switch_count changes.now) }
{
    let mut on = [0; limits::PLACES];
    for change in changes {
        if !change.is_ok() {
            return false;
        }
        on[usize::from(change.switch)] += 1;
    }
    if !unused.iter().all(|change| change.is_empty()) {
        return false;
    }
    for switch in 0..limits::SWITCHES {
        if limits::KEYS < on[usize::from(switch)] && !keys_fit(changes, switch) {
            return false;
        }
    }
    true
}

// Whether a playbook is such as its reader stores.
pub fn stored(p: Playbook) -> bool
    ensures { result ≡ stored_ok p }
{
    if limits::PLANS < p.planned || limits::CHANGES < p.listed {
        return false;
    }
    let (plans, unused_plans) = p.plans.split_at(p.planned);
    let (changes, unused_changes) = p.changes.split_at(p.listed);
    plans_ok(plans, unused_plans, p.listed) && changes_ok(changes, unused_changes)
}

// Every list of up to three decisions of a playbook.
ghost use Rattle.std.specs.Prelude.{◌≡◌, ◌≤◌, ◌<◌, ◌*◌};

use checker::limits::DECISION;
use playbook::Playbook;
use playbook::limits::PLANS;

// The bytes of three decisions.
const THREE: usize = 3 * DECISION;

// A list of decisions, six bytes each: the first `length` bytes are in use.
#[derive(Clone, Copy)]
pub(crate) struct Tried {
    bytes: [u8; THREE],
    length: usize,
    ghost fits: { length ≤ 18 },
}

impl Tried {
    fn empty() -> Tried {
        Tried {
            bytes: [0; THREE],
            length: 0,
        }
    }

    pub(crate) fn bytes(&self) -> &[u8] {
        &self.bytes[..self.length]
    }

    // One decision more, where there is room: that of a plan, with the next serial.
    fn push(&mut self, p: &Playbook, plan: usize) {
        let at = self.length;
        if at + DECISION <= THREE && plan < PLANS {
            self.bytes[at] = p.plans[plan].switch;
            self.bytes[at + 4] = (at / DECISION + 1) as u8;
            self.bytes[at + 5] = p.plans[plan].cause;
            self.length = at + DECISION;
        }
    }
}

// How many plans a playbook has.
pub(crate) fn plans_of(p: &Playbook) -> usize
    ensures { result ≤ 64 }
{
    p.planned.min(PLANS)
}

// So many lists, each with any of so many plans behind it.
fn times(lists: usize, plans: usize) -> usize
    requires { (lists ≤ 4096) × (plans ≤ 64) }
    ensures { result ≤ lists * 64 }
{
    lists * plans
}

// How many lists of up to so many decisions there are, of so many plans.
pub(crate) fn how_many(plans: usize, any: usize) -> usize
    requires { plans ≤ 64 }
    ensures { result ≤ 266304 }
{
    let square = times(plans, plans);
    match any {
        0 => 0,
        1 => plans,
        2 => plans + square,
        _ => plans + square + times(square, plans),
    }
}

// The list at a place: first those of one decision, then those of two, then those of three.
pub(crate) fn list_at(p: &Playbook, plans: usize, place: usize) -> Tried
    requires { plans ≤ 64 }
{
    let mut list = Tried::empty();
    if plans == 0 {
        return list;
    }
    if place < plans {
        list.push(p, place);
        return list;
    }
    let second = place - plans;
    let square = times(plans, plans);
    if second < square {
        list.push(p, second / plans);
        list.push(p, second % plans);
        return list;
    }
    let third = second - square;
    list.push(p, third / plans / plans);
    list.push(p, third / plans % plans);
    list.push(p, third % plans);
    list
}

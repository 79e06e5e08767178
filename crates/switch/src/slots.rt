// Slots, the controllers that agree, and the quorum.
ghost use Rattle.std.specs.Prelude.{◌≡◌, true, ◌&&◌, map, ◌≤◌, take, drop};
ghost use Rattle.std.specs.Int.Count.{ones};
ghost use Rattle.answer.specs.Limits.{most_controllers};
ghost use Rattle.lists.specs.Arrays.{every};
ghost use Rattle.switch.specs.Slots.{quorum_of, slot_empty, slot_ok, holds, agreeing, is_quorum, emptied};

use crate::{Slot, limits};
use flow::{Action, Rule};

// How many of n controllers have to agree.
pub fn quorum(n: u8) -> u32
    ensures { result ≡ quorum_of n }
{
    (n.saturating_sub(1) / 3 + 1) as u32
}

impl Slot {
    pub(crate) const EMPTY: Slot = Slot {
        number: 0,
        rule: Rule {
            prefix: 0,
            length: 0,
            action: Action::Remove,
        },
    };

    // Whether it holds a share.
    pub(crate) fn holds(&self, share: &Slot) -> bool
        ensures { result ≡ holds share.now self.now }
    {
        self.number == share.number && flow::same_rule(self.rule, share.rule)
    }

    fn is_empty(&self) -> bool
        ensures { result ≡ slot_empty self.now }
    {
        self.holds(&Slot::EMPTY)
    }

    // Whether it is empty, or its number is above the last applied one.
    fn is_ok(&self, last: u32) -> bool
        ensures { result ≡ slot_ok last self.now }
    {
        last < self.number || self.is_empty()
    }
}

// Whether the first n slots are empty, or hold numbers above the last applied one, and the slots from n on are empty.
pub(crate) fn slots_ok(slots: &[Slot; limits::CONTROLLERS], n: usize, last: u32) -> bool
    requires { n ≤ most_controllers }
    ensures { result
        ≡ (every (slot_ok last) (take n slots.now) && every slot_empty (drop n slots.now)) }
{
    let (used, unused) = slots.split_at(n);
    used.iter().all(|slot| slot.is_ok(last)) && unused.iter().all(|slot| slot.is_empty())
}

// The controllers whose slots hold a share, controller c at bit c.
fn agreeing_set(slots: &[Slot; limits::CONTROLLERS], share: &Slot) -> u16
    ensures { result ≡ agreeing share.now slots.now }
{
    let mut set = 0;
    for (c, slot) in slots.iter().enumerate() {
        if slot.holds(share) {
            set |= 1 << c;
        }
    }
    set
}

// How many controllers have this share in their slots.
pub fn agreeing(slots: [Slot; limits::CONTROLLERS], share: Slot) -> u32
    ensures { result ≡ ones (agreeing share slots) }
{
    agreeing_set(&slots, &share).count_ones()
}

// Whether as many controllers agree as n controllers need.
pub(crate) fn is_quorum(n: u8, slots: &[Slot; limits::CONTROLLERS], share: &Slot) -> bool
    ensures { result ≡ is_quorum n share.now slots.now }
{
    quorum(n) <= agreeing_set(slots, share).count_ones()
}

// Slots with this number or a lower one are emptied.
pub(crate) fn empty_up_to(slots: &mut [Slot], number: u32)
    ensures { slots.new ≡ map (emptied number) slots.old }
{
    for slot in slots.iter_mut() {
        if slot.number <= number {
            *slot = Slot::EMPTY;
        }
    }
}

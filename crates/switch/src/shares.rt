// A share after the questions of its bytes: questions 15 to 19, then a repeat, held, or applied.
#![tactic(auto, unfolding(answer::specs::Ask::reply, crate::specs::Shares::take_share))]

ghost use Rattle.std.specs.Prelude.{◌≡◌, true, ◌<◌};
ghost use Rattle.answer.specs.Ask.{first_no};
ghost use Rattle.answer.specs.Limits.{most_controllers};
ghost use Rattle.flow.specs.Rules.{well_formed};
ghost use Rattle.flow.specs.Tables.{entries_of, table_ok};
ghost use Rattle.flow.specs.Changes.{room_for};
ghost use Rattle.switch.specs.States.{switch_ok};
ghost use Rattle.switch.specs.Shares.{keeps_rule, share_questions, stored, applied, counted, take_share};

use crate::slots::{empty_up_to, is_quorum};
use crate::{Reply, Slot, Switch};

impl Slot {
    // Whether a share with this slot's number has the rule that the slot holds.
    fn keeps_rule(&self, share: &Slot) -> bool
        ensures { result ≡ keeps_rule self.now share.now }
    {
        self.number != share.number || self.holds(share)
    }
}

impl Switch {
    // Questions 15 to 19, of the state and the sender's slot: 0, or the number of the first whose answer is no.
    fn share_question(&self, slot: &Slot, share: &Slot) -> u8
        ensures { result ≡ first_no (share_questions self.now slot.now share.now) }
    {
        if !flow::well_formed(share.rule) {
            return answer::MALFORMED_RULE;
        }
        if share.number <= self.last {
            return answer::NOT_ABOVE_APPLIED;
        }
        if share.number < slot.number {
            return answer::BELOW_SLOT;
        }
        if !slot.keeps_rule(share) {
            return answer::OTHER_RULE;
        }
        flow::room(self.table, share.rule)
    }

    // A share's rule is applied, for which the table has room.
    fn apply(&mut self, share: &Slot)
        requires { (table_ok self.old.table ≡ true) × (well_formed share.now.rule ≡ true)
            × (room_for share.now.rule (entries_of self.old.table) ≡ true) }
        ensures { self.new ≡ applied self.old share.now }
    {
        self.last = share.number;
        self.table = flow::apply(self.table, share.rule).table;
        empty_up_to(&mut self.slots, share.number);
    }

    // A share is stored in its sender's slot and counted: applied at the quorum, else held.
    fn store(mut self, c: usize, share: &Slot) -> Reply
        requires { (c < most_controllers) × (table_ok self.table ≡ true)
            × (well_formed share.now.rule ≡ true)
            × (room_for share.now.rule (entries_of self.table) ≡ true) }
        ensures { result ≡ counted (stored self c share.now) share.now }
    {
        self.slots[c] = *share;
        if is_quorum(self.n, &self.slots, share) {
            self.apply(share);
            self.replied(answer::APPLIED)
        } else {
            self.replied(answer::DONE)
        }
    }

    // A share of a known controller, taken by a switch within its limits.
    pub(crate) fn take_share(self, controller: u8, share: Slot) -> Reply
        requires { (switch_ok self ≡ true) × (controller < self.n) }
        ensures { result ≡ take_share self controller share }
    {
        let c = controller as usize;
        let slot = self.slots[c];
        let k = self.share_question(&slot, &share);
        if k != answer::DONE {
            return self.replied(k);
        }
        if slot.holds(&share) {
            return self.replied(answer::REPEAT);
        }
        self.store(c, &share)
    }
}

// The record that stands at the front of a playbook's bytes.
ghost use Rattle.std.specs.Prelude.{◌≡◌};
ghost use Rattle.playbook.specs.Asking.{record_at, bytes_of_record};

use crate::{Change, limits};

// A record of a playbook.
#[derive(Clone, Copy)]
pub(crate) enum Record {
    Opens { switch: u8, cause: u8 },
    Lists(Change),
    Ends,
}

impl Record {
    // The bytes that it takes.
    pub(crate) fn size(&self) -> usize
        ensures { result ≡ bytes_of_record self.now }
    {
        match self {
            Record::Opens { .. } => limits::PLAN_SIZE,
            Record::Lists(_) => limits::CHANGE_SIZE,
            Record::Ends => limits::END_SIZE,
        }
    }
}

// Questions 30, 31 and 30: the record, or the number of the first that refuses the bytes.
#[tactic(auto, unfolding(crate::specs::Asking::record_at, answer::specs::Ask::reply, lists::specs::Bytes::field))]
pub(crate) fn record_at(s: &[u8]) -> Result<Record, u8>
    ensures { result ≡ record_at s.now }
{
    match *s {
        [limits::PLAN, switch, cause, ..] => Ok(Record::Opens { switch, cause }),
        [
            limits::CHANGE,
            flow,
            switch,
            a,
            b,
            c,
            d,
            length,
            high,
            low,
            ..
        ] => {
            Ok(Record::Lists(Change {
                flow,
                switch,
                rule: flow::rule_of(lists::u32_of(a, b, c, d), length, lists::u16_of(high, low)),
            }))
        }
        [limits::END, ..] => Ok(Record::Ends),
        [limits::PLAN | limits::CHANGE, ..] | [] => Err(answer::CUT_SHORT),
        _ => Err(answer::UNKNOWN_KIND),
    }
}

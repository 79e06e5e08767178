// The share that a record makes or has delivered, and its way to a switch, on which one controller's may be dropped.
ghost use Rattle.std.specs.Prelude.{◌≡◌, ◌≤◌, length};
ghost use Rattle.answer.specs.Limits.{most_controllers};
ghost use Rattle.rehearsal.specs.Worlds.{bytes_of};
ghost use Rattle.rehearsal.specs.Records.{size_of};
ghost use Rattle.rehearsal.specs.Deeds.{share_in, drops, arrived};

use crate::steps::{deliver, make_share};
use crate::{Ends, Kind, Record, Share};
use switch::Switch;

// The share of a record with its bytes, made by the controller or kept in the place that it names.
#[tactic(auto, unfolding(crate::specs::Deeds::share_in))]
pub(crate) fn share_in(ends: &Ends, r: Record, bytes: &[u8]) -> Result<Share, u8>
    requires { length bytes.now ≤ size_of r.kind }
    ensures { result ≡ share_in ends.now.controller ends.now.place r.kind r bytes.now }
{
    match r.kind {
        Kind::Decide => Ok(Share::empty()),
        Kind::Send => make_share(ends.controller, r.controller, r.switch),
        Kind::Report => Ok(Share::empty()),
        Kind::Raw => Ok(Share::of(lists::behind(bytes, 2))),
        Kind::Keep => make_share(ends.controller, r.controller, r.switch),
        Kind::Deliver => Ok(ends.place.share),
    }
}

// Whether a share is dropped: its second byte names its sender.
#[tactic(auto, unfolding(crate::specs::Deeds::drops))]
fn is_dropped(dropped: Option<u8>, share: &Share) -> bool
    ensures { result ≡ drops dropped (bytes_of share.now) }
{
    let Some(sender) = dropped else {
        return false;
    };
    match share.in_use().get(message::layout::SENDER_AT) {
        Some(named) => *named == sender,
        None => false,
    }
}

// A share on its way to a switch. One that is dropped leaves the switch as it was, and is answered 26: nothing arrives.
#[tactic(auto, unfolding(crate::specs::Deeds::arrived))]
pub(crate) fn arrive(
    dropped: Option<u8>,
    n: u8,
    s: Switch,
    to: u8,
    made: Result<Share, u8>,
) -> switch::Reply
    requires { n ≤ most_controllers }
    ensures { result ≡ arrived dropped n s to made }
{
    match made {
        Err(answer) => switch::Reply { answer, state: s },
        Ok(share) => {
            if is_dropped(dropped, &share) {
                return switch::Reply {
                    answer: answer::NOTHING_TO_SEND,
                    state: s,
                };
            }
            deliver(n, s, to, &share)
        }
    }
}

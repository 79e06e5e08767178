// The tags that the keys of a rehearsal give (document 01, "Rehearsal program"), and which of the keys gives a tag.
ghost use Rattle.std.specs.Prelude.{◌≡◌};
ghost use Rattle.tag.specs.Tags.{is_tag};
ghost use Rattle.message.specs.Keys.{key_of};
ghost use Rattle.notation.specs.Pairs.{tag_by, giver_of};

use lists::{behind, front};
use message::{keys, layout};

// The tag that the key of a pair gives a share of which this is all before the tag.
pub fn tag_by(controller: u8, switch: u8, body: &[u8]) -> [u8; tag::LENGTH]
    ensures { result ≡ tag_by controller switch body.now }
{
    let key = keys::of_pair(controller, switch);
    tag::tag(&key, body)
}

// Whether the key of a pair gives a share this tag.
fn gives(controller: u8, switch: u8, body: &[u8], given: &[u8]) -> bool
    ensures { result ≡ is_tag (key_of controller switch) body.now given.now }
{
    let right = tag_by(controller, switch, body);
    tag::same(&right, given)
}

/// A controller and a switch, whose key is meant.
#[derive(Clone, Copy, Debug, PartialEq, Eq)]
pub struct Pair {
    pub controller: u8,
    pub switch: u8,
}

/// The first pair, by controller and then by switch, whose key gives a share the tag that it has.
pub fn giver_of(share: &[u8]) -> Option<Pair>
    ensures { result ≡ giver_of share.now }
{
    let body = front(share, layout::SHARE_BODY);
    let given = behind(share, layout::SHARE_BODY);
    for i in 0..256u16 {
        let pair = Pair {
            controller: (i / 16) as u8,
            switch: (i % 16) as u8,
        };
        if gives(pair.controller, pair.switch, body, given) {
            return Some(pair);
        }
    }
    None
}

// Shares in arrays with room for the longest one, and the places that keep them.
ghost use Rattle.std.specs.Prelude.{◌≡◌, [], ◌≤◌, length};
ghost use Rattle.rehearsal.specs.Worlds.{longest_share, stored, bytes_of, empty_place};

use crate::{Place, Share, limits};

impl Share {
    // A share without bytes.
    #[tactic(auto, unfolding(lists::specs::Arrays::pad))]
    pub(crate) fn empty() -> Self
        ensures { result ≡ stored [] }
    {
        Share {
            bytes: [0; limits::LONGEST_SHARE],
            length: 0,
        }
    }

    // Bytes in an array.
    pub(crate) fn of(bytes: &[u8]) -> Self
        requires { length bytes.now ≤ longest_share }
        ensures { result ≡ stored bytes.now }
    {
        let mut room = [0; limits::LONGEST_SHARE];
        room[..bytes.len()].copy_from_slice(bytes);
        Share {
            bytes: room,
            length: bytes.len(),
        }
    }

    // The bytes in use.
    pub(crate) fn in_use(&self) -> &[u8]
        ensures { result.now ≡ bytes_of self.now }
    {
        lists::front(&self.bytes, self.length)
    }
}

impl Place {
    pub(crate) fn empty() -> Self
        ensures { result ≡ empty_place }
    {
        Place {
            switch: answer::limits::SWITCHES,
            share: Share::empty(),
        }
    }
}

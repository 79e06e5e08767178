// The key stores of a rehearsal: `key_of` of message/specs/Keys.antt, one key after another.
ghost use Rattle.std.specs.Prelude.{◌≡◌};
ghost use Rattle.answer.specs.Limits.{most_controllers};
ghost use Rattle.message.specs.Keys.{key_of, joined};
ghost use Rattle.rehearsal.specs.Worlds.{controller_keys};

use crate::limits;
use message::keys::LENGTH;

// The keys of a switch and all sixteen controllers.
pub(crate) fn switch_keys(switch: u8) -> [u8; limits::KEYS]
    ensures { result ≡ joined (λ c. key_of c switch) most_controllers }
{
    let mut keys = [0; limits::KEYS];
    for c in 0..answer::limits::CONTROLLERS {
        let at = LENGTH * (c as usize);
        keys[at] = c;
        keys[at + 1] = switch;
    }
    keys
}

// The keys of a controller and all sixteen switches.
// Stays: one function for both would take a closure and, in its contract, what the closure gives; it is no shorter.
pub(crate) fn controller_keys(controller: u8) -> [u8; limits::KEYS]
    ensures { result ≡ controller_keys controller }
{
    let mut keys = [0; limits::KEYS];
    for s in 0..answer::limits::SWITCHES {
        let at = LENGTH * (s as usize);
        keys[at] = controller;
        keys[at + 1] = s;
    }
    keys
}

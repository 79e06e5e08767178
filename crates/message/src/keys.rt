// The key store of an end: a key for each end that it talks to, one after another; and the keys of a rehearsal.
ghost use Rattle.std.specs.Prelude.{◌≡◌};
ghost use Rattle.message.specs.Keys.{key_of};

// The bytes of a key.
pub const LENGTH: usize = 32;

// The key of a controller and a switch in a rehearsal.
pub fn of_pair(controller: u8, switch: u8) -> [u8; LENGTH]
    ensures { result ≡ key_of controller switch }
{
    let mut key = [0u8; LENGTH];
    key[0] = controller;
    key[1] = switch;
    key
}

// Lookup in the table of a switch.
#![tactic(auto, unfolding(answer::specs::Ask::reply))]

ghost use Rattle.std.specs.Prelude.{◌≡◌};
ghost use Rattle.switch.specs.Lookups.{looked_up};

use crate::Switch;

// Question 20, or its number as the error; then the port of the longest entry that covers an address, or none.
pub fn lookup(s: Switch, address: u32) -> Result<Option<u16>, u8>
    ensures { result ≡ looked_up s address }
{
    if !s.is_ok() {
        return Err(answer::LIMITS_BROKEN);
    }
    Ok(flow::lookup(s.table, address))
}

// The port of the longest entry that covers an address.
ghost use Rattle.std.specs.Prelude.{◌≡◌};
ghost use Rattle.flow.specs.Rules.{entry_key};
ghost use Rattle.flow.specs.Tables.{entries_of};
ghost use Rattle.flow.specs.Lookups.{covers, lookup_of};

use crate::rules::size_of;
use crate::{Entry, Table};

impl Entry {
    fn covers(&self, address: u32) -> bool
        ensures { result ≡ covers (entry_key self.now) address }
    {
        let size = size_of(self.length);
        u64::from(address) / size == u64::from(self.prefix) / size
    }
}

// The longest of the entries that cover an address, the earlier of equals: from the last to the first, since in a table that
// obeys its limits a longer one stands behind a shorter one that covers the same address.
fn longest(entries: &[Entry], address: u32) -> Option<u16>
    ensures { result ≡ lookup_of address entries.now }
{
    let mut best: Option<Entry> = None;
    for entry in entries.iter().rev() {
        if entry.covers(address) && best.is_none_or(|best| best.length <= entry.length) {
            best = Some(*entry);
        }
    }
    best.map(|best| best.port)
}

// The lookup that forwarding uses: of a table's entries in use, whether or not it obeys its limits.
pub fn lookup(t: Table, address: u32) -> Option<u16>
    ensures { result ≡ lookup_of address (entries_of t) }
{
    longest(t.used(), address)
}

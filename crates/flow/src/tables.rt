// The empty flow table, the entries in use, and the limits.
ghost use Rattle.std.specs.Prelude.{◌≡◌, []};
ghost use Rattle.lists.specs.Arrays.{every_tail, every};
ghost use Rattle.flow.specs.Rules.{entry_key, before};
ghost use Rattle.flow.specs.Tables.{entries_of, table_of, entry_ok, head_ok, is_empty, table_ok};

use crate::rules::prefix_ok;
use crate::{Entry, Table};
use answer::limits;

impl Entry {
    // The entry in unused places.
    pub(crate) const EMPTY: Entry = Entry {
        prefix: 0,
        length: 0,
        port: 0,
    };

    // Its prefix and length, by which entries are told apart and in whose order they stand.
    pub(crate) fn key(&self) -> (u32, u8)
        ensures { result ≡ entry_key self.now }
    {
        (self.prefix, self.length)
    }

    // Whether it comes before another: by rising prefix, then length.
    fn is_before(&self, other: &Entry) -> bool
        ensures { result ≡ before (entry_key self.now) (entry_key other.now) }
    {
        self.key() < other.key()
    }

    // Whether it may stand in a table.
    fn is_ok(&self) -> bool
        ensures { result ≡ entry_ok self.now }
    {
        prefix_ok(self.prefix, self.length) && 0 < self.port
    }
}

impl Table {
    // The entries in use: as many as the count says, or all of them.
    pub(crate) fn used(&self) -> &[Entry]
        ensures { result.now ≡ entries_of self.now }
    {
        &self.entries[..self.count.min(limits::ENTRIES)]
    }
}

// The table with no entries.
pub fn empty_table() -> Table
    ensures { result ≡ table_of [] }
{
    Table {
        entries: [Entry::EMPTY; limits::ENTRIES],
        count: 0,
    }
}

// Whether entries may each stand in a table, and rise by prefix and length.
fn are_ordered(entries: &[Entry]) -> bool
    ensures { result ≡ every_tail head_ok entries.now }
{
    entries.iter().all(|e| e.is_ok()) && entries.is_sorted_by(|a, b| a.is_before(b))
}

// Whether entries are those of unused places.
fn are_unused(entries: &[Entry]) -> bool
    ensures { result ≡ every is_empty entries.now }
{
    entries.iter().copied().all(|e| e == Entry::EMPTY)
}

// Whether a table obeys its limits: its part of question 20.
pub fn table_ok(t: Table) -> bool
    ensures { result ≡ table_ok t }
{
    t.count <= limits::ENTRIES && are_ordered(t.used()) && are_unused(&t.entries[t.count..])
}

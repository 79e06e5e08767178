// Changes as they are laid out: what they wait for, and which addresses they cover.
ghost use Rattle.std.specs.Prelude.{◌≡◌, not, ◌&&◌, ◌||◌, ◌+◌, ◌≤◌, ◌<◌, length, ltb};
ghost use Rattle.lists.specs.Arrays.{every};
ghost use Rattle.lists.specs.Kinds.{is_among};
ghost use Rattle.flow.specs.Rules.{block_size};
ghost use Rattle.flow.specs.Lookups as lookups;
ghost use Rattle.controller.specs.Readiness.{waits_for};
ghost use Rattle.checker.specs.Layout.{most_changes, change_at, first_changes, covers_address, is_at};
ghost use Rattle.checker.specs.Marks.{made_in};

use crate::{AgreedChange, Line, limits};

impl AgreedChange {
    // Where the addresses under its prefix begin and end.
    pub(crate) fn begins(&self) -> u64
        ensures { result ≡ self.now.prefix }
    {
        self.prefix as u64
    }

    pub(crate) fn ends(&self) -> u64
        ensures { result ≡ self.now.prefix + block_size self.now.length }
    {
        self.begins() + block_size(self.length)
    }

    // Whether its prefix covers an address.
    pub(crate) fn is_covering(&self, address: u64) -> bool
        ensures { result ≡ covers_address self.now address }
    {
        does_cover(self.prefix, self.length, address)
    }

    // Whether it is on a switch and its prefix covers an address. The switch is asked first: most changes are on another.
    pub(crate) fn is_at(&self, switch: u32, address: u64) -> bool
        ensures { result ≡ is_at self.now switch address }
    {
        self.switch == switch && self.is_covering(address)
    }
}

impl Line {
    // Whether its prefix covers an address.
    pub(crate) fn is_covering(&self, address: u64) -> bool
        ensures { result ≡ lookups.covers (self.now.prefix, self.now.length) address }
    {
        does_cover(self.prefix, self.length, address)
    }
}

// The number of addresses under a prefix of a length, 1 past the longest.
fn block_size(length: u32) -> u64
    ensures { result ≡ block_size length }
{
    if length <= 32 {
        flow::size_of(length as u8)
    } else {
        1
    }
}

// Whether a prefix covers an address.
fn does_cover(prefix: u32, length: u32, address: u64) -> bool
    ensures { result ≡ lookups.covers (prefix, length) address }
{
    let size = block_size(length);
    address / size == prefix as u64 / size
}

// Whether the change at a place has to wait for the one at another.
pub(crate) fn waits_for(changes: &[AgreedChange], i: usize, j: usize) -> bool
    requires { (i < length changes.now) × (j < length changes.now) }
    ensures { result ≡ waits_for (change_at changes.now i) (change_at changes.now j) }
{
    let u = &changes[i];
    let v = &changes[j];
    if i <= j {
        return false;
    }
    if v.switch == u.switch {
        return true;
    }
    v.first == u.first && v.flow == u.flow
}

// Whether the change at place k waits for none that is not marked.
pub(crate) fn skips_none(
    changes: &[AgreedChange],
    marks: &[bool; limits::CHANGES],
    k: usize,
) -> bool
    requires { (k < length changes.now) × (length changes.now ≤ most_changes) }
    ensures { result
        ≡ every (λ v. not (waits_for (change_at changes.now k) v)
        || is_among v.number (made_in marks.now k)) (first_changes changes.now k) }
{
    for j in 0..k {
        if waits_for(changes, k, j) && !marks[j] {
            return false;
        }
    }
    true
}

// Whether the change at a place has to wait for the one at another; there is none past those that are lent.
pub fn awaits(changes: &[AgreedChange], i: usize, j: usize) -> bool
    ensures { result
        ≡ (ltb i (length changes.now) && ltb j (length changes.now)
        && waits_for (change_at changes.now i) (change_at changes.now j)) }
{
    i < changes.len() && j < changes.len() && waits_for(changes, i, j)
}

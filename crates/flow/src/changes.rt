// Room for a rule, and applying it.
ghost use Rattle.std.specs.Prelude.{◌≡◌, ◌≤◌, length, true};
ghost use Rattle.answer.specs.Limits.{most_entries};
ghost use Rattle.flow.specs.Rules.{rule_key, entry_key};
ghost use Rattle.flow.specs.Tables.{entries_of, table_of, head_ok};
ghost use Rattle.flow.specs.Changes.{set_entry, drop_entry, apply_rule, changed, has_entry, room_for};
ghost use Rattle.flow.specs.Changes.{room_answer, apply_to};
ghost use Rattle.flow.specs.Places.{searched};
ghost use Rattle.lists.specs.Arrays.{every_tail};

use crate::rules::well_formed;
use crate::tables::table_ok;
use crate::{Action, Applied, Entry, Rule, Table};
use answer::limits;

// Where the entry of a key stands, or the place where it belongs.
fn search(entries: &[Entry], key: (u32, u8)) -> Result<usize, usize>
    requires { every_tail head_ok entries.now ≡ true }
    ensures { result ≡ searched key entries.now }
{
    entries.binary_search_by_key(&key, |e| e.key())
}

// The table without the entry of a key: those behind it move down, and the last place is as unused ones are.
fn remove_entry(mut t: Table, key: (u32, u8)) -> Table
    requires padded { t ≡ table_of (entries_of t) }
    requires ordered { every_tail head_ok (entries_of t) ≡ true }
    ensures { result ≡ table_of (drop_entry key (entries_of t)) }
{
    if let Ok(at) = search(t.used(), key) {
        let count = t.count;
        t.entries.copy_within(at + 1..count, at);
        t.entries[count - 1] = Entry::EMPTY;
        t.count -= 1;
    }
    t
}

// The table with an entry set: in the place of the one with its key, or those behind it move up.
fn set_entry(mut t: Table, e: Entry) -> Table
    requires padded { t ≡ table_of (entries_of t) }
    requires ordered { every_tail head_ok (entries_of t) ≡ true }
    requires room { length (set_entry e (entries_of t)) ≤ most_entries }
    ensures { result ≡ table_of (set_entry e (entries_of t)) }
{
    match search(t.used(), e.key()) {
        Ok(at) => t.entries[at] = e,
        Err(at) => {
            let count = t.count;
            t.entries.copy_within(at..count, at + 1);
            t.entries[at] = e;
            t.count += 1;
        }
    }
    t
}

// The table after a rule for which it has room.
fn change(t: Table, rule: Rule) -> Table
    requires padded { t ≡ table_of (entries_of t) }
    requires ordered { every_tail head_ok (entries_of t) ≡ true }
    requires room { length (apply_rule rule (entries_of t)) ≤ most_entries }
    ensures { result ≡ changed rule t }
{
    match rule.action {
        Action::Remove => remove_entry(t, rule.key()),
        Action::Set(port) => set_entry(
            t,
            Entry {
                prefix: rule.prefix,
                length: rule.length,
                port,
            },
        ),
    }
}

// Whether some entry is the one of a key.
fn has_entry(entries: &[Entry], key: (u32, u8)) -> bool
    ensures { result ≡ has_entry key entries.now }
{
    entries.iter().any(|e| e.key() == key)
}

// Whether a rule removes, or its entry is present, or there is room for one entry more.
fn has_room(t: &Table, rule: Rule) -> bool
    ensures { result ≡ room_for rule (entries_of t.now) }
{
    match rule.action {
        Action::Remove => true,
        Action::Set(_) => {
            let used = t.used();
            used.len() < limits::ENTRIES || has_entry(used, rule.key())
        }
    }
}

// Question 19, of a table's entries in use, whether or not it obeys its limits: 0, or 19.
pub fn room(t: Table, rule: Rule) -> u8
    ensures { result ≡ room_answer t rule }
{
    if has_room(&t, rule) {
        answer::DONE
    } else {
        answer::NO_ROOM
    }
}

// The rule applied, after questions 20, 15 and 19.
pub fn apply(t: Table, rule: Rule) -> Applied
    ensures { result ≡ apply_to t rule }
{
    if !table_ok(t) {
        return Applied {
            answer: answer::LIMITS_BROKEN,
            table: t,
        };
    }
    if !well_formed(rule) {
        return Applied {
            answer: answer::MALFORMED_RULE,
            table: t,
        };
    }
    if !has_room(&t, rule) {
        return Applied {
            answer: answer::NO_ROOM,
            table: t,
        };
    }
    Applied {
        answer: answer::APPLIED,
        table: change(t, rule),
    }
}

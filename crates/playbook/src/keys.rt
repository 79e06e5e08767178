// The different prefixes with lengths that a switch has in a playbook (question 37).
ghost use Rattle.std.specs.Prelude.{◌≡◌, ℕ, ◌<◌, ◌≤◌, [], false, leb, length, take, get_or};
ghost use Rattle.answer.specs.Ask.{pick};
ghost use Rattle.lists.specs.Kinds.{among};
ghost use Rattle.flow.specs.Rules.{Key, rule_key, same_key};
ghost use Rattle.playbook.specs.Limits.{max_keys};
ghost use Rattle.playbook.specs.Books.{kinds_on};
ghost use Rattle.playbook.specs.Gathering.{mark_of, with_key};

use crate::{Change, limits};
use flow::Rule;

// A prefix and its length.
pub(crate) type Key = (u32, u8);

pub(crate) fn rule_key(rule: Rule) -> Key
    ensures { result ≡ rule_key rule }
{
    (rule.prefix, rule.length)
}

// A number by which keys are told apart at first.
fn mark_of(key: Key) -> usize
    ensures { result ≡ mark_of key }
{
    ((u64::from(key.0) * 256 + u64::from(key.1)) % (limits::MARKS as u64)) as usize
}

// A set of keys: the first `count` of `held`, in the order in which they came. A hint is 0 where none of them has its
// mark; else it is likely the place behind the key that is looked for.
#[derive(Clone, Copy)]
pub(crate) struct Keys {
    held: [Key; limits::KEYS],
    count: usize,
    hints: [u8; limits::MARKS],
    ghost room: { count ≤ max_keys },
    ghost within: { (m : ℕ) → m < 251 → get_or hints m 0 ≤ count },
    ghost hinted: { (k : Key) → get_or hints (mark_of k) 0 ≡ 0
        → among same_key k (take count held) ≡ false },
}

impl Keys {
    pub(crate) fn new() -> Keys
        ensures { take result.count result.held ≡ [] }
    {
        Keys {
            held: [(0, 0); limits::KEYS],
            count: 0,
            hints: [0; limits::MARKS],
        }
    }

    // Whether a key is held. Only where its hint leads to another key are all of them compared.
    #[inline(always)]
    fn contains(&self, key: Key) -> bool
        ensures { result ≡ among same_key key (take self.now.count self.now.held) }
    {
        let hint = usize::from(self.hints[mark_of(key)]);
        if hint == 0 {
            return false;
        }
        self.held[hint - 1] == key || self.held[..self.count].contains(&key)
    }

    // Adds a key, and tells whether there was room: a key that is held needs none.
    #[inline(always)]
    pub(crate) fn insert(&mut self, key: Key) -> bool
        ensures told { result
            ≡ leb (length (with_key key (take self.old.count self.old.held))) max_keys }
        ensures added { take self.new.count self.new.held
            ≡ pick result (with_key key (take self.old.count self.old.held))
            (take self.old.count self.old.held) }
    {
        if self.contains(key) {
            return true;
        }
        if limits::KEYS <= self.count {
            return false;
        }
        self.held[self.count] = key;
        self.count += 1;
        self.hints[mark_of(key)] = self.count as u8;
        true
    }
}

// Whether changes have not too many different keys on a switch. From the last change to the first: where a hint leads to
// another key, the keys that came from behind are compared first.
pub(crate) fn keys_fit(changes: &[Change], switch: u8) -> bool
    ensures { result ≡ leb (kinds_on switch changes.now) max_keys }
{
    let mut keys = Keys::new();
    for i in (0..changes.len()).rev() {
        let change = changes[i];
        if change.switch == switch && !keys.insert(rule_key(change.rule)) {
            return false;
        }
    }
    true
}

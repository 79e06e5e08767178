// The different prefixes with lengths that a playbook's changes have on a switch (question 37).
use playbook::Change;

// A prefix with its length, on a switch.
#[derive(Clone, Copy, PartialEq, Eq)]
struct Key {
    switch: u8,
    prefix: u32,
    length: u8,
}

impl From<Change> for Key {
    fn from(change: Change) -> Key {
        Key {
            switch: change.switch,
            prefix: change.rule.prefix,
            length: change.rule.length,
        }
    }
}

// Whether a change is the first with its key, behind the changes before it.
fn is_first(before: &[Change], change: Change) -> bool {
    let key = Key::from(change);
    !before.iter().any(|earlier| Key::from(*earlier) == key)
}

// How many a switch has.
pub(crate) fn keys_on(switch: u8, changes: &[Change]) -> usize {
    changes
        .iter()
        .enumerate()
        .filter(|(i, change)| change.switch == switch && is_first(&changes[..*i], **change))
        .count()
}

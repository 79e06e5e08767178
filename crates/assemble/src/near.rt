// Whether a word is meant for a name: the same but for the case of its letters, or one edit from it.
use lists::behind;

// How many letters two words begin with that are the same.
fn shared(a: &[u8], b: &[u8]) -> usize {
    let pairs = a.iter().zip(b);
    pairs
        .take_while(|pair| pair.0.eq_ignore_ascii_case(pair.1))
        .count()
}

// Whether two words are the same but for the case of letters.
pub(crate) fn are_alike(a: &[u8], b: &[u8]) -> bool {
    a.eq_ignore_ascii_case(b)
}

// Whether the first two letters of one are those of the other, swapped, and the rest is the same.
fn are_swapped(a: &[u8], b: &[u8]) -> bool {
    match (a, b) {
        ([first, second, a @ ..], [third, fourth, b @ ..]) => {
            first.eq_ignore_ascii_case(fourth)
                && second.eq_ignore_ascii_case(third)
                && are_alike(a, b)
        }
        _ => false,
    }
}

// An edit can only be at the first place where the two differ: another letter there, one too many, one missing, or
// two swapped.
pub(crate) fn is_near(word: &[u8], name: &[u8]) -> bool {
    let n = shared(word, name);
    let had = behind(word, n);
    let due = behind(name, n);
    let had_on = behind(had, 1);
    let due_on = behind(due, 1);
    are_alike(had_on, due_on)
        || are_alike(had_on, due)
        || are_alike(had, due_on)
        || are_swapped(had, due)
}

// The numbers, addresses and bytes that words are.
ghost use Rattle.std.specs.Prelude.{◌<◌, IfSome};

// The number that a word is: decimal digits, of which the first of several is not 0.
pub(crate) fn decimal(word: &[u8]) -> Option<u32> {
    if word.is_empty() || word.len() > 1 && word[0] == b'0' {
        return None;
    }
    let mut n: u32 = 0;
    for digit in word {
        if !digit.is_ascii_digit() {
            return None;
        }
        n = n.checked_mul(10)?.checked_add((*digit - b'0') as u32)?;
    }
    Some(n)
}

fn small(word: &[u8]) -> Option<u8> {
    u8::try_from(decimal(word)?).ok()
}

// The number of a word up to a mark, and what stands behind the mark.
fn part_of(word: &[u8], mark: u8) -> Option<(u8, &[u8])> {
    let end = word.iter().position(|b| *b == mark)?;
    let part = small(&word[..end])?;
    Some((part, &word[end + 1..]))
}

// The parts of the address and the length that a word is, as 10.0.0.0/8.
pub(crate) fn prefix_of(word: &[u8]) -> Option<[u8; 5]> {
    let (a, rest) = part_of(word, b'.')?;
    let (b, rest) = part_of(rest, b'.')?;
    let (c, rest) = part_of(rest, b'.')?;
    let (d, rest) = part_of(rest, b'/')?;
    let length = small(rest)?;
    Some([a, b, c, d, length])
}

fn hex_digit(b: u8) -> Option<u8>
    ensures { IfSome result (λ digit. digit < 16) }
{
    match b {
        b'0'..=b'9' => Some(b - b'0'),
        b'A'..=b'F' => Some(b - b'A' + 10),
        _ => None,
    }
}

// The byte that a word is: two hexadecimal digits, in capitals.
pub(crate) fn hex_of(word: &[u8]) -> Option<u8> {
    let [high, low] = word else {
        return None;
    };
    let high = hex_digit(*high)?;
    let low = hex_digit(*low)?;
    Some(high * 16 + low)
}

// What the test programs share: the fields of a case, and values printed. Nothing that is delivered rests on it.
#![tactic(auto)]

ghost use Rattle.std.specs.Prelude.{◌≡◌, [], ◌∷◌, ◌+◌, eqb};
ghost use Rattle.answer.specs.Ask.{pick};
ghost use Rattle.lists.specs.Bytes.{num, byte_at};
ghost use Rattle.flow.specs.declared.Action.TheVariants.{Remove, Set};

use flow::{Action, Rule};
use lists::byte_at;
use std::fmt;

// How many bytes a frame has into which a message is written.
pub const FRAME: usize = 64;

/// Bytes as hexadecimal digits, two for each.
#[derive(Clone, Copy)]
pub struct Hex<'a>(pub &'a [u8]);

// A hexadecimal digit.
fn digit(n: u8) -> u8 {
    if n < 10 { b'0' + n } else { b'a' + n % 16 % 10 }
}

// So many bytes are turned at a time.
const PART: usize = 32;

impl fmt::Display for Hex<'_> {
    // A format for each byte took four times as long.
    fn fmt<W: fmt::Write>(&self, f: &mut fmt::Formatter<W>) -> fmt::Result {
        for part in self.0.chunks(PART) {
            let mut digits = [0; 2 * PART];
            for (i, byte) in part.iter().take(PART).enumerate() {
                digits[2 * i] = digit(byte / 16);
                digits[2 * i + 1] = digit(byte % 16);
            }
            let length = digits.len().min(2 * part.len());
            f.write_str(str::from_utf8(&digits[..length]).unwrap_or(""))?;
        }
        Ok(())
    }
}

/// A rule with its action, since a set of port 0 is no removal.
#[derive(Clone, Copy)]
pub struct WholeRule(pub Rule);

impl fmt::Display for WholeRule {
    fn fmt<W: fmt::Write>(&self, f: &mut fmt::Formatter<W>) -> fmt::Result {
        let Rule {
            prefix,
            length,
            action,
        } = self.0;
        match action {
            Action::Remove => write!(f, "{prefix} {length} remove"),
            Action::Set(port) => write!(f, "{prefix} {length} set {port}"),
        }
    }
}

/// A rule with the port that it has in bytes.
#[derive(Clone, Copy)]
pub struct RuleFields(pub Rule);

impl fmt::Display for RuleFields {
    fn fmt<W: fmt::Write>(&self, f: &mut fmt::Formatter<W>) -> fmt::Result {
        let Rule {
            prefix,
            length,
            action,
        } = self.0;
        write!(f, "{prefix} {length} {}", flow::port_of(action))
    }
}

// The numbers in the two and in the four bytes from a place.
pub fn u16_at(s: &[u8], place: u8) -> u16
    ensures { result
        ≡ num (byte_at s.now place ∷ byte_at s.now (place + 1) ∷ []) }
{
    let i = place as usize;
    lists::u16_of(byte_at(s, i), byte_at(s, i + 1))
}

pub fn u32_at(s: &[u8], place: u8) -> u32
    ensures { result
        ≡ num (byte_at s.now place ∷ byte_at s.now (place + 1)
        ∷ byte_at s.now (place + 2) ∷ byte_at s.now (place + 3) ∷ []) }
{
    let i = place as usize;
    lists::u32_of(
        byte_at(s, i),
        byte_at(s, i + 1),
        byte_at(s, i + 2),
        byte_at(s, i + 3),
    )
}

// The action of a byte (0 removes, others set) and a port, so that a case can set port 0 too.
pub fn action_of(kind: u8, port: u16) -> Action
    ensures { result ≡ pick (eqb kind 0) Remove (Set port) }
{
    if kind == 0 {
        Action::Remove
    } else {
        Action::Set(port)
    }
}

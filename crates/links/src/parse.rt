// What a line is read by: words that must stand there, numbers, and the first fault.
ghost use Rattle.std.specs.Prelude.{◌≤◌, IfOk};

use crate::values::{Prefix, decimal};
use crate::words::Words;

// What was expected where a line has a fault: a word that stands for itself, a number, or another value. A prefix with bits
// past its length is expected without them.
#[derive(Clone, Copy)]
pub(crate) enum Expected {
    Record,
    Switch,
    Port,
    To,
    Of,
    At,
    SwitchNumber,
    PortNumber,
    Next,
    Prefix,
    Bits(Prefix),
    Owner,
    Client,
    End,
}

// What was expected, and the word that was found.
#[derive(Clone, Copy)]
pub(crate) struct Fault<'a> {
    pub(crate) expected: Expected,
    pub(crate) found: &'a [u8],
}

impl<'a> Words<'a> {
    pub(crate) fn fault(&self, expected: Expected) -> Fault<'a> {
        Fault {
            expected,
            found: self.next,
        }
    }

    // Past a word that must stand there.
    pub(crate) fn named(&mut self, word: &[u8], expected: Expected) -> Result<(), Fault<'a>> {
        if !self.is_next(word) {
            return Err(self.fault(expected));
        }
        self.pass();
        Ok(())
    }

    // A number from the one up to the other.
    pub(crate) fn number(
        &mut self,
        low: u16,
        high: u16,
        expected: Expected,
    ) -> Result<u16, Fault<'a>>
        ensures { IfOk result (λ n. n ≤ high) }
    {
        match decimal(self.next) {
            Some(n) if low <= n && n <= high => {
                self.pass();
                Ok(n)
            }
            _ => Err(self.fault(expected)),
        }
    }

    // No word is left.
    pub(crate) fn ended(&self) -> Result<(), Fault<'a>> {
        if self.next.is_empty() {
            Ok(())
        } else {
            Err(self.fault(Expected::End))
        }
    }
}

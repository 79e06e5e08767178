// What a line is read by: the words that may stand there, numbers and bytes, and the first fault.
ghost use Rattle.std.specs.Prelude.{◌≤◌, IfOk};

use crate::pattern::Pattern;
use crate::values::{decimal, hex_of};
use crate::words::Words;
use notation::{Field, Pair};

// What the records before allow next: the first of all, any but shorthand, any, only further bytes, or none.
#[derive(Clone, Copy, PartialEq, Eq)]
pub(crate) enum Before {
    Nothing,
    Playbook,
    Script,
    FullBytes,
    Bytes,
}

// What was expected where a line has a fault: 1 to 15 of docs/NOTATION.md, "What bad text gets", in their order;
// `NumberOrAll` is 5 too.
#[derive(Clone, Copy)]
pub(crate) enum Expected {
    Controllers,
    NoRecord,
    Record,
    Field(Field),
    Number { low: u32, high: u32 },
    NumberOrAll,
    Prefix,
    Action,
    Message,
    Tag,
    Byte,
    End,
    Early,
    Name,
    Share,
    Key(Pair),
}

// What was expected, and the word that was found.
#[derive(Clone, Copy)]
pub(crate) struct Fault<'a> {
    pub(crate) expected: Expected,
    pub(crate) found: &'a [u8],
}

// How far a line is read.
#[derive(Clone, Copy)]
pub(crate) struct Line<'a> {
    pub(crate) words: Words<'a>,
    pub(crate) before: Before,
    pub(crate) pattern: Pattern,
    // The fault that is told where the rest of the line has none.
    pub(crate) late: Option<Fault<'a>>,
}

impl<'a> Line<'a> {
    pub(crate) fn new(words: Words<'a>, before: Before) -> Line<'a> {
        Line {
            words,
            before,
            pattern: Pattern::new(),
            late: None,
        }
    }

    pub(crate) fn fault(&self, expected: Expected) -> Fault<'a> {
        Fault {
            expected,
            found: self.words.next,
        }
    }

    // Whether this word is the next one, which is passed then.
    pub(crate) fn takes(&mut self, word: &[u8]) -> bool {
        let is_next = self.words.is_next(word);
        if is_next {
            self.words.pass();
        }
        is_next
    }

    // Past the name of a field.
    pub(crate) fn named(&mut self, field: Field) -> Result<(), Fault<'a>> {
        let name = field.name().unwrap_or("");
        if self.takes(name.as_bytes()) {
            Ok(())
        } else {
            Err(self.fault(Expected::Field(field)))
        }
    }

    // A number from the one up to the other.
    pub(crate) fn number(&mut self, low: u32, high: u32) -> Result<u32, Fault<'a>>
        ensures { IfOk result (λ n. n ≤ high) }
    {
        match decimal(self.words.next) {
            Some(n) if low <= n && n <= high => {
                self.words.pass();
                Ok(n)
            }
            _ => Err(self.fault(Expected::Number { low, high })),
        }
    }

    // A byte in hexadecimal digits.
    pub(crate) fn hex_byte(&mut self) -> Result<(), Fault<'a>> {
        let Some(byte) = hex_of(self.words.next) else {
            return Err(self.fault(Expected::Byte));
        };
        self.words.pass();
        self.pattern.push(&[byte]);
        Ok(())
    }

    pub(crate) fn hex_bytes(&mut self, n: usize) -> Result<(), Fault<'a>> {
        for _ in 0..n {
            self.hex_byte()?;
        }
        Ok(())
    }

    // No word is left.
    pub(crate) fn ended(&self) -> Result<(), Fault<'a>> {
        if self.words.next.is_empty() {
            Ok(())
        } else {
            Err(self.fault(Expected::End))
        }
    }
}

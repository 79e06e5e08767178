// The record of a line.
use crate::parse::{Before, Expected, Fault, Line};
use crate::pattern::Pattern;
use crate::words::Words;
use notation::{Kind, LINE};

// Each reads a record, and returns what it allows next.
impl<'a> Line<'a> {
    fn controllers(&mut self) -> Result<Before, Fault<'a>> {
        if !self.takes(b"controllers") {
            return Err(self.fault(Expected::Controllers));
        }
        self.small()?;
        Ok(Before::Playbook)
    }

    // One byte or more, as many as a line may have.
    fn bytes(&mut self) -> Result<Before, Fault<'a>> {
        self.hex_byte()?;
        for _ in 1..LINE {
            if self.words.next.is_empty() {
                break;
            }
            self.hex_byte()?;
        }
        if self.pattern.is_full() {
            Ok(Before::FullBytes)
        } else {
            Ok(Before::Bytes)
        }
    }

    // The first bytes, which are doubted where they begin with a whole record.
    fn first_bytes(&mut self) -> Result<Before, Fault<'a>> {
        let next = self.bytes()?;
        if let Some(kind) = self.pattern.kind() {
            if kind.size() <= self.pattern.bytes().len() {
                self.late = Some(Fault {
                    expected: Expected::Name,
                    found: b"bytes",
                });
            }
        }
        Ok(next)
    }

    fn further_bytes(&mut self) -> Result<Before, Fault<'a>> {
        if self.takes(b"bytes") {
            return self.bytes();
        }
        Err(self.fault(Expected::NoRecord))
    }

    // A full round: its reports here, and `round` for what it sends after them.
    fn round(&mut self) -> Result<Before, Fault<'a>> {
        if self.before != Before::Script {
            return Err(self.fault(Expected::Early));
        }
        self.words.pass();
        self.pattern = Pattern::round();
        Ok(Before::Script)
    }

    // A record of a kind; the script begins behind an end.
    fn of_kind(&mut self, kind: Kind) -> Result<Before, Fault<'a>> {
        self.words.pass();
        self.pattern.push(&[u8::from(kind)]);
        self.fields(kind)?;
        if kind == Kind::End {
            Ok(Before::Script)
        } else {
            Ok(self.before)
        }
    }

    fn named_record(&mut self) -> Result<Before, Fault<'a>> {
        if let Some(kind) = Kind::named(self.words.next) {
            return self.of_kind(kind);
        }
        if self.takes(b"bytes") {
            return self.first_bytes();
        }
        if self.words.is_next(b"round") {
            return self.round();
        }
        Err(self.fault(Expected::Record))
    }

    fn record(&mut self) -> Result<Before, Fault<'a>> {
        match self.before {
            Before::Nothing => self.controllers(),
            Before::Playbook | Before::Script => self.named_record(),
            Before::FullBytes => self.further_bytes(),
            Before::Bytes => Err(self.fault(Expected::NoRecord)),
        }
    }
}

// What a line with these words stands for after those before, and what it allows next.
pub(crate) fn record_of(words: Words<'_>, before: Before) -> Result<(Pattern, Before), Fault<'_>> {
    let mut line = Line::new(words, before);
    let next = line.record()?;
    line.ended()?;
    match line.late {
        Some(fault) => Err(fault),
        None => Ok((line.pattern, next)),
    }
}

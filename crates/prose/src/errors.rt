// Standard error, and how a message there shows what the user wrote.
use std::fmt;
use std::fmt::Write;

const STDERR_FILENO: i32 = 2;

// The most bytes of a word that are shown.
const SHOWN: usize = 20;

/// Standard error. What could not be written there is told nowhere.
#[derive(Clone, Copy)]
pub struct Errors;

impl Errors {
    /// Bytes that need not be text.
    pub fn write_bytes(&mut self, bytes: &[u8]) {
        io::write_all(STDERR_FILENO, bytes);
    }
}

impl fmt::Write for Errors {
    fn write_str(&mut self, text: &str) -> fmt::Result {
        self.write_bytes(text.as_bytes());
        Ok(())
    }
}

/// Bytes as characters, or ? for one that a terminal would obey.
#[derive(Clone, Copy)]
pub struct Text<'a>(pub &'a [u8]);

impl fmt::Display for Text<'_> {
    fn fmt<W: fmt::Write>(&self, f: &mut fmt::Formatter<W>) -> fmt::Result {
        for b in self.0 {
            f.write_char(if b.is_ascii_graphic() {
                *b as char
            } else {
                '?'
            })?;
        }
        Ok(())
    }
}

/// A word that was found, or its beginning; an empty one is the end of the line.
#[derive(Clone, Copy)]
pub struct Found<'a>(pub &'a [u8]);

impl fmt::Display for Found<'_> {
    fn fmt<W: fmt::Write>(&self, f: &mut fmt::Formatter<W>) -> fmt::Result {
        let word = self.0;
        if word.is_empty() {
            f.write_str("the end of the line")
        } else if word.len() <= SHOWN {
            write!(f, "{}", Text(word))
        } else {
            write!(f, "{}..", Text(&word[..SHOWN]))
        }
    }
}

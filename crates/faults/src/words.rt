// The words of a refusal before the script.
use crate::places::refused;
use notation::Kind;
use std::fmt;

// The longest script, in bytes (question 28).
const SCRIPT: usize = 8192;

// Where a change has its switch.
const SWITCH_AT: usize = 2;

/// Of a rule (question 15), wherever it stands.
pub const MALFORMED: &str = "a length above 32, or bits of the address past its length";

// Which of the limits of question 36 a playbook passes.
fn limit_passed(book: &[u8]) -> &'static str {
    let place = refused(book);
    if place.kind(book) == Some(Kind::Plan) {
        "more than 64 plans"
    } else if 32 < place.listed {
        "more than 32 changes in a plan"
    } else {
        "more than 512 changes"
    }
}

// The switch of the change at which a playbook is refused.
fn full_switch(book: &[u8]) -> u8 {
    let at = refused(book).from.saturating_add(SWITCH_AT);
    book.get(at).copied().unwrap_or(0)
}

// By how many bytes the script behind a playbook is too long.
fn excess(book: &[u8]) -> usize {
    let outcome = playbook::read_first(book);
    book.len()
        .saturating_sub(outcome.used)
        .saturating_sub(SCRIPT)
}

/// What is wrong with an input that is refused before its script. It was read into `room` bytes.
#[derive(Clone, Copy)]
pub struct Words<'a> {
    pub answer: u8,
    pub input: &'a [u8],
    pub room: usize,
}

impl Words<'_> {
    // What follows an excess: an input that fills its room may have been cut there.
    fn or_more(&self) -> &'static str {
        if self.input.len() == self.room {
            " or more"
        } else {
            ""
        }
    }
}

impl fmt::Display for Words<'_> {
    fn fmt<W: fmt::Write>(&self, f: &mut fmt::Formatter<W>) -> fmt::Result {
        let book = lists::behind(self.input, 1);
        match self.answer {
            answer::UNKNOWN_ID => f.write_str("the switches are 0 to 15"),
            answer::MALFORMED_RULE => f.write_str(MALFORMED),
            answer::LIMITS_BROKEN => f.write_str("there can be 1 to 16 controllers"),
            answer::SCRIPT_TOO_LONG => write!(
                f,
                "the script is longer than 8192 bytes, by {}{}",
                excess(book),
                self.or_more()
            ),
            answer::CUT_SHORT => f.write_str("the input stops before the playbook's end"),
            answer::UNKNOWN_KIND => {
                f.write_str("a playbook has plans and changes only, and ends with end")
            }
            answer::NO_PLAN => f.write_str("a change stands before any plan"),
            answer::TRIGGER_USED => f.write_str("two plans have the same switch and cause"),
            answer::OVER_LIMIT => f.write_str(limit_passed(book)),
            answer::TOO_MANY_PREFIXES => write!(
                f,
                "more than 64 different prefixes with lengths on one switch, switch {}",
                full_switch(book)
            ),
            answer::BYTES_LEFT => f.write_str("bytes are left behind the end"),
            _ => f.write_str("unknown number"),
        }
    }
}

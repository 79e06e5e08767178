// Where a playbook is refused: at the first record with which its beginning is refused by another number than 30, which
// every good beginning without an end gets.
ghost use Rattle.std.specs.Prelude.{◌≡◌, ◌≤◌};

use lists::front;
use notation::Kind;
use std::fmt;

// No playbook has more records: 64 plans, 512 changes, an end, and the one that is too many.
const RECORDS: u32 = 578;

// A record of a playbook: its ordinal from 1, where it begins and ends, and how many changes of its plan there are up to
// it.
#[derive(Clone, Copy)]
pub(crate) struct Place {
    pub(crate) ordinal: u32,
    pub(crate) from: usize,
    pub(crate) to: usize,
    pub(crate) listed: u32,
}

impl Place {
    // Before the first record.
    const START: Place = Place {
        ordinal: 0,
        from: 0,
        to: 0,
        listed: 0,
    };

    // The record behind this one. At the end of the bytes there is an empty one.
    fn next(self, ordinal: u32, book: &[u8]) -> Place
        ensures { result.ordinal ≡ ordinal }
    {
        let kind = kind_at(book, self.to);
        Place {
            ordinal,
            from: self.to,
            to: self.to.saturating_add(size_of(kind)).min(book.len()),
            listed: match kind {
                Some(Kind::Plan) => 0,
                Some(Kind::Change) => self.listed.saturating_add(1),
                _ => self.listed,
            },
        }
    }

    // The kind of the record, if it has one.
    pub(crate) fn kind(self, book: &[u8]) -> Option<Kind> {
        kind_at(book, self.from)
    }
}

fn kind_at(book: &[u8], at: usize) -> Option<Kind> {
    Kind::try_from(*book.get(at)?).ok()
}

// The bytes of a record; an unknown one is refused by its first byte.
fn size_of(kind: Option<Kind>) -> usize {
    kind.map_or(1, |kind| kind.size())
}

// Whether a playbook's beginning is refused by another number than 30.
fn is_refused(beginning: &[u8]) -> bool {
    let outcome = playbook::read_first(beginning);
    outcome.answer != answer::CUT_SHORT
}

// The refused record of a playbook's bytes: the last that there may be, if none before it is refused.
pub(crate) fn refused(book: &[u8]) -> Place
    ensures { result.ordinal ≤ 578 }
{
    let mut place = Place::START;
    for ordinal in 1..RECORDS {
        place = place.next(ordinal, book);
        if is_refused(front(book, place.to)) {
            return place;
        }
    }
    place.next(RECORDS, book)
}

// Whether a record is at fault: where bytes are missing, or the fault is outside the playbook, there is none.
fn has_record(answer: u8) -> bool {
    !matches!(
        answer,
        answer::CUT_SHORT | answer::LIMITS_BROKEN | answer::SCRIPT_TOO_LONG
    )
}

/// The ordinal of the record of an input's playbook at which it is refused, or 0.
#[derive(Clone, Copy)]
pub struct RecordOrdinal<'a> {
    pub answer: u8,
    pub input: &'a [u8],
}

impl fmt::Display for RecordOrdinal<'_> {
    fn fmt<W: fmt::Write>(&self, f: &mut fmt::Formatter<W>) -> fmt::Result {
        let ordinal = match self.input {
            [_, book @ ..] if has_record(self.answer) => refused(book).ordinal,
            _ => 0,
        };
        write!(f, "{ordinal}")
    }
}

/// Which record that is, if any, as the end of a sentence.
#[derive(Clone, Copy)]
pub struct PlaceWords<'a> {
    pub answer: u8,
    pub input: &'a [u8],
}

impl fmt::Display for PlaceWords<'_> {
    fn fmt<W: fmt::Write>(&self, f: &mut fmt::Formatter<W>) -> fmt::Result {
        if !has_record(self.answer) {
            return Ok(());
        }
        let record = RecordOrdinal {
            answer: self.answer,
            input: self.input,
        };
        write!(f, ", in the playbook's record {record}")
    }
}

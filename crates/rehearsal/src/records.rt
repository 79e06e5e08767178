// The record that stands at a place of a script.
ghost use Rattle.std.specs.Prelude.{◌≡◌, ◌≤◌, length};
ghost use Rattle.rehearsal.specs.Records.{size_of, naming, record_of, record_at};

use crate::{Kind, Record, limits};
use lists::byte_at;

impl TryFrom<u8> for Kind {
    type Error = u8;

    ghost use Rattle.rehearsal.specs.Records.{ReadsKind};

    ghost try_from_gives = { ReadsKind };

    #[tactic(auto, unfolding(crate::specs::Records::is_kind))]
    fn try_from(byte: u8) -> Result<Self, u8> {
        match byte {
            limits::DECIDE => Ok(Kind::Decide),
            limits::SEND => Ok(Kind::Send),
            limits::REPORT => Ok(Kind::Report),
            limits::RAW => Ok(Kind::Raw),
            limits::KEEP => Ok(Kind::Keep),
            limits::DELIVER => Ok(Kind::Deliver),
            _ => Err(answer::UNKNOWN_KIND),
        }
    }
}

// How many bytes a record has, its kind among them.
pub fn size_of(kind: Kind) -> usize
    ensures { result ≡ size_of kind }
{
    match kind {
        Kind::Decide => 8,
        Kind::Send => 3,
        Kind::Report => 3,
        Kind::Raw => 2 + message::layout::SHARE_LENGTH,
        Kind::Keep => 4,
        Kind::Deliver => 2,
    }
}

impl Record {
    // A record that names a controller, a switch and a place.
    pub(crate) fn naming(kind: Kind, controller: u8, switch: u8, place: u8) -> Self
        ensures { result ≡ naming kind controller switch place }
    {
        Record {
            kind,
            controller,
            switch,
            place,
            serial: 0,
            cause: 0,
        }
    }

    // What a record of a kind names, in its bytes.
    fn of(kind: Kind, b: &[u8]) -> Self
        requires { size_of kind ≤ length b.now }
        ensures { result ≡ record_of kind b.now }
    {
        match kind {
            Kind::Decide => Record {
                kind,
                controller: byte_at(b, 1),
                switch: byte_at(b, 2),
                place: 0,
                serial: lists::u32_of(byte_at(b, 3), byte_at(b, 4), byte_at(b, 5), byte_at(b, 6)),
                cause: byte_at(b, 7),
            },
            Kind::Send => Record::naming(kind, byte_at(b, 1), byte_at(b, 2), 0),
            Kind::Report => Record::naming(kind, byte_at(b, 2), byte_at(b, 1), 0),
            Kind::Raw => Record::naming(kind, 0, byte_at(b, 1), 0),
            Kind::Keep => Record::naming(kind, byte_at(b, 1), byte_at(b, 2), byte_at(b, 3)),
            Kind::Deliver => Record::naming(kind, 0, 0, byte_at(b, 1)),
        }
    }
}

// The record at the front of bytes, or the number of the question that refuses them: 30, 31 and 30.
pub fn record_at(b: &[u8]) -> Result<Record, u8>
    ensures { result ≡ record_at b.now }
{
    if b.is_empty() {
        return Err(answer::CUT_SHORT);
    }
    let kind = Kind::try_from(b[0])?;
    if b.len() < size_of(kind) {
        return Err(answer::CUT_SHORT);
    }
    Ok(Record::of(kind, b))
}

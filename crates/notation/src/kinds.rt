// The kinds of records (document 01, "Bytes" and "Rehearsal program"): the first byte, the name, the fields and the size
// of each. The same table as specs/Kinds.antt.
ghost use Rattle.std.specs.Prelude.{◌≡◌, ◌≤◌, length};
ghost use Rattle.lists.specs.Bytes.{equal};
ghost use Rattle.notation.specs.Kinds.{byte_of, fields_of, field_of, record_size, Decodes};
ghost use Rattle.notation.specs.Names.{kind_name, kind_named};

use crate::{Field, MESSAGE_AT, share_fields};
use lists::same;
use message::layout;

/// A kind of record: its first byte.
#[derive(Clone, Copy, Debug, PartialEq, Eq)]
pub enum Kind {
    Plan = 0x11,
    Change = 0x12,
    End = 0x13,
    Decide = 0x21,
    Send = 0x22,
    Report = 0x23,
    Raw = 0x24,
    Keep = 0x25,
    Deliver = 0x26,
}

/// A byte with which no record begins.
#[derive(Clone, Copy, Debug, PartialEq, Eq)]
pub struct UnknownKind(pub u8);

impl TryFrom<u8> for Kind {
    type Error = UnknownKind;

    ghost try_from_gives = { Decodes };

    fn try_from(byte: u8) -> Result<Kind, UnknownKind> {
        match byte {
            0x11 => Ok(Kind::Plan),
            0x12 => Ok(Kind::Change),
            0x13 => Ok(Kind::End),
            0x21 => Ok(Kind::Decide),
            0x22 => Ok(Kind::Send),
            0x23 => Ok(Kind::Report),
            0x24 => Ok(Kind::Raw),
            0x25 => Ok(Kind::Keep),
            0x26 => Ok(Kind::Deliver),
            _ => Err(UnknownKind(byte)),
        }
    }
}

impl From<Kind> for u8 {
    ghost from_gives = { λ kind byte. byte ≡ byte_of kind };

    fn from(kind: Kind) -> u8 {
        kind as u8
    }
}

impl Kind {
    /// All of them, in the order of specs/Kinds.antt.
    pub const ALL: [Kind; 9] = [
        Kind::Plan,
        Kind::Change,
        Kind::End,
        Kind::Decide,
        Kind::Send,
        Kind::Report,
        Kind::Raw,
        Kind::Keep,
        Kind::Deliver,
    ];

    #[tactic(auto, unfolding(crate::specs::Names::kind_name, crate::specs::Kinds::of_kind))]
    pub fn name(self) -> &'static str
        ensures { result.now ≡ kind_name (byte_of self) }
    {
        match self {
            Kind::Plan => "plan",
            Kind::Change => "change",
            Kind::End => "end",
            Kind::Decide => "decide",
            Kind::Send => "send",
            Kind::Report => "report",
            Kind::Raw => "raw",
            Kind::Keep => "keep",
            Kind::Deliver => "deliver",
        }
    }

    /// What follows the kind.
    #[tactic(auto, unfolding(crate::specs::Kinds::fields_of, crate::specs::Kinds::of_kind))]
    pub fn fields(self) -> &'static [Field]
        ensures { result.now ≡ fields_of (byte_of self) }
    {
        match self {
            Kind::Plan => &[Field::Switch, Field::Cause],
            Kind::Change => &[Field::Flow, Field::Switch, Field::Rule],
            Kind::End => &[],
            Kind::Decide => &[
                Field::Controller,
                Field::Switch,
                Field::Serial,
                Field::Cause,
            ],
            Kind::Send => &[Field::Controller, Field::Switch],
            Kind::Report => &[Field::Switch, Field::Controller],
            Kind::Raw => &[Field::Switch, Field::Message],
            Kind::Keep => &[Field::Controller, Field::Switch, Field::Place],
            Kind::Deliver => &[Field::Place],
        }
    }

    /// The bytes of a record, its kind among them.
    #[tactic(auto, unfolding(crate::specs::Kinds::record_size, crate::specs::Kinds::of_kind, crate::specs::Fields::widths))]
    pub fn size(self) -> usize
        ensures table { result ≡ record_size (byte_of self) }
        ensures some { 1 ≤ result }
    {
        match self {
            Kind::Plan => 3,
            Kind::Change => 10,
            Kind::End => 1,
            Kind::Decide => 8,
            Kind::Send => 3,
            Kind::Report => 3,
            Kind::Raw => MESSAGE_AT + layout::SHARE_LENGTH,
            Kind::Keep => 4,
            Kind::Deliver => 2,
        }
    }

    /// The kind whose records have this name.
    pub fn named(word: &[u8]) -> Option<Kind>
        ensures { result ≡ kind_named word.now }
    {
        for kind in Kind::ALL {
            if is_named(word, kind.name()) {
                return Some(kind);
            }
        }
        None
    }
}

/// The bytes of a record that begins with this byte; 0 where no record does.
pub fn size_of(kind: u8) -> usize
    ensures { result ≡ record_size kind }
{
    match Kind::try_from(kind) {
        Ok(kind) => kind.size(),
        Err(_) => 0,
    }
}

// What follows the first byte of a record or of a share; nothing where neither begins with it.
#[tactic(auto, using(crate::proofs::Rows::no_fields), unfolding(crate::specs::Kinds::fields_of))]
fn fields_of(kind: u8) -> &'static [Field]
    ensures { result.now ≡ fields_of kind }
{
    if kind == layout::SHARE {
        return share_fields();
    }
    match Kind::try_from(kind) {
        Ok(kind) => kind.fields(),
        Err(_) => &[],
    }
}

/// How many fields follow the first byte of a record or of a share.
#[tactic(auto, using(crate::proofs::Rows::few_fields))]
pub fn count_of(kind: u8) -> u8
    ensures { result ≡ length (fields_of kind) }
{
    fields_of(kind).len() as u8
}

/// The field of a record or of a share at a place from 0, none past the last.
#[tactic(auto, using(crate::proofs::Places::lent_at))]
pub fn field_of(kind: u8, i: u8) -> Option<Field>
    ensures { result ≡ field_of kind i }
{
    fields_of(kind).get(i as usize).copied()
}

/// The name of the records that begin with this byte; it is empty where no record does.
#[tactic(auto, using(crate::proofs::Rows::no_name))]
pub fn name_of_kind(kind: u8) -> &'static str
    ensures { result.now ≡ kind_name kind }
{
    match Kind::try_from(kind) {
        Ok(kind) => kind.name(),
        Err(_) => "",
    }
}

/// Whether a word is a name.
pub fn is_named(word: &[u8], name: &str) -> bool
    ensures { result ≡ equal word.now name.now }
{
    same(word, name.as_bytes())
}

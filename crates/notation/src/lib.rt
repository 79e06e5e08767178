// What the notation of a rehearsal (docs/NOTATION.md) rests on: the kinds of records with their sizes and fields, the
// names of both, and the pair whose key gives a share its tag. A new kind of record has a row in specs/Kinds.antt, a
// place in `ALL`, and a line in each function of a kind. No function asks anything of its caller.
#![tactic(auto)]

mod fields;
mod kinds;
mod pairs;

pub use fields::{Field, share_fields};
pub use kinds::{Kind, UnknownKind, count_of, field_of, is_named, name_of_kind, size_of};
pub use pairs::{Pair, giver_of, tag_by};

// The most bytes that an input may have, and the most of its text.
pub const INPUT: usize = 16384;

pub const TEXT: usize = 1048576;

// Where the message of a raw record begins: after the kind and the switch.
pub const MESSAGE_AT: usize = 2;

// The most bytes on a line of bytes; no record has more.
pub const LINE: usize = 64;

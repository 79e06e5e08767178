// What is wrong with an input that is refused before its script, in words: the meaning of the answer, with the limit or
// the measure that is passed, and the record of the playbook at which it is refused. What is proved is that every
// function is safe and ends.
#![tactic(auto)]

mod places;
mod words;

pub use places::{PlaceWords, RecordOrdinal};
pub use words::{MALFORMED, Words};

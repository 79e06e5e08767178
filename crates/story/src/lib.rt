// The story of a rehearsal, for people: what each record did, in words. Crate `rehearsal` carries it out, and `tell` gives
// its lines; what is proved of the words is that every function is safe and ends.
#![tactic(auto)]

mod figures;
mod meanings;
mod telling;
mod words;

pub use figures::{ChangeWords, Position, RuleWords, UndoneCount};
pub use meanings::Meaning;
pub use telling::tell;
pub use words::{Line, Words};

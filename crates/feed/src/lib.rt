// What a switch of another maker is fed: the rules that a switch applied in a rehearsal, in the order of applying, and
// their FLOW_MODs (document 02, N1). Every function takes every input.
#![tactic(auto)]

use switch::Slot;

mod mods;
mod rules;

pub use mods::flow_mods;
pub use rules::applied_at;

// The output that the FLOW_MODs of every rehearsal fit.
pub const OUTPUT: usize = rehearsal::DEEDS * openflow::LONGEST;

// The rules that a switch applied, each with the number of its change: the first `count` places are in use. Or the
// number of the question that refuses the switch or the rehearsal, and no rule.
#[derive(Clone, Copy)]
pub struct Applied {
    pub answer: u8,
    pub rules: [Slot; rehearsal::DEEDS],
    pub count: usize,
}

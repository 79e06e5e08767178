// Rules and the flow table of a switch (document 01, "Bytes"): well-formedness, a table's limits, room for a rule,
// applying a rule, and lookup. Every function takes every value of its parameters' types.
#![tactic(auto)]

mod changes;
mod lookups;
mod rules;
mod tables;

pub use changes::{apply, room};
pub use lookups::lookup;
pub use rules::{
    port_of, port_ok, prefix_ok, rule_empty, rule_of, same_rule, size_of, well_formed,
};
pub use tables::{empty_table, table_ok};

// What a rule does: removes its entry, or sets it to a port.
#[derive(Clone, Copy, PartialEq, Eq)]
pub enum Action {
    Remove,
    Set(u16),
}

// A change to a flow table: the entry of a prefix and length is removed or set.
#[derive(Clone, Copy, PartialEq, Eq)]
pub struct Rule {
    pub prefix: u32,
    pub length: u8,
    pub action: Action,
}

// An entry of a flow table: the port of the addresses under a prefix.
#[derive(Clone, Copy, PartialEq, Eq)]
pub struct Entry {
    pub prefix: u32,
    pub length: u8,
    pub port: u16,
}

// A flow table: the first count entries are in use.
#[derive(Clone, Copy)]
pub struct Table {
    pub entries: [Entry; answer::limits::ENTRIES],
    pub count: usize,
}

// What applying a rule gives: 1 and the changed table, or a question's number and the table as it was.
#[derive(Clone, Copy)]
pub struct Applied {
    pub answer: u8,
    pub table: Table,
}

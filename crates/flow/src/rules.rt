// Prefixes with lengths, and rules.
ghost use Rattle.std.specs.Prelude.{◌≡◌};
ghost use Rattle.flow.specs.Rules.{block_size, prefix_ok, port_ok, well_formed, same_rule, rule_key};
ghost use Rattle.flow.specs.Rules.{port_of, action_of, rule_of, rule_empty, empty_rule};

use crate::{Action, Rule};

impl Rule {
    // The rule in unused places.
    pub const EMPTY: Rule = Rule {
        prefix: 0,
        length: 0,
        action: Action::Remove,
    };

    // The prefix and length of the rule's entry.
    pub(crate) fn key(&self) -> (u32, u8)
        ensures { result ≡ rule_key self.now }
    {
        (self.prefix, self.length)
    }
}

// The number of addresses under a prefix of this length.
pub fn size_of(length: u8) -> u64
    ensures { result ≡ block_size length }
{
    if length <= 32 {
        1u64 << (32 - length)
    } else {
        1
    }
}

// Whether a length is at most 32, and the prefix bits past it are zero.
pub fn prefix_ok(prefix: u32, length: u8) -> bool
    ensures { result ≡ prefix_ok (prefix, length) }
{
    length <= 32 && u64::from(prefix) % size_of(length) == 0
}

// Whether an action is a removal, or sets a port above 0.
pub fn port_ok(action: Action) -> bool
    ensures { result ≡ port_ok action }
{
    match action {
        Action::Remove => true,
        Action::Set(port) => 0 < port,
    }
}

// Question 15.
pub fn well_formed(rule: Rule) -> bool
    ensures { result ≡ well_formed rule }
{
    prefix_ok(rule.prefix, rule.length) && port_ok(rule.action)
}

// Whether two rules have the same prefix, length and action.
// Stays: docs/CLAIMS.md names it, and its contract says what == of rules means.
pub fn same_rule(a: Rule, b: Rule) -> bool
    ensures { result ≡ same_rule a b }
{
    a == b
}

// The port of an action in bytes.
// Stays: docs/CLAIMS.md names it, and so do the crates above; From for u16 would be a second name of the same.
pub fn port_of(action: Action) -> u16
    ensures { result ≡ port_of action }
{
    match action {
        Action::Remove => 0,
        Action::Set(port) => port,
    }
}

// The action of a port in bytes: port 0 removes.
impl From<u16> for Action {
    ghost from_gives = { λ port r. r ≡ action_of port };

    fn from(port: u16) -> Action {
        if port == 0 {
            Action::Remove
        } else {
            Action::Set(port)
        }
    }
}

// The rule that the fields of a share or of a playbook's change are.
pub fn rule_of(prefix: u32, length: u8, port: u16) -> Rule
    ensures { result ≡ rule_of prefix length port }
{
    Rule {
        prefix,
        length,
        action: Action::from(port),
    }
}

// Whether a rule is the one in unused places.
pub fn rule_empty(rule: Rule) -> bool
    ensures { result ≡ rule_empty rule }
{
    rule == Rule::EMPTY
}

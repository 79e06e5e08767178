// Rules, changes and figures in words.
use flow::{Action, Rule};
use prose::Prefix;
use std::fmt;

/// A rule, as 10.0.0.0/8 to port 3.
#[derive(Clone, Copy)]
pub struct RuleWords(pub Rule);

impl fmt::Display for RuleWords {
    fn fmt<W: fmt::Write>(&self, f: &mut fmt::Formatter<W>) -> fmt::Result {
        let rule = self.0;
        let prefix = Prefix {
            address: rule.prefix,
            length: rule.length,
        };
        match rule.action {
            Action::Remove => write!(f, "{prefix} removed"),
            Action::Set(port) => write!(f, "{prefix} to port {port}"),
        }
    }
}

/// A numbered change with its rule.
#[derive(Clone, Copy)]
pub struct ChangeWords {
    pub number: u32,
    pub rule: Rule,
}

impl fmt::Display for ChangeWords {
    fn fmt<W: fmt::Write>(&self, f: &mut fmt::Formatter<W>) -> fmt::Result {
        write!(f, "change {}, {}", self.number, RuleWords(self.rule))
    }
}

/// How many undone changes there are.
#[derive(Clone, Copy)]
pub struct UndoneCount(pub u32);

impl fmt::Display for UndoneCount {
    fn fmt<W: fmt::Write>(&self, f: &mut fmt::Formatter<W>) -> fmt::Result {
        match self.0 {
            0 => f.write_str("no undone change"),
            1 => f.write_str("1 undone change"),
            count => write!(f, "{count} undone changes"),
        }
    }
}

/// How far a switch is: the number of the last change that it made, 0 before the first.
#[derive(Clone, Copy)]
pub struct Position {
    pub switch: u8,
    pub last: u32,
}

impl fmt::Display for Position {
    fn fmt<W: fmt::Write>(&self, f: &mut fmt::Formatter<W>) -> fmt::Result {
        match self.last {
            0 => write!(f, "switch {} has made no change", self.switch),
            last => write!(f, "switch {} is at change {last}", self.switch),
        }
    }
}

// What shares ask for, told apart. Where different rules are asked for under one number at a switch, each rule has a
// letter: the first one a, the next one b; all rules behind z share a sign. A rule that nobody contradicts has none.
ghost use Rattle.std.specs.Prelude.{◌≤◌, length};
ghost use Rattle.rehearsal.specs.Limits.{most_lines};

use flow::Action;
use rehearsal::{DEEDS, Deed};
use std::fmt;

// The letter of the first rule.
pub(crate) const FIRST: char = 'a';

// A number at a switch.
#[derive(Clone, Copy, PartialEq, Eq)]
struct Change {
    switch: u8,
    number: u32,
}

// What a share asks for: a rule under a number at a switch. A removal has no port.
#[derive(Clone, Copy, PartialEq, Eq)]
struct Asked {
    change: Change,
    prefix: u32,
    length: u8,
    port: Option<u16>,
}

// What a column's share asks for, the letter of its rule, and whether no share before it asks for the same.
#[derive(Clone, Copy)]
struct Share {
    asked: Asked,
    letter: char,
    first: bool,
}

// The share of each column that has one, and its letter where it is shown.
#[derive(Drop)]
pub(crate) struct Shares {
    columns: [Option<Share>; DEEDS],
    letters: [Option<char>; DEEDS],
}

fn asked_in(deed: &Deed) -> Asked {
    let rule = deed.wish.slot.rule;
    Asked {
        change: Change {
            switch: deed.switch,
            number: deed.wish.slot.number,
        },
        prefix: rule.prefix,
        length: rule.length,
        port: match rule.action {
            Action::Remove => None,
            Action::Set(port) => Some(port),
        },
    }
}

// The letter of a rule, behind so many others.
fn letter_behind(rules: usize) -> char {
    ('a'..='z').nth(rules).unwrap_or('+')
}

// A share, from those before it.
fn share_after(before: &[Option<Share>], asked: Asked) -> Share {
    let same = before.iter().flatten().find(|share| share.asked == asked);
    if let Some(same) = same {
        return Share {
            first: false,
            ..*same
        };
    }
    let rules = before
        .iter()
        .flatten()
        .filter(|share| share.first && share.asked.change == asked.change)
        .count();
    Share {
        asked,
        letter: letter_behind(rules),
        first: true,
    }
}

// Whether different rules are asked for under a share's number at its switch: then one of them is not the first.
fn is_disputed(columns: &[Option<Share>], share: &Share) -> bool {
    columns.iter().flatten().any(|other| other.letter != FIRST
        && other.asked.change == share.asked.change)
}

// The letter of a column, if it has one.
fn shown(columns: &[Option<Share>], column: &Option<Share>) -> Option<char> {
    let share = (*column)?;
    is_disputed(columns, &share).then_some(share.letter)
}

impl Shares {
    pub(crate) fn of(deeds: &[Deed]) -> Shares
        requires { length deeds.now ≤ most_lines }
    {
        let mut columns = [None; DEEDS];
        for (column, deed) in deeds.iter().enumerate() {
            if deed.wish.shared {
                columns[column] = Some(share_after(&columns[..column], asked_in(deed)));
            }
        }
        let mut letters = [None; DEEDS];
        for (letter, column) in letters.iter_mut().zip(&columns) {
            *letter = shown(&columns, column);
        }
        Shares { columns, letters }
    }

    // The letter of a column, if it has one.
    pub(crate) fn letter(&self, column: usize) -> Option<char> {
        self.letters.get(column).copied().flatten()
    }

    // The letter of a column in which its rule is first met.
    pub(crate) fn first_letter(&self, column: usize) -> Option<char> {
        let share = self.columns.get(column).copied().flatten()?;
        if share.first {
            self.letter(column)
        } else {
            None
        }
    }

    // How many rules have letters.
    pub(crate) fn disputes(&self) -> usize {
        (0..DEEDS)
            .filter(|column| self.first_letter(*column).is_some())
            .count()
    }
}

// A change's number with the letter of its rule.
#[derive(Clone, Copy)]
pub(crate) struct Label {
    pub(crate) number: u32,
    pub(crate) letter: Option<char>,
}

impl fmt::Display for Label {
    fn fmt<W: fmt::Write>(&self, f: &mut fmt::Formatter<W>) -> fmt::Result {
        match self.letter {
            None => write!(f, "{}", self.number),
            Some(letter) => write!(f, "{}{letter}", self.number),
        }
    }
}

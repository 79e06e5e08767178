// What stands behind the word that was found: the name that it is meant for, where `all` and `round` belong, or the form
// of the line.
use crate::near::{are_alike, is_near};
use crate::parse::{Expected, Fault};
use lists::same;
use notation::Kind;
use std::fmt;
use std::fmt::Write;

// The first of these names that a word is at most one edit from.
fn nearest(word: &[u8], names: &[&'static str]) -> Option<&'static str> {
    for name in names {
        if is_near(word, name.as_bytes()) {
            return Some(*name);
        }
    }
    None
}

// The record's name that a word is meant for. `Send` is meant for send, though end is one edit from it and comes first.
fn meant_record(word: &[u8]) -> Option<&'static str> {
    for kind in Kind::ALL {
        if are_alike(word, kind.name().as_bytes()) {
            return Some(kind.name());
        }
    }
    for kind in Kind::ALL {
        if is_near(word, kind.name().as_bytes()) {
            return Some(kind.name());
        }
    }
    nearest(word, &["round", "bytes"])
}

// The name that was expected there and that the word is meant for, if there is one.
fn meant(word: &[u8], expected: Expected) -> Option<&'static str> {
    match expected {
        Expected::Controllers => nearest(word, &["controllers"]),
        Expected::Record => meant_record(word),
        Expected::Field(field) => nearest(word, &[field.name()?]),
        Expected::NumberOrAll => nearest(word, &["all"]),
        Expected::Action => nearest(word, &["port", "remove"]),
        Expected::Message => nearest(word, &["share", "bytes"]),
        Expected::Tag => nearest(word, &["key", "tag"]),
        _ => None,
    }
}

// Of which form a line is that begins with this name.
#[derive(Clone, Copy)]
struct Form<'a>(&'a [u8]);

impl fmt::Display for Form<'_> {
    fn fmt<W: fmt::Write>(&self, f: &mut fmt::Formatter<W>) -> fmt::Result {
        let name = self.0;
        let kind = Kind::named(name);
        f.write_str(match kind {
            Some(Kind::Plan) => "plan switch S cause K",
            Some(Kind::Change) => "change flow F switch S RULE",
            Some(Kind::End) => "end",
            Some(Kind::Decide) => "decide controller C switch S serial N cause K",
            Some(Kind::Send) => "send controller C switch S",
            Some(Kind::Report) => "report switch S controller C",
            Some(Kind::Raw) => {
                "raw switch S share controller C switch T number N RULE key controller D switch U"
            }
            Some(Kind::Keep) => "keep controller C switch S place P",
            Some(Kind::Deliver) => "deliver place P",
            None if same(name, b"controllers") => "controllers N",
            None if same(name, b"round") => "round",
            None => "bytes B B .., at most 64",
        })?;
        match kind {
            Some(Kind::Change | Kind::Raw) => {
                f.write_str(", with RULE as 10.0.0.0/8 port 3 or 10.0.0.0/8 remove")
            }
            _ => Ok(()),
        }
    }
}

// What helps with the fault of a line that begins with this name.
#[derive(Clone, Copy)]
pub(crate) struct Hint<'a> {
    pub(crate) name: &'a [u8],
    pub(crate) fault: Fault<'a>,
}

impl fmt::Display for Hint<'_> {
    fn fmt<W: fmt::Write>(&self, f: &mut fmt::Formatter<W>) -> fmt::Result {
        let found = self.fault.found;
        if let Some(name) = meant(found, self.fault.expected) {
            return write!(f, "; did you mean {name}?");
        }
        match self.fault.expected {
            Expected::Controllers | Expected::NoRecord | Expected::Record | Expected::Name => {
                Ok(())
            }
            Expected::Early => {
                f.write_str("; all and round stand only in the script, behind end")
            }
            Expected::Number { low: _, high: _ } if same(found, b"all") => f.write_str(
                "; only decide, send and report take all, and decide only for its controller",
            ),
            _ => write!(f, "; the line's form is: {}", Form(self.name)),
        }
    }
}

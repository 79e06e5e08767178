// Why a text is refused, in the words that are told on standard error.
use crate::hints::Hint;
use crate::parse::{Expected, Fault};
use notation::Pair;
use prose::Found;
use std::fmt;
use std::fmt::Write;

impl fmt::Display for Expected {
    fn fmt<W: fmt::Write>(&self, f: &mut fmt::Formatter<W>) -> fmt::Result {
        let words = match *self {
            Expected::Controllers => "controllers",
            Expected::NoRecord => "no record after bytes",
            Expected::Record => {
                "plan, change, end, decide, send, report, raw, keep, deliver, round or bytes"
            }
            Expected::Field(field) => {
                let name = field.name().unwrap_or("");
                return write!(f, "{name}");
            }
            Expected::Number { low, high } => {
                return write!(f, "a number from {low} to {high}");
            }
            Expected::NumberOrAll => "a number from 0 to 255 or all",
            Expected::Prefix => "an address and a length, as 10.0.0.0/8",
            Expected::Action => "port or remove",
            Expected::Message => "share or bytes",
            Expected::Tag => "key or tag",
            Expected::Byte => "a byte as two hexadecimal digits",
            Expected::End => "the end of the line",
            Expected::Early => "end on an earlier line",
            Expected::Name => "the name of the record that these bytes are",
            Expected::Share => "share, since these bytes are one",
            Expected::Key(Pair { controller, switch }) => {
                return write!(
                    f,
                    "key controller {controller} switch {switch}, which gives this tag"
                );
            }
        };
        f.write_str(words)
    }
}

// Why a text is refused at a line.
#[derive(Clone, Copy)]
pub(crate) enum Problem<'a> {
    // The line that begins with this name has a fault.
    Faulty(&'a [u8], Fault<'a>),
    // There are more bytes than may be, from this line on.
    TooMany(usize, &'static str),
}

impl fmt::Display for Problem<'_> {
    fn fmt<W: fmt::Write>(&self, f: &mut fmt::Formatter<W>) -> fmt::Result {
        match *self {
            Problem::Faulty(name, fault) => {
                let expected = fault.expected;
                let found = Found(fault.found);
                let hint = Hint { name, fault };
                write!(f, "expected {expected}, found {found}{hint}")
            }
            Problem::TooMany(most, of) => write!(f, "expected at most {most} {of}, found more"),
        }
    }
}

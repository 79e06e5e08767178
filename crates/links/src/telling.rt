// Why a text is refused, in the words that are told on standard error.
use crate::parse::{Expected, Fault};
use crate::records::{Entry, Link};
use crate::words::Words;
use prose::{Found, Text};
use std::fmt;
use std::fmt::Write;

impl fmt::Display for Expected {
    fn fmt<W: fmt::Write>(&self, f: &mut fmt::Formatter<W>) -> fmt::Result {
        let words = match self {
            Expected::Record => "link or client",
            Expected::Switch => "switch",
            Expected::Port => "port",
            Expected::To => "to",
            Expected::Of => "of",
            Expected::At => "at",
            Expected::SwitchNumber => "a switch, 0 to 15",
            Expected::PortNumber => "a port, 1 to 65535",
            Expected::Next => "switch or outside",
            Expected::Prefix => "an address and a length, 0 to 32, as 10.1.0.0/16",
            Expected::Bits(prefix) => {
                let cleared = prefix.cleared();
                return write!(f, "{cleared}, with 0 in every bit past the length");
            }
            Expected::Owner => "all, or a client's name of 1 to 32 letters, digits, - or _",
            Expected::Client => "a client's name of 1 to 32 letters, digits, - or _, and not all",
            Expected::End => "the end of the line",
        };
        f.write_str(words)
    }
}

// Why a text is refused at a line.
#[derive(Clone, Copy)]
pub(crate) enum Problem<'a> {
    // The line that begins with these words has a fault.
    Faulty(Words<'a>, Fault<'a>),
    // A port has a link in an earlier line.
    Linked(Link, usize),
    // An earlier line says the same of a client.
    Entered(&'a [u8], Entry, usize),
    // There are more than may be, from this line on.
    TooMany(usize, &'static str),
    // The text, whose last line this is, has no client line.
    Clientless,
}

// Of which form a line is. The form helps, but where what was expected is said in full.
fn form_of(words: Words<'_>, expected: Expected) -> &'static str {
    match expected {
        Expected::Record | Expected::Bits(_) => "",
        _ if words.is_next(b"link") => {
            "; the line's form is: link switch S port P to NEXT of OWNER, \
            with NEXT as switch 4 or outside, and OWNER as A or all"
        }
        _ => { "; the line's form is: client NAME PREFIX at switch S, with PREFIX as 10.1.0.0/16" }
    }
}

impl fmt::Display for Problem<'_> {
    fn fmt<W: fmt::Write>(&self, f: &mut fmt::Formatter<W>) -> fmt::Result {
        match self {
            Problem::Faulty(words, fault) => {
                let expected = fault.expected;
                let found = Found(fault.found);
                let form = form_of(*words, expected);
                write!(f, "expected {expected}, found {found}{form}")
            }
            Problem::Linked(link, earlier) => {
                let switch = link.switch;
                let port = link.port;
                write!(
                    f,
                    "switch {switch} has a link at port {port} already, in line {earlier}"
                )
            }
            Problem::Entered(name, entry, earlier) => {
                let client = Text(name);
                let prefix = entry.prefix;
                let switch = entry.switch;
                write!(
                    f,
                    "client {client} has {prefix} at switch {switch} already, in line {earlier}"
                )
            }
            Problem::TooMany(most, of) => write!(f, "expected at most {most} {of}, found more"),
            Problem::Clientless => f.write_str(
                "expected a client line, as client A 10.1.0.0/16 at switch 1, found the end of the text",
            ),
        }
    }
}

// The record of a line: a link, or a client line.
use crate::parse::{Expected, Fault};
use crate::values::Prefix;
use crate::words::Words;

// The link at a port of a switch, and what it leads to.
#[derive(Clone, Copy)]
pub(crate) struct Link {
    pub(crate) switch: u8,
    pub(crate) port: u16,
    pub(crate) far: u8,
}

// The switch at which a client's packets to these addresses come in.
#[derive(Clone, Copy, PartialEq, Eq)]
pub(crate) struct Entry {
    pub(crate) prefix: Prefix,
    pub(crate) switch: u8,
}

// A link belongs to a client or to all, a client line to a client. A client is named.
#[derive(Clone, Copy)]
pub(crate) enum Record<'a> {
    OfLink(Link, Option<&'a [u8]>),
    OfClient(Entry, &'a [u8]),
}

fn read_link(mut words: Words<'_>) -> Result<Record<'_>, Fault<'_>> {
    let link = Link {
        switch: words.switch()?,
        port: words.port()?,
        far: words.far()?,
    };
    let owner = words.owner()?;
    words.ended()?;
    Ok(Record::OfLink(link, owner))
}

fn read_entry(mut words: Words<'_>) -> Result<Record<'_>, Fault<'_>> {
    let client = words.client()?;
    let entry = Entry {
        prefix: words.prefix()?,
        switch: words.place()?,
    };
    words.ended()?;
    Ok(Record::OfClient(entry, client))
}

// The record of a line that has words.
pub(crate) fn record_of(mut words: Words<'_>) -> Result<Record<'_>, Fault<'_>> {
    if words.is_next(b"link") {
        words.pass();
        return read_link(words);
    }
    if words.is_next(b"client") {
        words.pass();
        return read_entry(words);
    }
    Err(words.fault(Expected::Record))
}

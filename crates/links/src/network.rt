// The network as the lines so far have it, and what a further line adds to it.
use crate::output::Output;
use crate::records::{Entry, Link, Record, record_of};
use crate::seen::{Key, NAMES, Names, Seen};
use crate::telling::Problem;
use crate::words::Words;

const LINKS: usize = 256;

const ENTRIES: usize = 64;

// The ports that have links, the client lines, the names, and the bytes.
#[derive(Clone, Copy)]
pub(crate) struct Network<'a> {
    ports: Seen,
    entries: Seen,
    names: Names<'a>,
    output: Output,
}

impl<'a> Network<'a> {
    pub(crate) fn new() -> Network<'a> {
        Network {
            ports: Seen::new(),
            entries: Seen::new(),
            names: Names::new(),
            output: Output::new(),
        }
    }

    fn client_of(&mut self, name: &'a [u8]) -> Result<u8, Problem<'a>> {
        self.names
            .client_of(name)
            .ok_or(Problem::TooMany(NAMES, "different names"))
    }

    fn add_link(&mut self, link: Link, owner: u8, number: usize) -> Result<(), Problem<'a>> {
        let key = Key::OfPort(link.switch, link.port);
        if let Some(earlier) = self.ports.line_of(key) {
            return Err(Problem::Linked(link, earlier));
        }
        if LINKS <= self.ports.count() {
            return Err(Problem::TooMany(LINKS, "links"));
        }
        self.ports.push(key, number);
        self.output.push_link(link, owner);
        Ok(())
    }

    fn add_entry(
        &mut self,
        entry: Entry,
        name: &'a [u8],
        number: usize,
    ) -> Result<(), Problem<'a>> {
        let client = self.client_of(name)?;
        let key = Key::OfClient(client, entry);
        if let Some(earlier) = self.entries.line_of(key) {
            return Err(Problem::Entered(name, entry, earlier));
        }
        if ENTRIES <= self.entries.count() {
            return Err(Problem::TooMany(ENTRIES, "client lines"));
        }
        self.entries.push(key, number);
        self.output.push_entry(entry, client);
        Ok(())
    }

    // One line more, with its number. A link that belongs to all has owner 0.
    pub(crate) fn add_line(&mut self, line: &'a [u8], number: usize) -> Result<(), Problem<'a>> {
        let words = Words::new(line);
        if words.next.is_empty() {
            return Ok(());
        }
        match record_of(words) {
            Err(fault) => Err(Problem::Faulty(words, fault)),
            Ok(Record::OfLink(link, None)) => self.add_link(link, 0, number),
            Ok(Record::OfLink(link, Some(name))) => {
                let owner = self.client_of(name)?;
                self.add_link(link, owner, number)
            }
            Ok(Record::OfClient(entry, name)) => self.add_entry(entry, name, number),
        }
    }

    // The bytes of the network: its records, and its names. There is none without a client line.
    pub(crate) fn finished(self) -> Result<Output, Problem<'a>> {
        let Network {
            ports: _,
            entries,
            names,
            mut output,
        } = self;
        if entries.count() == 0 {
            return Err(Problem::Clientless);
        }
        output.push_names(names.names());
        Ok(output)
    }
}

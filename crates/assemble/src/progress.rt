// How far a text is read, and what a further line adds to it.
use crate::known::Known;
use crate::output::Output;
use crate::records::record_of;
use crate::telling::Problem;
use crate::words::Words;

// What the lines have said, and what they stand for.
#[derive(Clone, Copy)]
pub(crate) struct Progress {
    known: Known,
    output: Output,
}

impl Progress {
    pub(crate) fn new() -> Progress {
        Progress {
            known: Known::new(),
            output: Output::new(),
        }
    }

    pub(crate) fn output(&self) -> &Output {
        &self.output
    }

    // One line more that has words, with its number.
    pub(crate) fn add_line<'a>(
        &mut self,
        words: Words<'a>,
        number: usize,
    ) -> Result<(), Problem<'a>> {
        let name = words.next;
        let (pattern, next) = match record_of(words, self.known.before) {
            Ok(read) => read,
            Err(fault) => return Err(Problem::Faulty(name, fault)),
        };
        self.output.push_line(pattern, self.known, number)?;
        self.known.add(pattern, next);
        Ok(())
    }
}

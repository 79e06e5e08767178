// The words of a line. A word ends before a blank, a comment or the end of its line.
use lists::same;

fn is_blank(b: u8) -> bool {
    matches!(b, b' ' | b'\t' | b'\r')
}

fn ends_word(b: u8) -> bool {
    is_blank(b) || b == b'\n' || b == b'#'
}

// Where a line is read: its next word, which is empty where there is none, and what stands behind that.
#[derive(Clone, Copy)]
pub(crate) struct Words<'a> {
    pub(crate) next: &'a [u8],
    behind: &'a [u8],
}

impl<'a> Words<'a> {
    pub(crate) fn new(line: &'a [u8]) -> Words<'a> {
        let blanks = line.iter().position(|b| !is_blank(*b));
        let begun = &line[blanks.unwrap_or(line.len())..];
        let length = begun.iter().position(|b| ends_word(*b));
        let (next, behind) = begun.split_at(length.unwrap_or(begun.len()));
        Words { next, behind }
    }

    pub(crate) fn is_next(&self, word: &[u8]) -> bool {
        same(self.next, word)
    }

    // Past the next word.
    pub(crate) fn pass(&mut self) {
        *self = Words::new(self.behind);
    }
}

// Rising numbers in words: three or more in a row are a range, as 1 to 4, 7 and 8; after 24 items the rest is counted. A
// number may have a mark, which stands behind it in brackets; numbers with different marks are in no range together.
use answer::limits;
use arrayvec::ArrayVec;
use std::fmt;

// Room for the numbers of all switches, or of all controllers.
pub(crate) const ENDS: usize = limits::OF_CONTROLLERS;

// So many items are told.
pub(crate) const ITEMS: usize = 24;

/// A number, and its mark if it has one.
#[derive(Clone, Copy, PartialEq, Eq, Default)]
pub(crate) struct Number {
    pub(crate) value: u32,
    pub(crate) mark: Option<u8>,
}

impl Number {
    pub(crate) fn plain(value: u32) -> Number {
        Number { value, mark: None }
    }

    fn follows(self, before: Number) -> bool {
        before.value.checked_add(1) == Some(self.value) && before.mark == self.mark
    }
}

// A number, or all up to another.
#[derive(Clone, Copy)]
struct Item {
    first: Number,
    last: Number,
}

impl fmt::Display for Item {
    fn fmt<W: fmt::Write>(&self, f: &mut fmt::Formatter<W>) -> fmt::Result {
        write!(f, "{}", self.first.value)?;
        if self.last != self.first {
            write!(f, " to {}", self.last.value)?;
        }
        match self.last.mark {
            None => Ok(()),
            Some(mark) => write!(f, " ({mark})"),
        }
    }
}

// The first item of numbers, and the numbers behind it.
fn first_item(numbers: &[Number]) -> Option<(Item, &[Number])> {
    let (first, others) = numbers.split_first()?;
    let row = others
        .iter()
        .zip(numbers)
        .position(|(next, before)| !next.follows(*before))
        .unwrap_or(others.len());
    let (followers, behind) = others.split_at(row);
    let first = *first;
    match followers {
        [] | [_] => Some((Item { first, last: first }, others)),
        [.., last] => Some((Item { first, last: *last }, behind)),
    }
}

// Rising numbers in words.
#[derive(Clone, Copy)]
struct Ranges<'a>(&'a [Number]);

impl fmt::Display for Ranges<'_> {
    fn fmt<W: fmt::Write>(&self, f: &mut fmt::Formatter<W>) -> fmt::Result {
        let mut rest = self.0;
        for told in 0..ITEMS {
            let Some((item, behind)) = first_item(rest) else {
                break;
            };
            let separator = match (told, behind) {
                (0, _) => "",
                (_, []) => " and ",
                _ => ", ",
            };
            write!(f, "{separator}{item}")?;
            rest = behind;
        }
        match rest.len() {
            0 => Ok(()),
            left => write!(f, " and {left} more"),
        }
    }
}

/// Numbers behind their name, as switch 5 or switches 5 and 6.
#[derive(Clone, Copy)]
pub(crate) struct Named<'a> {
    pub(crate) one: &'static str,
    pub(crate) many: &'static str,
    pub(crate) numbers: &'a [Number],
}

impl<'a> Named<'a> {
    pub(crate) fn controllers(numbers: &'a [Number]) -> Named<'a> {
        Named {
            one: "controller",
            many: "controllers",
            numbers,
        }
    }
}

impl fmt::Display for Named<'_> {
    fn fmt<W: fmt::Write>(&self, f: &mut fmt::Formatter<W>) -> fmt::Result {
        let name = either(self.numbers.len(), self.one, self.many);
        write!(f, "{name} {}", Ranges(self.numbers))
    }
}

/// One word or another, by a number.
pub(crate) fn either(count: usize, one: &'static str, many: &'static str) -> &'static str {
    if count == 1 { one } else { many }
}

/// The numbers, below `ends`, of the ends that pass a test.
pub(crate) fn chosen<F: Fn(u8) -> bool>(ends: u8, passes: F) -> ArrayVec<Number, ENDS>
    requires { F.IsAlwaysCallable passes }
{
    let mut numbers = ArrayVec::new();
    for end in 0..ends {
        if passes(end) {
            let _ = numbers.try_push(Number::plain(u32::from(end)));
        }
    }
    numbers
}

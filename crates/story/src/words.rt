// A record in words: what the record asks for, what came of it, and the figure.
use crate::figures::{ChangeWords, Position, RuleWords, UndoneCount};
use crate::meanings::Meaning;
use notation::Pair;
use rehearsal::{Deed, Kind, Share};
use std::fmt;

/// What a record among n controllers did.
#[derive(Clone, Copy)]
pub struct Words<'a> {
    pub n: u8,
    pub deed: &'a Deed,
}

impl fmt::Display for Words<'_> {
    fn fmt<W: fmt::Write>(&self, f: &mut fmt::Formatter<W>) -> fmt::Result {
        self.write_asked(f)?;
        f.write_str(": ")?;
        self.write_answer(f)?;
        if self.deed.begun {
            self.write_figure(f)?;
            if self.deed.wish.shared {
                self.write_share(f)?;
            }
        }
        Ok(())
    }
}

impl Words<'_> {
    // What the record asks for.
    fn write_asked<W: fmt::Write>(&self, f: &mut fmt::Formatter<W>) -> fmt::Result {
        let Deed {
            controller,
            switch,
            ..
        } = *self.deed;
        let item = self.deed.item;
        if !self.deed.found {
            return f.write_str("here the script stops");
        }
        match item.kind {
            Kind::Decide => write!(
                f,
                "controller {controller} decides on event {} of switch {switch}, cause {}",
                item.serial, item.cause
            ),
            Kind::Send => write!(
                f,
                "controller {controller} sends its share to switch {switch}"
            ),
            Kind::Report => write!(f, "switch {switch} reports to controller {controller}"),
            Kind::Raw => self.write_raw(f),
            Kind::Keep => write!(
                f,
                "controller {controller} makes its share for switch {switch}, kept in place {}",
                item.place
            ),
            Kind::Deliver => self.write_delivered(f),
        }
    }

    fn write_raw<W: fmt::Write>(&self, f: &mut fmt::Formatter<W>) -> fmt::Result {
        let Deed {
            controller,
            switch,
            ..
        } = *self.deed;
        if self.deed.wish.shared {
            write!(
                f,
                "a made-up share in the name of controller {controller} reaches switch {switch}"
            )
        } else {
            write!(f, "a made-up message reaches switch {switch}")
        }
    }

    fn write_delivered<W: fmt::Write>(&self, f: &mut fmt::Formatter<W>) -> fmt::Result {
        let Deed {
            controller,
            switch,
            ..
        } = *self.deed;
        let place = self.deed.item.place;
        if self.deed.wish.shared {
            write!(
                f,
                "the share of controller {controller} kept in place {place} reaches switch {switch}"
            )
        } else {
            write!(f, "the share kept in place {place} is due")
        }
    }

    // What came of it.
    fn write_answer<W: fmt::Write>(&self, f: &mut fmt::Formatter<W>) -> fmt::Result {
        match self.deed.answer {
            answer::DONE => self.write_done(f),
            answer::APPLIED => f.write_str("applied"),
            answer::REPEAT => f.write_str("a repeat, nothing changed"),
            _ => self.write_refused(f),
        }
    }

    fn write_done<W: fmt::Write>(&self, f: &mut fmt::Formatter<W>) -> fmt::Result {
        match self.deed.item.kind {
            Kind::Decide => self.write_taken(f),
            Kind::Report => f.write_str("taken"),
            Kind::Keep => f.write_str("kept"),
            Kind::Send | Kind::Raw | Kind::Deliver => f.write_str("held"),
        }
    }

    // The numbers that a decision gave.
    fn write_taken<W: fmt::Write>(&self, f: &mut fmt::Formatter<W>) -> fmt::Result {
        let last = self.deed.last;
        match self.deed.numbers {
            0 => f.write_str("taken, and no change is planned for it"),
            1 => write!(f, "taken as change {last}"),
            given => {
                let first = last.saturating_sub(given - 1);
                write!(f, "taken as changes {first} to {last}")
            }
        }
    }

    fn write_refused<W: fmt::Write>(&self, f: &mut fmt::Formatter<W>) -> fmt::Result {
        let kind = self.deed.item.kind;
        let answer = self.deed.answer;
        f.write_str("refused, ")?;
        if answer == answer::UNKNOWN_ID {
            return self.write_unknown(f);
        }
        write!(f, "{}", Meaning { kind, answer })?;
        if answer == answer::NOTHING_TO_SEND && matches!(kind, Kind::Send | Kind::Keep) {
            self.write_reason(f)?;
        }
        Ok(())
    }

    // Which of the ends that a record or a share names there is not.
    fn write_unknown<W: fmt::Write>(&self, f: &mut fmt::Formatter<W>) -> fmt::Result {
        let Deed {
            controller,
            switch,
            ..
        } = *self.deed;
        if self.n <= controller {
            write!(f, "there is no controller {controller}")
        } else {
            write!(f, "there is no switch {switch}")
        }
    }

    // Why nothing is ready.
    fn write_reason<W: fmt::Write>(&self, f: &mut fmt::Formatter<W>) -> fmt::Result {
        let delay = self.deed.delay;
        if delay.waiting == 0 {
            return f.write_str(": it has no undone change for that switch");
        }
        write!(
            f,
            ": change {} waits for change {} on switch {}",
            delay.waiting, delay.awaited, delay.switch
        )
    }

    // What the figure says.
    fn write_figure<W: fmt::Write>(&self, f: &mut fmt::Formatter<W>) -> fmt::Result {
        let Deed {
            controller,
            switch,
            figure,
            ..
        } = *self.deed;
        match self.deed.item.kind {
            Kind::Decide | Kind::Report => {
                write!(f, "; controller {controller} has {}", UndoneCount(figure))
            }
            Kind::Send | Kind::Raw | Kind::Keep | Kind::Deliver => {
                let last = figure;
                write!(f, "; {}", Position { switch, last })
            }
        }
    }

    // What is told of a share beside the figure.
    fn write_share<W: fmt::Write>(&self, f: &mut fmt::Formatter<W>) -> fmt::Result {
        match (self.deed.item.kind, self.deed.answer) {
            (Kind::Keep, _) => self.write_wish(f),
            (_, answer::DONE | answer::REPEAT) => self.write_agreeing(f),
            (_, answer::APPLIED) => write!(f, ", {}", RuleWords(self.deed.wish.slot.rule)),
            _ => self.write_wish(f),
        }
    }

    // The change that a share asks for.
    fn change(&self) -> ChangeWords {
        let slot = self.deed.wish.slot;
        ChangeWords {
            number: slot.number,
            rule: slot.rule,
        }
    }

    // How many controllers ask for a share's change.
    fn write_agreeing<W: fmt::Write>(&self, f: &mut fmt::Formatter<W>) -> fmt::Result {
        let Deed {
            agreeing,
            replaced,
            ..
        } = *self.deed;
        let change = self.change();
        let quorum = switch::quorum(self.n);
        write!(f, "; {change}, has {agreeing} of {quorum} controllers")?;
        if replaced != 0 && replaced != change.number {
            write!(f, ", in place of this one's change {replaced}")?;
        }
        Ok(())
    }

    // What a share asks for that was refused, or kept. Only of a made-up one with a tag that does not match the giver of
    // the tag is looked for.
    fn write_wish<W: fmt::Write>(&self, f: &mut fmt::Formatter<W>) -> fmt::Result {
        write!(f, "; the share asks for {}", self.change())?;
        match (self.deed.item.kind, self.deed.answer) {
            (Kind::Raw, answer::WRONG_TAG) => write!(f, "{}", TagWords(&self.deed.share)),
            _ => Ok(()),
        }
    }
}

// Whose key gave a share its tag, if anyone's did.
#[derive(Clone, Copy)]
struct TagWords<'a>(&'a Share);

impl fmt::Display for TagWords<'_> {
    fn fmt<W: fmt::Write>(&self, f: &mut fmt::Formatter<W>) -> fmt::Result {
        let share = self.0;
        match notation::giver_of(lists::front(&share.bytes, share.length)) {
            None => Ok(()),
            Some(Pair { controller, switch }) => write!(
                f,
                ", tagged with the key of controller {controller} and switch {switch}"
            ),
        }
    }
}

/// Document 01's line: the ordinal, the answer and the figure.
#[derive(Clone, Copy)]
pub struct Line {
    pub ordinal: usize,
    pub answer: u8,
    pub figure: u32,
}

impl fmt::Display for Line {
    fn fmt<W: fmt::Write>(&self, f: &mut fmt::Formatter<W>) -> fmt::Result {
        write!(f, "{} {} {}", self.ordinal, self.answer, self.figure)
    }
}

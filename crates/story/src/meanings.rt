// What refusals mean, as the end of a sentence.
use rehearsal::Kind;
use std::fmt;

// Of a message, a state or a decision.
fn of_a_call(answer: u8) -> &'static str {
    match answer {
        answer::WRONG_LENGTH => "no message here has its length",
        answer::WRONG_KIND => "it is no share",
        answer::UNKNOWN_ID => "there is no such controller or switch",
        answer::WRONG_RECEIVER => "it is for another switch",
        answer::WRONG_TAG => "its tag does not match",
        answer::MALFORMED_RULE => faults::MALFORMED,
        answer::NOT_ABOVE_APPLIED => "too late, its number is not above the last applied",
        answer::BELOW_SLOT => "its number is below that of the share held from this controller",
        answer::OTHER_RULE => "this controller has asked for another rule under this number",
        answer::NO_ROOM => "the flow table is full",
        answer::LIMITS_BROKEN => "there can be 1 to 16 controllers",
        answer::WRONG_KEY_STORE => "the key store has another length",
        answer::SERIAL_DECIDED => {
            "its serial is not above the last one decided for that switch, 0 at first"
        }
        answer::NUMBERS_EXHAUSTED => "the change numbers are used up",
        answer::TOO_MANY_UNDONE => "more than 64 changes would be undone",
        answer::DOES_NOT_FIT => "it does not fit",
        answer::NOTHING_TO_SEND => "nothing is ready to send",
        answer::SERIALS_EXHAUSTED => "the serials are used up",
        _ => "unknown number",
    }
}

/// The refusal of a record of a kind: an empty place has nothing ready either.
#[derive(Clone, Copy)]
pub struct Meaning {
    pub kind: Kind,
    pub answer: u8,
}

impl Meaning {
    fn text(self) -> &'static str {
        match self.answer {
            answer::NOTHING_TO_SEND if matches!(self.kind, Kind::Deliver) => {
                "nothing is kept in that place"
            }
            answer::UNKNOWN_PLACE => "the places are 0 to 63",
            answer::CUT_SHORT => "the last record is cut short",
            answer::UNKNOWN_KIND => "a script has no such record",
            _ => of_a_call(self.answer),
        }
    }
}

impl fmt::Display for Meaning {
    fn fmt<W: fmt::Write>(&self, f: &mut fmt::Formatter<W>) -> fmt::Result {
        f.write_str(self.text())
    }
}

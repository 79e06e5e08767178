// A playbook read record after record.
ghost use Rattle.std.specs.Prelude.{◌≡◌, ◌<◌, true, [], map, length, get_or, set, leb, Ok, Err, OnOk};
ghost use Rattle.answer.specs.Ask.{pick, reply};
ghost use Rattle.answer.specs.Limits.{switch_count};
ghost use Rattle.flow.specs.Rules.{rule_key};
ghost use Rattle.playbook.specs.Limits.{max_keys};
ghost use Rattle.playbook.specs.Books.{no_plans, book_of, store_of, with_plan, with_change};
ghost use Rattle.playbook.specs.Reading.{refusal, read_from, read_first, read_whole};
ghost use Rattle.playbook.specs.Storing.{stored_ok};
ghost use Rattle.playbook.specs.Gathering.{Marked, Collected, with_key};
ghost use Rattle.playbook.specs.Members.{members};
ghost use Rattle.playbook.specs.Asking.{plan_questions, change_questions, outcome_of};

use crate::books::empty;
use crate::keys::{Keys, rule_key};
use crate::records::{Record, record_at};
use crate::triggers::Triggers;
use crate::{Change, Outcome, Plan, Playbook, limits};

// What is read so far. Each record is written into the store where it stands; beside it are the triggers of its plans
// and the different keys of each switch.
#[derive(Drop)]
struct Reader {
    playbook: Playbook,
    triggers: Triggers,
    keys: [Keys; limits::PLACES],
    ghost stored: { stored_ok playbook ≡ true },
    ghost marked: { Marked triggers.used (book_of playbook).plans },
    ghost collected: { Collected (map members keys) (book_of playbook).changes },
}

impl Reader {
    fn new() -> Reader
        ensures { result.playbook ≡ store_of no_plans }
    {
        Reader {
            playbook: empty(),
            triggers: Triggers::new(),
            keys: [Keys::new(); limits::PLACES],
        }
    }

    // A plan more, after its questions.
    fn open(&mut self, switch: u8, cause: u8) -> Result<(), u8>
        ensures asked { result
            ≡ reply (plan_questions (book_of self.old.playbook) (switch, cause)) Err (Ok tt) }
        ensures opened { OnOk result
            (self.new.playbook ≡ store_of (with_plan (book_of self.old.playbook) (switch, cause))) }
    {
        let planned = self.playbook.planned;
        if limits::SWITCHES <= switch {
            return Err(answer::UNKNOWN_ID);
        }
        if self.triggers.contains(switch, cause) {
            return Err(answer::TRIGGER_USED);
        }
        if limits::PLANS <= planned {
            return Err(answer::OVER_LIMIT);
        }
        self.triggers.insert(switch, cause);
        self.playbook.plans[planned] = Plan::new(switch, cause, self.playbook.listed);
        self.playbook.planned += 1;
        Ok(())
    }

    // A change more of the last plan, after its questions.
    fn list(&mut self, change: Change) -> Result<(), u8>
        ensures asked { result
            ≡ reply (change_questions (book_of self.old.playbook) change) Err (Ok tt) }
        ensures listed { OnOk result
            (self.new.playbook ≡ store_of (with_change (book_of self.old.playbook) change)) }
    {
        let listed = self.playbook.listed;
        if limits::SWITCHES <= change.switch {
            return Err(answer::UNKNOWN_ID);
        }
        if self.playbook.planned == 0 {
            return Err(answer::NO_PLAN);
        }
        if !flow::well_formed(change.rule) {
            return Err(answer::MALFORMED_RULE);
        }
        let last = self.playbook.planned - 1;
        if limits::CHANGES <= listed || limits::CHANGES_OF_PLAN <= self.playbook.plans[last].count {
            return Err(answer::OVER_LIMIT);
        }
        if !gather(&mut self.keys, &change) {
            return Err(answer::TOO_MANY_PREFIXES);
        }
        self.playbook.plans[last].count += 1;
        self.playbook.changes[listed] = change;
        self.playbook.listed += 1;
        Ok(())
    }

    // Records up to an end record: how many bytes they take, or the number of the question that refuses one.
    fn read(&mut self, s: &[u8]) -> Result<usize, u8>
        ensures { outcome_of self.new.playbook result
            ≡ read_from 0 s.now 0 (book_of self.old.playbook) }
    {
        let mut rest = s;
        loop {
            let record = record_at(rest)?;
            rest = &rest[record.size()..];
            match record {
                Record::Opens { switch, cause } => self.open(switch, cause)?,
                Record::Lists(change) => self.list(change)?,
                Record::Ends => return Ok(s.len() - rest.len()),
            }
        }
    }
}

// Adds the key of a change to those of its switch, and tells whether there was room.
fn gather(keys: &mut [Keys; limits::PLACES], change: &Change) -> bool
    requires { change.now.switch < switch_count }
    ensures told { result ≡ leb (length (with_key (rule_key change.now.rule)
        (get_or (map members keys.old) change.now.switch []))) max_keys }
    ensures added { map members keys.new ≡ pick result
        (set (map members keys.old) change.now.switch (with_key (rule_key change.now.rule)
        (get_or (map members keys.old) change.now.switch []))) (map members keys.old) }
{
    keys[usize::from(change.switch)].insert(rule_key(change.rule))
}

fn refused(number: u8) -> Outcome
    ensures { result ≡ refusal number }
{
    Outcome {
        answer: number,
        used: 0,
        playbook: empty(),
    }
}

// The playbook at the front of bytes, up to its end record, and how many bytes that takes.
pub fn read_first(s: &[u8]) -> Outcome
    ensures { result ≡ read_first s.now }
{
    let mut reader = Reader::new();
    let used = match reader.read(s) {
        Ok(used) => used,
        Err(number) => return refused(number),
    };
    Outcome {
        answer: answer::DONE,
        used,
        playbook: reader.playbook,
    }
}

// The playbook that all the bytes are: question 38 after the end record.
pub fn read(s: &[u8]) -> Outcome
    ensures { result ≡ read_whole s.now }
{
    let r = read_first(s);
    if r.answer == answer::DONE && r.used != s.len() {
        return refused(answer::BYTES_LEFT);
    }
    r
}

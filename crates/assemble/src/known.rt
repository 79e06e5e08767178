// What the lines before have said: what may come next, how many controllers there are, and which switches the playbook
// names.
use crate::parse::Before;
use crate::pattern::Pattern;
use notation::Kind;

// The switches that `all` can stand for.
const SWITCHES: usize = 16;

#[derive(Clone, Copy)]
pub(crate) struct Known {
    pub(crate) before: Before,
    pub(crate) controllers: u8,
    // Whether the playbook names a switch.
    pub(crate) named: [bool; SWITCHES],
}

impl Known {
    pub(crate) fn new() -> Known {
        Known {
            before: Before::Nothing,
            controllers: 0,
            named: [false; SWITCHES],
        }
    }

    fn name(&mut self, switch: u8) {
        let i = switch as usize;
        if i < SWITCHES {
            self.named[i] = true;
        }
    }

    fn add_playbook(&mut self, record: Pattern) {
        match record.kind() {
            Some(Kind::Plan) => self.name(record.byte(1)),
            Some(Kind::Change) => self.name(record.byte(2)),
            _ => {}
        }
    }

    // One record more, and what it allows next.
    pub(crate) fn add(&mut self, record: Pattern, next: Before) {
        match self.before {
            Before::Nothing => self.controllers = record.byte(0),
            Before::Playbook => self.add_playbook(record),
            _ => {}
        }
        self.before = next;
    }
}

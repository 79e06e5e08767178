// What a line stands for: a record, or one for each of all controllers and switches.
use crate::buffer::Buffer;
use lists::{behind, byte_at};
use notation::{Kind, LINE, MESSAGE_AT};

// A record so far, and whether it stands for all controllers, for all switches, and for the first half of a full round.
// A 0 keeps the place of a controller or a switch that stands for all.
#[derive(Clone, Copy)]
pub(crate) struct Pattern {
    record: Buffer<LINE>,
    pub(crate) controllers: bool,
    pub(crate) switches: bool,
    pub(crate) round: bool,
}

impl Pattern {
    pub(crate) fn new() -> Pattern {
        Pattern {
            record: Buffer::new(),
            controllers: false,
            switches: false,
            round: false,
        }
    }

    // The reports of a full round.
    pub(crate) fn round() -> Pattern {
        let mut pattern = Pattern {
            record: Buffer::new(),
            controllers: true,
            switches: true,
            round: true,
        };
        pattern.push(&[u8::from(Kind::Report), 0, 0]);
        pattern
    }

    pub(crate) fn bytes(&self) -> &[u8] {
        self.record.bytes()
    }

    pub(crate) fn byte(&self, at: usize) -> u8 {
        byte_at(self.record.bytes(), at)
    }

    pub(crate) fn kind(&self) -> Option<Kind> {
        Kind::try_from(self.byte(0)).ok()
    }

    // The message of a raw record, as far as it is there.
    pub(crate) fn message(&self) -> &[u8] {
        behind(self.record.bytes(), MESSAGE_AT)
    }

    pub(crate) fn is_full(&self) -> bool {
        self.record.room() == 0
    }

    // Further bytes; no record has more than there is room for.
    pub(crate) fn push(&mut self, bytes: &[u8]) {
        self.record.push(bytes);
    }

    // The switch stands first in a report, and the controller in the other records for all.
    fn is_switch_first(&self) -> bool {
        self.kind() == Some(Kind::Report)
    }

    pub(crate) fn with_controller(self, controller: u8) -> Pattern {
        let mut with = self;
        let at = if with.is_switch_first() { 2 } else { 1 };
        with.record.set(at, controller);
        with
    }

    pub(crate) fn with_switch(self, switch: u8) -> Pattern {
        let mut with = self;
        let at = if with.is_switch_first() { 1 } else { 2 };
        with.record.set(at, switch);
        with
    }

    // What a full round sends, once its reports are there.
    pub(crate) fn sends(self) -> Pattern {
        let mut with = self;
        with.record.set(0, u8::from(Kind::Send));
        with
    }
}

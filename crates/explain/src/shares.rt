// Made-up shares: a controller is made up for if a `raw` share in its name arrived at a switch with a matching tag, and
// it made no share with this switch, number and rule by an earlier `send` or `keep`.
use crate::changes::Numbered;
use answer::limits;
use arrayvec::ArrayVec;
use rehearsal::{DEEDS, Deed, Kind};

// Whether a switch that gave an answer has found the tag right: 15 to 19 are asked after it.
fn is_matched(answer: u8) -> bool {
    matches!(
        answer,
        answer::DONE..=answer::REPEAT | answer::MALFORMED_RULE..=answer::NO_ROOM
    )
}

// Whether two records have a share of the same controller, with the same switch, number and rule.
fn is_same_share(a: &Deed, b: &Deed) -> bool {
    a.controller == b.controller && Numbered::of(a).is_same(Numbered::of(b))
}

/// The places, from 0, of the records in which controllers made shares, and which controllers were made up for.
#[derive(Drop)]
pub(crate) struct Shares {
    made: ArrayVec<u16, DEEDS>,
    made_up: [bool; limits::OF_CONTROLLERS],
}

impl Shares {
    pub(crate) fn new() -> Shares {
        Shares {
            made: ArrayVec::new(),
            made_up: [false; limits::OF_CONTROLLERS],
        }
    }

    /// The same after the record at a place.
    pub(crate) fn note(&mut self, deeds: &[Deed], place: u16, deed: &Deed) {
        let item = deed.item;
        if !deed.wish.shared {
            return;
        }
        match item.kind {
            Kind::Send | Kind::Keep => {
                let _ = self.made.try_push(place);
            }
            Kind::Raw if is_matched(deed.answer) => self.note_raw(deeds, deed),
            _ => {}
        }
    }

    // A share with a matching tag arrived: its controller is made up for if nobody made it in the records before.
    fn note_raw(&mut self, deeds: &[Deed], deed: &Deed) {
        let is_made = self.made.as_slice().iter().any(|place| {
            deeds
                .get(usize::from(*place))
                .is_some_and(|made| is_same_share(made, deed))
        });
        if is_made {
            return;
        }
        if let Some(made_up) = self.made_up.get_mut(usize::from(deed.controller)) {
            *made_up = true;
        }
    }

    /// Whether a share in a controller's name was made up.
    pub(crate) fn is_made_up_for(&self, controller: u8) -> bool {
        self.made_up
            .get(usize::from(controller))
            .is_some_and(|made_up| *made_up)
    }
}

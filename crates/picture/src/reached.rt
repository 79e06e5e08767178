// Which rows a rehearsal needs: what each step reaches, found in a first walk over the steps.
ghost use Rattle.std.specs.Prelude.{◌≤◌};

use answer::limits;
use rehearsal::{Deed, Kind};

// The switches that some record reached.
#[derive(Clone, Copy)]
pub(crate) struct Reached {
    switches: [bool; limits::OF_SWITCHES],
}

// Whether something reached a switch or left it.
fn travels(deed: &Deed) -> bool {
    deed.begun
        && match deed.item.kind {
            Kind::Send => deed.wish.shared,
            Kind::Report | Kind::Raw | Kind::Deliver => true,
            Kind::Decide | Kind::Keep => false,
        }
}

impl Reached {
    pub(crate) fn by(deeds: &[Deed]) -> Reached {
        let mut switches = [false; limits::OF_SWITCHES];
        for deed in deeds {
            if travels(deed)
                && let Some(there) = switches.get_mut(deed.switch as usize)
            {
                *there = true;
            }
        }
        Reached { switches }
    }

    pub(crate) fn has(&self, switch: u8) -> bool {
        self.switches.get(switch as usize) == Some(&true)
    }

    // How many there are with lower numbers.
    pub(crate) fn below(&self, switch: u8) -> u64
        ensures { result ≤ 16 }
    {
        self.switches
            .iter()
            .take(switch as usize)
            .filter(|there| **there)
            .count() as u64
    }

    // Whether a step among n controllers has no row: its message is in the name of none of them, it names an end that
    // is not there, or it is not even known what it names.
    pub(crate) fn is_outside(&self, n: u8, deed: &Deed) -> bool {
        !deed.found
            || match deed.item.kind {
                Kind::Decide | Kind::Send | Kind::Keep => n <= deed.controller,
                Kind::Report => !self.has(deed.switch),
                Kind::Raw => { !self.has(deed.switch) || !deed.wish.shared || n <= deed.controller }
                Kind::Deliver => !deed.begun,
            }
    }
}

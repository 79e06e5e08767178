// Which changes a controller holds as undone that are made: their number is not above the last applied number of their
// switch, which nobody has told the controller.
use crate::ranges::{Named, Number};
use answer::limits;
use arrayvec::ArrayVec;
use controller::{Held, Undone};
use prose::Out;
use rehearsal::World;
use std::fmt;
use std::fmt::Write;
use switch::Switch;

pub(crate) fn is_made(switches: &[Switch], change: &Undone) -> bool {
    switches
        .get(usize::from(change.switch))
        .is_some_and(|s| change.number <= s.last)
}

/// The numbers of the undone changes that are made.
pub(crate) fn made_of(switches: &[Switch], held: &Held) -> ArrayVec<Number, { limits::UNDONE }> {
    let mut numbers = ArrayVec::new();
    for change in held.changes.iter().take(held.count) {
        if is_made(switches, change) {
            let _ = numbers.try_push(Number::plain(change.number));
        }
    }
    numbers
}

// What a controller was not told of.
fn say_controller(out: &mut Out, id: u8, numbers: &[Number]) -> fmt::Result {
    if numbers.is_empty() {
        return Ok(());
    }
    let changes = Named {
        one: "change",
        many: "changes",
        numbers,
    };
    writeln!(out, "  controller {id} was not told of {changes}")
}

/// What each controller was not told of. Those that are not there hold nothing.
pub(crate) fn say_untold(out: &mut Out, world: &World) -> fmt::Result {
    let mut missing = false;
    for c in &world.controllers {
        let numbers = made_of(&world.switches, &c.progress.undone);
        missing = missing || !numbers.is_empty();
        say_controller(out, c.id, numbers.as_slice())?;
    }
    if missing {
        return Ok(());
    }
    writeln!(out, "  no report is missing")
}

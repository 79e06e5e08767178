// The ends after the last record: each switch's table and held shares, each controller's undone changes.
use crate::ranges::{Named, chosen};
use crate::untold;
use answer::limits;
use controller::Controller;
use flow::Table;
use prose::Out;
use rehearsal::World;
use std::fmt;
use std::fmt::Write;
use story::{ChangeWords, Position, RuleWords, UndoneCount};
use switch::Switch;

fn say_table(out: &mut Out, table: &Table) -> fmt::Result {
    for entry in table.entries.iter().take(table.count) {
        let rule = flow::rule_of(entry.prefix, entry.length, entry.port);
        writeln!(out, "  {}", RuleWords(rule))?;
    }
    Ok(())
}

fn say_slots(out: &mut Out, s: &Switch) -> fmt::Result {
    for (controller, slot) in s.slots.iter().enumerate() {
        if slot.number != 0 {
            let change = ChangeWords {
                number: slot.number,
                rule: slot.rule,
            };
            writeln!(out, "  holds from controller {controller}: {change}")?;
        }
    }
    Ok(())
}

// Whether a switch is as it was set up: no change was made, and no share is held.
fn is_fresh(s: &Switch) -> bool {
    s.last == 0 && s.slots.iter().all(|slot| slot.number == 0)
}

fn say_switch(out: &mut Out, s: &Switch) -> fmt::Result {
    let position = Position {
        switch: s.id,
        last: s.last,
    };
    if s.last == 0 {
        writeln!(out, "{position}")?;
    } else if s.table.count == 0 {
        writeln!(out, "{position}, with no entry")?;
    } else {
        writeln!(out, "{position}:")?;
        say_table(out, &s.table)?;
    }
    say_slots(out, s)
}

// Each switch on which something happened, then the numbers of the others.
fn say_switches(out: &mut Out, switches: &[Switch]) -> fmt::Result {
    writeln!(out)?;
    for s in switches.iter().filter(|s| !is_fresh(s)) {
        say_switch(out, s)?;
    }
    let fresh = chosen(limits::SWITCHES, |s| {
        switches.get(usize::from(s)).is_some_and(|s| is_fresh(s))
    });
    if fresh.is_empty() {
        return Ok(());
    }
    let names = Named {
        one: "switch",
        many: "switches",
        numbers: fresh.as_slice(),
    };
    writeln!(out, "no change was made on {names}")
}

fn say_undone(out: &mut Out, switches: &[Switch], c: &Controller) -> fmt::Result {
    let held = &c.progress.undone;
    for undone in held.changes.iter().take(held.count) {
        let change = ChangeWords {
            number: undone.number,
            rule: undone.rule,
        };
        write!(
            out,
            "  {change}, on switch {}, flow {}",
            undone.switch, undone.flow
        )?;
        if untold::is_made(switches, undone) {
            writeln!(out, ": made; controller {} was not told", c.id)?;
        } else {
            writeln!(out)?;
        }
    }
    Ok(())
}

// Whether a controller has taken no decision: no serial was decided.
fn took_none(c: &Controller) -> bool {
    c.progress.serials.iter().all(|serial| *serial == 0)
}

// How many of the undone changes are made.
#[derive(Clone, Copy)]
struct MadeOf {
    made: usize,
    count: usize,
}

impl fmt::Display for MadeOf {
    fn fmt<W: fmt::Write>(&self, f: &mut fmt::Formatter<W>) -> fmt::Result {
        if self.made == 0 {
            Ok(())
        } else if self.count == 1 {
            f.write_str(", which is made")
        } else if self.count == self.made {
            f.write_str(", all of them made")
        } else {
            write!(f, ", {} of them made", self.made)
        }
    }
}

fn say_controller(out: &mut Out, switches: &[Switch], c: &Controller) -> fmt::Result {
    let held = c.progress.undone;
    let undone = UndoneCount(controller::undone_in(held) as u32);
    write!(out, "controller {} has {undone}", c.id)?;
    if held.count == 0 {
        let idle = if took_none(c) {
            ", and took no decision"
        } else {
            ""
        };
        return writeln!(out, "{idle}");
    }
    let made = MadeOf {
        made: untold::made_of(switches, &held).len(),
        count: held.count,
    };
    writeln!(out, "{made}:")?;
    say_undone(out, switches, c)
}

/// The switches, then the controllers.
pub(crate) fn say_ends(out: &mut Out, world: &World) -> fmt::Result {
    say_switches(out, &world.switches)?;
    for c in world.controllers.iter().take(usize::from(world.n)) {
        say_controller(out, &world.switches, c)?;
    }
    Ok(())
}

// The facts that are printed, a line each: a word and numbers.
use answer::limits::SWITCHES;
use checker::limits::CHANGES;
use checker::{AgreedChange, Line, Onward, PortLink, Refusal};
use prose::Out;
use std::fmt;
use std::fmt::Write;

// What a check said: a number for it, what it spent of a budget, and whose packets fail and where they go to, 0 for none.
pub(crate) fn say_outcome(
    out: &mut Out,
    word: &'static str,
    budget: u64,
    outcome: &Result<u64, Refusal>,
) -> fmt::Result {
    let (number, left, client, address) = match outcome {
        Ok(left) => (0u8, *left, 0, 0),
        Err(Refusal::Fails(packet)) => (1, 0, packet.line.client, packet.address),
        Err(Refusal::Undecided) => (2, 0, 0, 0),
        Err(Refusal::NoNetwork) => (3, 0, 0, 0),
    };
    let spent = budget.saturating_sub(left);
    writeln!(out, "{word} {number} {spent} {client} {address}")
}

// Numbers of marked changes, each with its switch and the first number of its decision.
pub(crate) fn say_made(
    out: &mut Out,
    word: &'static str,
    changes: &[AgreedChange],
    made: &[bool; CHANGES],
) -> fmt::Result {
    for (i, (change, is_made)) in changes.iter().zip(made).enumerate() {
        if *is_made {
            writeln!(
                out,
                "{word} {} {} {}",
                i as u64 + 1,
                change.switch,
                change.first
            )?;
        }
    }
    Ok(())
}

// The switches that a packet meets, each with the port that it finds there: 0, where it finds none and is lost.
pub(crate) fn say_way(
    out: &mut Out,
    changes: &[AgreedChange],
    links: &[PortLink],
    made: &[bool; CHANGES],
    line: Line,
    address: u64,
) -> fmt::Result {
    let mut switch = line.entry;
    for _hop in 0..SWITCHES {
        let found = checker::port_at(changes, made, switch, address);
        writeln!(out, "way {switch} {}", found.unwrap_or(0))?;
        let Some(port) = found else {
            break;
        };
        match checker::over_port(links, line.client, switch, port) {
            Onward::Foreign | Onward::Leaves => break,
            Onward::GoesTo(next) => switch = next,
        }
    }
    Ok(())
}

// The switches whose port for an address a client may not use, the marked changes made.
pub(crate) fn say_foreign(
    out: &mut Out,
    changes: &[AgreedChange],
    links: &[PortLink],
    made: &[bool; CHANGES],
    line: Line,
    address: u64,
) -> fmt::Result {
    for switch in 0..SWITCHES as u32 {
        if let Some(port) = checker::port_at(changes, made, switch, address) {
            if let Onward::Foreign = checker::over_port(links, line.client, switch, port) {
                writeln!(out, "foreign {switch} {port}")?;
            }
        }
    }
    Ok(())
}

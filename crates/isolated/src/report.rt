// What is asked of one list of decisions, or of every list, and what is printed of it.
use crate::asking::{Stop, asked_of, left_by_all};
use crate::evening::fewest;
use crate::facts::{say_foreign, say_made, say_outcome, say_way};
use crate::network::Network;
use crate::{Asked, network, trying};
use checker::limits::DECISION;
use checker::{AgreedChange, Aim, FailingPacket, Refusal};
use lists::byte_at;
use playbook::Playbook;
use prose::Out;
use std::fmt;
use std::fmt::Write;

// A packet that crosses though all stands still: its way, and the fewest changes.
fn say_resting(
    out: &mut Out,
    changes: &[AgreedChange],
    settled: usize,
    n: &Network,
    packet: &FailingPacket,
) -> fmt::Result {
    let line = packet.line;
    let address = packet.address;
    let least = fewest(changes, n.links(), settled, &packet.made, line, address);
    say_way(out, changes, n.links(), &least, line, address)?;
    say_made(out, "made", changes, &least)
}

// What is lost: the way of a packet that is.
fn say_losing(
    out: &mut Out,
    changes: &[AgreedChange],
    n: &Network,
    packet: &FailingPacket,
) -> fmt::Result {
    writeln!(out, "then")?;
    let links = n.links();
    say_way(
        out,
        changes,
        links,
        &packet.made,
        packet.line,
        packet.address,
    )?;
    say_made(out, "before", changes, &packet.made)
}

// A packet that crosses under way: where it may, and the changes made by then.
fn say_moving(
    out: &mut Out,
    changes: &[AgreedChange],
    n: &Network,
    packet: &FailingPacket,
) -> fmt::Result {
    let links = n.links();
    say_foreign(
        out,
        changes,
        links,
        &packet.made,
        packet.line,
        packet.address,
    )?;
    say_made(out, "known", changes, &packet.made)
}

// All that is asked about one list of decisions, with a budget.
fn say_list(
    out: &mut Out,
    asked: &Asked,
    budget: u64,
    n: &Network,
    p: &Playbook,
    decisions: &[u8],
) -> fmt::Result {
    let agreed = checker::agree(*p, decisions);
    writeln!(out, "changes {}", agreed.count)?;
    let Some(changes) = agreed.laid() else {
        return Ok(());
    };
    let resting = asked_of(Aim::Resting, asked, changes, n, budget);
    say_outcome(out, "resting", budget, &resting)?;
    if let Err(Refusal::Fails(packet)) = &resting {
        return say_resting(out, changes, asked.settled, n, packet);
    }
    let moving = asked_of(Aim::Moving, asked, changes, n, budget);
    say_outcome(out, "moving", budget, &moving)?;
    if let Err(Refusal::Fails(packet)) = &moving {
        say_moving(out, changes, n, packet)?;
    }
    let losing = asked_of(Aim::Losing, asked, changes, n, budget);
    say_outcome(out, "losing", budget, &losing)?;
    if let Err(Refusal::Fails(packet)) = &losing {
        say_losing(out, changes, n, packet)?;
    }
    Ok(())
}

fn say_decisions(out: &mut Out, bytes: &[u8]) -> fmt::Result {
    for decision in bytes.chunks(DECISION) {
        let switch = byte_at(decision, 0);
        let serial = byte_at(decision, 4);
        let cause = byte_at(decision, 5);
        writeln!(out, "decision {switch} {serial} {cause}")?;
    }
    Ok(())
}

// Every list of up to so many decisions, as far as they are fine.
fn say_tried(out: &mut Out, asked: &Asked, n: &Network, p: &Playbook) -> fmt::Result {
    let plans = trying::plans_of(p);
    let all = trying::how_many(plans, asked.any);
    match left_by_all(asked, n, p, plans, all) {
        Ok(left) => writeln!(out, "tried {all} {}", asked.budget.saturating_sub(left)),
        Err(Stop { place, left }) => {
            let list = trying::list_at(p, plans, place);
            writeln!(out, "lists {} {all}", place as u64 + 1)?;
            say_decisions(out, list.bytes())?;
            say_list(out, asked, left, n, p, list.bytes())
        }
    }
}

pub(crate) fn say_all(
    out: &mut Out,
    asked: &Asked,
    net: &[u8],
    decisions: &[u8],
    book: &[u8],
) -> fmt::Result {
    let outcome = playbook::read_first(book);
    if outcome.answer != answer::DONE {
        return writeln!(out, "refused {}", outcome.answer);
    }
    let p = outcome.playbook;
    let n = network::read(net);
    if asked.any == 0 {
        say_list(out, asked, asked.budget, &n, &p, decisions)
    } else {
        say_tried(out, asked, &n, &p)
    }
}

// Packets under way: at each switch every number that can be the last made there, with what is known to be made by then.
ghost use Rattle.std.specs.Prelude.{◌≡◌, true, [], ◌+◌, ◌-◌, ◌≤◌, ◌<◌, length, leb};
ghost use Rattle.answer.specs.Limits.{switch_count};
ghost use Rattle.isolation.specs.Check.{covering};
ghost use Rattle.isolation.specs.Flights as flights;
ghost use Rattle.isolation.specs.Flights.{is_needed, with_needs, known_at, can_be_last};
ghost use Rattle.checker.specs.Layout.{most_changes, changes_in, links_in, network_for, traffic_of};
ghost use Rattle.checker.specs.Marks.{marked, rising_in, rising_from};
ghost use Rattle.checker.specs.Trials.{trial_at, none_later};
ghost use Rattle.checker.specs.Verdicts.{blamed};
ghost use Rattle.checker.specs.Checked.{outcome_of};

use crate::changes::waits_for;
use crate::ways::{finds, over_port};
use crate::{AgreedChange, Onward, PortLink, Quest, Refusal, Trial, limits};

// Whether one of the marked changes behind place j waits for the change there.
fn is_needed(changes: &[AgreedChange], marks: &[bool; limits::CHANGES], j: usize) -> bool
    requires { (j < length changes.now) × (length changes.now ≤ most_changes) }
    ensures { result
        ≡ is_needed (changes_in changes.now) (j + 1)
        (rising_from marks.now (j + 1) (length changes.now - (j + 1))) }
{
    for i in j + 1..changes.len() {
        if marks[i] && waits_for(changes, i, j) {
            return true;
        }
    }
    false
}

// The marked changes, and all for which one of them waits, from the last down.
fn with_needs(changes: &[AgreedChange], marks: [bool; limits::CHANGES]) -> [bool; limits::CHANGES]
    requires { length changes.now ≤ most_changes }
    ensures { rising_in result (length changes.now)
        ≡ with_needs (changes_in changes.now) (marked marks) (length changes.now) [] }
{
    let mut out = marks;
    for j in (0..changes.len()).rev() {
        if !out[j] && is_needed(changes, &out, j) {
            out[j] = true;
        }
    }
    out
}

// What is known once the change with a number is the last made at a switch, 0 for none.
fn known_at(
    changes: &[AgreedChange],
    marks: &[bool; limits::CHANGES],
    number: usize,
) -> [bool; limits::CHANGES]
    requires { (number ≤ length changes.now) × (length changes.now ≤ most_changes) }
    ensures { rising_in result (length changes.now)
        ≡ known_at (changes_in changes.now) (rising_in marks.now (length changes.now)) number }
{
    let mut known = *marks;
    if number == 0 {
        return known;
    }
    known[number - 1] = true;
    with_needs(changes, known)
}

// What is known at first: the changes up to a number are made.
fn known_first(changes: &[AgreedChange], settled: usize) -> [bool; limits::CHANGES]
    requires { length changes.now ≤ most_changes }
    ensures { rising_in result (length changes.now)
        ≡ with_needs (changes_in changes.now) (λ k. leb k settled) (length changes.now) [] }
{
    let mut marks = [false; limits::CHANGES];
    marks[..settled.min(changes.len())].fill(true);
    with_needs(changes, marks)
}

// Whether no marked change behind the first so many is on a switch and covers the address.
fn none_later(
    changes: &[AgreedChange],
    marks: &[bool; limits::CHANGES],
    switch: u32,
    address: u64,
    number: usize,
) -> bool
    requires { (number ≤ length changes.now) × (length changes.now ≤ most_changes) }
    ensures { result
        ≡ none_later changes.now switch address number (rising_in marks.now (length changes.now)) }
{
    for i in number..changes.len() {
        if marks[i] && changes[i].is_at(switch, address) {
            return false;
        }
    }
    true
}

// Whether a number can be the last made of those on a switch that cover the address, 0 for none.
fn can_be_last(
    changes: &[AgreedChange],
    marks: &[bool; limits::CHANGES],
    switch: u32,
    address: u64,
    number: usize,
) -> bool
    requires { (number ≤ length changes.now) × (length changes.now ≤ most_changes) }
    ensures { result
        ≡ can_be_last (changes_in changes.now) (covering (changes_in changes.now) address)
        switch (rising_in marks.now (length changes.now)) number }
{
    if number != 0 && !changes[number - 1].is_at(switch, address) {
        return false;
    }
    none_later(changes, marks, switch, address, number)
}

// A packet at a switch, where the change with a number is the last made there.
fn tried_at(
    changes: &[AgreedChange],
    links: &[PortLink],
    marks: &[bool; limits::CHANGES],
    client: u32,
    address: u64,
    switch: u32,
    number: usize,
    budget: u64,
) -> Trial
    requires { (number ≤ length changes.now) × (length changes.now ≤ most_changes) }
    ensures { result
        ≡ trial_at (changes_in changes.now)
        (covering (changes_in changes.now) address) client
        (links_in links.now) switch (rising_in marks.now (length changes.now)) number budget }
{
    if !can_be_last(changes, marks, switch, address, number) {
        return Trial::Passes(budget);
    }
    if budget == 0 {
        return Trial::Spent;
    }
    let all = [true; limits::CHANGES];
    let Some(port) = finds(changes, &all, number, switch, address) else {
        return Trial::Passes(budget - 1);
    };
    match over_port(links, client, switch, port) {
        Onward::Foreign => Trial::Crosses,
        Onward::Leaves => Trial::Passes(budget - 1),
        Onward::GoesTo(next) => Trial::GoesOn(next, budget - 1),
    }
}

// A packet at a switch, with so many switches to go, where the marked changes are known to be made.
fn flight(
    changes: &[AgreedChange],
    links: &[PortLink],
    marks: &[bool; limits::CHANGES],
    q: Quest,
    address: u64,
    switch: u32,
    hops: usize,
    budget: u64,
) -> Result<u64, Refusal>
    requires { length changes.now ≤ most_changes }
    ensures { result
        ≡ outcome_of (flights.flight (changes_in changes.now)
        (covering (changes_in changes.now) address) q.line.client
        (links_in links.now) (blamed q address) hops switch (rising_in marks.now (length changes.now))
        budget) }
{
    if hops == 0 {
        return Ok(budget);
    }
    let mut left = budget;
    for number in (0..changes.len() + 1).rev() {
        match tried_at(
            changes,
            links,
            marks,
            q.line.client,
            address,
            switch,
            number,
            left,
        ) {
            Trial::Spent => return Err(Refusal::Undecided),
            Trial::Crosses => {
                let known = known_at(changes, marks, number);
                return q.failing(address, &known, changes.len());
            }
            Trial::Passes(rest) => left = rest,
            Trial::GoesOn(next, rest) => {
                let known = known_at(changes, marks, number);
                left = flight(changes, links, &known, q, address, next, hops - 1, rest)?;
            }
        }
    }
    Ok(left)
}

// A packet that comes in where the changes up to the settled number are made.
pub(crate) fn fly(
    changes: &[AgreedChange],
    links: &[PortLink],
    q: Quest,
    address: u64,
    budget: u64,
) -> Result<u64, Refusal>
    requires { length changes.now ≤ most_changes }
    ensures { result
        ≡ outcome_of (flights.flight_to (changes_in changes.now) q.settled switch_count
        (network_for links.now) (traffic_of q) address budget) }
{
    let known = known_first(changes, q.settled);
    flight(
        changes,
        links,
        &known,
        q,
        address,
        q.line.entry,
        limits::HOPS,
        budget,
    )
}

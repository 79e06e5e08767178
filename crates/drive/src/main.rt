// Makes the calls of a script at switches and controllers, and prints a line for each: the answer, what was found, the
// frame and the fields of the state. tests/DRIVE.md tells the script and the lines.
#![tactic(auto)]

mod books;
mod controllers;
mod flow_mods;
mod frames;
mod places;
mod stores;
mod switches;

ghost use Rattle.std.specs.Prelude.{◌≡◌, length};

use answer::limits;
use cases::u16_at;
use controller::Controller;
use playbook::Playbook;
use prose::Out;
use std::fmt;
use std::fmt::Write;
use stores::Store;
use switch::Switch;

const STDIN_FILENO: i32 = 0;

// The longest script, and one byte further to tell a longer one.
const SCRIPT: usize = 1048577;

// The ends, the key store of each, and the playbook read last.
#[derive(Clone, Copy)]
struct World {
    switches: [Switch; limits::OF_SWITCHES],
    controllers: [Controller; limits::OF_CONTROLLERS],
    switch_keys: [Store; limits::OF_SWITCHES],
    controller_keys: [Store; limits::OF_CONTROLLERS],
    book: Playbook,
}

// What a letter calls for.
#[derive(Clone, Copy)]
enum Call {
    AtSwitch(switches::Call),
    AtController(controllers::Call),
    SwitchKeys,
    ControllerKeys,
    WholeBook,
    FirstBook,
    FlowMod,
}

impl Call {
    // The call of a letter, if it has one.
    fn of(letter: u8) -> Option<Self> {
        match letter {
            b'S' => Some(Call::AtSwitch(switches::Call::SetUp)),
            b'M' => Some(Call::AtSwitch(switches::Call::Receive)),
            b'R' => Some(Call::AtSwitch(switches::Call::Raise)),
            b'I' => Some(Call::AtSwitch(switches::Call::RaiseInPlace)),
            b'E' => Some(Call::AtSwitch(switches::Call::WriteEvent)),
            b'A' => Some(Call::AtSwitch(switches::Call::WriteAcknowledgement)),
            b'L' => Some(Call::AtSwitch(switches::Call::LookUp)),
            b'T' => Some(Call::AtSwitch(switches::Call::Forward)),
            b'Q' => Some(Call::AtSwitch(switches::Call::CountQuorum)),
            b'X' => Some(Call::AtSwitch(switches::Call::Alter)),
            b'K' => Some(Call::SwitchKeys),
            b's' => Some(Call::AtController(controllers::Call::SetUp)),
            b'm' => Some(Call::AtController(controllers::Call::Receive)),
            b'd' => Some(Call::AtController(controllers::Call::Decide)),
            b'w' => Some(Call::AtController(controllers::Call::Write)),
            b'p' => Some(Call::AtController(controllers::Call::ShowBook)),
            b'x' => Some(Call::AtController(controllers::Call::Alter)),
            b'k' => Some(Call::ControllerKeys),
            b'b' => Some(Call::WholeBook),
            b'f' => Some(Call::FirstBook),
            b'F' => Some(Call::FlowMod),
            _ => None,
        }
    }
}

fn store_keys(out: &mut Out, store: &mut Store, name: &str, end: u8, body: &[u8]) -> fmt::Result {
    *store = Store::of(body);
    writeln!(out, "{name} {end} keys {}", store.in_use().len())
}

impl World {
    // Before the first call: no end is set up, no end has a key, and the playbook is the empty one.
    fn begun() -> Self {
        let book = playbook::empty();
        World {
            switches: [switch::setup(0, 0).state; limits::OF_SWITCHES],
            controllers: [controller::setup(0, 0, book).state; limits::OF_CONTROLLERS],
            switch_keys: [Store::empty(); limits::OF_SWITCHES],
            controller_keys: [Store::empty(); limits::OF_CONTROLLERS],
            book,
        }
    }

    // A call made on what it names, where it stands: the world is large.
    fn make(&mut self, out: &mut Out, call: Call, end: u8, body: &[u8]) -> fmt::Result {
        let i = end as usize;
        if limits::OF_SWITCHES <= i {
            return writeln!(out, "unknown end");
        }
        match call {
            Call::AtSwitch(call) => {
                write!(out, "switch {end}")?;
                let keys = self.switch_keys[i];
                switches::make(out, &mut self.switches[i], keys.in_use(), call, body)?;
                writeln!(out)
            }
            Call::AtController(call) => {
                write!(out, "controller {end}")?;
                let keys = self.controller_keys[i];
                controllers::make(
                    out,
                    &mut self.controllers[i],
                    &self.book,
                    keys.in_use(),
                    call,
                    body,
                )?;
                writeln!(out)
            }
            Call::SwitchKeys => store_keys(out, &mut self.switch_keys[i], "switch", end, body),
            Call::ControllerKeys => {
                store_keys(out, &mut self.controller_keys[i], "controller", end, body)
            }
            Call::WholeBook => {
                write!(out, "controller {end}")?;
                books::read_whole(out, &mut self.book, body)?;
                writeln!(out)
            }
            Call::FirstBook => {
                write!(out, "controller {end}")?;
                books::read_first(out, &mut self.book, body)?;
                writeln!(out)
            }
            Call::FlowMod => flow_mods::write(out, body),
        }
    }
}

// A call is a letter, an end and how many bytes its body has, and then the body.
fn follow(out: &mut Out, script: &[u8]) -> fmt::Result {
    let mut world = World::begun();
    let mut rest = script;
    while let Some((head, from)) = rest.split_first_chunk::<4>() {
        let Some((body, behind)) = from.split_at_checked(u16_at(head, 2) as usize) else {
            break;
        };
        rest = behind;
        match Call::of(head[0]) {
            Some(call) => world.make(out, call, head[1], body)?,
            None => writeln!(out, "unknown call")?,
        }
    }
    if rest.is_empty() {
        Ok(())
    } else {
        writeln!(out, "cut call")
    }
}

fn for_script() -> [u8; SCRIPT]
    ensures { 1048577 ≡ length result }
{
    [0; SCRIPT]
}

fn main() -> fmt::Result {
    let mut out = Out::new();
    let mut space = for_script();
    let n = io::read_full(STDIN_FILENO, &mut space);
    let said = if n == SCRIPT {
        writeln!(out, "script too long")
    } else {
        follow(&mut out, &space[..n])
    };
    out.end();
    said
}

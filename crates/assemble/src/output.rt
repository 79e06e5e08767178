// The bytes and the map so far: for each record its bytes, and the number of its line in decimal digits.
ghost use Rattle.std.specs.Prelude.{◌≡◌, length};
ghost use Rattle.notation.specs.Limits.{input_limit};

use crate::buffer::Buffer;
use crate::known::Known;
use crate::pattern::Pattern;
use crate::telling::Problem;
use notation::INPUT;
use std::fmt::Write;

// The most bytes of a map: a record has a byte at least, and the number of a line seven digits at most.
const MAP: usize = 131072;

fn for_input() -> Buffer<INPUT>
    ensures { input_limit ≡ length result.bytes }
{
    Buffer::new()
}

#[derive(Clone, Copy)]
pub(crate) struct Output {
    input: Buffer<INPUT>,
    map: Buffer<MAP>,
}

impl Output {
    pub(crate) fn new() -> Output {
        Output {
            input: for_input(),
            map: Buffer::new(),
        }
    }

    pub(crate) fn input(&self) -> &[u8] {
        self.input.bytes()
    }

    pub(crate) fn map(&self) -> &[u8] {
        self.map.bytes()
    }

    // One record further, which stands on this line. The map has room where the input has.
    fn push(&mut self, record: Pattern, line: usize) -> Result<(), Problem<'static>> {
        let too_many = Problem::TooMany(INPUT, "bytes in all");
        if self.input.room() < record.bytes().len() {
            return Err(too_many);
        }
        self.input.push(record.bytes());
        writeln!(self.map, "{line}").or(Err(too_many))
    }

    // A pattern of one switch, for each of its controllers.
    fn push_controllers(
        &mut self,
        pattern: Pattern,
        controllers: u8,
        line: usize,
    ) -> Result<(), Problem<'static>> {
        if !pattern.controllers {
            return self.push(pattern, line);
        }
        for controller in 0..controllers {
            self.push(pattern.with_controller(controller), line)?;
        }
        Ok(())
    }

    // A pattern, for each of its switches and controllers. All switches are those that the playbook names.
    fn push_switches(
        &mut self,
        pattern: Pattern,
        known: Known,
        line: usize,
    ) -> Result<(), Problem<'static>> {
        if !pattern.switches {
            return self.push_controllers(pattern, known.controllers, line);
        }
        for (switch, named) in (0..u8::MAX).zip(&known.named) {
            if *named {
                self.push_controllers(pattern.with_switch(switch), known.controllers, line)?;
            }
        }
        Ok(())
    }

    // All that a line stands for.
    pub(crate) fn push_line(
        &mut self,
        pattern: Pattern,
        known: Known,
        line: usize,
    ) -> Result<(), Problem<'static>> {
        self.push_switches(pattern, known, line)?;
        if pattern.round {
            self.push_switches(pattern.sends(), known, line)?;
        }
        Ok(())
    }
}

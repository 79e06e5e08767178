// What an acknowledgement moves.
ghost use Rattle.std.specs.Prelude.{◌≡◌, ◌<◌};
ghost use Rattle.answer.specs.Limits.{switch_count};
ghost use Rattle.controller.specs.Acknowledgements.{acknowledging};

use crate::Progress;

impl Progress {
    // A number is acknowledged by a switch, and the changes that are done now are dropped.
    pub(crate) fn acknowledge(&mut self, s: usize, number: u32)
        requires { s < switch_count }
        ensures { self.new ≡ acknowledging self.old s number }
    {
        self.acknowledged[s] = number;
        self.undone = self.undone.still_undone(&self.acknowledged);
    }
}

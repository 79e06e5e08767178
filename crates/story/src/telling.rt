// The rehearsal that a story tells: nobody's shares are dropped, and its lines are those of document 01.
ghost use Rattle.std.specs.Prelude.{◌≡◌};
ghost use Rattle.rehearsal.specs.Deeds.{told_of, lines_told};
ghost use Rattle.rehearsal.specs.Scripts.{lines_of};

use rehearsal::Told;

// The story of an input.
pub fn tell(input: &[u8]) -> Told
    ensures { (result ≡ told_of None input.now)
        × (lines_told result ≡ lines_of input.now) }
{
    rehearsal::tell(None, input)
}

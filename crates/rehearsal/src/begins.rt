// An input before its script: a byte n, and a playbook up to its end record.
ghost use Rattle.std.specs.Prelude.{◌≡◌};
ghost use Rattle.rehearsal.specs.Storing.{begun_of};

use crate::{Begun, World, limits};

// The world before an input's script, and where in the input the script begins; or the number of the question that
// refuses the input.
pub(crate) fn begin(input: &[u8]) -> Result<Begun, u8>
    ensures { result ≡ begun_of input.now }
{
    if input.is_empty() {
        return Err(answer::CUT_SHORT);
    }
    let n = input[0];
    if n < 1 || answer::limits::CONTROLLERS < n {
        return Err(answer::LIMITS_BROKEN);
    }
    let rest = &input[1..];
    let book = playbook::read_first(rest);
    if book.answer != answer::DONE {
        return Err(book.answer);
    }
    if limits::SCRIPT < rest.len() - book.used {
        return Err(answer::SCRIPT_TOO_LONG);
    }
    Ok(Begun {
        script: 1 + book.used,
        world: World::new(n, book.playbook),
    })
}

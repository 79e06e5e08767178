// Playbooks read.
ghost use Rattle.std.specs.Prelude.{◌≡◌};
ghost use Rattle.playbook.specs.Reading.{read_whole};
ghost use Rattle.timed.specs.Turns.{turned};
ghost use Rattle.timed.specs.Bytes.{read_mixed, read_once};

use crate::turns::{mix, stir};

// The playbook that bytes are, read again and again with another byte at a place each time, as of a flow.
#[unsafe(no_mangle)]
pub extern "C" fn timed_read(book: &mut [u8], place: usize, times: u32) -> u64
    ensures { (book.new, result) ≡ turned (read_once place) times (book.old, 0) }
{
    let mut sum = 0;
    for i in 0..times {
        stir(book, place, (i % 256) as u8);
        sum = read_one(book, sum);
    }
    sum
}

// The answer to a playbook, and how many plans and changes are stored.
fn read_one(book: &[u8], before: u64) -> u64
    ensures { result ≡ read_mixed (read_whole book.now) before }
{
    let r = playbook::read(book);
    let p = r.playbook;
    let sum = mix(before, r.answer as u32);
    mix(
        mix(sum, (p.planned % 1024) as u32),
        (p.listed % 1024) as u32,
    )
}

// The FLOW_MODs that another maker's switch is fed (document 02, N1): reads standard input, one byte for the switch and
// then a rehearsal, and prints the FLOW_MOD of each rule that this switch applied. A refusal prints none, and tells its
// number on standard error.
#![tactic(auto)]

ghost use Rattle.std.specs.Prelude.{◌≡◌, ◌+◌, length};
ghost use Rattle.rehearsal.specs.Limits.{longest_input};
ghost use Rattle.feed.specs.Mods.{most_fed};

const STDIN_FILENO: i32 = 0;

const STDOUT_FILENO: i32 = 1;

const STDERR_FILENO: i32 = 2;

// The switch's byte, and the longest rehearsal with one byte further.
const SPACE: usize = 1 + rehearsal::INPUT;

fn for_input() -> [u8; SPACE]
    ensures { longest_input + 2 ≡ length result }
{
    [0; SPACE]
}

fn for_output() -> [u8; feed::OUTPUT]
    ensures { most_fed ≡ length result }
{
    [0; feed::OUTPUT]
}

fn say_fault(answer: u8) {
    let mut digits = [0u8; 20];
    let k = io::decimal(answer as u64, &mut digits);
    io::write_all(STDERR_FILENO, b"fault ");
    io::write_all(STDERR_FILENO, &digits[..k]);
    io::write_all(STDERR_FILENO, b"\n");
}

// What could not be written is told on standard error.
fn write(bytes: &[u8]) {
    if !io::write_all(STDOUT_FILENO, bytes) {
        io::write_all(STDERR_FILENO, b"not all of the output could be written\n");
    }
}

fn main() {
    let mut space = for_input();
    let n = io::read_full(STDIN_FILENO, &mut space);
    let input = &space[..n];
    let applied = feed::applied_at(lists::byte_at(input, 0), lists::behind(input, 1));
    if applied.answer != answer::DONE {
        say_fault(applied.answer);
        return;
    }
    let mut out = for_output();
    let fed = feed::flow_mods(applied, &mut out);
    write(&out[..fed.length]);
}

// The rehearsal program (document 01): reads standard input whole and prints the lines of its rehearsal.
#![tactic(auto)]

ghost use Rattle.std.specs.Prelude.{◌≡◌, ◌+◌, length};
ghost use Rattle.rehearsal.specs.Limits.{longest_input, most_printed};

const STDIN_FILENO: i32 = 0;

const STDOUT_FILENO: i32 = 1;

const STDERR_FILENO: i32 = 2;

fn for_input() -> [u8; rehearsal::INPUT]
    ensures { longest_input + 1 ≡ length result }
{
    [0; rehearsal::INPUT]
}

fn for_output() -> [u8; rehearsal::OUTPUT]
    ensures { most_printed ≡ length result }
{
    [0; rehearsal::OUTPUT]
}

// What could not be written is told on standard error.
fn write(text: &[u8]) {
    if !io::write_all(STDOUT_FILENO, text) {
        io::write_all(STDERR_FILENO, b"not all of the output could be written\n");
    }
}

fn main() {
    let mut input = for_input();
    let n = io::read_full(STDIN_FILENO, &mut input);
    let mut out = for_output();
    let printed = rehearsal::rehearse(&input[..n], &mut out);
    write(&out[..printed.length]);
}

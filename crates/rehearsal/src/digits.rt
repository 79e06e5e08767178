// Numbers in decimal: their digits in ASCII, how many there are without zeros in front, and the digits put into an
// output.
ghost use Rattle.std.specs.Prelude.{◌≡◌, [], ◌∷◌, ◌++◌, ◌+◌, ◌/◌, ◌%◌, ◌≤◌, ◌<◌, length, drop};
ghost use Rattle.std.proofs.lemmas.List.Edits.{sets};
ghost use Rattle.rehearsal.specs.Lines.{digits, stripped, decimal};

// The digit of a unit, which is a power of ten.
fn digit(x: u32, unit: u32) -> u8
    requires { 0 < unit }
    ensures { result ≡ 48 + x / unit % 10 }
{
    b'0' + (x / unit % 10) as u8
}

// All ten digits that a number of 32 bits may have.
fn digits_of(x: u32) -> [u8; 10]
    ensures { result ≡ digits 10 x }
{
    [
        digit(x, 1_000_000_000),
        digit(x, 100_000_000),
        digit(x, 10_000_000),
        digit(x, 1_000_000),
        digit(x, 100_000),
        digit(x, 10_000),
        digit(x, 1_000),
        digit(x, 100),
        digit(x, 10),
        digit(x, 1),
    ]
}

// How many zeros stand in front; the last digit is not one of them.
fn zeros_in_front(digits: [u8; 10]) -> usize
    ensures within { result ≤ 9 }
    ensures rest { drop result digits ≡ stripped digits }
{
    for (i, digit) in digits[..9].iter().enumerate() {
        if *digit != b'0' {
            return i;
        }
    }
    9
}

// How many digits a number has.
pub(crate) fn width(x: u32) -> usize
    ensures { result ≡ length (decimal x) }
{
    10 - zeros_in_front(digits_of(x))
}

// A number put into an output, with the byte that ends it; the place after them is returned.
pub(crate) fn put_number(out: &mut [u8], at: usize, x: u32, end: u8) -> usize
    requires { at + length (decimal x) < length out.old }
    ensures { (result ≡ at + length (decimal x) + 1)
        × (out.new ≡ sets out.old at (decimal x ++ end ∷ [])) }
{
    let digits = digits_of(x);
    let zeros = zeros_in_front(digits);
    let behind = at + 10 - zeros;
    out[at..behind].copy_from_slice(&digits[zeros..]);
    out[behind] = end;
    behind + 1
}

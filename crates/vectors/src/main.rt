// Prints SHA-256, HMAC and tags of messages whose right values are known, for comparison with the file stdout.
// The HMACs and tags are those of RFC 4231, 4.2 to 4.8 (of case 5 the first 16 bytes, as the RFC has it), the first two
// digests those of FIPS 180-4's examples. OpenSSL 3 and Python's hashlib and hmac give the same, and they alone gave
// the digests at the edges of the padding and the HMACs with a key of one block and of one byte more.
#![tactic(auto)]

use std::fmt;

// Bytes as hexadecimal digits, two for each.
#[derive(Clone, Copy)]
struct Hex<'a>(&'a [u8]);

impl fmt::Display for Hex<'_> {
    fn fmt<W: fmt::Write>(&self, f: &mut fmt::Formatter<W>) -> fmt::Result {
        for byte in self.0 {
            write!(f, "{byte:02x}")?;
        }
        Ok(())
    }
}

// A line that can't be written does not keep the next ones from being written.
fn print_digest(rt: &impl Print, m: &[u8]) {
    let count = m.len();
    let digest = tag::sha256(m);
    let _ = println!(rt; "sha256 of {count} bytes {}", Hex(&digest));
}

fn print_hmac(rt: &impl Print, key: &[u8], m: &[u8]) {
    let whole = tag::hmac(key, m);
    let _ = println!(rt; "hmac {}", Hex(&whole));
}

fn print_tag(rt: &impl Print, key: &[u8], m: &[u8]) {
    let cut = tag::tag(key, m);
    let _ = println!(rt; "tag {}", Hex(&cut));
}

fn print_both(rt: &impl Print, key: &[u8], m: &[u8]) {
    print_hmac(rt, key, m);
    print_tag(rt, key, m);
}

// Whether t is the tag of case 5.
fn print_case_5(rt: &impl Print, t: &[u8]) {
    let verdict = if tag::matches(&[0x0cu8; 20], b"Test With Truncation", t) {
        "matches"
    } else {
        "does not match"
    };
    let _ = println!(rt; "{verdict}");
}

// Two examples, and the letter a so many times, at most 200: at the edges of the padding.
fn print_digests(rt: &impl Print) {
    print_digest(rt, b"abc");
    print_digest(
        rt,
        b"abcdbcdecdefdefgefghfghighijhijkijkljklmklmnlmnomnopnopq",
    );
    let letters = [b'a'; 200];
    for n in [
        0, 1, 55, 56, 57, 63, 64, 65, 111, 112, 119, 120, 121, 127, 128, 129, 200,
    ] {
        print_digest(rt, lists::front(&letters, n));
    }
}

fn print_macs(rt: &impl Print) {
    print_both(rt, &[0x0bu8; 20], b"Hi There");
    print_both(rt, b"Jefe", b"what do ya want for nothing?");
    print_both(rt, &[0xaau8; 20], &[0xddu8; 50]);
    let counting =
        b"\x01\x02\x03\x04\x05\x06\x07\x08\x09\x0a\x0b\x0c\x0d\x0e\x0f\x10\x11\x12\x13\x14\x15\x16\x17\x18\x19";
    print_both(rt, counting, &[0xcdu8; 50]);
    print_tag(rt, &[0x0cu8; 20], b"Test With Truncation");
    print_both(
        rt,
        &[0xaau8; 131],
        b"Test Using Larger Than Block-Size Key - Hash Key First",
    );
    print_both(
        rt,
        &[0xaau8; 131],
        b"This is a test using a larger than block-size key and a larger than block-size data. The key needs to be hashed before being used by the HMAC algorithm.",
    );
    print_both(rt, &[0xaau8; 64], b"Hi There");
    print_both(rt, &[0xaau8; 65], b"Hi There");
}

// Case 5's tag, and five that differ from it: in the first bit, in the last bit, in the first bit of two bytes, by a
// byte missing and by one more.
fn print_comparisons(rt: &impl Print) {
    print_case_5(
        rt,
        b"\xa3\xb6\x16\x74\x73\x10\x0e\xe0\x6e\x0c\x79\x6c\x29\x55\x55\x2b",
    );
    print_case_5(
        rt,
        b"\x23\xb6\x16\x74\x73\x10\x0e\xe0\x6e\x0c\x79\x6c\x29\x55\x55\x2b",
    );
    print_case_5(
        rt,
        b"\xa3\xb6\x16\x74\x73\x10\x0e\xe0\x6e\x0c\x79\x6c\x29\x55\x55\x2a",
    );
    print_case_5(
        rt,
        b"\x23\x36\x16\x74\x73\x10\x0e\xe0\x6e\x0c\x79\x6c\x29\x55\x55\x2b",
    );
    print_case_5(
        rt,
        b"\xa3\xb6\x16\x74\x73\x10\x0e\xe0\x6e\x0c\x79\x6c\x29\x55\x55",
    );
    print_case_5(
        rt,
        b"\xa3\xb6\x16\x74\x73\x10\x0e\xe0\x6e\x0c\x79\x6c\x29\x55\x55\x2b\xfa",
    );
}

fn print_all(rt: &impl Print) {
    print_digests(rt);
    print_macs(rt);
    print_comparisons(rt);
}

// The status is 0 whether or not all of it could be written.
fn main(rt: HostRuntime) {
    print_all(&rt);
}

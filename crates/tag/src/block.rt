// The hash of one block: FIPS 180-4, 6.2.2. For speed eight rounds are made at a time.
ghost use Rattle.std.specs.Prelude.{◌≡◌, ◌+◌, ◌<◌, ◌≤◌, length, take};
ghost use Rattle.tag.specs.Sha256 as sha;
ghost use Rattle.tag.specs.Unrolled as unrolled;

use crate::bits::{big0, big1, ch, maj, small0, small1};

// Eight words: the hash value, or the working variables of a round.
#[derive(Clone, Copy)]
pub(crate) struct State {
    pub(crate) a: u32,
    pub(crate) b: u32,
    pub(crate) c: u32,
    pub(crate) d: u32,
    pub(crate) e: u32,
    pub(crate) f: u32,
    pub(crate) g: u32,
    pub(crate) h: u32,
}

// 4.2.2: the constants.
const K: [u32; 64] = [
    0x428a_2f98,
    0x7137_4491,
    0xb5c0_fbcf,
    0xe9b5_dba5,
    0x3956_c25b,
    0x59f1_11f1,
    0x923f_82a4,
    0xab1c_5ed5,
    0xd807_aa98,
    0x1283_5b01,
    0x2431_85be,
    0x550c_7dc3,
    0x72be_5d74,
    0x80de_b1fe,
    0x9bdc_06a7,
    0xc19b_f174,
    0xe49b_69c1,
    0xefbe_4786,
    0x0fc1_9dc6,
    0x240c_a1cc,
    0x2de9_2c6f,
    0x4a74_84aa,
    0x5cb0_a9dc,
    0x76f9_88da,
    0x983e_5152,
    0xa831_c66d,
    0xb003_27c8,
    0xbf59_7fc7,
    0xc6e0_0bf3,
    0xd5a7_9147,
    0x06ca_6351,
    0x1429_2967,
    0x27b7_0a85,
    0x2e1b_2138,
    0x4d2c_6dfc,
    0x5338_0d13,
    0x650a_7354,
    0x766a_0abb,
    0x81c2_c92e,
    0x9272_2c85,
    0xa2bf_e8a1,
    0xa81a_664b,
    0xc24b_8b70,
    0xc76c_51a3,
    0xd192_e819,
    0xd699_0624,
    0xf40e_3585,
    0x106a_a070,
    0x19a4_c116,
    0x1e37_6c08,
    0x2748_774c,
    0x34b0_bcb5,
    0x391c_0cb3,
    0x4ed8_aa4a,
    0x5b9c_ca4f,
    0x682e_6ff3,
    0x748f_82ee,
    0x78a5_636f,
    0x84c8_7814,
    0x8cc7_0208,
    0x90be_fffa,
    0xa450_6ceb,
    0xbef9_a3f7,
    0xc671_78f2,
];

// The word that four bytes are, the first the highest.
fn word(m: &[u8], i: usize) -> u32
    requires { i + 4 ≤ length m.now }
    ensures { result ≡ sha.word m.now i }
{
    u32::from_be_bytes([m[i], m[i + 1], m[i + 2], m[i + 3]])
}

// The words of a block, before the rest of the schedule.
fn words(m: &[u8]) -> [u32; 64]
    requires { length m.now ≡ 64 }
    ensures { take 16 result ≡ sha.words m.now 16 }
{
    let mut w = [0u32; 64];
    for t in 0..16 {
        w[t] = word(m, 4 * t);
    }
    w
}

#[tactic(auto, unfolding(crate::specs::Sha256::next))]
fn next(w: &[u32; 64], t: usize) -> u32
    requires { (16 ≤ t) × (t < 64) }
    ensures { result ≡ sha.next w.now t }
{
    small1(w[t - 2])
        .wrapping_add(w[t - 7])
        .wrapping_add(small0(w[t - 15]))
        .wrapping_add(w[t - 16])
}

// Eight words more of a schedule, from word t on.
fn extend(w: &mut [u32; 64], t: usize)
    requires { (16 ≤ t) × (t + 8 ≤ 64) × (length w.old ≡ 64) }
    ensures { (length w.new ≡ 64) × unrolled.Extends w.old t w.new }
{
    for i in t..t + 8 {
        w[i] = next(w, i);
    }
}

#[tactic(auto, unfolding(crate::specs::Sha256::round))]
fn round(s: State, k: u32, w: u32) -> State
    ensures { result ≡ sha.round k w s }
{
    let t1 = s
        .h
        .wrapping_add(big1(s.e))
        .wrapping_add(ch(s.e, s.f, s.g))
        .wrapping_add(k)
        .wrapping_add(w);
    let t2 = big0(s.a).wrapping_add(maj(s.a, s.b, s.c));
    State {
        a: t1.wrapping_add(t2),
        b: s.a,
        c: s.b,
        d: s.c,
        e: s.d.wrapping_add(t1),
        f: s.e,
        g: s.f,
        h: s.g,
    }
}

// Eight rounds from round t on.
fn eight(mut s: State, w: &[u32; 64], t: usize) -> State
    requires { t + 8 ≤ 64 }
    ensures { unrolled.Rounds w.now t s (t + 8) result }
{
    for i in t..t + 8 {
        s = round(s, K[i], w[i]);
    }
    s
}

// The rounds of a block whose words stand first. Eight words more of the schedule are made after each eight rounds, while
// these are still under way in the processor.
fn rounds(mut s: State, mut w: [u32; 64]) -> State
    ensures { result ≡ sha.rounds s (sha.schedule (take 16 w) 48) 64 }
{
    for turn in 0..8 {
        let t = 8 * turn;
        s = eight(s, &w, t);
        if t < 48 {
            extend(&mut w, t + 16);
        }
    }
    s
}

#[tactic(auto, unfolding(crate::specs::Sha256::sums))]
fn sums(s: State, r: State) -> State
    ensures { result ≡ sha.sums s r }
{
    State {
        a: s.a.wrapping_add(r.a),
        b: s.b.wrapping_add(r.b),
        c: s.c.wrapping_add(r.c),
        d: s.d.wrapping_add(r.d),
        e: s.e.wrapping_add(r.e),
        f: s.f.wrapping_add(r.f),
        g: s.g.wrapping_add(r.g),
        h: s.h.wrapping_add(r.h),
    }
}

// The hash value after a block, from that before it.
pub(crate) fn compress(s: State, m: &[u8]) -> State
    requires { length m.now ≡ 64 }
    ensures { result ≡ sha.compress s m.now }
{
    sums(s, rounds(s, words(m)))
}

// A FLOW_MOD written into a frame: a call at no end.
use crate::frames;
use cases::{Hex, action_of, u16_at, u32_at};
use flow::Rule;
use lists::byte_at;
use prose::Out;
use std::fmt;
use std::fmt::Write;

// The longest frame whose length is a byte.
const SIZE: usize = 255;

fn rule_of(body: &[u8]) -> Rule {
    Rule {
        prefix: u32_at(body, 13),
        length: byte_at(body, 17),
        action: action_of(byte_at(body, 18), u16_at(body, 19)),
    }
}

// The frame after the call is printed whole, or a dash where it has no byte.
pub(crate) fn write(out: &mut Out, body: &[u8]) -> fmt::Result {
    let rule = rule_of(body);
    let number = u32_at(body, 9);
    let at = frames::offset(u32_at(body, 1), u32_at(body, 5));
    let n = frames::lent_of(body, SIZE);
    let mut frame = [0xee; SIZE];
    let r = openflow::write_flow_mod(number, rule, &mut frame[..n], at);
    if n == 0 {
        writeln!(out, "flowmod {} -", r.answer)
    } else {
        writeln!(out, "flowmod {} {}", r.answer, Hex(&frame[..n]))
    }
}

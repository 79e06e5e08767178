// Checks that no order of arrival takes a packet off its client's links: reads standard input, and prints lines of a word
// and numbers, for bin/isolation to put into words. Input: how many decisions are tried in every order, or 0 for the list
// given (1 byte), the settled number (4), the budget (4), how many bytes the network and the decisions have (2 each), the
// network as `links` writes it, the decisions, and the playbook.
#![tactic(auto)]

mod asking;
mod evening;
mod facts;
mod network;
mod report;
mod trying;

ghost use Rattle.std.specs.Prelude.{◌≡◌, ◌≤◌, length};

const STDIN_FILENO: i32 = 0;

use prose::Out;
use std::fmt;

// The header, the longest network, decisions and playbook, and one byte further.
const HEADER: usize = 13;

const SPACE: usize = 65536 * 2 + 8192;

fn for_input() -> [u8; SPACE]
    ensures { 139264 ≡ length result }
{
    [0u8; SPACE]
}

// What is asked for beside network, decisions and playbook.
#[derive(Clone, Copy)]
pub(crate) struct Asked {
    pub(crate) any: usize,
    pub(crate) settled: usize,
    pub(crate) budget: u64,
    pub(crate) network: usize,
    pub(crate) decisions: usize,
}

fn number_at(input: &[u8], at: usize) -> usize
    requires { at ≤ 100 }
    ensures { result ≤ 65535 }
{
    lists::u16_of(lists::byte_at(input, at), lists::byte_at(input, at + 1)) as usize
}

fn asked_in(input: &[u8]) -> Asked
    ensures { (result.network ≤ 65535) × (result.decisions ≤ 65535) }
{
    let settled = number_at(input, 1) * 65536 + number_at(input, 3);
    let budget = number_at(input, 5) * 65536 + number_at(input, 7);
    Asked {
        any: lists::byte_at(input, 0) as usize,
        settled: settled,
        budget: budget as u64,
        network: number_at(input, 9),
        decisions: number_at(input, 11),
    }
}

fn main() -> fmt::Result {
    let mut out = Out::new();
    let mut space = for_input();
    let n = io::read_full(STDIN_FILENO, &mut space);
    let input = &space[..n];
    let asked = asked_in(input);
    let rest = lists::behind(input, HEADER);
    let net = lists::front(rest, asked.network);
    let more = lists::behind(rest, asked.network);
    let decisions = lists::front(more, asked.decisions);
    let book = lists::behind(more, asked.decisions);
    let said = report::say_all(&mut out, &asked, net, decisions, book);
    out.end();
    said
}

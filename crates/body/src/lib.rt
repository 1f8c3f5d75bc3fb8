// Entries and bodies: what an entry stands for, and the check of a body.
#![tactic(auto)]

ghost use Rattle.std.specs.Prelude.{◌≡◌, ◌+◌, ◌^◌, ◌<◌, length};
ghost use Rattle.rules.specs.Limits.{argument_bytes};
ghost use Rattle.body.specs.Bytes.{value_at};
ghost use Rattle.body.specs.Entry.{op_number, op_of, entry_of, entry_at, entries};
ghost use Rattle.body.specs.Check.{depth_of, scan, check_of};

use refusal::{Fault, Refusal};
use rules::{ENTRY_BYTES, LAST_TICK, LETTERS, MOST_BODY, Op};

// What an entry stands for: a letter, an operator on two patterns, a restriction; or it breaks a rule by itself.
// `Wrong` is a kind of entry and no `None`, since `entries` and `RefusedLowest` speak of bodies that have wrong ones.
#[derive(Clone, Copy, Debug, PartialEq, Eq)]
pub enum Entry {
    Letter(u64),
    Pair(Op),
    Within(u64),
    Wrong,
}

// Checks a lone body: that it has 1 to 63 whole entries, that each keeps its rules, and that they make exactly one tree.
#[tactic(auto, unfolding(crate::specs::Check::check_of, crate::specs::Check::sized))]
pub fn check_body(body: &[u8]) -> Result<(), Refusal>
    ensures { result ≡ check_of argument_bytes body.now }
{
    let bytes = body.len();
    if bytes % ENTRY_BYTES != 0 || bytes < ENTRY_BYTES || bytes > MOST_BODY {
        return Err(Refusal::Size);
    }
    match fault_in(body) {
        None => Ok(()),
        Some(entry) => Err(Refusal::Body(Fault { body: 0, entry })),
    }
}

// The lowest entry of a body that breaks a rule, or the number of entries if they do not make exactly one tree.
// It is not inlined: the packing of a refusal, which its callers do, would get into the loop.
#[inline(never)]
#[tactic(auto, using(crate::proofs::Scan::scan_turn, crate::proofs::Scan::scan_end, crate::proofs::Scan::step_le), unfolding(crate::specs::Entry::entries))]
pub fn fault_in(body: &[u8]) -> Option<usize>
    requires { length body.now < 2 ^ 32 }
    ensures { result ≡ scan (entries argument_bytes body.now) 0 0 }
{
    let n = body.len() / ENTRY_BYTES;
    let mut trees: u32 = 0;
    for e in 0..n {
        let Some(left) = depth_after(entry_at(body, e), trees) else {
            return Some(e);
        };
        trees = left as u32;
    }
    if trees == 1 { None } else { Some(n) }
}

// Entry i of a body, which is wrong if the body ends before it does.
#[tactic(auto, unfolding(crate::specs::Entry::entry_at))]
pub fn entry_at(body: &[u8], i: usize) -> Entry
    ensures { result ≡ entry_at argument_bytes body.now i }
{
    if i >= body.len() / ENTRY_BYTES {
        return Entry::Wrong;
    }
    let at = i * ENTRY_BYTES;
    decode(u64::from(body[at]), argument_at(body, at + 1))
}

// The argument whose four bytes begin at a place, low byte first.
fn argument_at(body: &[u8], at: usize) -> u64
    requires { at + 3 < length body.now }
    ensures { result ≡ value_at argument_bytes body.now at }
{
    u64::from(u32::from_le_bytes([body[at], body[at + 1], body[at + 2], body[at + 3]]))
}

// What an op and its argument stand for. A letter is asked for first: with guards in place of the `if`s it is asked for last, and the check of a
// body takes nearly twice as long.
#[tactic(auto, unfolding(crate::specs::Entry::entry_of))]
pub fn decode(op: u64, argument: u64) -> Entry
    ensures { result ≡ entry_of argument_bytes op argument }
{
    match op {
        0 => {
            if argument < LETTERS {
                Entry::Letter(argument)
            } else {
                Entry::Wrong
            }
        }
        op if op < 5 => {
            if argument == 0 {
                Entry::Pair(op_of(op))
            } else {
                Entry::Wrong
            }
        }
        5 => {
            if argument <= LAST_TICK {
                Entry::Within(argument)
            } else {
                Entry::Wrong
            }
        }
        _ => Entry::Wrong,
    }
}

// The op number of an operator. It is no `From`, since neither `Op` nor `u64` is of this crate.
pub fn op_number(op: Op) -> u64
    ensures { result ≡ op_number op }
{
    match op {
        Op::Either => 1,
        Op::Both => 2,
        Op::Without => 3,
        Op::Chain => 4,
    }
}

// The operator of an op number from 1 to 4; `decode` takes no other.
fn op_of(op: u64) -> Op
    ensures { result ≡ op_of op }
{
    match op {
        1 => Op::Either,
        2 => Op::Both,
        3 => Op::Without,
        _ => Op::Chain,
    }
}

// How many trees stand after an entry, if d stood before it; none if it breaks a rule or lacks an operand.
#[tactic(auto, unfolding(crate::specs::Check::depth_of))]
pub fn depth_after(s: Entry, d: u32) -> Option<u64>
    ensures { result ≡ depth_of s d }
{
    match s {
        Entry::Letter(_) => Some(u64::from(d) + 1),
        Entry::Pair(_) if 2 <= d => Some(u64::from(d) - 1),
        Entry::Within(_) if 1 <= d => Some(u64::from(d)),
        _ => None,
    }
}

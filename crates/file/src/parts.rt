// The check of the parts given to the writer. A file is held to the same rules on each entry and on the bodies.
ghost use Rattle.std.specs.Prelude.{◌≡◌, []};
ghost use Rattle.file.specs.Contents.{total};
ghost use Rattle.file.specs.Check.{entry_kept, broken_entry, broken_body, bodies_check, parts_check};
ghost use Rattle.file.specs.Ready.{Few, Named, Whole};

use crate::{NAME_BYTES, name};
use refusal::{Fault, Refusal};
use rules::{ENTRY_BYTES, MOST_ENTRIES, MOST_PATTERNS};

// Checks the names, the numbers of entries and the bodies given to the writer.
#[tactic(auto, unfolding(crate::specs::Check::parts_check))]
pub(crate) fn check_parts(names: &[u8], counts: &[u8], bodies: &[u8]) -> Result<(), Refusal>
    ensures { result ≡ parts_check names.now counts.now bodies.now }
{
    if counts.len() < 1
        || counts.len() > MOST_PATTERNS
        || names.len() != NAME_BYTES * counts.len()
    {
        return Err(Refusal::Count);
    }
    if let Some(i) = broken_entry(names, counts) {
        return Err(Refusal::Entry(i));
    }
    check_bodies(counts, bodies)
}

// The lowest name, with its number of entries, that breaks a rule.
#[tactic(auto, using(crate::proofs::Turns::kept_all, crate::proofs::Turns::kept_here, crate::proofs::Turns::kept_more))]
fn broken_entry(names: &[u8], counts: &[u8]) -> Option<usize>
    requires { Named names.now counts.now }
    ensures { result ≡ broken_entry [] names.now counts.now 0 }
{
    // no bytes stand before the first name
    let mut before = &names[..0];
    for (i, n) in counts.iter().enumerate() {
        let at = i * NAME_BYTES;
        let name = &names[at..at + NAME_BYTES];
        if !entry_kept(before, name, *n) {
            return Some(i);
        }
        before = name;
    }
    None
}

// Whether a name stands after the one before it (no bytes before the first), with 1 to 63 entries.
#[tactic(auto, unfolding(crate::specs::Check::entry_kept), using(crate::proofs::Names::below_tested))]
pub(crate) fn entry_kept(before: &[u8], name: &[u8], n: u8) -> bool
    ensures { result ≡ entry_kept before.now name.now n }
{
    name::is_name(name) && before < name && 1 <= n && usize::from(n) <= MOST_ENTRIES
}

// Checks bodies given end to end: that they end where the numbers of entries say, and then each body.
#[tactic(auto, unfolding(crate::specs::Check::bodies_check))]
pub(crate) fn check_bodies(counts: &[u8], bodies: &[u8]) -> Result<(), Refusal>
    requires { Few counts.now }
    ensures { result ≡ bodies_check counts.now bodies.now }
{
    if bodies.len() != all_bytes(counts) {
        return Err(Refusal::Size);
    }
    broken_body(counts, bodies)
}

// How many bytes all bodies have.
#[tactic(auto, using(crate::proofs::Turns::total_turn, crate::proofs::Turns::total_end))]
fn all_bytes(counts: &[u8]) -> usize
    requires { Few counts.now }
    ensures { result ≡ total counts.now }
{
    let mut sum: usize = 0;
    for n in counts {
        sum += usize::from(*n) * ENTRY_BYTES;
    }
    sum
}

// Checks each body, and finds the lowest that breaks a rule, with the lowest entry in it that does.
#[tactic(auto, using(crate::proofs::Turns::searched_all, crate::proofs::Turns::searched_here))]
fn broken_body(counts: &[u8], bodies: &[u8]) -> Result<(), Refusal>
    requires { Whole counts.now bodies.now }
    ensures { result ≡ broken_body counts.now bodies.now 0 }
{
    let mut at: usize = 0;
    for (b, n) in counts.iter().enumerate() {
        let end = at + usize::from(*n) * ENTRY_BYTES;
        if let Some(entry) = body::fault_in(&bodies[at..end]) {
            return Err(Refusal::Body(Fault { body: b, entry }));
        }
        at = end;
    }
    Ok(())
}

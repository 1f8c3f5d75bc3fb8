// The check of a file after its count: the contents, then the bodies.
ghost use Rattle.std.specs.Prelude.{◌≡◌, [], ◌++◌, ◌≤◌, length, drop};
ghost use Rattle.body.specs.Bytes.{value_at};
ghost use Rattle.file.specs.Contents.{bodies_at};
ghost use Rattle.file.specs.Check.{counts_in, content_kept, broken_content, rest_check};
ghost use Rattle.file.specs.Place.{place_in};
ghost use Rattle.file.specs.Ready.{Held};

use crate::{CONTENT_BYTES, NAME_BYTES, Place, parts};
use refusal::Refusal;
use rules::{ENTRY_BYTES, MOST_PATTERNS};

// Checks what follows the count of a file.
#[tactic(auto, unfolding(crate::specs::Check::rest_check))]
pub(crate) fn check_rest(count: usize, rest: &[u8]) -> Result<(), Refusal>
    ensures { result ≡ rest_check count rest.now }
{
    if count < 1 || count > MOST_PATTERNS || rest.len() < CONTENT_BYTES * count {
        return Err(Refusal::Count);
    }
    if let Some(i) = broken_content(count, rest) {
        return Err(Refusal::Entry(i));
    }
    let mut counts = [0u8; MOST_PATTERNS];
    copy_counts(count, rest, &mut counts);
    parts::check_bodies(&counts[..count], &rest[CONTENT_BYTES * count..])
}

// The lowest entry of the contents that breaks a rule.
// It is not one function with `parts::broken_entry`, whose names and numbers stand in two slices and have no offsets.
#[tactic(auto, using(crate::proofs::Turns::contents_here, crate::proofs::Turns::contents_more, crate::proofs::Turns::contents_all))]
fn broken_content(count: usize, rest: &[u8]) -> Option<usize>
    requires { Held count rest.now }
    ensures { result ≡ broken_content [] rest.now count (bodies_at count) 0 }
{
    // no bytes stand before the first name
    let mut before = &rest[..0];
    let mut offset = 1 + CONTENT_BYTES * count;
    for i in 0..count {
        let contents = &rest[CONTENT_BYTES * i..];
        if !content_kept(before, contents, offset) {
            return Some(i);
        }
        before = &contents[..NAME_BYTES];
        offset += usize::from(contents[10]) * ENTRY_BYTES;
    }
    None
}

// Whether the entry that `contents` begins with keeps its rules, where its body begins at `offset`.
#[tactic(auto, unfolding(crate::specs::Check::content_kept))]
fn content_kept(before: &[u8], contents: &[u8], offset: usize) -> bool
    requires { 12 ≤ length contents.now }
    ensures { result ≡ content_kept before.now contents.now offset }
{
    parts::entry_kept(before, &contents[..NAME_BYTES], contents[10])
        && offset_of(contents) == offset
        && contents[11] == 0
}

// The offset in the entry that `contents` begins with.
#[tactic(auto, unfolding(body::specs::Bytes::value_at))]
fn offset_of(contents: &[u8]) -> usize
    requires { 12 ≤ length contents.now }
    ensures { result ≡ value_at 2 contents.now 8 }
{
    usize::from(u16::from_le_bytes([contents[8], contents[9]]))
}

// Where the body is whose entry `contents` begins with.
pub(crate) fn place_in(contents: &[u8]) -> Place
    requires { 12 ≤ length contents.now }
    ensures { result ≡ place_in contents.now }
{
    Place {
        from: offset_of(contents),
        long: usize::from(contents[10]) * ENTRY_BYTES,
    }
}

// Copies the numbers of entries out of the contents: one byte of each twelve.
#[tactic(auto, using(crate::proofs::Turns::copied_all))]
fn copy_counts(count: usize, rest: &[u8], counts: &mut [u8])
    requires held { Held count rest.now }
    requires count_in_bounds { count ≤ length counts.old }
    ensures { counts.new ≡ counts_in rest.now count ++ drop count counts.old }
{
    for i in 0..count {
        counts[i] = rest[CONTENT_BYTES * i + 10];
    }
}

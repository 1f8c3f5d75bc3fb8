// Printing: entries and text are gone through backwards, since a body has its operators last.
ghost use Rattle.std.specs.Prelude.{◌≡◌, ◌<◌};
ghost use Rattle.rules.specs.Limits.{letters};
ghost use Rattle.text.specs.Render.{letter_byte, op_byte};
ghost use Rattle.text.specs.inner.Helpers.{TreeReady, TreeWritten};

use super::CAPITALS;
use body::Entry;
use decimal::Backwards;
use rules::Op;

// The bytes of the longest text that a body has.
pub(crate) const MOST_PRINTED: usize = 807;

// Writes the pattern whose last entry is the one before entry `end`, and answers its first entry.
pub(crate) fn write_tree(body: &[u8], end: usize, text: &mut Backwards<MOST_PRINTED>) -> usize
    requires { TreeReady body.now end }
    ensures { TreeWritten body.now end text.old text.new result }
{
    let last = end - 1;
    match body::entry_at(body, last) {
        Entry::Letter(n) => {
            text.byte(letter_byte(n));
            last
        }
        Entry::Pair(op) => {
            text.byte(b')');
            let right = write_tree(body, last, text);
            text.byte(op_byte(op));
            let left = write_tree(body, right, text);
            text.byte(b'(');
            left
        }
        Entry::Within(n) => {
            text.byte(b')');
            text.number(n);
            text.byte(b'@');
            let left = write_tree(body, last, text);
            text.byte(b'(');
            left
        }
        // no body that was found sound has such an entry
        Entry::Wrong => last,
    }
}

// The letter of an event type.
#[tactic(auto, unfolding(crate::specs::Render::letter_byte))]
fn letter_byte(n: u64) -> u8
    requires { n < letters }
    ensures { result ≡ letter_byte n }
{
    let kind = n as u8;
    if kind < CAPITALS {
        kind + b'A'
    } else {
        kind - CAPITALS + b'a'
    }
}

// The sign of an operator.
fn op_byte(op: Op) -> u8
    ensures { result ≡ op_byte op }
{
    match op {
        Op::Either => b'|',
        Op::Both => b'+',
        Op::Without => b'-',
        Op::Chain => b';',
    }
}

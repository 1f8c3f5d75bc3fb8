// The limits by name, the operators of the algebra, and the test of an event.
#![tactic(auto)]

ghost use Rattle.std.specs.Prelude.{◌≡◌, ◌↔◌, true};
ghost use Rattle.rules.specs.Bits.{On};

// The event types: 0 to 31.
pub const LETTERS: u64 = 32;

// The last tick, and the greatest number of a restriction.
pub const LAST_TICK: u64 = 0xffff_ffff;

// How many ticks there are, and the greatest next tick of a state.
pub const TICKS: u64 = LAST_TICK + 1;

// The bytes of an entry: an op, and an argument of four bytes.
pub const ENTRY_BYTES: usize = 5;

// The entries of the largest body.
pub const MOST_ENTRIES: usize = 63;

// The bytes of the largest body.
pub const MOST_BODY: usize = MOST_ENTRIES * ENTRY_BYTES;

// The bytes of the longest pattern text.
pub const MOST_TEXT: usize = 1024;

// The patterns of the largest file or set.
pub const MOST_PATTERNS: usize = 16;

// The event words of the longest record that the plain evaluator takes.
pub const MOST_WORDS: usize = 64;

// The operators on two patterns, written | + - ; in pattern text.
#[derive(Clone, Copy, Debug, PartialEq, Eq)]
pub enum Op {
    Either,
    Both,
    Without,
    Chain,
}

// Whether an event of the type given is in a tick's word of events.
pub fn occurs(events: u32, kind: u64) -> bool
    ensures { (result ≡ true) ↔ On events kind }
{
    if kind < LETTERS {
        (events >> kind) & 1 == 1
    } else {
        false
    }
}

// The body that a reader makes, entry by entry.
ghost use Rattle.std.specs.Prelude.{◌≡◌, ◌+◌, ◌^◌, ◌<◌, ◌∷◌, replicate};
ghost use Rattle.rules.specs.Limits.{argument_bytes};
ghost use Rattle.body.specs.Bytes.{bytes_of};
ghost use Rattle.text.specs.inner.Written.{body_length, Written};

use rules::{ENTRY_BYTES, MOST_BODY, MOST_ENTRIES};

// A body as it is made: its bytes, and how many entries there are.
#[derive(Drop)]
pub(crate) struct Made {
    pub(crate) bytes: [u8; MOST_BODY],
    pub(crate) entries: usize,
}

impl Made {
    // No entry.
    pub(crate) fn new() -> Self
        ensures { (result.bytes ≡ replicate body_length 0) × (result.entries ≡ 0) }
    {
        Made {
            bytes: [0; MOST_BODY],
            entries: 0,
        }
    }

    // Writes one more entry, its argument low byte first, where there is room for 63; any further one is only counted.
    #[tactic(auto, using(crate::proofs::Entries::entry_put, crate::proofs::Entries::entry_out))]
    pub(crate) fn push(&mut self, op: u8, argument: u64)
        requires counted { self.old.entries + 1 < 2 ^ 64 }
        requires fits { argument < 2 ^ 32 }
        ensures written { Written self.old.bytes self.new.bytes self.old.entries (op ∷ bytes_of argument_bytes argument) }
        ensures counted { self.new.entries ≡ self.old.entries + 1 }
    {
        let entries = self.entries;
        if entries < MOST_ENTRIES {
            let at = entries * ENTRY_BYTES;
            self.bytes[at] = op;
            self.bytes[at + 1..at + ENTRY_BYTES].copy_from_slice(&(argument as u32).to_le_bytes());
        }
        self.entries = entries + 1;
    }
}

// Bytes and numbers in decimal, written backwards, since the last digit of a number is found first.
#![tactic(auto)]

ghost use Rattle.std.specs.Prelude.{◌≡◌, ◌+◌, min, [], ◌∷◌, length};
ghost use Rattle.decimal.specs.Decimal.{decimal};
ghost use Rattle.decimal.specs.Before.{Before};

use std::marker::Model;

// Bytes that are written from the last to the first, of which there are at most `N`.
#[derive(Drop)]
pub struct Backwards<const N: usize> {
    bytes: [u8; N],
    from: usize,
}

// Clauses see the bytes written, the first one first.
impl<const N: usize> Model for Backwards<N> {
    ghost use Rattle.std.specs.Prelude.{ℕ, ◌≤◌, List, drop};

    ghost Value = { List ℕ };

    ghost view = { λ b. drop b.from b.bytes };

    ghost invariant = { λ b. b.from ≤ N };
}

impl<const N: usize> Backwards<N> {
    // Nothing written.
    pub fn new() -> Self
        ensures { result ≡ [] }
    {
        Backwards {
            bytes: [0; N],
            from: N,
        }
    }

    // Writes a byte before those written, if there is room for it.
    pub fn byte(&mut self, byte: u8)
        ensures written { Before N self.old self.new (byte ∷ []) }
        ensures counts { length self.new ≡ min N (length self.old + 1) }
    {
        if self.from > 0 {
            let place = self.from - 1;
            self.bytes[place] = byte;
            self.from = place;
        }
    }

    // Writes a word before what is written.
    pub fn word(&mut self, word: &[u8])
        ensures written { Before N self.old self.new word.now }
        ensures counts { length self.new ≡ min N (length self.old + length word.now) }
    {
        // so the proof learns that at most `N` are written before it
        let _ = &self.bytes;
        for byte in word.iter().copied().rev() {
            self.byte(byte);
        }
    }

    // Writes a number before what is written. If there is no room for it, what is written afterwards is no number.
    pub fn number(&mut self, n: u64)
        ensures written { Before N self.old self.new (decimal n) }
        ensures counts { length self.new ≡ min N (length self.old + length (decimal n)) }
    {
        let mut left = n;
        // no count of turns: the number itself goes down by tenths
        while left > 9 {
            self.byte((left % 10) as u8 + b'0');
            left /= 10;
        }
        self.byte(left as u8 + b'0');
    }

    // What is written.
    pub fn written(&self) -> &[u8]
        ensures { result.now ≡ self.now }
    {
        let all = &self.bytes[..];
        &all[self.from..]
    }
}

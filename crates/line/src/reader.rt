// Reading: the number at the front of a line, and the letters after its space.
ghost use Rattle.std.specs.Prelude.{◌≡◌};
ghost use Rattle.line.specs.inner.Scan.{word_of};
ghost use Rattle.line.specs.inner.Number.{NumberOf};

use rules::TICKS;

// Where the number of a line ends, and its value.
#[derive(Clone, Copy, Debug, PartialEq, Eq)]
pub(crate) struct Number {
    pub(crate) end: usize,
    pub(crate) value: u64,
}

// The number that the line begins with, of any number of digits; any larger one is given as `TICKS`.
#[tactic(auto, using(crate::proofs::Readings::number_ways))]
pub(crate) fn read_number(line: &[u8]) -> Option<Number>
    ensures { NumberOf line.now result }
{
    if line.is_empty() {
        return None;
    }
    let first = text::digit(line[0])?;
    if first == 0 {
        return Some(Number { end: 1, value: 0 });
    }
    let mut value = u64::from(first);
    for end in 1..line.len() {
        let Some(d) = text::digit(line[end]) else {
            return Some(Number { end, value });
        };
        value = (value * 10 + u64::from(d)).min(TICKS);
    }
    Some(Number {
        end: line.len(),
        value,
    })
}

// The word of the events of these letters; none where there are no letters, or they do not stand in type order.
// `?` in place of `let` tests each letter twice: two more instructions for each.
#[tactic(auto, using(crate::proofs::Readings::letter_ways))]
pub(crate) fn read_letters(letters: &[u8]) -> Option<u32>
    ensures { result ≡ word_of letters.now }
{
    let mut events: u32 = 0;
    let mut next: u8 = 0;
    for byte in letters {
        let Some(kind) = text::letter(*byte) else {
            return None;
        };
        if kind < next {
            return None;
        }
        events += 1 << kind;
        next = kind + 1;
    }
    if events == 0 { None } else { Some(events) }
}

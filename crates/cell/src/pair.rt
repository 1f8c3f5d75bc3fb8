// Pairs in words: read, put, and the best that ends before a start.
ghost use Rattle.std.specs.Prelude.{◌≡◌, ◌+◌, ◌<◌, length};
ghost use Rattle.std.proofs.Math.Decide.{dec_lt};
ghost use Rattle.rules.specs.Decisions.{pick};
ghost use Rattle.detector.specs.Choice.{better, choose};
ghost use Rattle.cell.specs.Words.{span_at};
ghost use Rattle.cell.specs.Cell.{pairs_of};
ghost use Rattle.cell.specs.Pairs.{span_of, spans_in, put_span};
ghost use Rattle.cell.specs.Calls.{Paired};

// A pair: start + 1 and end + 1, or 0 and 0 for none, as the words of a state have it.
#[derive(Clone, Copy, Debug, PartialEq, Eq)]
pub(crate) struct Pair {
    pub(crate) start: u64,
    pub(crate) end: u64,
}

pub(crate) fn pair_at(words: &[u64], at: usize) -> Pair
    requires { at + 1 < length words.now }
    ensures { span_of result ≡ span_at words.now at }
{
    Pair {
        start: words[at],
        end: words[at + 1],
    }
}

pub(crate) fn put_pair(words: &mut [u64], at: usize, pair: Pair)
    requires { at + 1 < length words.old }
    ensures { words.new ≡ put_span words.old at (span_of pair) }
{
    words[at] = pair.start;
    words[at + 1] = pair.end;
}

// Latest and the kept pairs of a chain's cell, those before the first empty one.
#[tactic(auto, using(crate::proofs::Choosing::counted_first, crate::proofs::Choosing::counted_more, crate::proofs::Choosing::counted_stop, crate::proofs::Choosing::counted_end))]
pub(crate) fn pairs_in(cell: &[u64]) -> &[u64]
    requires { Paired (length cell.now) }
    ensures { spans_in result.now ≡ pairs_of cell.now }
{
    for pairs in 1..cell.len() / 2 {
        if cell[2 * pairs] == 0 {
            return &cell[..2 * pairs];
        }
    }
    cell
}

// Of pairs those that end before a start, and of these the one with the latest start (of equal starts, the lesser end), or none.
#[tactic(auto, using(crate::proofs::Choosing::choose_none, crate::proofs::Choosing::choose_turn, crate::proofs::Choosing::choose_done))]
pub(crate) fn choose_pair(pairs: &[u64], start: u64) -> Pair
    ensures { span_of result ≡ choose (spans_in pairs.now) start }
{
    let mut chosen = Pair { start: 0, end: 0 };
    for i in (0..pairs.len() / 2).rev() {
        chosen = better_before(pair_at(pairs, 2 * i), chosen, start);
    }
    chosen
}

// The better of p and q if p ends before a start, else q.
pub(crate) fn better_before(p: Pair, q: Pair, start: u64) -> Pair
    ensures { span_of result ≡ pick (dec_lt p.end start) (better (span_of p) (span_of q)) (span_of q) }
{
    if p.end < start {
        return better_of(p, q);
    }
    q
}

// The pair with the later start; of equal starts, the lesser end.
pub(crate) fn better_of(p: Pair, q: Pair) -> Pair
    ensures { span_of result ≡ better (span_of p) (span_of q) }
{
    if q.start < p.start {
        return p;
    }
    if p.start < q.start {
        return q;
    }
    if p.end < q.end {
        return p;
    }
    q
}

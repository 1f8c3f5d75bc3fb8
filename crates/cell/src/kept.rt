// The kept pairs of a chain: gathered from the old, and stored.
ghost use Rattle.std.specs.Prelude.{◌≡◌, ◌++◌, ◌+◌, ◌-◌, ◌*◌, ◌/◌, ◌<◌, ◌≤◌, [], length, take};
ghost use Rattle.detector.specs.Choice.{insert, keep, gather};
ghost use Rattle.cell.specs.Words.{kept_words};
ghost use Rattle.cell.specs.Pairs.{span_of, spans_in};
ghost use Rattle.cell.specs.Calls.{Paired};

use crate::pair::Pair;
use std::marker::Model;

// Pairs with starts strictly rising, at most 62, one for each possible start.
#[derive(Drop)]
pub(crate) struct Kept {
    words: [u64; 124],
    count: usize,
}

impl Model for Kept {
    ghost use Rattle.std.specs.Prelude.{List, ◌≤◌};
    ghost use Rattle.detector.specs.Memory.{Span};
    ghost use Rattle.detector.specs.Form.{Sorted};
    ghost use Rattle.cell.specs.Pairs.{spans_from};

    ghost Value = { List Span };

    ghost view = { λ k. spans_from k.words 0 k.count };

    ghost invariant = { λ k. (k.count ≤ 62) × Sorted 0 (spans_from k.words 0 k.count) };
}

impl Kept {
    // No pair.
    #[tactic(auto, unfolding(crate::specs::Pairs::spans_from))]
    pub(crate) fn new() -> Self
        ensures { result ≡ [] }
    {
        Kept {
            words: [0; 124],
            count: 0,
        }
    }

    // The words of the pairs.
    #[tactic(auto, using(crate::proofs::Pairs::length_spans, crate::proofs::KeptLaws::words_taken))]
    fn words(&self) -> &[u64]
        ensures { result.now ≡ kept_words (length self.now) self.now }
    {
        &self.words[..2 * self.count]
    }

    // Puts a pair in its place, nothing if it is none.
    #[tactic(auto, unfolding(detector::specs::Choice::keep), using(rules::proofs::Decisions::pick_yes, rules::proofs::Decisions::pick_no))]
    fn keep(&mut self, pair: Pair)
        requires { length self.old < 62 }
        ensures { self.new ≡ keep (span_of pair) self.old }
    {
        if 0 < pair.start {
            self.insert(pair);
        }
    }

    // Puts a pair in its place, without repeats: each later pair moves up by one.
    #[tactic(auto, using(crate::proofs::Pairs::length_spans, crate::proofs::Insertion::carry_end, crate::proofs::Insertion::carried_rising))]
    fn insert(&mut self, pair: Pair)
        requires some { 0 < pair.start }
        requires room { length self.old < 62 }
        ensures { self.new ≡ insert (span_of pair) self.old }
    {
        let mut carried = pair;
        for i in 0..self.count {
            let at = 2 * i;
            let here = crate::pair::pair_at(&self.words, at);
            if carried.start == here.start {
                crate::pair::put_pair(&mut self.words, at, crate::pair::better_of(carried, here));
                return;
            }
            if carried.start < here.start {
                crate::pair::put_pair(&mut self.words, at, carried);
                carried = here;
            }
        }
        crate::pair::put_pair(&mut self.words, 2 * self.count, carried);
        self.count += 1;
    }
}

// For each possible start, the pair chosen; these, without repeats. They are gathered apart from the cell, since each is chosen from the old.
#[tactic(auto, using(crate::proofs::Choosing::gather_begin, crate::proofs::Choosing::gather_few, crate::proofs::Choosing::gather_turn, crate::proofs::Choosing::gather_done))]
pub(crate) fn gather_pairs(pairs: &[u64], starts: &[u64], kept: &mut Kept)
    requires few { length starts.now ≤ 62 }
    requires empty { kept.old ≡ [] }
    ensures { kept.new ≡ gather (spans_in pairs.now) starts.now }
{
    for i in (0..starts.len()).rev() {
        kept.keep(crate::pair::choose_pair(pairs, starts[i]));
    }
}

// The pairs go over the kept pairs of a cell, with zeros after.
pub(crate) fn store_kept(cell: &mut [u64], kept: &Kept)
    requires paired { Paired (length cell.old) }
    requires room { 2 * length kept.now + 2 ≤ length cell.old }
    ensures { cell.new ≡ take 2 cell.old ++ kept_words (length cell.old / 2 - 1) kept.now }
{
    let words = kept.words();
    for i in 0..cell.len() - 2 {
        cell[i + 2] = words.get(i).copied().unwrap_or(0);
    }
}

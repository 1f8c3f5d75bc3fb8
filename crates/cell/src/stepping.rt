// A tick's step of a cell.
ghost use Rattle.std.specs.Prelude.{◌≡◌, List, ℕ, ◌+◌, ◌*◌, ◌<◌, ◌≤◌, min, max, length};
ghost use Rattle.std.proofs.Math.Decide.{dec_lt};
ghost use Rattle.rules.specs.declared.Op.TheVariants.{Both, Without, Chain};
ghost use Rattle.rules.specs.Decisions.{pick};
ghost use Rattle.detector.specs.Choice.{choose};
ghost use Rattle.cell.specs.Cell.{pairs_of, becomes};
ghost use Rattle.cell.specs.Pairs.{span_of};
ghost use Rattle.cell.specs.Calls.{is_cell, StepReady, Stepped, Renewed};
ghost use Rattle.cell.specs.Calls.{kept_after};

use crate::kept::Kept;
use crate::pair::Pair;

// Whether n words are the cell of a `;` whose right operand has y possible starts, at most 62.
#[tactic(auto, unfolding(crate::specs::Calls::is_cell, crate::specs::Cell::cell_words))]
pub(crate) fn is_chain(y: usize, n: usize) -> bool
    ensures { result ≡ is_cell Chain y n }
{
    y <= 62 && n == 2 * (1 + y)
}

// The greater of min(x, right) and min(left, y), left and right as they become.
pub(crate) fn both_step(cell: &mut [u64], x: u64, y: u64, end: u64) -> u64
    requires { length cell.old ≡ 4 }
    ensures { (ys : List ℕ) → Stepped Both end x y ys cell.old cell.new result }
{
    let left = renew(cell, 0, x, end);
    let right = renew(cell, 2, y, end);
    x.min(right).max(left.min(y))
}

// The answer of x stands if it starts strictly later than the latest start of y seen.
pub(crate) fn without_step(cell: &mut [u64], x: u64, y: u64) -> u64
    requires { length cell.old ≡ 1 }
    ensures { (e : ℕ) (ys : List ℕ) → Stepped Without e x y ys cell.old cell.new result }
{
    let seen = cell[0].max(y);
    cell[0] = seen;
    if seen < x { x } else { 0 }
}

// The answer and the new kept pairs are chosen from the kept pairs and latest as they were; only then is latest renewed.
pub(crate) fn chain_step(cell: &mut [u64], starts: &[u64], x: u64, y: u64, end: u64) -> u64
    requires { StepReady Chain starts.now cell.old }
    ensures { Stepped Chain end x y starts.now cell.old cell.new result }
{
    let answer = choose_and_keep(cell, starts, y);
    renew(cell, 0, x, end);
    answer
}

// The answer, and then the kept pairs as they become. Without possible starts of y there is no pair but latest.
pub(crate) fn choose_and_keep(cell: &mut [u64], starts: &[u64], y: u64) -> u64
    requires { (length starts.now ≤ 62) × (length cell.old ≡ 2 * (1 + length starts.now)) }
    ensures { (result ≡ (choose (pairs_of cell.old) y).start) × (cell.new ≡ kept_after starts.now cell.old) }
{
    if starts.len() == 0 {
        return start_before(cell[0], cell[1], y);
    }
    choose_among_pairs(cell, starts, y)
}

// The same by the pairs kept. It is not inlined: its loops would take registers from every tick.
#[inline(never)]
#[tactic(auto, using(detector::proofs::Order::gather_length, crate::proofs::KeptLaws::kept_stored))]
fn choose_among_pairs(cell: &mut [u64], starts: &[u64], y: u64) -> u64
    requires { (length starts.now ≤ 62) × (length cell.old ≡ 2 * (1 + length starts.now)) }
    ensures { (result ≡ (choose (pairs_of cell.old) y).start) × (cell.new ≡ kept_after starts.now cell.old) }
{
    let pairs = crate::pair::pairs_in(cell);
    let answer = crate::pair::choose_pair(pairs, y);
    let mut kept = Kept::new();
    crate::kept::gather_pairs(pairs, starts, &mut kept);
    crate::kept::store_kept(cell, &kept);
    answer.start
}

// The start of a pair that ends before another start, else 0.
#[tactic(auto, using(rules::proofs::Decisions::pick_yes, rules::proofs::Decisions::pick_no))]
pub(crate) fn start_before(start: u64, end: u64, y: u64) -> u64
    ensures { result ≡ pick (dec_lt end y) start 0 }
{
    if end < y { start } else { 0 }
}

// Replaces the pair at a place by the answer, with its end word, if that starts strictly later; gives the start then.
// It is stored either way: whether an answer comes is unpredictable, so a branch is slow.
pub(crate) fn renew(cell: &mut [u64], at: usize, answer: u64, end: u64) -> u64
    requires { at + 1 < length cell.old }
    ensures { Renewed cell.old at answer end cell.new result }
{
    let pair = later_of(crate::pair::pair_at(cell, at), answer, end);
    crate::pair::put_pair(cell, at, pair);
    pair.start
}

// The pair of an answer and its end word if that starts strictly later than another pair, else the other.
pub(crate) fn later_of(p: Pair, answer: u64, end: u64) -> Pair
    ensures { span_of result ≡ becomes (span_of p) answer end }
{
    if p.start < answer {
        return Pair {
            start: answer,
            end: end,
        };
    }
    p
}

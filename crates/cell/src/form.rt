// The form of a cell.
ghost use Rattle.std.specs.Prelude.{◌≡◌, length, drop};
ghost use Rattle.rules.specs.declared.Op.TheVariants.{Both, Without, Chain};
ghost use Rattle.cell.specs.Form.{pair_fits, all_zero, kept_fits, size_fits, cell_in_form};
ghost use Rattle.cell.specs.Calls.{Paired};

// Left and right.
#[tactic(auto, unfolding(crate::specs::Form::cell_in_form, crate::specs::Form::size_fits, crate::specs::Form::cell_fits))]
pub(crate) fn both_fits(cell: &[u64], next: u64) -> bool
    ensures { result ≡ cell_in_form next Both cell.now }
{
    cell.len() == 4 && pair_fits(cell[0], cell[1], next) && pair_fits(cell[2], cell[3], next)
}

// The latest start of y seen.
#[tactic(auto, unfolding(crate::specs::Form::cell_in_form, crate::specs::Form::size_fits, crate::specs::Form::cell_fits))]
pub(crate) fn without_fits(cell: &[u64], next: u64) -> bool
    ensures { result ≡ cell_in_form next Without cell.now }
{
    cell.len() == 1 && cell[0] <= next
}

// Latest and the kept pairs.
#[tactic(auto, unfolding(crate::specs::Form::cell_in_form, crate::specs::Form::size_fits, crate::specs::Form::cell_fits), using(crate::proofs::Sizes::chain_paired))]
pub(crate) fn chain_fits(cell: &[u64], next: u64) -> bool
    ensures { result ≡ cell_in_form next Chain cell.now }
{
    whole_pairs(cell.len()) && pair_fits(cell[0], cell[1], next) && kept_fits(cell, next)
}

// Whether n words are whole pairs, at least one.
#[tactic(auto, unfolding(crate::specs::Form::size_fits))]
pub(crate) fn whole_pairs(n: usize) -> bool
    ensures { result ≡ size_fits Chain n }
{
    2 <= n && n % 2 == 0
}

// Whether a pair is empty, or ends no earlier than it starts and before the next tick.
#[tactic(auto, unfolding(crate::specs::Form::pair_fits))]
pub(crate) fn pair_fits(start: u64, end: u64, next: u64) -> bool
    ensures { result ≡ pair_fits next start end }
{
    if start == 0 {
        end == 0
    } else {
        start <= end && end <= next
    }
}

// Whether the kept pairs are first, with starts strictly rising, and zeros after.
pub(crate) fn kept_fits(cell: &[u64], next: u64) -> bool
    requires { Paired (length cell.now) }
    ensures { result ≡ kept_fits next 0 (drop 2 cell.now) }
{
    let mut last: u64 = 0;
    for i in 1..cell.len() / 2 {
        let start = cell[2 * i];
        if start == 0 {
            return all_zero(&cell[2 * i..]);
        }
        if start <= last {
            return false;
        }
        if !pair_fits(start, cell[2 * i + 1], next) {
            return false;
        }
        last = start;
    }
    true
}

// Whether every word is zero.
#[tactic(auto, unfolding(crate::specs::Form::all_zero))]
pub(crate) fn all_zero(words: &[u64]) -> bool
    ensures { result ≡ all_zero words.now }
{
    words.iter().all(|word| *word == 0)
}

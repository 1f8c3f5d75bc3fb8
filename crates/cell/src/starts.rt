// The possible starts that a cell adds.
ghost use Rattle.std.specs.Prelude.{◌≡◌, ◌+◌, ◌/◌, ◌≤◌, leb, length};
ghost use Rattle.rules.specs.declared.Op.TheVariants.{Both, Chain};
ghost use Rattle.cell.specs.Calls.{Paired};
ghost use Rattle.cell.specs.Calls.{Pushed, PushAnswers};

// Left's start, then right's.
pub(crate) fn push_both(cell: &[u64], starts: &mut [u64], at: usize) -> usize
    ensures { PushAnswers Both cell.now starts.old at starts.new result }
{
    if cell.len() != 4 {
        return at;
    }
    if has_room(starts.len(), at, 2) {
        starts[at] = cell[0];
        starts[at + 1] = cell[2];
        return at + 2;
    }
    at
}

// The starts of the kept pairs, empty ones too, then latest's.
pub(crate) fn push_chain(cell: &[u64], starts: &mut [u64], at: usize) -> usize
    ensures { PushAnswers Chain cell.now starts.old at starts.new result }
{
    if crate::form::whole_pairs(cell.len()) {
        if has_room(starts.len(), at, cell.len() / 2) {
            return put_chain(cell, starts, at);
        }
    }
    at
}

// Whether n words have room at a place among others.
pub(crate) fn has_room(length: usize, at: usize, n: usize) -> bool
    ensures { result ≡ leb (at + n) length }
{
    at <= length && n <= length - at
}

// Puts the starts of a chain where there is room for them.
pub(crate) fn put_chain(cell: &[u64], starts: &mut [u64], at: usize) -> usize
    requires { Paired (length cell.now) × (at + length cell.now / 2 ≤ length starts.old) }
    ensures { Pushed Chain cell.now starts.old at starts.new result }
{
    let kept = cell.len() / 2 - 1;
    for i in 0..kept {
        starts[at + i] = cell[2 * i + 2];
    }
    starts[at + kept] = cell[0];
    at + kept + 1
}

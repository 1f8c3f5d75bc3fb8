// The judge of a state: its entries, and each cell in turn.
ghost use Rattle.std.specs.Prelude.{◌≡◌, ◌+◌, ◌<◌, length};
ghost use Rattle.watcher.specs.State.{header};
ghost use Rattle.watcher.specs.inner.Walk.{entry_in};
ghost use Rattle.watcher.specs.inner.Form.{Entered, CellReady, CellEnds, judged_end};

use crate::possible::{self, Possible};
use crate::{HEADER, NEXT};
use body::Entry;
use rules::Op;

// Entry i of a state.
#[tactic(auto, unfolding(crate::specs::inner::Walk::entry_in))]
pub(crate) fn entry_in(state: &[u64], i: usize) -> Entry
    requires { i + header < length state.now }
    ensures { result ≡ entry_in state.now i }
{
    let word = state[i + HEADER];
    body::decode(word % 256, word / 256)
}

// Where the cells end, none if the entries are no sound body, or a cell is not there or not in form.
#[tactic(auto, using(crate::proofs::form::Judging::judging_start, crate::proofs::form::Judging::judging_one, crate::proofs::form::Judging::judging_other, crate::proofs::form::Judging::judging_broken, crate::proofs::form::Judging::judging_wrong, crate::proofs::form::Judging::judging_no_one, crate::proofs::form::Judging::judging_no_two))]
pub(crate) fn judged_end(state: &[u64], n: usize) -> Option<usize>
    requires { Entered state.now n }
    ensures { result ≡ judged_end state.now }
{
    let mut possible = Possible::new(0);
    let mut at = HEADER + n;
    for i in 0..n {
        match entry_in(state, i) {
            Entry::Letter(_) => possible.push(0),
            Entry::Pair(op) if 2 <= possible.len() => {
                at = cell_end(op, state, at, possible::merge(&mut possible, op))?;
            }
            Entry::Within(_) if 1 <= possible.len() => {}
            _ => return None,
        }
    }
    if possible.len() == 1 { Some(at) } else { None }
}

// The place after the cell of an operator, whose right operand has y possible starts; none if the cell is not there or not in form.
fn cell_end(op: Op, state: &[u64], at: usize, y: u8) -> Option<usize>
    requires { CellReady state.now at }
    ensures { CellEnds state.now op at y result }
{
    let end = at + cell::size(op, y);
    if state.len() < end || !cell::in_form(op, &state[at..end], state[NEXT]) {
        return None;
    }
    Some(end)
}

// The cell of one operator: the words that it keeps between ticks, their form, and what a tick makes of them.
#![tactic(auto)]

mod form;
mod kept;
mod pair;
mod starts;
mod stepping;

ghost use Rattle.std.specs.Prelude.{◌≡◌};
ghost use Rattle.cell.specs.Cell.{cell_words, possible};
ghost use Rattle.cell.specs.Form.{cell_in_form};
ghost use Rattle.cell.specs.Calls.{StepAnswers};
ghost use Rattle.cell.specs.Calls.{PushAnswers};

use rules::Op;

// The words of an operator's cell, where its right operand has y possible starts.
pub fn size(op: Op, y: u8) -> usize
    ensures { result ≡ cell_words op y }
{
    match op {
        Op::Either => 0,
        Op::Both => 4,
        Op::Without => 1,
        Op::Chain => 2 * (1 + y as usize),
    }
}

// How many possible starts an operator has, from those of its operands.
pub fn possible_starts(op: Op, x: u8, y: u8) -> usize
    ensures { result ≡ possible op x y }
{
    match op {
        Op::Either => x as usize + y as usize,
        Op::Both => x as usize + y as usize + 2,
        Op::Without => x as usize,
        Op::Chain => x as usize + y as usize + 1,
    }
}

// Whether words are a cell of the operator and in form, where the next tick allowed is given.
pub fn in_form(op: Op, cell: &[u64], next: u64) -> bool
    ensures { result ≡ cell_in_form next op cell.now }
{
    match op {
        Op::Either => cell.len() == 0,
        Op::Both => form::both_fits(cell, next),
        Op::Without => form::without_fits(cell, next),
        Op::Chain => form::chain_fits(cell, next),
    }
}

// Steps a cell and gives the answer, from the answers x and y of its operands, the possible starts of the right one, and the tick's end word, t + 1.
// The operands' own steps come first. Words that are not the operator's cell for these starts are left as they are, and the answer is 0.
pub fn step(op: Op, cell: &mut [u64], starts: &[u64], x: u64, y: u64, end: u64) -> u64
    ensures { StepAnswers op end x y starts.now cell.old cell.new result }
{
    match op {
        Op::Either => { if cell.len() == 0 { x.max(y) } else { 0 } }
        Op::Both => {
            if cell.len() == 4 {
                stepping::both_step(cell, x, y, end)
            } else {
                0
            }
        }
        Op::Without => {
            if cell.len() == 1 {
                stepping::without_step(cell, x, y)
            } else {
                0
            }
        }
        Op::Chain => {
            if stepping::is_chain(starts.len(), cell.len()) {
                stepping::chain_step(cell, starts, x, y, end)
            } else {
                0
            }
        }
    }
}

// Writes the starts that a cell adds, from a place on, and gives the place after them.
// If the words are not a cell of the operator, or its starts have no room there, nothing is written.
pub fn put_starts(op: Op, cell: &[u64], starts: &mut [u64], at: usize) -> usize
    ensures { PushAnswers op cell.now starts.old at starts.new result }
{
    match op {
        Op::Either => at,
        Op::Both => starts::push_both(cell, starts, at),
        Op::Without => at,
        Op::Chain => starts::push_chain(cell, starts, at),
    }
}

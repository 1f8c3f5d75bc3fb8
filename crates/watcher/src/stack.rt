// The answers of a tick on a stack, each with its possible starts.
ghost use Rattle.std.specs.Prelude.{◌≡◌, [], ◌∷◌, ◌+◌, ◌≤◌, ◌<◌, length};
ghost use Rattle.watcher.specs.inner.Walk.{last_answer, within_answer};
ghost use Rattle.watcher.specs.inner.Step.{empty_stack, holding, own_from, restricted, PairReady, PairDone, Placed, Replaces};

use rules::Op;
use std::marker::Model;

// Of the answers lent, `places` are in use. The possible starts at place k are starts[base[k]..base[k + 1]].
// The arrays are lent, since a type that owns them, one for each size, makes the tick of a small pattern a tenth slower.
#[derive(Drop)]
pub(crate) struct Stack<'a> {
    answers: &'a mut [u64],
    base: &'a mut [usize],
    starts: &'a mut [u64],
    places: usize,
}

// Clauses see how many answers and possible starts have room, and the answers with their possible starts, the last one first.
impl<'a> Model for Stack<'a> {
    ghost use Rattle.watcher.specs.inner.Step.{Stacked, stack_view, IsStack};

    ghost Value = { Stacked };

    ghost view = { λ s. stack_view s.answers.now s.base.now s.starts.now s.places };

    ghost invariant = { λ s. IsStack s.answers.now s.base.now s.starts.now s.places };
}

impl<'a> Stack<'a> {
    // No answer.
    #[tactic(auto, unfolding(crate::specs::inner::Step::stack_by))]
    pub(crate) fn new(
        answers: &'a mut [u64],
        base: &'a mut [usize],
        starts: &'a mut [u64],
    ) -> Stack<'a>
        requires based { length base.old ≡ length answers.old + 1 }
        requires most { length starts.old ≤ 62 }
        ensures { result ≡ empty_stack (length answers.old) (length starts.old) }
    {
        base[0] = 0;
        Stack {
            answers,
            base,
            starts,
            places: 0,
        }
    }

    // A letter's answer, with no possible start.
    pub(crate) fn push(&mut self, answer: u64)
        requires { length self.old.values < self.old.deep }
        ensures { self.new ≡ holding self.old ((answer, []) ∷ self.old.values) }
    {
        self.answers[self.places] = answer;
        self.base[self.places + 1] = self.base[self.places];
        self.places += 1;
    }

    // A restriction on the last answer: it stands if its start is at most `limit` ticks before t.
    pub(crate) fn restrict(&mut self, limit: u64, t: u64)
        requires { 1 ≤ length self.old.values }
        ensures { self.new ≡ holding self.old (restricted t limit self.old.values) }
    {
        let top = self.places - 1;
        self.answers[top] = within_answer(self.answers[top], limit, t);
    }

    // Steps an operator, whose cell stands at a place, and gives the place after the cell. Its answer comes in place of its operands'.
    pub(crate) fn merge(&mut self, op: Op, state: &mut [u64], at: usize, t: u64) -> usize
        requires operands { 2 ≤ length self.old.values }
        requires fits { PairReady self.old.many op state.old self.old.values at t }
        ensures merged { PairDone op t at state.old self.old.values state.new self.new.values result }
        ensures kept { self.new ≡ holding self.old self.new.values }
    {
        self.places -= 1;
        pair(
            op,
            state,
            self.answers,
            self.base,
            self.starts,
            self.places,
            at,
            t,
        )
    }

    // The only answer.
    pub(crate) fn answer(&self) -> u64
        requires { length self.now.values ≡ 1 }
        ensures { result ≡ last_answer self.now.values }
    {
        self.answers[0]
    }
}

// The answer of a restriction: a stands if its start is at most `limit` ticks before t.
#[tactic(auto, using(rules::proofs::Decisions::pick_yes, rules::proofs::Decisions::pick_no))]
fn within_answer(a: u64, limit: u64, t: u64) -> u64
    ensures { result ≡ within_answer t limit a }
{
    if t < limit || t - limit < a { a } else { 0 }
}

// Steps an operator, whose right operand stands at place d and whose cell at a place, and gives the place after the cell.
// The arrays come one by one: of a part that was lent through `self` the check knows the length alone.
fn pair(
    op: Op,
    state: &mut [u64],
    answers: &mut [u64],
    base: &mut [usize],
    starts: &mut [u64],
    d: usize,
    at: usize,
    t: u64,
) -> usize
    requires { Placed op state.old answers.old base.old starts.old d at t }
    ensures { Replaces op state.old answers.old base.old starts.old d at t
        state.new answers.new base.new starts.new result }
{
    let y = answers[d];
    let x = answers[d - 1];
    let b = base[d];
    let top = base[d + 1];
    let end = at + cell::size(op, (top - b) as u8);
    answers[d - 1] = cell::step(op, &mut state[at..end], &starts[b..top], x, y, t + 1);
    base[d] = cell::put_starts(op, &state[at..end], starts, own_from(op, b, top));
    end
}

// Where the starts of an operator's cell go: after those of its right operand, b to the top, if these stay possible, else over them.
#[tactic(auto, unfolding(crate::specs::inner::Step::own_from))]
fn own_from(op: Op, b: usize, top: usize) -> usize
    ensures { result ≡ own_from op b top }
{
    match op {
        Op::Either | Op::Both => top,
        Op::Without | Op::Chain => b,
    }
}

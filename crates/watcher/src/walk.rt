// A tick over the words of a state.
ghost use Rattle.std.specs.Prelude.{◌≡◌, ◌+◌, ◌*◌, ◌≤◌, ◌<◌};
ghost use Rattle.rules.specs.Limits.{ticks};
ghost use Rattle.watcher.specs.State.{count_of};
ghost use Rattle.watcher.specs.inner.Walk.{letter_answer};
ghost use Rattle.watcher.specs.inner.Step.{StackFor, StepsReady, StepsDone, FeedReady, FeedDone};

use crate::stack::Stack;
use crate::{COUNT, HEADER, NEXT, form};
use body::Entry;

// A tick with arrays made for it: 8, 9 and 14 words for up to 15 entries, 32, 33 and 62 for up to 63.
pub(crate) fn step_with<const A: usize, const B: usize, const S: usize>(
    state: &mut [u64],
    t: u64,
    events: u32,
) -> u64
    requires ready { StepsReady state.old t }
    requires deep { count_of state.old < 2 * A }
    requires few { A ≤ 32 }
    requires based { B ≡ A + 1 }
    requires many { count_of state.old ≤ S + 1 }
    requires most { S ≤ 62 }
    ensures { StepsDone state.old t events state.new result }
{
    let mut answers = [0u64; A];
    let mut base = [0usize; B];
    let mut starts = [0u64; S];
    step_over(state, t, events, &mut answers, &mut base, &mut starts)
}

// Takes ticks with their events, one after the other, and writes their answers. The same arrays serve every tick.
#[tactic(auto, using(crate::proofs::Feeds::feeds_start))]
pub(crate) fn steps(state: &mut [u64], ticks: &[u64], events: &[u32], answers: &mut [u64])
    requires { FeedReady state.old ticks.now events.now answers.old }
    ensures { FeedDone state.old ticks.now events.now answers.old
        state.new answers.new }
{
    let mut stack = [0u64; 32];
    let mut base = [0usize; 33];
    let mut starts = [0u64; 62];
    for i in 0..ticks.len() {
        answers[i] = step_over(
            state,
            ticks[i],
            events[i],
            &mut stack,
            &mut base,
            &mut starts,
        );
    }
}

// Steps the entries in order, with a stack in arrays that are lent for it, for small patterns small ones.
fn step_over(
    state: &mut [u64],
    t: u64,
    events: u32,
    answers: &mut [u64],
    base: &mut [usize],
    starts: &mut [u64],
) -> u64
    requires ready { StepsReady state.old t }
    requires fits { StackFor (count_of state.old) answers.old base.old starts.old }
    ensures { StepsDone state.old t events state.new result }
{
    let n = state[COUNT] as usize;
    let mut at = HEADER + n;
    let mut stack = Stack::new(answers, base, starts);
    for i in 0..n {
        match form::entry_in(state, i) {
            Entry::Letter(kind) => stack.push(letter_answer(events, kind, t)),
            Entry::Within(limit) => stack.restrict(limit, t),
            Entry::Pair(op) => at = stack.merge(op, state, at, t),
            Entry::Wrong => {}
        }
    }
    state[NEXT] = t + 1;
    stack.answer()
}

// The answer of a letter: t itself is the start, if the event is there.
#[tactic(auto, using(rules::proofs::Decisions::pick_yes, rules::proofs::Decisions::pick_no))]
fn letter_answer(events: u32, kind: u64, t: u64) -> u64
    requires { t < ticks }
    ensures { result ≡ letter_answer t events kind }
{
    if rules::occurs(events, kind) {
        t + 1
    } else {
        0
    }
}

// The watcher: its state as words in a lent slice, opened from a body and moved by ticks.
#![tactic(auto)]

mod form;
mod possible;
mod stack;
mod walk;

ghost use Rattle.std.specs.Prelude.{◌≡◌, Ok, ◌+◌, ◌*◌, ◌≤◌, ◌<◌, length};
ghost use Rattle.rules.specs.Limits.{argument_bytes};
ghost use Rattle.body.specs.Entry.{op_number};
ghost use Rattle.body.specs.Check.{check_of};
ghost use Rattle.watcher.specs.Answer.{RoomAnswers, OpenAnswers, TickAnswers, TickReady, IsTicked};
ghost use Rattle.watcher.specs.Feed.{FeedAnswers, first_fault};
ghost use Rattle.watcher.specs.inner.Walk.{cells_needed, words_opened, extent};
ghost use Rattle.watcher.specs.State.{header, next_of, word_of};
ghost use Rattle.watcher.specs.inner.Form.{Narrow, Put, words_of, OpenReady};

use body::Entry;
use possible::Possible;
use refusal::Refusal;
use rules::{ENTRY_BYTES, LAST_TICK, MOST_ENTRIES, TICKS};

// A state begins with its header: the number of entries, then the next tick allowed.
pub(crate) const COUNT: usize = 0;

pub(crate) const NEXT: usize = 1;

pub(crate) const HEADER: usize = 2;

// A pattern of fewer entries is stepped over small arrays.
const SMALL: u64 = 16;

// The room of a body's pattern: the words of its state.
#[tactic(auto, unfolding(crate::specs::inner::Walk::words_needed), using(crate::proofs::Opens::room_answers))]
pub fn room(body: &[u8]) -> Result<usize, Refusal>
    ensures { RoomAnswers body.now result }
{
    body::check_body(body)?;
    Ok(HEADER + body.len() / ENTRY_BYTES + cells_needed(body))
}

// Opens a state for a body's pattern: the words of a fresh memory. Words beyond the room are never touched.
#[tactic(auto, unfolding(crate::specs::inner::Walk::words_needed), using(crate::proofs::Opens::opened_as_written, crate::proofs::Opens::open_ready))]
pub fn open(body: &[u8], state: &mut [u64]) -> Result<(), Refusal>
    ensures { OpenAnswers body.now state.old state.new result }
{
    body::check_body(body)?;
    let n = body.len() / ENTRY_BYTES;
    let cells = cells_needed(body);
    let needed = HEADER + n + cells;
    if state.len() < needed {
        return Err(Refusal::Room(needed));
    }
    write_opened(body, state, n, cells);
    Ok(())
}

// Takes a tick with its word of events: the start of the window that ends at the tick, the latest one, or none. A refused tick changes nothing.
#[tactic(auto, using(crate::proofs::Judges::extent_formed, crate::proofs::Calls::tick_ready))]
pub fn tick(state: &mut [u64], t: u64, events: u32) -> Result<Option<u64>, Refusal>
    ensures { TickAnswers state.old state.new t events result }
{
    if LAST_TICK < t {
        return Err(Refusal::Range(0));
    }
    let Some(_) = extent(state) else {
        return Err(Refusal::State(0));
    };
    if t < next_tick(state) {
        return Err(Refusal::Late(0));
    }
    Ok(step(state, t, events).checked_sub(1))
}

// Takes ticks with their events, one after the other, the state judged once: an answer for each tick, start + 1 or 0.
// If a tick is refused, none is taken.
#[tactic(auto, using(crate::proofs::Judges::extent_formed))]
pub fn feed(
    state: &mut [u64],
    ticks: &[u64],
    events: &[u32],
    answers: &mut [u64],
) -> Result<(), Refusal>
    ensures { FeedAnswers state.old ticks.now events.now answers.old
        state.new answers.new result }
{
    if ticks.len() != events.len() {
        return Err(Refusal::Record);
    }
    if answers.len() < ticks.len() {
        return Err(Refusal::Room(ticks.len()));
    }
    let Some(_) = extent(state) else {
        return Err(Refusal::State(0));
    };
    first_fault(ticks, next_tick(state))?;
    walk::steps(state, ticks, events, answers);
    Ok(())
}

// How many words the state at the front of a slice has, none if it is not in form.
#[tactic(auto, unfolding(crate::specs::inner::Walk::formed, crate::specs::inner::Walk::extent), using(crate::proofs::form::Formed::extent_judged))]
pub fn extent(state: &[u64]) -> Option<usize>
    ensures { result ≡ extent state.now }
{
    if state.len() <= HEADER {
        return None;
    }
    let count = state[COUNT];
    if count < 1 || (MOST_ENTRIES as u64) < count {
        return None;
    }
    let n = count as usize;
    if state.len() < HEADER + n || TICKS < state[NEXT] {
        return None;
    }
    form::judged_end(state, n)
}

// The next tick that the state at the front of a slice allows, 0 if the slice ends before that word. It is no `Option`, since each caller has judged the state.
pub fn next_tick(state: &[u64]) -> u64
    ensures { result ≡ next_of state.now }
{
    state.get(NEXT).copied().unwrap_or(0)
}

// Takes a tick that the state is known to accept, and gives start + 1 of the window that ends at the tick, or 0 for none, as a state's words and
// the calls for C have it.
// This is the call for crates that have judged the state themselves; all others call `tick`.
// Arrays are cleared at each call, so a small pattern has small ones.
pub fn step(state: &mut [u64], t: u64, events: u32) -> u64
    requires { TickReady state.old t }
    ensures { IsTicked state.old state.new t events result }
{
    if state[COUNT] < SMALL {
        walk::step_with::<8, 9, 14>(state, t, events)
    } else {
        walk::step_with::<32, 33, 62>(state, t, events)
    }
}

// The refusal of the first tick that is over the limit or below the next allowed.
#[tactic(auto, unfolding(crate::specs::Feed::first_fault), using(crate::proofs::Feeds::fault_end, crate::proofs::Feeds::fault_none, crate::proofs::Feeds::fault_late, crate::proofs::Feeds::fault_range))]
fn first_fault(ticks: &[u64], next: u64) -> Result<(), Refusal>
    ensures { result ≡ first_fault 0 next ticks.now }
{
    let mut allowed = next;
    for (i, &t) in ticks.iter().enumerate() {
        if LAST_TICK < t {
            return Err(Refusal::Range(i));
        }
        if t < allowed {
            return Err(Refusal::Late(i));
        }
        allowed = t + 1;
    }
    Ok(())
}

// The number of entries, no tick yet, the entries, and empty cells.
fn write_opened(body: &[u8], state: &mut [u64], n: usize, cells: usize)
    requires { OpenReady body.now state.old n cells }
    ensures { state.new ≡ words_opened body.now state.old }
{
    state[COUNT] = n as u64;
    state[NEXT] = 0;
    write_entries(body, state, n);
    state[HEADER + n..HEADER + n + cells].fill(0);
}

// The words of n entries, after the header.
#[tactic(auto, using(crate::proofs::Puts::read_narrow, crate::proofs::Puts::putting_none, crate::proofs::Puts::putting_more, crate::proofs::Puts::putting_all))]
fn write_entries(body: &[u8], state: &mut [u64], n: usize)
    requires { header + n ≤ length state.old }
    ensures { Put (words_of body.now) header n state.old state.new }
{
    for i in 0..n {
        state[HEADER + i] = word_of(body::entry_at(body, i));
    }
}

// The word of an entry: its op and 256 times its argument.
fn word_of(entry: Entry) -> u64
    requires { Narrow entry }
    ensures { result ≡ word_of entry }
{
    match entry {
        Entry::Letter(kind) => 256 * kind,
        Entry::Pair(op) => body::op_number(op),
        Entry::Within(limit) => 5 + 256 * limit,
        Entry::Wrong => 255,
    }
}

// The words of all cells of a sound body.
#[tactic(auto, using(crate::proofs::Rooming::rooming_start, crate::proofs::Rooming::rooming_end, crate::proofs::Piles::piled_two))]
fn cells_needed(body: &[u8]) -> usize
    requires { check_of argument_bytes body.now ≡ Ok tt }
    ensures { (result ≡ cells_needed body.now) × (result ≤ 7938) }
{
    let mut possible = Possible::new(0);
    let mut words: usize = 0;
    for i in 0..body.len() / ENTRY_BYTES {
        match body::entry_at(body, i) {
            Entry::Letter(_) => possible.push(0),
            Entry::Pair(op) => words += cell::size(op, possible::merge(&mut possible, op)),
            Entry::Within(_) => {}
            Entry::Wrong => {}
        }
    }
    words
}

// Several watchers in one slice: each state is a part of it, beginning where the one before it ends.
#![tactic(auto)]

ghost use Rattle.std.specs.Prelude.{◌≤◌};
ghost use Rattle.rules.specs.Limits.{most_patterns};
ghost use Rattle.set.specs.Set.{SetAnswers};
ghost use Rattle.set.specs.File.{SetRoomAnswers, SetOpenAnswers, IsSetOpened};
ghost use Rattle.set.specs.inner.Calls.{SoundFile, RoomSummed, HasPattern, BodyAt, RoomAt, OpenReady, HasRoom, OpenedAt};
ghost use Rattle.set.specs.inner.Calls.{Judged, Ready, Done};

use refusal::Refusal;
use rules::{LAST_TICK, MOST_PATTERNS};

// The room of a set: the words of the states of a file's patterns.
pub fn room(file: &[u8]) -> Result<usize, Refusal>
    ensures { SetRoomAnswers file.now result }
{
    file::check_file(file)?;
    Ok(room_summed(file))
}

// Opens a state for each pattern of a file. Words beyond the room are never touched.
pub fn open(file: &[u8], states: &mut [u64]) -> Result<(), Refusal>
    ensures { SetOpenAnswers file.now states.old states.new result }
{
    file::check_file(file)?;
    let needed = room_summed(file);
    if states.len() < needed {
        return Err(Refusal::Room(needed));
    }
    open_all(file, states);
    Ok(())
}

// Takes a tick with its word of events in each of `count` states, and writes an answer for each: start + 1, or 0 for none.
// If any state is refused, none moves. States and answers are words, as C lends them.
pub fn tick(
    states: &mut [u64],
    count: u64,
    t: u64,
    events: u32,
    answers: &mut [u64],
) -> Result<(), Refusal>
    ensures { SetAnswers count states.old answers.old t events states.new answers.new result }
{
    if count < 1 || (MOST_PATTERNS as u64) < count {
        return Err(Refusal::Count);
    }
    let n = count as usize;
    if answers.len() < n {
        return Err(Refusal::Room(n));
    }
    if LAST_TICK < t {
        return Err(Refusal::Range(0));
    }
    let ends = judge(states, n, t)?;
    step_all(states, n, t, events, &ends, answers);
    Ok(())
}

// The words of the states of a sound file's patterns.
#[tactic(auto, using(crate::proofs::Opens::summing_more))]
fn room_summed(file: &[u8]) -> usize
    requires { SoundFile file.now }
    ensures { RoomSummed file.now result }
{
    let count = file::pattern_count(file);
    let mut words: usize = 0;
    for i in 0..count {
        words += room_at(file, i);
    }
    words
}

// The body of pattern number i.
fn body_of(file: &[u8], i: usize) -> &[u8]
    requires { HasPattern file.now i }
    ensures { BodyAt file.now i result.now }
{
    match file::body_at(file, i) {
        Some(place) => &file[place.from..place.from + place.long],
        None => &file[..0],
    }
}

// The words of the state of pattern number i.
#[tactic(auto, using(crate::proofs::Opens::room_at))]
fn room_at(file: &[u8], i: usize) -> usize
    requires { HasPattern file.now i }
    ensures { RoomAt file.now i result }
{
    watcher::room(body_of(file, i)).unwrap_or(0)
}

// Opens the states one after the other, each in its part of the slice.
#[tactic(auto, using(crate::proofs::Opens::filling_start, crate::proofs::Opens::filling_more))]
fn open_all(file: &[u8], states: &mut [u64])
    requires { OpenReady file.now states.old }
    ensures { IsSetOpened file.now states.old states.new }
{
    let count = file::pattern_count(file);
    let mut from: usize = 0;
    for i in 0..count {
        let to = from + room_at(file, i);
        open_at(file, i, &mut states[from..to]);
        from = to;
    }
}

// Opens the state of pattern number i. It is not refused, since the slice has its room.
#[tactic(auto, using(crate::proofs::Opens::opened_at))]
fn open_at(file: &[u8], i: usize, state: &mut [u64])
    requires { HasRoom file.now i state.old }
    ensures { OpenedAt file.now i state.new }
{
    let _opened = watcher::open(body_of(file, i), state);
}

// Judges each of n states once, and answers where they end: state k begins at place k, and the last one ends at place n.
#[tactic(auto, using(crate::proofs::Judges::judging_end, crate::proofs::Judges::judging_within, rules::proofs::Lists::drop_part))]
fn judge(states: &[u64], n: usize, t: u64) -> Result<[usize; MOST_PATTERNS + 1], Refusal>
    requires { n ≤ most_patterns }
    ensures { Judged n states.now t result }
{
    let mut ends = [0; MOST_PATTERNS + 1];
    // the lowest state that the tick is too early for
    let mut late = None;
    let mut at: usize = 0;
    for i in 0..n {
        let state = &states[at..];
        let Some(words) = watcher::extent(state) else {
            return Err(Refusal::State(i));
        };
        late = late.or((t < watcher::next_tick(state)).then_some(i));
        at += words;
        ends[i + 1] = at;
    }
    match late {
        Some(i) => Err(Refusal::Late(i)),
        None => Ok(ends),
    }
}

// Steps each of n states, a part of the slice, and writes its answer.
#[tactic(auto, using(crate::proofs::Steps::stepping_end))]
fn step_all(states: &mut [u64], n: usize, t: u64, events: u32, ends: &[usize], answers: &mut [u64])
    requires { Ready n states.old t ends.now answers.old }
    ensures { Done n states.old t events answers.old states.new answers.new }
{
    for k in 0..n {
        answers[k] = watcher::step(&mut states[ends[k]..ends[k + 1]], t, events);
    }
}

// Ticks taken many at once: their lines are read, the state is fed with them, and the windows are reported.
ghost use Rattle.std.specs.Prelude.{◌≡◌, true, [], ◌+◌, ◌≤◌, length};
ghost use Rattle.watching.specs.inner.Progress.{Progress, Ready};
ghost use Rattle.watching.specs.inner.Batch.{most_ticks, most_reported, FoundAt, MayEnd, Gathers};
ghost use Rattle.watching.specs.inner.Batch.{FarFromFull, ReportReady, IsReported, ReportAllReady, IsAllReported};

use super::{Chunked, Phase, Run, Taken};
use line::Tick;

// The number of lines read at once.
const MOST_TICKS: usize = 64;

// The bytes that they may write.
const MOST_REPORTED: usize = MOST_TICKS * line::MOST_WRITTEN;

// A tally with both numbers below this has room for the windows of all these lines.
const FAR: u64 = 0x8000_0000_0000_0000;

// A line that was found: its tick, and the place of its line feed.
#[derive(Clone, Copy)]
pub(crate) struct Found {
    pub tick: Tick,
    pub end: usize,
}

// Lines read: how many, and the place after them.
#[derive(Clone, Copy)]
pub(crate) struct Gathered {
    pub count: usize,
    pub used: usize,
}

// Takes lines of ticks from a place on, many at once, as long as there is room for all that they may write.
// A turn says how far it came, so there is no index to count.
pub(crate) fn take_batches(
    first: Chunked,
    input: &[u8],
    state: &mut [u64],
    out: &mut [u8],
) -> Chunked
    requires { Ready input.now out.old first }
    ensures { Progress first.run [] first.used first.written input.now state.old state.new
        out.old out.new result }
{
    let mut p = first;
    while p.used < input.len() {
        let later = take_batch(p, input, state, out);
        if later.used <= p.used {
            return later;
        }
        p = later;
    }
    p
}

// Takes the lines that are read at once; none if there may be no room for what they write, or the tally may be full after them.
fn take_batch(p: Chunked, input: &[u8], state: &mut [u64], out: &mut [u8]) -> Chunked
    requires { Ready input.now out.old p }
    ensures { Progress p.run [] p.used p.written input.now state.old state.new
        out.old out.new result }
{
    if out.len() - p.written < MOST_REPORTED {
        return p;
    }
    if far_from_full(p.run) {
        return feed_batch(p, input, state, out);
    }
    p
}

// Whether a run takes ticks, and its tally is far from full.
fn far_from_full(run: Run) -> bool
    ensures { result ≡ true → FarFromFull run }
{
    run.phase() == Phase::Running && run.tally.windows < FAR && run.tally.ticks < FAR
}

// Reads the lines, feeds the state with their ticks, and reports the windows; if feeding is refused, nothing is done.
fn feed_batch(p: Chunked, input: &[u8], state: &mut [u64], out: &mut [u8]) -> Chunked
    requires { Ready input.now out.old p × FarFromFull p.run × (p.written + most_reported ≤ length out.old) }
    ensures { Progress p.run [] p.used p.written input.now state.old state.new
        out.old out.new result }
{
    let mut ticks = [0u64; MOST_TICKS];
    let mut events = [0u32; MOST_TICKS];
    let mut answers = [0u64; MOST_TICKS];
    let lines = read_lines(input, p.used, &mut ticks, &mut events);
    let n = lines.count;
    match watcher::feed(state, &ticks[0..n], &events[0..n], &mut answers) {
        Err(_) => p,
        Ok(()) => {
            let at = p.written;
            let reported = report_all(p.run, &ticks[0..n], &answers, &mut out[at..]);
            Chunked {
                run: reported.run,
                held: 0,
                used: lines.used,
                written: at + reported.written,
            }
        }
    }
}

// Reads lines from a place on, as long as each is the line of a tick.
fn read_lines(input: &[u8], from: usize, ticks: &mut [u64], events: &mut [u32]) -> Gathered
    requires { (from ≤ length input.now) × (length ticks.old ≡ most_ticks) × (length events.old ≡ most_ticks) }
    ensures { Gathers input.now from ticks.new events.new result }
{
    let mut at = from;
    let mut shortest: usize = crate::MOST_HELD;
    for n in 0..MOST_TICKS {
        let Some(found) = find_line(input, at, shortest) else {
            return Gathered { count: n, used: at };
        };
        ticks[n] = found.tick.t;
        events[n] = found.tick.events;
        shortest = shortest.min(found.end - at);
        at = found.end + 1;
    }
    Gathered {
        count: MOST_TICKS,
        used: at,
    }
}

// The line from a place on. Its end is first looked for no earlier than the shortest line so far would end; if a tick is read up to there, that is it.
fn find_line(input: &[u8], at: usize, shortest: usize) -> Option<Found>
    requires { at ≤ length input.now }
    ensures { FoundAt input.now at result }
{
    if shortest < input.len() - at {
        let end = crate::pieces::line_end(input, at + shortest);
        let found = line_to(input, at, end);
        if found.is_some() {
            return found;
        }
    }
    let end = crate::pieces::line_end(input, at);
    line_to(input, at, end)
}

// The line from a place to a line feed.
fn line_to(input: &[u8], from: usize, end: usize) -> Option<Found>
    requires { MayEnd input.now from end }
    ensures { FoundAt input.now from result }
{
    if end == input.len() {
        return None;
    }
    match line::read_tick(&input[from..end]) {
        Err(_) => None,
        Ok(tick) => Some(Found { tick, end }),
    }
}

// Reports ticks by their answers, one after the other.
fn report_all(run: Run, ticks: &[u64], answers: &[u64], out: &mut [u8]) -> Taken
    requires { ReportAllReady run ticks.now answers.now out.old }
    ensures { IsAllReported run ticks.now answers.now out.old out.new result }
{
    let mut later = run;
    let mut written: usize = 0;
    for i in 0..ticks.len() {
        let reported = report(later, ticks[i], answers[i], &mut out[written..]);
        later = reported.run;
        written += reported.written;
    }
    Taken {
        run: later,
        written,
    }
}

// Reports a tick by its answer: 0, or start + 1 of the window that ends there.
fn report(run: Run, t: u64, answer: u64, out: &mut [u8]) -> Taken
    requires { ReportReady run t answer out.old }
    ensures { IsReported run t answer out.old out.new result }
{
    if answer == 0 {
        return Taken {
            run: crate::next_run(run),
            written: 0,
        };
    }
    crate::take_window(run, answer - 1, t, out)
}

// A run of the watch program: what each line of its input does, and what is written for it.
#![tactic(auto)]

mod batch;
mod pieces;

ghost use Rattle.std.specs.Prelude.{Ok, Err, Some, ◌≡◌, ◌≤◌, length};
ghost use Rattle.line.specs.Lines.{most_written, most_tally};
ghost use Rattle.line.specs.Answer.{IsWritten};
ghost use Rattle.watching.specs.Runs.{IsPhase, fresh, next_run, finish_line};
ghost use Rattle.watching.specs.Answer.{FirstLine, FurtherLine, IsTaken, IsActed};
ghost use Rattle.watching.specs.Chunk.{ChunkAnswers, FinishAnswers};

use line::{MOST_TALLY, MOST_WRITTEN};
use refusal::Refusal;
use rules::MOST_BODY;
use tally::Tally;

// A line with this many bytes is too long, whatever follows: no more of it is held.
pub(crate) const MOST_HELD: usize = 1025;

// The bytes that finishing may write: a line's, and the tally's.
const MOST_FINISH: usize = MOST_WRITTEN + MOST_TALLY;

// How far a run is: before line 1, running, or ended by a refusal.
#[derive(Clone, Copy, Debug, PartialEq, Eq)]
pub enum Phase {
    Fresh,
    Running,
    Ended,
}

// A run: how far it is, the lines taken, and the tally. The phase is a number, 0 before line 1, 1 running, any other ended, since the theorems
// OneChunk and OneEnd, and so `take_chunk` and `finish`, speak of runs with any.
#[derive(Clone, Copy, Debug, PartialEq, Eq)]
pub struct Run {
    pub phase: u64,
    pub line: u64,
    pub tally: Tally,
}

// What a line answers: nothing to report, a window by its start and end, or why the line is refused.
type LineAnswer = Result<Option<(u64, u64)>, Refusal>;

// The run after a line, and the bytes written for it.
#[derive(Clone, Copy)]
pub(crate) struct Taken {
    pub run: Run,
    pub written: usize,
}

// A chunk of input taken: the run after it, the bytes held of a line that has not ended, the bytes of the chunk used, and those written.
#[derive(Clone, Copy, Debug, PartialEq, Eq)]
pub struct Chunked {
    pub run: Run,
    pub held: usize,
    pub used: usize,
    pub written: usize,
}

impl Run {
    // How far the run is.
    pub fn phase(self) -> Phase
        ensures { IsPhase self.phase result }
    {
        match self.phase {
            0 => Phase::Fresh,
            1 => Phase::Running,
            _ => Phase::Ended,
        }
    }
}

// A run before line 1.
pub fn start() -> Run
    ensures { result ≡ fresh }
{
    Run {
        phase: 0,
        line: 0,
        tally: Tally {
            windows: 0,
            ticks: 0,
        },
    }
}

// Takes a chunk of input: every line that ends in it, after the bytes held of the line before. What is left of the last line is held.
// `held` and `part` come one by one, since `InputPrints` and `OneChunk` speak of each.
pub fn take_chunk(
    run: Run,
    held: usize,
    chunk: &[u8],
    part: &mut [u8],
    state: &mut [u64],
    out: &mut [u8],
) -> Result<Chunked, Refusal>
    ensures { ChunkAnswers run held chunk.now part.old part.new state.old state.new
        out.old out.new result }
{
    if part.len() < MOST_HELD {
        return Err(Refusal::Room(MOST_HELD));
    }
    Ok(pieces::take(run, held, chunk, part, state, out))
}

// Ends the input: takes the last line, if no line feed ended it, and writes the tally of a run that no refusal ended. Answers the bytes written.
pub fn finish(
    run: Run,
    held: usize,
    part: &[u8],
    state: &mut [u64],
    out: &mut [u8],
) -> Result<usize, Refusal>
    ensures { FinishAnswers run held part.now state.old state.new out.old out.new result }
{
    if out.len() < MOST_FINISH {
        return Err(Refusal::Room(MOST_FINISH));
    }
    let last = pieces::take_last(run, held, part, state, &mut out[0..MOST_WRITTEN]);
    let from = last.written;
    Ok(from + finish_line(last.run, &mut out[from..]))
}

// Takes the next line: line 1 opens the state, a further one is a tick. What there is to report is written to `out`; after a refusal that is nothing.
pub(crate) fn take_line(run: Run, line: &[u8], state: &mut [u64], out: &mut [u8]) -> Taken
    requires { most_written ≤ length out.old }
    ensures { IsTaken run line.now state.old state.new out.old out.new result }
{
    match run.phase() {
        Phase::Fresh => act(run, open_line(line, state), out),
        Phase::Running => act(run, tick_line(line, state), out),
        Phase::Ended => Taken { run, written: 0 },
    }
}

// Writes the tally of a run that no refusal ended.
fn finish_line(run: Run, out: &mut [u8]) -> usize
    requires { most_tally ≤ length out.old }
    ensures { IsWritten (finish_line run) out.old out.new result }
{
    match run.phase() {
        Phase::Running => line::write_tally(run.tally.windows, run.tally.ticks, out).unwrap_or(0),
        Phase::Fresh | Phase::Ended => 0,
    }
}

// Reads line 1 as a pattern, and opens the state for it.
fn open_line(line: &[u8], state: &mut [u64]) -> LineAnswer
    ensures { FirstLine line.now state.old state.new result }
{
    let mut body = [0u8; MOST_BODY];
    let bytes = text::read_pattern(line, &mut body)?;
    watcher::open(&body[0..bytes], state)?;
    Ok(None)
}

// Reads a further line as a tick, and moves the state by it.
fn tick_line(line: &[u8], state: &mut [u64]) -> LineAnswer
    ensures { FurtherLine line.now state.old state.new result }
{
    let tick = line::read_tick(line)?;
    match watcher::tick(state, tick.t, tick.events)? {
        Some(start) => Ok(Some((start, tick.t))),
        None => Ok(None),
    }
}

// Acts on an answer: the run after it, and what is written.
fn act(run: Run, answer: LineAnswer, out: &mut [u8]) -> Taken
    requires { most_written ≤ length out.old }
    ensures { IsActed run answer out.old out.new result }
{
    match answer {
        Err(r) => refused(run, r, out),
        Ok(window) => match window {
            None => Taken {
                run: next_run(run),
                written: 0,
            },
            Some((start, end)) => take_window(run, start, end, out),
        },
    }
}

// Adds a window to the tally, and writes its line.
pub(crate) fn take_window(run: Run, start: u64, end: u64, out: &mut [u8]) -> Taken
    requires { most_written ≤ length out.old }
    ensures { IsActed run (Ok (Some (start, end))) out.old out.new result }
{
    match tally::added(run.tally, start, end) {
        Err(r) => refused(run, r, out),
        Ok(more) => Taken {
            run: Run {
                phase: 1,
                line: run.line.saturating_add(1),
                tally: more,
            },
            written: line::write_window(start, end, out).unwrap_or(0),
        },
    }
}

// Writes a refusal, which ends the run.
fn refused(run: Run, r: Refusal, out: &mut [u8]) -> Taken
    requires { most_written ≤ length out.old }
    ensures { IsActed run (Err r) out.old out.new result }
{
    let line = run.line.saturating_add(1);
    Taken {
        run: Run {
            phase: 2,
            line,
            tally: run.tally,
        },
        written: line::write_refused(line, r.number(), out).unwrap_or(0),
    }
}

// The run after a line that leaves the tally as it is.
pub(crate) fn next_run(run: Run) -> Run
    ensures { result ≡ next_run run run.tally }
{
    Run {
        phase: 1,
        line: run.line.saturating_add(1),
        tally: run.tally,
    }
}

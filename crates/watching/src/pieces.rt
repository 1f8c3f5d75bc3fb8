// Input in pieces: where a line ends, the bytes held of it, and the lines that end in a chunk.
ghost use Rattle.std.specs.Prelude.{◌≡◌, ◌==◌, position, [], ◌+◌, ◌-◌, ◌≤◌, ◌<◌, length, take, drop};
ghost use Rattle.line.specs.Lines.{most_written};
ghost use Rattle.watching.specs.Chunk.{most_held, IsChunked};
ghost use Rattle.watching.specs.inner.Progress.{line_length, Appended, Progress, Ready, LineReady, LinesTaken, JoinReady, HeldRest, LastTaken};

use super::{Chunked, Phase, Run, Taken};

// Takes a chunk, where `part` has room for a line.
pub(crate) fn take(
    run: Run,
    held: usize,
    chunk: &[u8],
    part: &mut [u8],
    state: &mut [u64],
    out: &mut [u8],
) -> Chunked
    requires { most_held ≤ length part.old }
    ensures { IsChunked run held chunk.now part.old part.new state.old state.new
        out.old out.new result }
{
    let kept = held.min(crate::MOST_HELD);
    if out.len() < line::MOST_WRITTEN {
        return Chunked {
            run,
            held: kept,
            used: 0,
            written: 0,
        };
    }
    let end = line_end(chunk, 0);
    if end == chunk.len() {
        return Chunked {
            run,
            held: append(part, kept, chunk),
            used: end,
            written: 0,
        };
    }
    let first = take_joined(run, kept, chunk, end, part, state, out);
    let lines = take_lines(first, chunk, state, out);
    if out.len() - lines.written < line::MOST_WRITTEN {
        return lines;
    }
    hold_rest(lines, chunk, part)
}

// Takes the last line, if any of it is held; and line 1, if there was none.
pub(crate) fn take_last(
    run: Run,
    held: usize,
    part: &[u8],
    state: &mut [u64],
    out: &mut [u8],
) -> Taken
    requires { most_written ≤ length out.old }
    ensures { LastTaken run held part.now state.old state.new out.old out.new result }
{
    let kept = held.min(crate::MOST_HELD).min(part.len());
    if kept == 0 && run.phase() != Phase::Fresh {
        return Taken { run, written: 0 };
    }
    crate::take_line(run, &part[0..kept], state, out)
}

// Takes the line that a line feed at `end` ends, after the bytes held of it.
fn take_joined(
    run: Run,
    held: usize,
    chunk: &[u8],
    end: usize,
    part: &[u8],
    state: &mut [u64],
    out: &mut [u8],
) -> Chunked
    requires { JoinReady held chunk.now end part.now out.old }
    ensures { Progress run (take held part.now) 0 0 chunk.now state.old state.new
        out.old out.new result }
{
    let mut line = [0u8; crate::MOST_HELD];
    let from = append(&mut line, 0, &part[0..held]);
    let bytes = append(&mut line, from, &chunk[0..end]);
    let taken = crate::take_line(run, &line[0..bytes], state, out);
    Chunked {
        run: taken.run,
        held: 0,
        used: end + 1,
        written: taken.written,
    }
}

// Takes the lines that end in the input from a place on, as long as there is room for what a line may write: ticks many at once, the rest one by one.
fn take_lines(first: Chunked, input: &[u8], state: &mut [u64], out: &mut [u8]) -> Chunked
    requires { Ready input.now out.old first }
    ensures { LinesTaken input.now state.old state.new out.old out.new first result }
{
    let many = crate::batch::take_batches(first, input, state, out);
    take_each(many, input, state, out)
}

// The same, one by one. A turn says how far it came, so there is no index to count.
fn take_each(first: Chunked, input: &[u8], state: &mut [u64], out: &mut [u8]) -> Chunked
    requires { Ready input.now out.old first }
    ensures { LinesTaken input.now state.old state.new out.old out.new first result }
{
    let mut p = first;
    while line::MOST_WRITTEN <= out.len() - p.written {
        let end = line_end(input, p.used);
        if end == input.len() {
            return p;
        }
        p = take_next(p, input, end, state, out);
    }
    p
}

// Takes the line that a line feed at `end` ends, and writes after what is written.
fn take_next(p: Chunked, input: &[u8], end: usize, state: &mut [u64], out: &mut [u8]) -> Chunked
    requires { LineReady input.now out.old end p }
    ensures { Progress p.run [] p.used p.written input.now state.old state.new
        out.old out.new result × (result.used ≡ end + 1) }
{
    let from = p.used;
    let at = p.written;
    let to = from + (end - from).min(crate::MOST_HELD);
    let taken = crate::take_line(p.run, &input[from..to], state, &mut out[at..]);
    Chunked {
        run: taken.run,
        held: 0,
        used: end + 1,
        written: at + taken.written,
    }
}

// Holds what is left of a chunk in which no more line ends.
fn hold_rest(lines: Chunked, chunk: &[u8], part: &mut [u8]) -> Chunked
    requires { (lines.used ≤ length chunk.now) × (most_held ≤ length part.old) }
    ensures { HeldRest chunk.now part.old part.new lines result }
{
    Chunked {
        run: lines.run,
        held: append(part, 0, &chunk[lines.used..]),
        used: chunk.len(),
        written: lines.written,
    }
}

// Copies as much of a piece behind the first bytes as is held of a line, and answers how many bytes there are then.
fn append(part: &mut [u8], from: usize, piece: &[u8]) -> usize
    requires { (from ≤ most_held) × (most_held ≤ length part.old) }
    ensures { Appended part.old from piece.now part.new result }
{
    let n = piece.len().min(crate::MOST_HELD - from);
    copying::copy(&piece[0..n], &mut part[from..]);
    from + n
}

// Where the line that begins at a place ends: at a line feed, or at the end of the input.
pub(crate) fn line_end(input: &[u8], from: usize) -> usize
    requires { from ≤ length input.now }
    ensures { (result ≡ from + line_length (drop from input.now)) × (result ≤ length input.now) }
{
    let rest = &input[from..];
    from + line_feed(rest).unwrap_or(rest.len())
}

// The place of the first line feed.
fn line_feed(input: &[u8]) -> Option<usize>
    ensures { result ≡ position (λ c. c == 10) input.now }
{
    input.iter().position(|byte| *byte == b'\n')
}

// The watch program: a pattern and ticks on standard input; a line for each window, and then the tally, on standard output.
// A read or a write that fails ends it at once, and a line on standard error says so.
#![tactic(auto)]

ghost use Rattle.std.specs.Prelude.{None, IsFalse, ◌≤◌, ◌<◌, ◌≡◌, length};
ghost use Rattle.watch.specs.Watch.{write_fault, Enough, SomeTaken, ChunkTaken, ReadTaken, InputTaken, InputEnded};

use std::io::Read;
use std::{fmt, io};
use watching::{Chunked, Phase};

// What failed, and why.
#[derive(Clone, Copy)]
enum Fault {
    Read(io::Error),
    Write(io::Error),
}

impl fmt::Display for Fault {
    fn fmt<W: fmt::Write>(&self, f: &mut fmt::Formatter<W>) -> fmt::Result {
        match self {
            Fault::Read(why) => write!(f, "read: {why}"),
            Fault::Write(why) => write!(f, "write: {why}"),
        }
    }
}

// The run, the bytes held of a line that has not ended yet, the bytes used of the input last taken and those handed to the writer for it; and
// what failed. It is no `Result`: after a fault the run and what was handed over still count.
#[derive(Clone, Copy)]
struct Progress {
    taken: Chunked,
    fault: Option<Fault>,
}

// The bytes handed to the writer; and whether it failed.
#[derive(Clone, Copy)]
struct Wrote {
    bytes: usize,
    fault: Option<Fault>,
}

// The words of the state, enough for any pattern; the bytes held of a line; and the bytes read and written at once.
const STATE_WORDS: usize = 4096;

const HELD_BYTES: usize = 1025;

const BUFFER_BYTES: usize = 65536;

// The arrays of a run: its state, the bytes held of a line that has not ended, and its output.
#[derive(Drop)]
struct Arrays {
    state: [u64; STATE_WORDS],
    part: [u8; HELD_BYTES],
    out: [u8; BUFFER_BYTES],
}

fn main(rt: HostRuntime) {
    let mut arrays = Arrays {
        state: [0; STATE_WORDS],
        part: [0; HELD_BYTES],
        out: [0; BUFFER_BYTES],
    };
    let mut chunk = [0u8; BUFFER_BYTES];
    if let Err(fault) = watch(rt, &mut arrays, &mut chunk) {
        // If this fails too, there is nowhere left to say so.
        let _ = eprintln!(rt; "{fault}");
    }
}

// Watches the whole input, unless something fails.
fn watch(rt: HostRuntime, arrays: &mut Arrays, chunk: &mut [u8]) -> Result<(), Fault>
    requires { Enough arrays.old.state arrays.old.part arrays.old.out }
{
    let p = take_all(rt, arrays, chunk);
    match p.fault {
        Some(fault) => Err(fault),
        None => match finish(rt, p, arrays).fault {
            Some(fault) => Err(fault),
            None => Ok(()),
        },
    }
}

// Takes the input to its end, to a refusal, or to a fault. A proved loop has to end, so it counts its turns, up to a number that no run reaches.
fn take_all(rt: HostRuntime, arrays: &mut Arrays, chunk: &mut [u8]) -> Progress
    ensures { InputTaken arrays.old.part arrays.new.part arrays.old.state arrays.new.state result }
{
    let mut p = Progress {
        taken: Chunked {
            run: watching::start(),
            held: 0,
            used: 0,
            written: 0,
        },
        fault: None,
    };
    'reads: for _ in 0..u64::MAX {
        let got = rt.stdin().read(chunk);
        p = take_read(rt, p, got, chunk, arrays);
        if is_over(got, p) {
            return p;
        }
    }
    p
}

// Whether nothing more is to be read: at the end of the input, and after a refusal or a fault.
fn is_over(got: io::Result<usize>, p: Progress) -> bool
    ensures { IsFalse result → p.fault ≡ None }
{
    matches!(got, Ok(0)) || p.taken.run.phase() == Phase::Ended || p.fault.is_some()
}

// Takes what a read put in the buffer, by what it answered.
fn take_read(
    rt: HostRuntime,
    p: Progress,
    got: io::Result<usize>,
    buffer: &[u8],
    arrays: &mut Arrays,
) -> Progress
    requires { p.fault ≡ None }
    ensures { ReadTaken p got buffer.now arrays.old.part arrays.new.part arrays.old.state arrays.new.state result }
{
    match got {
        Err(why) => Progress {
            taken: p.taken,
            fault: Some(Fault::Read(why)),
        },
        Ok(n) => take_chunk(rt, p, &buffer[0..n.min(buffer.len())], arrays),
    }
}

// Takes all of a chunk, unless a write fails. A turn says how far it came, so there is no index to count.
fn take_chunk(rt: HostRuntime, first: Progress, chunk: &[u8], arrays: &mut Arrays) -> Progress
    requires { first.fault ≡ None }
    ensures { ChunkTaken first chunk.now arrays.old.part arrays.new.part arrays.old.state arrays.new.state result }
{
    let mut p = first;
    let mut at: usize = 0;
    while at < chunk.len() {
        if p.fault.is_some() {
            return p;
        }
        p = take_some(rt, p, &chunk[at..], arrays);
        at += p.taken.used;
    }
    p
}

// Takes as much of the input as there is room for its output, and writes that. Nothing is refused, since the arrays are long enough.
fn take_some(rt: HostRuntime, p: Progress, input: &[u8], arrays: &mut Arrays) -> Progress
    requires { p.fault ≡ None }
    ensures taken { SomeTaken p input.now arrays.old.part arrays.new.part arrays.old.state arrays.new.state
        arrays.old.out arrays.new.out result }
    ensures some { 0 < length input.now → 0 < result.taken.used }
{
    let Arrays { state, part, out } = arrays;
    match watching::take_chunk(p.taken.run, p.taken.held, input, part, state, out) {
        Ok(c) => {
            let wrote = write_first(rt, p, out, c.written);
            Progress {
                taken: Chunked {
                    run: c.run,
                    held: c.held,
                    used: c.used,
                    written: wrote.bytes,
                },
                fault: wrote.fault,
            }
        }
        Err(_) => p,
    }
}

// Ends the input, and writes what is left to report. Nothing is refused, since there is enough room.
fn finish(rt: HostRuntime, p: Progress, arrays: &mut Arrays) -> Wrote
    requires { p.fault ≡ None }
    ensures { InputEnded p arrays.old.part arrays.old.state arrays.new.state arrays.old.out arrays.new.out result }
{
    let Arrays { state, part, out } = arrays;
    match watching::finish(p.taken.run, p.taken.held, part, state, out) {
        Ok(n) => write_first(rt, p, out, n),
        Err(_) => Wrote {
            bytes: 0,
            fault: None,
        },
    }
}

// Hands the first bytes to the writer, standard output, which has no buffer. After a fault nothing may be written.
fn write_first(rt: HostRuntime, p: Progress, out: &[u8], n: usize) -> Wrote
    requires { (p.fault ≡ None) × (n ≤ length out.now) }
    ensures { result.bytes ≡ n }
{
    outcome(rt.write_all(&out[0..n]), n)
}

// What the writer's answer to n bytes means.
fn outcome(answer: io::Result<()>, n: usize) -> Wrote
    ensures { result ≡ record { bytes = n; fault = write_fault answer } }
{
    Wrote {
        bytes: n,
        fault: answer.err().map(Fault::Write),
    }
}

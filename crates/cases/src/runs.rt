// The watch program's lines at the edges: what is written for each.
use crate::show;
use std::io;
use watching::{Chunked, Run};

pub(crate) fn run(rt: HostRuntime) -> io::Result<()> {
    one(rt, b"watch, empty line 1: ", b"")?;
    one(rt, b"watch, pattern alone: ", b"(S;P)")?;
    one(rt, b"watch, pattern cut short: ", b"(S;P")?;
    two(rt, b"watch, empty line: ", b"")?;
    two(rt, b"watch, no space: ", b"5")?;
    two(rt, b"watch, no letter: ", b"5 ")?;
    two(rt, b"watch, letters in order: ", b"5 PS")?;
    two(rt, b"watch, letters out of order: ", b"5 SP")?;
    two(rt, b"watch, a letter twice: ", b"5 SS")?;
    two(rt, b"watch, a letter that is none: ", b"5 Sg")?;
    two(rt, b"watch, two spaces: ", b"5  S")?;
    two(rt, b"watch, tick 0: ", b"0 S")?;
    two(rt, b"watch, a leading zero: ", b"05 S")?;
    two(rt, b"watch, the last tick: ", b"4294967295 S")?;
    two(rt, b"watch, a tick too far: ", b"4294967296 S")?;
    two(
        rt,
        b"watch, 30 digits: ",
        b"123456789012345678901234567890 S",
    )?;
    two(
        rt,
        b"watch, 2 to the power of 64: ",
        b"18446744073709551616 S",
    )?;
    two(
        rt,
        b"watch, 30 digits and no letter: ",
        b"123456789012345678901234567890 ",
    )?;
    long(rt)?;
    late(rt)
}

// A line of 1,024 bytes is read, and its tick is too far; one of 1,025 is malformed.
fn long(rt: HostRuntime) -> io::Result<()> {
    let mut most = [49u8; 1024];
    most[1022] = b' ';
    most[1023] = b'S';
    two(rt, b"watch, 1,024 bytes: ", &most)?;
    let mut more = [49u8; 1025];
    more[1023] = b' ';
    more[1024] = b'S';
    two(rt, b"watch, 1,025 bytes: ", &more)
}

// A tick equal to the last, and what follows a refusal.
fn late(rt: HostRuntime) -> io::Result<()> {
    let mut state = [0u64; 64];
    rt.write_all(b"watch, a late tick: ")?;
    let first = taken(rt, watching::start(), b"(S;P)", &mut state)?;
    let second = taken(rt, first, b"5 S", &mut state)?;
    let third = taken(rt, second, b"6 P", &mut state)?;
    let fourth = taken(rt, third, b"6 P", &mut state)?;
    let fifth = taken(rt, fourth, b"7 P", &mut state)?;
    finished(rt, fifth, &mut state)
}

fn one(rt: HostRuntime, name: &[u8], first: &[u8]) -> io::Result<()> {
    let mut state = [0u64; 64];
    rt.write_all(name)?;
    let begun = taken(rt, watching::start(), first, &mut state)?;
    finished(rt, begun, &mut state)
}

fn two(rt: HostRuntime, name: &[u8], second: &[u8]) -> io::Result<()> {
    let mut state = [0u64; 64];
    rt.write_all(name)?;
    let begun = taken(rt, watching::start(), b"S", &mut state)?;
    let stepped = taken(rt, begun, second, &mut state)?;
    finished(rt, stepped, &mut state)
}

// Takes a line, held first and then ended by a chunk of its own.
fn taken(rt: HostRuntime, run: Run, line: &[u8], state: &mut [u64]) -> io::Result<Run> {
    let mut part = [0u8; 1025];
    let begun = chunked(rt, run, 0, line, &mut part, state)?;
    let later = begun.run;
    let ended = chunked(rt, later, begun.held, b"\n", &mut part, state)?;
    Ok(ended.run)
}

// Takes a chunk, and writes what is to be said.
fn chunked(
    rt: HostRuntime,
    run: Run,
    held: usize,
    chunk: &[u8],
    part: &mut [u8],
    state: &mut [u64],
) -> io::Result<Chunked> {
    let mut out = [0u8; 60];
    match watching::take_chunk(run, held, chunk, part, state, &mut out) {
        Ok(c) => {
            show::first(rt, &out, c.written)?;
            Ok(c)
        }
        Err(_) => Ok(Chunked {
            run,
            held: 0,
            used: 0,
            written: 0,
        }),
    }
}

// Writes the tally, if no refusal ended the run.
fn finished(rt: HostRuntime, run: Run, state: &mut [u64]) -> io::Result<()> {
    let mut out = [0u8; 120];
    match watching::finish(run, 0, b"", state, &mut out) {
        Ok(n) => show::first(rt, &out, n),
        Err(_) => Ok(()),
    }
}

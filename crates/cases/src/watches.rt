// The watcher at the edges: the last tick, late ticks, and a state damaged in each of its kinds of word.
use crate::{show, texts};
use std::io;

pub(crate) fn run(rt: HostRuntime) -> io::Result<()> {
    room_of(rt, b"room: (A;(B;C))", b"(A;(B;C))")?;
    room_of(rt, b"room: A", b"A")?;
    room_of(rt, b"room: ((A+B)-C)", b"((A+B)-C)")?;
    ticks(rt)?;
    damaged(rt)
}

fn room_of(rt: HostRuntime, name: &[u8], pattern: &[u8]) -> io::Result<()> {
    let mut body = [0u8; 315];
    match texts::body_of(pattern, &mut body) {
        Some(body) => show::answer(rt, name, watcher::room(body)),
        None => Ok(()),
    }
}

// Tick 4,294,967,295 passes, 4,294,967,296 is Range, 5 after 5 is Late; a slice one word too short is Room.
fn ticks(rt: HostRuntime) -> io::Result<()> {
    let mut state = [0u64; 13];
    open(rt, b"open", b"(A;(B;C))", &mut state)?;
    tick(rt, b"tick: 5", &mut state, 5, 1)?;
    tick(rt, b"tick: 5 after 5", &mut state, 5, 1)?;
    tick(rt, b"tick: 4294967296", &mut state, 4294967296, 4)?;
    tick(rt, b"tick: 4294967294", &mut state, 4294967294, 2)?;
    tick(rt, b"tick: 4294967295", &mut state, 4294967295, 4)?;
    tick(rt, b"tick: 4294967295 again", &mut state, 4294967295, 4)?;
    let mut short = [0u64; 12];
    open(rt, b"open: one word too short", b"(A;(B;C))", &mut short)
}

// One word of `((A+B)-(C;(D;E)))` is damaged after three ticks, and refuses the next; mended, the state takes it as if nothing had been.
fn damaged(rt: HostRuntime) -> io::Result<()> {
    damage(rt, b"state: no entries", 0, 0, 9)?;
    damage(rt, b"state: 64 entries", 0, 64, 9)?;
    damage(rt, b"state: next tick over", 1, 4294967297, 3)?;
    damage(rt, b"state: an op that there is not", 2, 6, 0)?;
    damage(rt, b"state: an argument on an operator", 4, 258, 2)?;
    damage(rt, b"state: left without an end", 12, 0, 3)?;
    damage(rt, b"state: left ends past the next tick", 12, 99, 3)?;
    damage(rt, b"state: latest without a start", 15, 0, 2)?;
    damage(rt, b"state: a kept pair without a start", 19, 0, 1)?;
    damage(rt, b"state: the word of - past the next tick", 21, 99, 0)
}

fn damage(rt: HostRuntime, name: &[u8], at: usize, word: u64, good: u64) -> io::Result<()> {
    let mut state = [0u64; 22];
    ready(&mut state);
    show::store(&mut state, at, word);
    tick(rt, name, &mut state, 3, 3)?;
    show::store(&mut state, at, good);
    tick(rt, b"mended", &mut state, 3, 3)
}

// Opened, and ticked three times.
fn ready(state: &mut [u64]) {
    open_first(state);
    for (t, word) in [(0, 7), (1, 8), (2, 3)] {
        let _ = watcher::tick(state, t, word);
    }
}

fn open_first(state: &mut [u64]) {
    let mut body = [0u8; 315];
    if let Some(body) = texts::body_of(b"((A+B)-(C;(D;E)))", &mut body) {
        let _ = watcher::open(body, state);
    }
}

fn open(rt: HostRuntime, name: &[u8], pattern: &[u8], state: &mut [u64]) -> io::Result<()> {
    let mut body = [0u8; 315];
    match texts::body_of(pattern, &mut body) {
        Some(body) => show::done(rt, name, watcher::open(body, state)),
        None => Ok(()),
    }
}

// Prints a window's start + 1 as the second number, 0 for none.
fn tick(rt: HostRuntime, name: &[u8], state: &mut [u64], t: u64, events: u32) -> io::Result<()> {
    match watcher::tick(state, t, events) {
        Ok(window) => show::line(rt, name, 0, window.map_or(0, |s| s % (1 << 32) + 1), 0),
        Err(r) => show::refused(rt, name, r),
    }
}

// Sets at the edges: 16 patterns, each `(A;B)`, in one slice of 112 words.
use crate::show;
use std::io;

pub(crate) fn run(rt: HostRuntime) -> io::Result<()> {
    let mut file = [0u8; 433];
    make(rt, &mut file)?;
    whole(rt, &file)?;
    short(rt, &file)?;
    faults(rt, &file)
}

// Writes the file of 16 patterns.
fn make(rt: HostRuntime, file: &mut [u8]) -> io::Result<()> {
    let names =
        b"P00     P01     P02     P03     P04     P05     P06     P07     P08     P09     P10     P11     P12     P13     P14     P15     ";
    let counts = [3u8; 16];
    let mut bodies = [0u8; 240];
    fill(&mut bodies);
    show::answer(
        rt,
        b"set: file",
        file::write_file(names, &counts, &bodies, file),
    )
}

// Fills a slice with the bodies of `(A;B)`, end to end.
fn fill(bodies: &mut [u8]) {
    for (at, b) in bodies.iter_mut().enumerate() {
        *b = body_byte(at % 15);
    }
}

// The body of `(A;B)` byte by byte: op 0 of type 0, op 0 of type 1, op 4.
fn body_byte(at: usize) -> u8 {
    if at == 6 {
        1
    } else if at == 10 {
        4
    } else {
        0
    }
}

// Opened, ticked twice, and numbers of states that there are not.
fn whole(rt: HostRuntime, file: &[u8]) -> io::Result<()> {
    show_room(rt, file)?;
    let mut states = [0u64; 112];
    open(rt, b"set: open", file, &mut states)?;
    let mut answers = [9u64; 17];
    tick(rt, b"set: 5 A", &mut states, 16, 5, 1, &mut answers)?;
    tick(rt, b"set: 6 B", &mut states, 16, 6, 2, &mut answers)?;
    tick(rt, b"set: none", &mut states, 0, 7, 2, &mut answers)?;
    tick(rt, b"set: 17 states", &mut states, 17, 7, 2, &mut answers)?;
    tick(
        rt,
        b"set: over",
        &mut states,
        16,
        4294967296,
        2,
        &mut answers,
    )?;
    tick(rt, b"set: late", &mut states, 16, 6, 2, &mut answers)?;
    let mut few = [9u64; 15];
    tick(
        rt,
        b"set: answers one too short",
        &mut states,
        16,
        7,
        2,
        &mut few,
    )
}

// A slice one word too short, to open in and to tick.
fn short(rt: HostRuntime, file: &[u8]) -> io::Result<()> {
    let mut states = [0u64; 111];
    open(rt, b"set: open, one word too short", file, &mut states)?;
    let mut whole = [0u64; 112];
    open(rt, b"set: open", file, &mut whole)?;
    let mut answers = [9u64; 16];
    tick_first(
        rt,
        b"set: one word too short",
        &mut whole,
        111,
        &mut answers,
    )
}

fn tick_first(
    rt: HostRuntime,
    name: &[u8],
    states: &mut [u64],
    words: usize,
    answers: &mut [u64],
) -> io::Result<()> {
    match states.get_mut(0..words) {
        Some(part) => tick(rt, name, part, 16, 5, 1, answers),
        None => Ok(()),
    }
}

// A state broken, or ahead of the others, at index 0, 7 and 15.
fn faults(rt: HostRuntime, file: &[u8]) -> io::Result<()> {
    fault(rt, b"set: state 0 broken", file, 0, 0)?;
    fault(rt, b"set: state 7 broken", file, 49, 0)?;
    fault(rt, b"set: state 15 broken", file, 105, 0)?;
    fault(rt, b"set: state 0 late", file, 1, 100)?;
    fault(rt, b"set: state 7 late", file, 50, 100)?;
    fault(rt, b"set: state 15 late", file, 106, 100)
}

fn fault(rt: HostRuntime, name: &[u8], file: &[u8], at: usize, word: u64) -> io::Result<()> {
    let mut states = [0u64; 112];
    let _ = set::open(file, &mut states);
    show::store(&mut states, at, word);
    let mut answers = [9u64; 16];
    tick(rt, name, &mut states, 16, 5, 1, &mut answers)
}

fn show_room(rt: HostRuntime, file: &[u8]) -> io::Result<()> {
    show::answer(rt, b"set: room", set::room(file))
}

fn open(rt: HostRuntime, name: &[u8], file: &[u8], states: &mut [u64]) -> io::Result<()> {
    show::done(rt, name, set::open(file, states))
}

// Prints the first and the last answer of an accepted tick.
fn tick(
    rt: HostRuntime,
    name: &[u8],
    states: &mut [u64],
    count: u64,
    t: u64,
    events: u32,
    answers: &mut [u64],
) -> io::Result<()> {
    match set::tick(states, count, t, events, answers) {
        Ok(()) => show::line(rt, name, 0, word(answers, 0), word(answers, 15)),
        Err(r) => show::refused(rt, name, r),
    }
}

fn word(answers: &[u64], at: usize) -> u64 {
    answers.get(at).copied().unwrap_or(0)
}

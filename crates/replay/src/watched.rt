// What the watcher says at each tick of a record.
use crate::fields;
use std::io;

pub(crate) fn watch(rt: HostRuntime, body: &[u8], ticks: &[u8]) -> io::Result<()> {
    let mut state = [0u64; 4096];
    if watcher::open(body, &mut state).is_ok() {
        answers(rt, &mut state, ticks)?;
    }
    fields::end_line(rt)
}

// The answer at each `tick:events` of a line. A turn takes two fields, so there is no index to count.
fn answers(rt: HostRuntime, state: &mut [u64], ticks: &[u8]) -> io::Result<()> {
    let mut rest = ticks;
    while !rest.is_empty() {
        let first = rest.len() == ticks.len();
        let (t, after) = fields::field(rest);
        rest = after;
        if !after.is_empty() {
            let (word, more) = fields::field(after);
            fields::print(rt, answer(state, t, (word % (1 << 32)) as u32), first)?;
            rest = more;
        }
    }
    Ok(())
}

// start + 1, 0 for none; a refused tick is none of these.
fn answer(state: &mut [u64], t: u64, events: u32) -> u64 {
    match watcher::tick(state, t, events) {
        Ok(window) => window.map_or(0, |start| start % u64::MAX + 1),
        Err(_) => u64::MAX,
    }
}

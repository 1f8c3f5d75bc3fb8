// Replays many patterns and records: what the watcher and the plain evaluator say of each, to be held to what the rules say.
// A vector is its length as five digits on a line, and three lines: the pattern's text; `tick:events` in hexadecimal; event words in
// hexadecimal. tests/make_vectors.py makes them.
#![tactic(auto)]

mod fields;
mod plainly;
mod watched;

use std::io;
use std::io::Read;

fn main(rt: HostRuntime) -> io::Result<()> {
    for _ in 0..1_000_000 {
        if !replay(rt)? {
            break;
        }
    }
    Ok(())
}

// Whether there was a vector to replay.
fn replay(rt: HostRuntime) -> io::Result<bool> {
    let mut head = [0u8; 6];
    if !read_full(rt, &mut head) {
        return Ok(false);
    }
    let mut vector = [0u8; 4096];
    replay_next(rt, &mut vector, fields::read_length(head))
}

// Reads the next `long` bytes and replays them as a vector.
fn replay_next(rt: HostRuntime, vector: &mut [u8], long: usize) -> io::Result<bool> {
    if vector.len() < long {
        return Ok(false);
    }
    if !read_full(rt, &mut vector[0..long]) {
        return Ok(false);
    }
    replay_vector(rt, &vector[0..long])?;
    Ok(true)
}

// Whether the input had enough bytes to fill a slice.
fn read_full(rt: HostRuntime, bytes: &mut [u8]) -> bool {
    rt.stdin().read_exact(bytes).is_ok()
}

fn replay_vector(rt: HostRuntime, vector: &[u8]) -> io::Result<()> {
    let (pattern, rest) = fields::cut(vector);
    let (ticks, rest) = fields::cut(rest);
    let (words, _) = fields::cut(rest);
    let mut body = [0u8; 315];
    let bytes = text::read_pattern(pattern, &mut body).unwrap_or(0);
    let Some(body) = body.get(0..bytes) else {
        return Ok(());
    };
    watched::watch(rt, body, ticks)?;
    plainly::evaluate(rt, body, words)
}

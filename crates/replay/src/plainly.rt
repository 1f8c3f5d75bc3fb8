// What the plain evaluator says of a record: the latest start of each row, and how many instances it has.
ghost use Rattle.std.specs.Prelude.{◌≤◌, length};

use crate::fields;
use std::io;

pub(crate) fn evaluate(rt: HostRuntime, body: &[u8], words: &[u8]) -> io::Result<()> {
    let mut events = [0u32; 64];
    let ticks = read_words(words, &mut events);
    let mut rows = [0u64; 4032];
    let from = last_rows(body, &events[0..ticks], &mut rows);
    let Some(last) = rows.get(from..from + ticks) else {
        return Ok(());
    };
    print_rows(
        rt,
        last,
        |row| plain::latest_start(row).map_or(0, |s| u64::from(s) + 1),
    )?;
    print_rows(rt, last, |row| u64::from(plain::instances(row)))
}

// Reads the event words of a line, as many as there is room for, and answers how many.
fn read_words(line: &[u8], events: &mut [u32]) -> usize
    ensures { result ≤ length events.old }
{
    let mut rest = line;
    for (n, word) in events.iter_mut().enumerate() {
        if rest.is_empty() {
            return n;
        }
        let (value, more) = fields::field(rest);
        *word = (value % (1 << 32)) as u32;
        rest = more;
    }
    events.len()
}

// Where the rows of the whole pattern begin.
fn last_rows(body: &[u8], events: &[u32], rows: &mut [u64]) -> usize
    ensures { result ≤ 3968 }
{
    if plain::evaluate(body, events, rows).is_err() {
        return 0;
    }
    (body.len() / 5).saturating_sub(1).min(62) * 64
}

// Prints a number for each row, on a line.
fn print_rows<F: Fn(u64) -> u64>(rt: HostRuntime, rows: &[u64], number: F) -> io::Result<()>
    requires { F.IsAlwaysCallable number }
{
    for (e, row) in rows.iter().enumerate() {
        fields::print(rt, number(*row), e == 0)?;
    }
    fields::end_line(rt)
}

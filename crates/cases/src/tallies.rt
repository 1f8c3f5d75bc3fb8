// The tally over a record that is lent to it: a window that is added, and refused windows, which leave the record.
ghost use Rattle.std.specs.Prelude.{◌≡◌};
ghost use Rattle.tally.specs.Tallied.{added_to, answer_of, after};

use crate::show;
use refusal::Refusal;
use std::io;
use tally::Tally;

pub(crate) fn run(rt: HostRuntime) -> io::Result<()> {
    let none = Tally {
        windows: 0,
        ticks: 0,
    };
    let one = told(rt, b"tally: 10 to 120", none, 10, 120)?;
    let two = told(rt, b"tally: 7 to 7", one, 7, 7)?;
    let same = told(rt, b"tally: ends before it starts", two, 3, 2)?;
    told(rt, b"tally: ends too late", same, 0, 4294967296)?;
    let full = Tally {
        windows: 0xffff_ffff_ffff_ffff,
        ticks: 9,
    };
    told(rt, b"tally: full", full, 0, 0)?;
    Ok(())
}

// Prints the refusal's number, and the windows and ticks that the record then has.
fn told(rt: HostRuntime, name: &[u8], before: Tally, start: u64, end: u64) -> io::Result<Tally> {
    let (answer, after) = lent(before, start, end);
    let number = answer.err().map_or(0, |r| r.number());
    show::line(rt, name, number, after.windows, after.ticks)?;
    Ok(after)
}

// Adds a window to a record of its own, which it lends.
fn lent(before: Tally, start: u64, end: u64) -> (Result<(), Refusal>, Tally)
    ensures answered { result.0 ≡ answer_of (added_to before start end) }
    ensures kept { result.1 ≡ after before (added_to before start end) }
{
    let mut record = before;
    let answer = tally::add(&mut record, start, end);
    (answer, record)
}

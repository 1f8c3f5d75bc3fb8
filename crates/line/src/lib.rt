// The lines of the watch program: reading a tick's line, and writing those of a window, of the tally and of a refusal.
#![tactic(auto)]

mod reader;
mod writer;

ghost use Rattle.line.specs.Lines.{window_line, tally_line, refused_line};
ghost use Rattle.line.specs.Answer.{LineReadOf, LineWrittenOf};

use refusal::Refusal;
use rules::LAST_TICK;

// The bytes that a tick's line may have.
const MOST_LINE: usize = 1024;

// The bytes that the line of a window or of a refusal can have.
pub const MOST_WRITTEN: usize = 60;

// The bytes that the tally's line can have; no line is longer.
pub const MOST_TALLY: usize = 60;

// A tick and its word of events.
#[derive(Clone, Copy, Debug, PartialEq, Eq)]
pub struct Tick {
    pub t: u64,
    pub events: u32,
}

// Reads a tick, one space, and one or more letters in type order, none twice. Too large a tick is reported only if the line is well formed otherwise.
pub fn read_tick(line: &[u8]) -> Result<Tick, Refusal>
    ensures { LineReadOf line.now result }
{
    if line.len() > MOST_LINE {
        return Err(Refusal::Line);
    }
    let number = reader::read_number(line).ok_or(Refusal::Line)?;
    if number.end == line.len() || line[number.end] != b' ' {
        return Err(Refusal::Line);
    }
    let events = reader::read_letters(&line[number.end + 1..]).ok_or(Refusal::Line)?;
    if number.value > LAST_TICK {
        return Err(Refusal::Range(0));
    }
    Ok(Tick {
        t: number.value,
        events,
    })
}

// Writes a window as its start, a space and its end; answers the bytes written. A refusal leaves `out` as it was.
pub fn write_window(start: u64, end: u64, out: &mut [u8]) -> Result<usize, Refusal>
    ensures { LineWrittenOf (window_line start end) out.old out.new result }
{
    writer::write_line(b"", start, b" ", end, out)
}

// Writes the tally: how many windows there are, and how many ticks they take together.
pub fn write_tally(windows: u64, ticks: u64, out: &mut [u8]) -> Result<usize, Refusal>
    ensures { LineWrittenOf (tally_line windows ticks) out.old out.new result }
{
    writer::write_line(b"windows ", windows, b" ticks ", ticks, out)
}

// Writes a refusal: the number of the line, and the number of the refusal.
pub fn write_refused(line: u64, code: u64, out: &mut [u8]) -> Result<usize, Refusal>
    ensures { LineWrittenOf (refused_line line code) out.old out.new result }
{
    writer::write_line(b"refused line ", line, b" code ", code, out)
}

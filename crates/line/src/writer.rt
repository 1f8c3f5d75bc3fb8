// Writing: a line is made backwards, since the last digit of a number is found first, and then copied if there is room.
ghost use Rattle.std.specs.Prelude.{◌+◌, ◌≤◌, length};
ghost use Rattle.line.specs.Lines.{most_digits, most_tally, numbers_line};
ghost use Rattle.line.specs.Answer.{LineWrittenOf};

use super::MOST_TALLY;
use decimal::Backwards;
use refusal::Refusal;

// Writes a word, a number, a word, a number and the line feed.
pub(crate) fn write_line(
    one: &[u8],
    a: u64,
    two: &[u8],
    b: u64,
    out: &mut [u8],
) -> Result<usize, Refusal>
    requires { length one.now + most_digits + length two.now + most_digits + 1 ≤ most_tally }
    ensures { LineWrittenOf (numbers_line one.now a two.now b) out.old out.new result }
{
    let mut made: Backwards<MOST_TALLY> = Backwards::new();
    made.byte(b'\n');
    made.number(b);
    made.word(two);
    made.number(a);
    made.word(one);
    copying::copy_if_room(made.written(), out).map_err(Refusal::Room)
}

// How many possible starts each tree on a stack has, the last tree on top.
ghost use Rattle.std.specs.Prelude.{◌≡◌, ◌+◌, ◌≤◌, length, get_or};
ghost use Rattle.std.specs.List.{sum};
ghost use Rattle.watcher.specs.inner.Form.{merged};

use rules::{MOST_ENTRIES, Op};
use stacks::Stack;

// A byte holds each number, and there are no more trees than entries.
pub(crate) type Possible = Stack<u8, MOST_ENTRIES>;

// Puts an operator's tree in place of its operands', and gives the right one's number.
pub(crate) fn merge(possible: &mut Possible, op: Op) -> u8
    requires operands { 2 ≤ length possible.old }
    requires few { sum possible.old + length possible.old ≤ 63 }
    ensures merged { possible.new ≡ merged op possible.old }
    ensures right { result ≡ get_or possible.old 0 0 }
{
    let y = possible.pop();
    let x = possible.pop();
    possible.push(cell::possible_starts(op, x, y) as u8);
    y
}

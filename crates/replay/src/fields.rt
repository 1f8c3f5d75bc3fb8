// Lines and fields of the vectors.
ghost use Rattle.std.specs.Prelude.{◌<◌, ◌≤◌, IfSome, length};

use std::io;

// A length in five digits.
pub(crate) fn read_length(head: [u8; 6]) -> usize {
    let tens = worth(head[0]) * 10000 + worth(head[1]) * 1000 + worth(head[2]) * 100;
    (tens + worth(head[3]) * 10 + worth(head[4])) as usize
}

// What a byte adds to a length, 16 if it is no digit.
fn worth(byte: u8) -> u64
    ensures { result ≤ 16 }
{
    digit(byte).unwrap_or(16)
}

// The first line of a text, and what follows its line feed.
pub(crate) fn cut(text: &[u8]) -> (&[u8], &[u8]) {
    match text.iter().position(|byte| *byte == b'\n') {
        Some(at) => (&text[..at], &text[at + 1..]),
        None => (text, &text[text.len()..]),
    }
}

// The number in hexadecimal that a line begins with, and what follows the byte that ends it.
pub(crate) fn field(line: &[u8]) -> (u64, &[u8])
    requires { 0 < length line.now }
    ensures { length result.1.now < length line.now }
{
    let mut value: u64 = 0;
    for (at, byte) in line.iter().enumerate() {
        let Some(d) = digit(*byte) else {
            return (value, &line[at + 1..]);
        };
        value = value % (1 << 40) * 16 + d;
    }
    (value, &line[line.len()..])
}

// The value of a digit in hexadecimal.
fn digit(byte: u8) -> Option<u64>
    ensures { IfSome result (λ d. d < 16) }
{
    match byte {
        b'0'..=b'9' => Some(u64::from(byte - b'0')),
        b'a'..=b'f' => Some(u64::from(byte - b'a') + 10),
        _ => None,
    }
}

// Prints a number, after a space unless it is the first of its line.
pub(crate) fn print(rt: HostRuntime, n: u64, first: bool) -> io::Result<()> {
    if first {
        print!(rt; "{n}")
    } else {
        print!(rt; " {n}")
    }
}

pub(crate) fn end_line(rt: HostRuntime) -> io::Result<()> {
    rt.write_all(b"\n")
}

// Reading: an expression holds a tail, and a tail holds expressions. The bytes left to read fall at each call. A place counts from the start of the
// text, so the whole text goes along with it.
ghost use Rattle.std.specs.Prelude.{◌≡◌, ◌≤◌, length};
ghost use Rattle.text.specs.inner.Machine.{sign_of};
ghost use Rattle.text.specs.inner.Helpers.{NumberAt, ExpressionAt, TailAt};

use super::made::Made;
use rules::{LAST_TICK, Op};

// Where a number ends, and what it is.
#[derive(Clone, Copy, Debug, PartialEq, Eq)]
struct Number {
    end: usize,
    value: u64,
}

// What may follow a first operand: an operator, or `@`.
#[derive(Clone, Copy, Debug, PartialEq, Eq)]
enum Sign {
    Operator(Op),
    Limit,
}

// Reads the expression that starts at `at`: a letter, or `(`, an expression, a tail and `)`. Its entries follow those that there are. Answers where
// it ends; an error is the place where nothing could go on.
#[cycle(expression_tail)]
pub(crate) fn expression(text: &[u8], at: usize, made: &mut Made) -> Result<usize, usize>
    requires { (at ≤ length text.now) × (made.old.entries ≤ at) }
    ensures { ExpressionAt text.now at made.old made.new result }
{
    if at == text.len() {
        return Err(at);
    }
    let byte = text[at];
    if let Some(kind) = crate::letter(byte) {
        made.push(0, u64::from(kind));
        return Ok(at + 1);
    }
    if byte != b'(' {
        return Err(at);
    }
    let middle = expression(text, at + 1, made)?;
    let last = tail(text, middle, made)?;
    if last == text.len() || text[last] != b')' {
        return Err(last);
    }
    Ok(last + 1)
}

// Reads the tail that starts at `at`, after a first operand: an operator and an expression, or `@` and a number.
#[cycle(expression_tail)]
fn tail(text: &[u8], at: usize, made: &mut Made) -> Result<usize, usize>
    requires { (at ≤ length text.now) × (made.old.entries ≤ at) }
    ensures { TailAt text.now at made.old made.new result }
{
    if at == text.len() {
        return Err(at);
    }
    match read_sign(text[at]) {
        None => Err(at),
        Some(Sign::Limit) => {
            let number = read_limit(text, at + 1)?;
            made.push(5, number.value);
            Ok(number.end)
        }
        Some(Sign::Operator(op)) => {
            let end = expression(text, at + 1, made)?;
            made.push(body::op_number(op) as u8, 0);
            Ok(end)
        }
    }
}

// Reads the number of a restriction, which starts at `at`. An error is the place where none could go on.
// It is not one function with the reader of numbers in `line`, which caps too large a number and knows no place.
fn read_limit(text: &[u8], at: usize) -> Result<Number, usize>
    requires { at ≤ length text.now }
    ensures { NumberAt text.now at result }
{
    if at == text.len() {
        return Err(at);
    }
    let Some(first) = crate::digit(text[at]) else {
        return Err(at);
    };
    if first == 0 {
        return Ok(Number {
            end: at + 1,
            value: 0,
        });
    }
    let mut value = u64::from(first);
    for end in at + 1..text.len() {
        let Some(d) = crate::digit(text[end]) else {
            return Ok(Number { end, value });
        };
        value = value * 10 + u64::from(d);
        if value > LAST_TICK {
            return Err(end);
        }
    }
    Ok(Number {
        end: text.len(),
        value,
    })
}

// The operator or the `@` that a byte is.
#[tactic(auto, unfolding(crate::specs::inner::Machine::sign_of))]
fn read_sign(byte: u8) -> Option<Sign>
    ensures { result ≡ sign_of byte }
{
    match byte {
        b'|' => Some(Sign::Operator(Op::Either)),
        b'+' => Some(Sign::Operator(Op::Both)),
        b'-' => Some(Sign::Operator(Op::Without)),
        b';' => Some(Sign::Operator(Op::Chain)),
        b'@' => Some(Sign::Limit),
        _ => None,
    }
}

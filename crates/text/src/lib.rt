// Pattern text: reading it into a body, and printing a body as text.
#![tactic(auto)]

mod made;
mod printer;
mod reader;

ghost use Rattle.std.specs.Prelude.{◌≡◌, ◌<◌, IfSome};
ghost use Rattle.rules.specs.Limits.{letters};
ghost use Rattle.text.specs.Characters.{letter_of, digit_of};
ghost use Rattle.text.specs.Answer.{ReadingOf, PrintingOf};

use decimal::Backwards;
use made::Made;
use printer::MOST_PRINTED;
use refusal::Refusal;
use rules::{ENTRY_BYTES, MOST_ENTRIES, MOST_TEXT};

// The event types that are written as capital letters.
const CAPITALS: u8 = 26;

// Reads the text of a pattern and writes its body; answers the bytes of body written. A refused text leaves `body` as it was.
pub fn read_pattern(text: &[u8], body: &mut [u8]) -> Result<usize, Refusal>
    ensures { ReadingOf text.now body.old body.new result }
{
    if text.len() > MOST_TEXT {
        return Err(Refusal::Long);
    }
    let mut made = Made::new();
    let end = reader::expression(text, 0, &mut made).map_err(Refusal::Syntax)?;
    if end < text.len() {
        return Err(Refusal::Syntax(end));
    }
    if made.entries > MOST_ENTRIES {
        return Err(Refusal::Many);
    }
    copying::copy_if_room(&made.bytes[..made.entries * ENTRY_BYTES], body).map_err(Refusal::Room)
}

// Prints a body as the text of its pattern; answers the bytes of text written. A refused body leaves `text` as it was.
pub fn print_pattern(body: &[u8], text: &mut [u8]) -> Result<usize, Refusal>
    ensures { PrintingOf body.now text.old text.new result }
{
    body::check_body(body)?;
    let mut made: Backwards<MOST_PRINTED> = Backwards::new();
    printer::write_tree(body, body.len() / ENTRY_BYTES, &mut made);
    copying::copy_if_room(made.written(), text).map_err(Refusal::Room)
}

// The event type of a letter.
#[tactic(auto, unfolding(crate::specs::Characters::letter_of))]
pub fn letter(byte: u8) -> Option<u8>
    ensures kind { result ≡ letter_of byte }
    ensures exists { IfSome result (λ n. n < letters) }
{
    match byte {
        b'A'..=b'Z' => Some(byte - b'A'),
        b'a'..=b'f' => Some(byte - b'a' + CAPITALS),
        _ => None,
    }
}

// The value of a digit.
#[tactic(auto, unfolding(crate::specs::Characters::digit_of))]
pub fn digit(byte: u8) -> Option<u8>
    ensures { result ≡ digit_of byte }
{
    match byte {
        b'0'..=b'9' => Some(byte - b'0'),
        _ => None,
    }
}

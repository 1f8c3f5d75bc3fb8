// The calls for C (include/mws.h). A slice is a pointer and a count of elements; every call answers a status word and never stops its caller.
#![tactic(auto)]

ghost use Rattle.std.specs.Prelude.{◌≡◌, ◌≤◌, ◌^◌};
ghost use Rattle.rules.specs.Limits.{argument_bytes};
ghost use Rattle.rules.specs.Bits.{ones_below};
ghost use Rattle.body.specs.Check.{check_of};
ghost use Rattle.file.specs.Check.{file_check};
ghost use Rattle.file.specs.Lookup.{finding_of};
ghost use Rattle.file.specs.Write.{Wrote};
ghost use Rattle.text.specs.Answer.{ReadingOf, PrintingOf};
ghost use Rattle.plain.specs.Answer.{Answers};
ghost use Rattle.watcher.specs.Answer.{RoomAnswers, OpenAnswers, TickAnswers};
ghost use Rattle.watcher.specs.Feed.{FeedAnswers};
ghost use Rattle.set.specs.Set.{SetAnswers};
ghost use Rattle.set.specs.File.{SetRoomAnswers, SetOpenAnswers};
ghost use Rattle.tally.specs.Tallied.{added_to, answer_of, after};
ghost use Rattle.mws.specs.Status.{status_of, number_after, Told, Done, done, counted, ticking};
ghost use Rattle.mws.specs.Status.{RowLatest, file_bits, LookedUp};

use file::{LookupError, Whose};
use refusal::Refusal;
use tally::Tally;

// The bits of a lookup's status word that say the fleet file.
const FLEET: u64 = 1 << 48;

// The status word of an answer: 0 if the call is accepted.
fn status(answer: Result<(), Refusal>) -> u64
    ensures { result ≡ status_of (done answer) }
{
    match answer {
        Ok(()) => 0,
        Err(r) => r.packed(),
    }
}

// The status word of an answer with a number, which is written if the call is accepted.
fn tell(answer: Result<usize, Refusal>, number: &mut u64) -> u64
    ensures word { result ≡ status_of (counted answer) }
    ensures lent { number.new ≡ number_after (counted answer) number.old }
{
    match answer {
        Ok(n) => {
            *number = n as u64;
            0
        }
        Err(r) => r.packed(),
    }
}

// Checks a body.
#[unsafe(no_mangle)]
pub extern "C" fn mws_body_check(body: &[u8]) -> u64
    ensures { result ≡ status_of (done (check_of argument_bytes body.now)) }
{
    status(body::check_body(body))
}

// Reads a pattern's text into a body.
#[unsafe(no_mangle)]
pub extern "C" fn mws_text_read(text: &[u8], body: &mut [u8], written: &mut u64) -> u64
    ensures { Told counted (ReadingOf text.now body.old body.new) written.old written.new result }
{
    tell(text::read_pattern(text, body), written)
}

// Prints a body as its pattern's text.
#[unsafe(no_mangle)]
pub extern "C" fn mws_text_print(body: &[u8], text: &mut [u8], written: &mut u64) -> u64
    ensures { Told counted (PrintingOf body.now text.old text.new) written.old written.new result }
{
    tell(text::print_pattern(body, text), written)
}

// Checks a pattern file.
#[unsafe(no_mangle)]
pub extern "C" fn mws_file_check(file: &[u8]) -> u64
    ensures { result ≡ status_of (done (file_check file.now)) }
{
    status(file::check_file(file))
}

// Writes a pattern file of names (8 bytes each), numbers of entries and bodies end to end.
#[unsafe(no_mangle)]
pub extern "C" fn mws_file_write(
    names: &[u8],
    counts: &[u8],
    bodies: &[u8],
    file: &mut [u8],
    written: &mut u64,
) -> u64
    ensures { Told counted (Wrote names.now counts.now bodies.now file.old file.new) written.old written.new result }
{
    tell(file::write_file(names, counts, bodies, file), written)
}

// Looks a name up in a site file and a fleet file: where the body lies in its file, and its bytes.
#[unsafe(no_mangle)]
pub extern "C" fn mws_file_lookup(
    site: &[u8],
    fleet: &[u8],
    name: &[u8],
    from: &mut u64,
    long: &mut u64,
) -> u64
    ensures { LookedUp (finding_of site.now fleet.now name.now) from.old from.new long.old long.new result }
{
    match file::looked_up(site, fleet, name) {
        Ok(found) => {
            *from = found.place.from as u64;
            *long = found.place.long as u64;
            file_bits(found.whose)
        }
        Err(LookupError::Broken(whose, r)) => file_bits(whose) + r.packed(),
        Err(LookupError::Absent) => Refusal::Absent.packed(),
    }
}

fn file_bits(whose: Whose) -> u64
    ensures { (result ≡ file_bits whose) × (result ≤ 2 ^ 48) }
{
    match whose {
        Whose::Site => 0,
        Whose::Fleet => FLEET,
    }
}

// Evaluates a body on at most 64 event words: 64 rows for each entry.
#[unsafe(no_mangle)]
pub extern "C" fn mws_plain(body: &[u8], events: &[u32], rows: &mut [u64]) -> u64
    ensures { Done done (Answers body.now events.now rows.old rows.new) result }
{
    status(plain::evaluate(body, events, rows))
}

// The latest start of a row: start + 1, or 0.
#[unsafe(no_mangle)]
pub extern "C" fn mws_row_latest(row: u64) -> u64
    ensures { RowLatest row result }
{
    plain::latest_start(row).map_or(0, |s| u64::from(s) + 1)
}

// How many instances a row shows.
#[unsafe(no_mangle)]
pub extern "C" fn mws_row_count(row: u64) -> u64
    ensures { result ≡ ones_below 64 row }
{
    u64::from(plain::instances(row))
}

// The words that a body's state takes.
#[unsafe(no_mangle)]
pub extern "C" fn mws_watch_room(body: &[u8], words: &mut u64) -> u64
    ensures { Told counted (RoomAnswers body.now) words.old words.new result }
{
    tell(watcher::room(body), words)
}

// Opens a state for a body.
#[unsafe(no_mangle)]
pub extern "C" fn mws_watch_open(body: &[u8], state: &mut [u64]) -> u64
    ensures { Done done (OpenAnswers body.now state.old state.new) result }
{
    status(watcher::open(body, state))
}

// Takes a tick: start + 1 of the window that ends there, or 0.
#[unsafe(no_mangle)]
pub extern "C" fn mws_watch_tick(state: &mut [u64], t: u64, events: u32, answer: &mut u64) -> u64
    ensures { Told ticking (TickAnswers state.old state.new t events) answer.old answer.new result }
{
    match watcher::tick(state, t, events) {
        Ok(window) => {
            *answer = match window {
                Some(start) => start + 1,
                None => 0,
            };
            0
        }
        Err(r) => r.packed(),
    }
}

// Takes many ticks, the state judged once; one answer a tick.
#[unsafe(no_mangle)]
pub extern "C" fn mws_watch_feed(
    state: &mut [u64],
    ticks: &[u64],
    events: &[u32],
    answers: &mut [u64],
) -> u64
    ensures { Done done (FeedAnswers state.old ticks.now events.now answers.old state.new answers.new) result }
{
    status(watcher::feed(state, ticks, events, answers))
}

// The words that the states of a file's patterns take.
#[unsafe(no_mangle)]
pub extern "C" fn mws_set_room(file: &[u8], words: &mut u64) -> u64
    ensures { Told counted (SetRoomAnswers file.now) words.old words.new result }
{
    tell(set::room(file), words)
}

// Opens a state for each pattern of a file.
#[unsafe(no_mangle)]
pub extern "C" fn mws_set_open(file: &[u8], states: &mut [u64]) -> u64
    ensures { Done done (SetOpenAnswers file.now states.old states.new) result }
{
    status(set::open(file, states))
}

// Takes a tick in each of `count` states; one answer a pattern.
#[unsafe(no_mangle)]
pub extern "C" fn mws_set_tick(
    states: &mut [u64],
    count: u64,
    t: u64,
    events: u32,
    answers: &mut [u64],
) -> u64
    ensures { Done done (SetAnswers count states.old answers.old t events states.new answers.new) result }
{
    status(set::tick(states, count, t, events, answers))
}

// Adds a window to the caller's tally. A refused window leaves the tally as it was.
#[unsafe(no_mangle)]
pub extern "C" fn mws_tally_add(tally: &mut Tally, start: u64, end: u64) -> u64
    ensures word { result ≡ status_of (done (answer_of (added_to tally.old start end))) }
    ensures kept { tally.new ≡ after tally.old (added_to tally.old start end) }
{
    status(tally::add(tally, start, end))
}

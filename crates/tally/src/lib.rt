// The tally: how many windows were added, and how many ticks they take together.
#![tactic(auto)]

ghost use Rattle.std.specs.Prelude.{◌≡◌};
ghost use Rattle.tally.specs.Tallied.{added_to, answer_of, after};

use refusal::Refusal;
use rules::LAST_TICK;

// How many windows were added, and the sum of end - start + 1 over them. C lends the same record.
#[repr(C)]
#[derive(Clone, Copy, Debug, PartialEq, Eq)]
pub struct Tally {
    pub windows: u64,
    pub ticks: u64,
}

// Adds a window to the caller's tally. A refused window leaves the tally as it was.
pub fn add(tally: &mut Tally, start: u64, end: u64) -> Result<(), Refusal>
    ensures answered { result ≡ answer_of (added_to tally.old start end) }
    ensures kept { tally.new ≡ after tally.old (added_to tally.old start end) }
{
    *tally = added(*tally, start, end)?;
    Ok(())
}

// The tally with the window from start to end counted, or why the window is refused.
#[tactic(auto, unfolding(crate::specs::Tallied::added_to))]
pub fn added(tally: Tally, start: u64, end: u64) -> Result<Tally, Refusal>
    ensures { result ≡ added_to tally start end }
{
    if end < start || LAST_TICK < end {
        return Err(Refusal::Range(0));
    }
    let windows = tally.windows.checked_add(1).ok_or(Refusal::Full)?;
    let ticks = tally
        .ticks
        .checked_add(end - start + 1)
        .ok_or(Refusal::Full)?;
    Ok(Tally {
        windows: windows,
        ticks: ticks,
    })
}

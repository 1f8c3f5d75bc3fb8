// The plain evaluator: every instance of every entry of a body in a record of at most 64 ticks.
#![tactic(auto)]

ghost use Rattle.std.specs.Prelude.{Ok, ◌≡◌, ◌⊎◌, ℕ, ◌+◌, ◌-◌, ◌*◌, ◌≤◌, ◌<◌, length};
ghost use Rattle.rules.specs.Bits.{On, ones_below};
ghost use Rattle.rules.specs.Instances.{Occurs, Rule, Short};
ghost use Rattle.plain.specs.Row.{Exactly, IsLatest};
ghost use Rattle.plain.specs.Rows.{Shown, rows_of, worded};
ghost use Rattle.plain.specs.Answer.{Answers, RowsAfter, Ready};
ghost use Rattle.plain.specs.inner.Fill.{Seen, Lesser, Masked, Operands, Filled, FilledBy};
ghost use Rattle.rules.specs.declared.Op.TheVariants.{Either, Both, Without, Chain};

use body::Entry;
use refusal::Refusal;
use rules::{ENTRY_BYTES, MOST_ENTRIES, MOST_WORDS, Op};
use stacks::Stack;

// The rows of an entry, one a tick.
const ROWS: usize = MOST_WORDS;

// Evaluates a body on at most 64 event words: 64 rows for each entry, bit s of row e for the instance from s to e.
pub fn evaluate(body: &[u8], events: &[u32], rows: &mut [u64]) -> Result<(), Refusal>
    ensures { Answers body.now events.now rows.old rows.new result }
{
    body::check_body(body)?;
    if MOST_WORDS < events.len() {
        return Err(Refusal::Record);
    }
    let needed = body.len() / ENTRY_BYTES * ROWS;
    if rows.len() < needed {
        return Err(Refusal::Room(needed));
    }
    fill_rows(body, events, rows);
    Ok(())
}

// The latest start among the instances that a row shows.
pub fn latest_start(row: u64) -> Option<u32>
    ensures { IsLatest row result }
{
    if row == 0 {
        return None;
    }
    Some(63 - row.leading_zeros())
}

// How many instances a row shows.
pub fn instances(row: u64) -> u32
    ensures { result ≡ ones_below 64 row }
{
    row.count_ones()
}

// The rows of every entry of a sound body.
#[tactic(auto, using(crate::proofs::Loops::one_below, crate::proofs::Loops::two_below))]
fn fill_rows(body: &[u8], events: &[u32], rows: &mut [u64])
    requires { Ready body.now events.now rows.old }
    ensures { RowsAfter body.now events.now rows.old rows.new (Ok tt) }
{
    // the entry that ends each tree, of which there are no more than entries
    let mut trees: Stack<usize, MOST_ENTRIES> = Stack::new(0);
    for k in 0..body.len() / ENTRY_BYTES {
        match body::entry_at(body, k) {
            Entry::Letter(kind) => {
                fill_letter(rows, events, kind, k);
                trees.push(k);
            }
            Entry::Pair(op) => {
                let y = trees.pop();
                let x = trees.pop();
                fill_pair(rows, op, x, y, k);
                trees.push(k);
            }
            Entry::Within(limit) => {
                let x = trees.pop();
                fill_within(rows, limit, x, k);
                trees.push(k);
            }
            Entry::Wrong => {}
        }
    }
}

// The rows of entry k, each from its number.
fn fill<F: Fn(usize) -> u64>(rows: &mut [u64], k: usize, row: F)
    requires room { k * 64 + 64 ≤ length rows.old }
    requires each { (e : ℕ) → e < 64 → F.pre row e }
    ensures { FilledBy (F.post row) k rows.old rows.new }
{
    let at = k * ROWS;
    for e in 0..ROWS {
        rows[at + e] = row(e);
    }
}

// The rows of entry k, a letter.
fn fill_letter(rows: &mut [u64], events: &[u32], kind: u64, k: usize)
    requires { k * 64 + 64 ≤ length rows.old }
    ensures { Filled (Occurs (worded events.now) kind) k rows.old rows.new }
{
    fill(
        rows,
        k,
        |e|
            requires { e < 64 }
            ensures { Exactly result (λ s. Occurs (worded events.entry.now) kind s e) }
        {
            if e < events.len() {
                letter_row(events[e], kind, e)
            } else {
                0
            }
        },
    );
}

// A row of a letter: the tick itself, if the event occurs.
fn letter_row(events: u32, kind: u64, e: usize) -> u64
    requires { e < 64 }
    ensures { Exactly result (λ s. (s ≡ e) × On events kind) }
{
    if rules::occurs(events, kind) {
        1 << e
    } else {
        0
    }
}

// The rows of entry k, a restriction of entry x.
#[tactic(auto, using(crate::proofs::Fills::length_rows))]
fn fill_within(rows: &mut [u64], limit: u64, x: usize, k: usize)
    requires { (x < k) × (k * 64 + 64 ≤ length rows.old) }
    ensures { Filled (Short limit (Shown (rows_of rows.old x))) k rows.old rows.new }
{
    let (before, from_k) = rows.split_at_mut(k * ROWS);
    let operand = entry_rows(before, x);
    fill(
        from_k,
        0,
        |e|
            requires { e < length operand.now }
            ensures { Exactly result (λ s. Short limit (Shown operand.entry.now) s e) }
        { within_row(operand[e], e as u64, limit) },
    );
}

// The rows of entry x.
fn entry_rows(rows: &[u64], x: usize) -> &[u64]
    requires { x * 64 + 64 ≤ length rows.now }
    ensures { result.now ≡ rows_of rows.now x }
{
    let at = x * ROWS;
    &rows[at..at + ROWS]
}

// The starts of row e that are at most `limit` before it.
fn within_row(row: u64, e: u64, limit: u64) -> u64
    ensures { Exactly result (λ s. On row s × (e - s ≤ limit)) }
{
    from(row, earliest(e, limit))
}

// The earliest start of a short enough instance that ends at e.
fn earliest(e: u64, limit: u64) -> u64
    ensures { result ≡ e - limit }
{
    e.saturating_sub(limit)
}

// The rows of entry k, an operator on the entries x and y.
#[tactic(auto, using(crate::proofs::Fills::length_rows))]
fn fill_pair(rows: &mut [u64], op: Op, x: usize, y: usize, k: usize)
    requires { (x < k) × (y < k) × (k * 64 + 64 ≤ length rows.old) }
    ensures { Filled (Rule op (Shown (rows_of rows.old x)) (Shown (rows_of rows.old y))) k rows.old rows.new }
{
    let (before, from_k) = rows.split_at_mut(k * ROWS);
    let left = entry_rows(before, x);
    let right = entry_rows(before, y);
    match op {
        Op::Either => fill_either(from_k, left, right),
        Op::Both => fill_both(from_k, left, right),
        Op::Without => fill_without(from_k, left, right),
        Op::Chain => fill_chain(from_k, left, right),
    }
}

// The rows of `|`: the starts of either row.
fn fill_either(rows: &mut [u64], left: &[u64], right: &[u64])
    requires { Operands rows.old left.now right.now }
    ensures { Filled (Rule Either (Shown left.now) (Shown right.now)) 0 rows.old rows.new }
{
    fill(
        rows,
        0,
        |e|
            requires { (e < length left.now) × (e < length right.now) }
            ensures { Exactly result (λ s. Rule Either (Shown left.entry.now) (Shown right.entry.now) s e) }
        { either(left[e], right[e]) },
    );
}

// The rows of `+`: the lesser of a start of either row and one seen so far of the other operand.
fn fill_both(rows: &mut [u64], left: &[u64], right: &[u64])
    requires { Operands rows.old left.now right.now }
    ensures { Filled (Rule Both (Shown left.now) (Shown right.now)) 0 rows.old rows.new }
{
    let mut seen_left = [0u64; ROWS + 1];
    let mut seen_right = [0u64; ROWS + 1];
    see(left, &mut seen_left);
    see(right, &mut seen_right);
    fill(
        rows,
        0,
        |e|
            requires { Masked left.now seen_left e × Masked right.now seen_right e }
            ensures { Exactly result (λ s. Rule Both (Shown left.entry.now) (Shown right.entry.now) s e) }
        {
            either(
                lesser(left[e], seen_right[e + 1]),
                lesser(right[e], seen_left[e + 1]),
            )
        },
    );
}

// The rows of `-`: the starts that are above each one seen so far of the right operand.
fn fill_without(rows: &mut [u64], left: &[u64], right: &[u64])
    requires { Operands rows.old left.now right.now }
    ensures { Filled (Rule Without (Shown left.now) (Shown right.now)) 0 rows.old rows.new }
{
    let mut seen_right = [0u64; ROWS + 1];
    see(right, &mut seen_right);
    fill(
        rows,
        0,
        |e|
            requires { (e < length left.now) × Masked right.now seen_right e }
            ensures { Exactly result (λ s. Rule Without (Shown left.entry.now) (Shown right.entry.now) s e) }
        {
            // named here, so that the clauses above may speak of these rows
            let _rows = right;
            above(left[e], seen_right[e + 1])
        },
    );
}

// The rows of `;`: the starts of the left operand that were seen before the latest start of the right row.
fn fill_chain(rows: &mut [u64], left: &[u64], right: &[u64])
    requires { Operands rows.old left.now right.now }
    ensures { Filled (Rule Chain (Shown left.now) (Shown right.now)) 0 rows.old rows.new }
{
    let mut seen_left = [0u64; ROWS + 1];
    see(left, &mut seen_left);
    fill(
        rows,
        0,
        |e|
            requires { Seen left.now seen_left × (e < length right.now) }
            ensures { Exactly result (λ s. Rule Chain (Shown left.entry.now) (Shown right.entry.now) s e) }
        { chain_row(right[e], left, &seen_left) },
    );
}

// For each k up to 64, the starts of the rows below k. The masks are lent: given by value they are copied twice.
fn see(rows: &[u64], masks: &mut [u64; ROWS + 1])
    requires { length rows.now ≡ 64 }
    ensures { Seen rows.now masks.new }
{
    masks[0] = 0;
    let mut sum: u64 = 0;
    for i in 0..ROWS {
        sum |= rows[i];
        masks[i + 1] = sum;
    }
}

// A row of `;`: the starts of x that end before the latest start of y's row.
fn chain_row(y: u64, x: &[u64], left: &[u64]) -> u64
    requires { Seen x.now left.now }
    ensures { Exactly result (λ s. (t : ℕ) × (u : ℕ) × Shown x.now s t × On y u × (t < u)) }
{
    match latest_start(y) {
        None => 0,
        Some(u) => left[u as usize],
    }
}

// The starts of either row.
fn either(a: u64, b: u64) -> u64
    ensures { Exactly result (λ s. On a s ⊎ On b s) }
{
    a | b
}

// The lesser of each start of a and each of b.
fn lesser(a: u64, b: u64) -> u64
    ensures { Exactly result (Lesser a b) }
{
    match latest_start(a) {
        None => 0,
        Some(l) => match latest_start(b) {
            None => 0,
            Some(m) => { upto(a | b, l.min(m) as u64) }
        },
    }
}

// The starts of a row that are above each start of b.
fn above(a: u64, b: u64) -> u64
    ensures { Exactly result (λ s. On a s × ((t : ℕ) → On b t → s ≤ t → ⊥)) }
{
    match latest_start(b) {
        None => a,
        Some(l) => from(a, l as u64 + 1),
    }
}

// The starts of a row from k on.
fn from(row: u64, k: u64) -> u64
    ensures { Exactly result (λ s. On row s × (k ≤ s)) }
{
    if k < 64 { (row >> k) << k } else { 0 }
}

// The starts of a row up to k.
fn upto(row: u64, k: u64) -> u64
    ensures { Exactly result (λ s. On row s × (s ≤ k)) }
{
    if k < 64 {
        row & (0xffff_ffff_ffff_ffff >> (63 - k))
    } else {
        row
    }
}

// The table of refusals: the number, the place and the entry of each, and the status word for C.
#![tactic(auto)]

ghost use Rattle.std.specs.Prelude.{◌≡◌};
ghost use Rattle.refusal.specs.Table.{number_of, place_of, entry_named, packed_of};

// A refusal by its name in the table. `Syntax` holds the bytes before the fault, `Room` the length needed, the others an index.
#[derive(Clone, Copy, Debug, PartialEq, Eq)]
pub enum Refusal {
    Long,
    Syntax(usize),
    Many,
    Count,
    Entry(usize),
    Size,
    Body(Fault),
    Room(usize),
    State(usize),
    Range(usize),
    Late(usize),
    Record,
    Full,
    Line,
    Absent,
}

// Where a body breaks a rule: the index of the body, 0 for a lone one, and of the entry in it.
#[derive(Clone, Copy, Debug, PartialEq, Eq)]
pub struct Fault {
    pub body: usize,
    pub entry: usize,
}

impl Refusal {
    // The refusal's number in the table.
    pub fn number(self) -> u64
        ensures { result ≡ number_of self }
    {
        match self {
            Refusal::Long => 1,
            Refusal::Syntax(_) => 2,
            Refusal::Many => 3,
            Refusal::Count => 4,
            Refusal::Entry(_) => 5,
            Refusal::Size => 6,
            Refusal::Body(_) => 7,
            Refusal::Room(_) => 8,
            Refusal::State(_) => 9,
            Refusal::Range(_) => 10,
            Refusal::Late(_) => 11,
            Refusal::Record => 12,
            Refusal::Full => 13,
            Refusal::Line => 14,
            Refusal::Absent => 15,
        }
    }

    // The refusal's place, 0 where the table names none, as the status word has it.
    pub fn place(self) -> u64
        ensures { result ≡ place_of self }
    {
        match self {
            Refusal::Syntax(bytes) => bytes as u64,
            Refusal::Entry(index) => index as u64,
            Refusal::Body(fault) => fault.body as u64,
            Refusal::Room(needed) => needed as u64,
            Refusal::State(index) => index as u64,
            Refusal::Range(index) => index as u64,
            Refusal::Late(index) => index as u64,
            Refusal::Long
            | Refusal::Many
            | Refusal::Count
            | Refusal::Size
            | Refusal::Record
            | Refusal::Full
            | Refusal::Line
            | Refusal::Absent => 0,
        }
    }

    // The entry that `Body` names, 0 for every other refusal, as the status word has it.
    pub fn entry(self) -> u64
        ensures { result ≡ entry_named self }
    {
        match self {
            Refusal::Body(fault) => fault.entry as u64,
            Refusal::Long
            | Refusal::Syntax(_)
            | Refusal::Many
            | Refusal::Count
            | Refusal::Entry(_)
            | Refusal::Size
            | Refusal::Room(_)
            | Refusal::State(_)
            | Refusal::Range(_)
            | Refusal::Late(_)
            | Refusal::Record
            | Refusal::Full
            | Refusal::Line
            | Refusal::Absent => 0,
        }
    }

    // The status word for C: the number in bits 0-7, the place in bits 8-39, the entry in bits 40-47. A place that does not fit is the largest that does.
    #[tactic(auto, unfolding(crate::specs::Table::packed_of))]
    pub fn packed(self) -> u64
        ensures { result ≡ packed_of self }
    {
        self.number()
            + 256 * self.place().min(0xffff_ffff)
            + 0x100_0000_0000 * self.entry().min(0xff)
    }
}

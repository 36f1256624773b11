// The rule book: document 01 in definitions, chapter by chapter, in specs/. Here are the types that its definitions and the code share, and the
// figures that the code has of it.
#![tactic(auto)]

pub mod units; // units.rt: days, intervals, ranges
pub mod layout; // layout.rt: where each word of a book stands, widths
pub mod file; // file.rt: the number that a field spells
pub mod accepted; // accepted.rt: the terms that an opening accepts
pub mod numbers; // numbers.rt: the table of numbers, and what each call returns by it

ghost use Rattle.std.specs.Prelude.{◌≡◌};
ghost use Rattle.rulebook.specs.declared.SubmitError.TheVariants.{FileRefused};

// What a value is, hence its range.
#[derive(Clone, Copy, PartialEq, Eq, Debug)]
pub enum Kind {
    Quantity,
    Injection,
    Load,
    Price,
}

// An opening's arguments: N accounts, lag L, horizon H, first day F, change day X. Programs in other languages pass it, hence C's layout.
#[repr(C)]
#[derive(Clone, Copy, PartialEq, Eq, Debug)]
pub struct Terms {
    pub accounts: usize,
    pub lag: usize,
    pub horizon: usize,
    pub first: usize,
    pub change: usize,
}

// Document 02, P2: how an interval's residual load is shared. The first edition drops the odd kWh, the second shares every one.
#[derive(Clone, Copy, PartialEq, Eq, Debug)]
pub enum Edition {
    First,
    Second,
}

// The four sections of a submission file.
#[derive(Clone, Copy, PartialEq, Eq, Debug)]
pub enum Section {
    Vesting,
    Meter,
    Residual,
    Ncc,
}

// What a file is judged by: how many accounts there are, the first open day of vesting and meter rows, that of residual and NCC rows,
// and the last open day.
#[derive(Clone, Copy)]
pub struct Limits {
    pub accounts: usize,
    pub current: usize,
    pub earliest: usize,
    pub last: usize,
}

// Why a file is refused: numbers 4 to 8.
#[derive(Clone, Copy, PartialEq, Eq, Debug)]
pub enum Why {
    NotWhole,
    OutOfRange,
    DayNotOpen,
    Repeated,
    Excess,
}

// A refusal of a file, with its position.
#[derive(Clone, Copy, PartialEq, Eq, Debug)]
pub struct Refusal {
    pub why: Why,
    pub at: usize,
}

// Why an opening is refused.
#[derive(Clone, Copy, PartialEq, Eq, Debug)]
pub enum OpenError {
    BadTerms,
    TooShort,
}

// Why a submission is refused.
#[derive(Clone, Copy, PartialEq, Eq, Debug)]
pub enum SubmitError {
    IllFormed,
    FileRefused(Refusal),
}

impl From<Refusal> for SubmitError {
    ghost from_gives = { λ r e. e ≡ FileRefused r };

    fn from(refusal: Refusal) -> SubmitError {
        SubmitError::FileRefused(refusal)
    }
}

// The figures of an accepted close: its day, its residual count, and the rounding difference: 1,000 times the MSSL's cents less its exact amount.
#[derive(Clone, Copy, PartialEq, Eq, Debug)]
pub struct CloseFigures {
    pub day: usize,
    pub count: usize,
    pub difference: i64,
}

// Why a close is refused; a missing datum with its flag's index.
#[derive(Clone, Copy, PartialEq, Eq, Debug)]
pub enum CloseError {
    BookIllFormed,
    Finished,
    NoRoom,
    DatumMissing(usize),
}

// Why a call on no book is refused: a list's length or a value is outside its range, the words for the output are too few, or no 48 quantities
// keep a profile's limits.
#[derive(Clone, Copy, PartialEq, Eq, Debug)]
pub enum RuleError {
    OutsideRange,
    OutputTooShort,
    TotalImpossible,
}

// Both tranches of a share, in kWh.
#[derive(Clone, Copy, PartialEq, Eq, Debug)]
pub struct Tranches {
    pub first: i64,
    pub second: i64,
}

// What open, submit and close return: number, position of a refusal, an accepted close's day, residual count and rounding difference; every
// other figure is 0.
// Programs in other languages get it, hence C's layout.
#[repr(C)]
#[derive(Clone, Copy)]
pub struct Answer {
    pub number: u64,
    pub position: u64,
    pub day: u64,
    pub count: u64,
    pub difference: i64,
}

// What the reference price call returns: number, and V in cents per MWh; refused, 0. In C's layout, as Answer.
#[repr(C)]
#[derive(Clone, Copy)]
pub struct PriceReturned {
    pub number: u64,
    pub price: i64,
}

// What the tranche call returns: number, tranche 1 and tranche 2 in kWh; refused, 0. In C's layout, as Answer.
#[repr(C)]
#[derive(Clone, Copy)]
pub struct TrancheReturned {
    pub number: u64,
    pub first: i64,
    pub second: i64,
}

// What the profile call returns: number, and 1 where the profile keeps the limits; where it does not, or refused, 0. In C's layout, as Answer.
#[repr(C)]
#[derive(Clone, Copy)]
pub struct ProfileReturned {
    pub number: u64,
    pub keeps: u64,
}

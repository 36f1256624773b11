// Document 01, "The book": where each word stands. The code has these places and widths from here alone; `specs/Layout` has them in one table.
ghost use Rattle.std.specs.Prelude.{◌≡◌, ◌≤◌};
ghost use Rattle.rulebook.specs.Shares.{most_accounts};
ghost use Rattle.rulebook.specs.Layout.{balance_word, cell_place, interval_length, slot_length};

use crate::units::INTERVALS;

// The header's words, to 63.
pub const MARK: usize = 0;

pub const ACCOUNTS: usize = 1;

pub const LAG: usize = 2;

pub const HORIZON: usize = 3;

pub const FIRST_DAY: usize = 4;

pub const NEXT_DAY: usize = 5;

pub const MSSL: usize = 6;

pub const CHANGE_DAY: usize = 7;

// The running sum of the rounding differences (document 02, P5).
pub const DIFFERENCES: usize = 8;

pub const HEADER_SPARES: usize = 9;

pub const HEADER_WORDS: usize = 64;

// Word 0 of every book.
pub const BOOK_MARK: usize = 395;

// An account's balance and its seven zeros.
pub const BALANCE_WORDS: usize = 8;

pub const BALANCE_SPARES: usize = 7;

// An interval's own words, before those of each account.
pub const NCC_LOAD: usize = 0;

pub const NCC_FLAG: usize = 1;

pub const FIRST_NCC_SPARE: usize = 2;

pub const SECOND_NCC_SPARE: usize = 3;

pub const INTERVAL_WORDS: usize = 4;

// An account's words at an interval, its cell: the flag of each row, then its figures. Those of tender or facility t stand 2t words after the
// first, as TVQ + 2 * t.
pub const VESTING_FLAG: usize = 0;

pub const BVQ: usize = 1;

pub const BVP: usize = 2;

pub const TVQ: usize = 3;

pub const TVP: usize = 4;

pub const METER_FLAG: usize = 9;

pub const MEP: usize = 10;

pub const IEQ: usize = 11;

pub const RESIDUAL_FLAG: usize = 18;

pub const UEGQ: usize = 19;

pub const MQ: usize = 20;

pub const RVP1: usize = 21;

pub const RVP2: usize = 22;

pub const ACCOUNT_SPARE: usize = 23;

pub const ACCOUNT_WORDS: usize = 24;

// The words of a row at an interval: its flag and all its figures.
pub const VESTING_WORDS: usize = 9;

pub const METER_WORDS: usize = 9;

pub const RESIDUAL_WORDS: usize = 5;

pub const NCC_WORDS: usize = 2;

// The word of account a's balance: 64 + 8a. After n accounts the slots start.
// Of a number, and not of AcceptedTerms: intervals and slots, which hold no terms, ask too.
pub fn balance_word(a: usize) -> usize
    requires { a ≤ most_accounts }
    ensures { result ≡ balance_word a }
{
    HEADER_WORDS + BALANCE_WORDS * a
}

// Where account a's cell starts in its interval: 4 + 24a.
pub fn cell_place(a: usize) -> usize
    requires { a ≤ most_accounts }
    ensures { result ≡ cell_place a }
{
    INTERVAL_WORDS + ACCOUNT_WORDS * a
}

// The words of an interval of n accounts: 4 + 24n.
pub fn interval_length(n: usize) -> usize
    requires { n ≤ most_accounts }
    ensures { result ≡ interval_length n }
{
    cell_place(n)
}

// The words of a slot of n accounts.
pub fn slot_length(n: usize) -> usize
    requires { n ≤ most_accounts }
    ensures { result ≡ slot_length n }
{
    INTERVALS * interval_length(n)
}

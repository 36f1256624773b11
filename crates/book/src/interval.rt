// Document 01, "The book": an interval's words, its own and those of each account.
ghost use Rattle.std.specs.Prelude.{◌≡◌};
ghost use Rattle.integer.specs.Words.{word};
ghost use Rattle.rulebook.specs.WellFormed.{ncc_fits};
ghost use Rattle.book.specs.Day.{is_closed};
ghost use Rattle.book.specs.Parts.{interval_told};

use crate::cell::account_fits;
use crate::day::Day;
use opening::words::is_zero;
use rulebook::Kind;
use rulebook::layout::{
    ACCOUNT_WORDS, FIRST_NCC_SPARE, INTERVAL_WORDS, NCC_FLAG, NCC_LOAD, SECOND_NCC_SPARE,
};
use rules::ranges::{in_range, is_between};

// NCC load, NCC present, two zeros.
fn ncc_fits(own: &[i64; INTERVAL_WORDS]) -> bool
    ensures { result ≡ ncc_fits (word own.now) }
{
    if !(is_zero(own[FIRST_NCC_SPARE]) & is_zero(own[SECOND_NCC_SPARE])) {
        return false;
    }
    let flag = own[NCC_FLAG];
    if !is_between(0, 1, flag) {
        return false;
    }
    if 0 < flag {
        in_range(Kind::Load, own[NCC_LOAD])
    } else {
        is_zero(own[NCC_LOAD])
    }
}

// "The book": an interval's words at a day, "then 24 words an account".
pub fn interval_fits(interval: &[i64], day: Day) -> bool
    ensures { result ≡ interval_told (is_closed day) interval.now }
{
    let Some((own, accounts)) = interval.split_first_chunk() else {
        return false;
    };
    let (cells, _) = accounts.as_chunks::<ACCOUNT_WORDS>();
    ncc_fits(own) && cells.iter().all(|cell| account_fits(cell, day))
}

// Document 01, "The book": an account's 24 words at an interval. Each test is left at its first word that does not fit.
ghost use Rattle.std.specs.Prelude.{◌≡◌, ◌&&◌, ◌+◌, ◌≤◌};
ghost use Rattle.integer.specs.Words.{word, part};
ghost use Rattle.rulebook.specs.declared.Section.TheVariants.{Residual};
ghost use Rattle.rulebook.specs.Layout.{account_words};
ghost use Rattle.rulebook.specs.Units.{in_range};
ghost use Rattle.rulebook.specs.WellFormed.{row_fits, word_of_row, rows_there, account_fits};
ghost use Rattle.rulebook.specs.RowPairs.{pairs_in_range, rest_zero, pairs_fit};
ghost use Rattle.book.specs.Day.{is_closed};

use crate::day::Day;
use opening::words::{is_blank, is_zero};
use rulebook::Kind;
use rulebook::layout::{
    ACCOUNT_SPARE, ACCOUNT_WORDS, METER_FLAG, RESIDUAL_FLAG, RVP1, UEGQ, VESTING_FLAG,
    VESTING_WORDS,
};
use rules::ranges::{in_range, is_between};

// The words of a vesting row and of a meter row: a flag, then four pairs of values.
type PairRow = [i64; VESTING_WORDS];

// So many words of a cell.
fn words<const N: usize>(cell: &[i64; ACCOUNT_WORDS], at: usize) -> &[i64; N]
    requires { at + N ≤ account_words }
    ensures { result.now ≡ part cell.now at N }
{
    cell[at..].first_chunk().unwrap()
}

// A pair of values is in range.
// Two kinds, and no struct of them: inlined, each is a constant where words are compared.
fn pair_in_range(pair: &[i64; 2], first: Kind, second: Kind) -> bool
    ensures { result ≡ (in_range first (word pair.now 0) && in_range second (word pair.now 1)) }
{
    in_range(first, pair[0]) & in_range(second, pair[1])
}

// Each of the four pairs after a flag is in range. Zero is, so this asks of no flag.
fn pairs_in_range(row: &PairRow, first: Kind, second: Kind) -> bool
    ensures { result ≡ pairs_in_range first second (word row.now) }
{
    let (pairs, _) = row[1..].as_chunks::<2>();
    pairs
        .iter()
        .fold(true, |ok, pair| ok & pair_in_range(pair, first, second))
}

// Each that the flag does not count is zero. No branch goes by the flag: it would be mispredicted.
fn rest_zero(row: &PairRow) -> bool
    ensures { result ≡ rest_zero (word row.now) }
{
    let (pairs, _) = row[1..].as_chunks::<2>();
    let mut ok = true;
    for (p, pair) in pairs.iter().enumerate() {
        // `as`: there is no From of a usize for i64.
        ok = ok & (((p as i64) < row[0]) | is_blank(pair));
    }
    ok
}

// A flag, then four pairs of values: as many as it says, the others zero. A row that is absent and one that has all pairs are asked less: they
// come in runs. Inlined, so that the kinds are constants where words are compared.
#[inline(always)]
fn pairs_fit(row: &PairRow, first: Kind, second: Kind) -> bool
    ensures { result ≡ pairs_fit first second (word row.now) }
{
    let flag = row[0];
    if is_zero(flag) {
        return rest_zero(row);
    }
    if !is_between(0, 4, flag) {
        return false;
    }
    if !pairs_in_range(row, first, second) {
        return false;
    }
    if 3 < flag { true } else { rest_zero(row) }
}

// Residual present; UEGQ, MQ, RVP1, RVP2.
fn residual_fits(cell: &[i64; ACCOUNT_WORDS]) -> bool
    ensures { result ≡ row_fits Residual (word_of_row (word cell.now) Residual) }
{
    let flag = cell[RESIDUAL_FLAG];
    let quantities = words(cell, UEGQ);
    let prices = words(cell, RVP1);
    if !is_between(0, 1, flag) {
        return false;
    }
    if 0 < flag {
        pair_in_range(quantities, Kind::Quantity, Kind::Quantity)
            & pair_in_range(prices, Kind::Price, Kind::Price)
    } else {
        is_blank(quantities) & is_blank(prices)
    }
}

// "days max(F, C − L) to C − 1 have all vesting and meter rows"
fn rows_there(cell: &[i64; ACCOUNT_WORDS]) -> bool
    ensures { result ≡ rows_there (word cell.now) }
{
    !is_zero(cell[VESTING_FLAG]) & !is_zero(cell[METER_FLAG])
}

// "The book": an account's 24 words at an interval of a day.
pub fn account_fits(cell: &[i64; ACCOUNT_WORDS], day: Day) -> bool
    ensures { result ≡ account_fits (is_closed day) (word cell.now) }
{
    if !is_zero(cell[ACCOUNT_SPARE]) {
        return false;
    }
    if !pairs_fit(words(cell, VESTING_FLAG), Kind::Quantity, Kind::Price) {
        return false;
    }
    if !pairs_fit(words(cell, METER_FLAG), Kind::Price, Kind::Injection) {
        return false;
    }
    if !residual_fits(cell) {
        return false;
    }
    match day {
        Day::Closed => rows_there(cell),
        Day::Open => true,
    }
}

// Document 01, "Close": the search for an absent datum.
ghost use Rattle.std.specs.Option.{ForSome};
ghost use Rattle.std.specs.Prelude.{◌≡◌, ◌+◌, ◌≤◌, length};
ghost use Rattle.rulebook.specs.Shares.{most_accounts};
ghost use Rattle.rulebook.specs.Layout.{slot_length};
ghost use Rattle.closing.specs.Search.{first_absent};

use opening::words::is_zero;
use rulebook::layout::{
    ACCOUNT_WORDS, INTERVAL_WORDS, METER_FLAG, NCC_FLAG, RESIDUAL_FLAG, VESTING_FLAG,
    interval_length,
};
use rulebook::units::INTERVALS;

// Where the residual flag of account 0 stands in an interval.
const FIRST_RESIDUAL_FLAG: usize = INTERVAL_WORDS + RESIDUAL_FLAG;

// The first absent flag: interval by interval, accounts ascending, vesting then meter of the slot at `today`; then, where a residual is
// due, NCC and residual by account of the slot at `then`. The break that leaves all walks yields the flag word's index, so these walk indices.
// n, and no terms: `slot_length` and `interval_length` ask for n alone.
pub fn first_absent(book: &[i64], n: usize, today: usize, then: Option<usize>) -> Option<usize>
    requires few { n ≤ most_accounts }
    requires closing { today + slot_length n ≤ length book.now }
    requires settled { ForSome then (λ t. t + slot_length n ≤ length book.now) }
    ensures { result ≡ first_absent book.now n today then }
{
    let size = interval_length(n);
    'search: {
        for i in 0..INTERVALS {
            for a in 0..n {
                let at = today + i * size + (INTERVAL_WORDS + a * ACCOUNT_WORDS);
                if is_zero(book[at + VESTING_FLAG]) {
                    break 'search Some(at + VESTING_FLAG);
                }
                if is_zero(book[at + METER_FLAG]) {
                    break 'search Some(at + METER_FLAG);
                }
            }
            if let Some(start) = then {
                let at = start + i * size;
                if is_zero(book[at + NCC_FLAG]) {
                    break 'search Some(at + NCC_FLAG);
                }
                for a in 0..n {
                    let flag = at + (FIRST_RESIDUAL_FLAG + a * ACCOUNT_WORDS);
                    if is_zero(book[flag]) {
                        break 'search Some(flag);
                    }
                }
            }
        }
        None
    }
}

// Document 01, "A submission file": a submission, taken whole or refused.
ghost use Rattle.std.specs.Prelude.{◌≡◌, suc, ◌≤◌};
ghost use Rattle.rulebook.specs.Units.{last_day};
ghost use Rattle.rulebook.specs.Judging.{limits_of};
ghost use Rattle.rulebook.specs.Promises.{SubmitPromise};

use crate::store::Store;
use book::judge::judge;
use files::judge::judge_file;
use rulebook::accepted::AcceptedTerms;
use rulebook::units::{LAST_DAY, MOST_ACCOUNTS, MOST_HORIZON, MOST_LAG};
use rulebook::{Limits, SubmitError};

// The judge's table: a mark for each account and open day of any book, from L days back to H days ahead.
const MARKS: usize = MOST_ACCOUNTS * (MOST_LAG + MOST_HORIZON);

// What files are judged by, where `next` is the next day to close: days from max(F, C − L) to min(C + H − 1, 36,524).
// Terms and C apart, as the rule book's `limits_of` takes them.
fn limits_of(terms: AcceptedTerms, next: usize) -> Limits
    requires { (terms.first ≤ next) × (next ≤ suc last_day) }
    ensures { result ≡ limits_of terms next }
{
    let accepted = terms.get();
    let earliest = accepted.first.max(next - accepted.lag);
    let last = LAST_DAY.min(next + accepted.horizon - 1);
    Limits {
        accounts: accepted.accounts,
        current: next,
        earliest,
        last,
    }
}

// The submission call: refused where the book is not well formed, or where the file is, which is judged whole before a word is written.
pub fn submit(book: &mut [i64], file: &[u8]) -> Result<(), SubmitError>
    ensures { SubmitPromise book.old file.now result book.new }
{
    let formed = judge(book).ok_or(SubmitError::IllFormed)?;
    let limits = limits_of(formed.terms, formed.next);
    let mut marks = [0u8; MARKS];
    judge_file(limits, file, &mut marks)?;
    let mut store = Store {
        words: book,
        terms: formed.terms,
    };
    store.put_file(file);
    Ok(())
}

// Document 01, "Close": the close of the next day.
ghost use Rattle.std.specs.Prelude.{◌≡◌, ◌+◌, ◌≤◌, length, Some, Ok};
ghost use Rattle.rulebook.specs.Close.{first_missing, residual_count};
ghost use Rattle.rulebook.specs.Promises.{ClosePromise};
ghost use Rattle.book.specs.Judged.{judged_book, Formed};
ghost use Rattle.closing.specs.Written.{Settling};

use crate::search::first_absent;
use crate::slots::settled_day;
use crate::write::{write_book, write_statement};
use book::judge::{FormedBook, judge};
use book::places::slot_start;
use rulebook::{CloseError, CloseFigures, units};

// The flag of the first datum that the close needs and the book lacks.
fn first_missing(book: &[i64], formed: &FormedBook) -> Option<usize>
    requires { Formed book.now formed.now.terms formed.now.next }
    ensures { result ≡ first_missing formed.now.terms book.now formed.now.next }
{
    let today = slot_start(formed.terms, formed.next);
    let then = settled_day(formed).map(|settled| slot_start(formed.terms, settled));
    first_absent(book, formed.terms.get().accounts, today, then)
}

// The residuals that the close settles: 48N, or none.
fn residual_count(formed: &FormedBook) -> usize
    ensures { result ≡ residual_count formed.now.terms formed.now.next }
{
    match settled_day(formed) {
        Some(_) => units::INTERVALS * formed.terms.get().accounts,
        None => 0,
    }
}

// An accepted close.
// Book and `formed` apart: the statement reads the book, the writing changes it; one struct would be lent by `&` and by `&mut`.
fn settle(book: &mut [i64], statement: &mut [i64], formed: &FormedBook) -> CloseFigures
    requires { Settling book.old formed.now.terms formed.now.next × (formed.now.terms.accounts + 1 ≤ length statement.old) }
    ensures { ClosePromise book.old statement.old (Ok result) book.new statement.new }
{
    let difference = write_statement(statement, book, formed);
    write_book(book, statement, difference, formed);
    CloseFigures {
        day: formed.next,
        count: residual_count(formed),
        difference,
    }
}

// The close of a well-formed book: numbers 9, 10 and 11 in this order.
fn close_day(
    book: &mut [i64],
    statement: &mut [i64],
    formed: &FormedBook,
) -> Result<CloseFigures, CloseError>
    requires { judged_book book.old ≡ Some formed.now }
    ensures { ClosePromise book.old statement.old result book.new statement.new }
{
    if units::LAST_DAY < formed.next {
        return Err(CloseError::Finished);
    }
    if statement.len() < formed.terms.get().accounts + 1 {
        return Err(CloseError::NoRoom);
    }
    match first_missing(book, formed) {
        Some(flag) => Err(CloseError::DatumMissing(flag)),
        None => Ok(settle(book, statement, formed)),
    }
}

// The close call: number 3 for a book that is not well formed; a refusal touches neither book nor statement.
pub fn close(book: &mut [i64], statement: &mut [i64]) -> Result<CloseFigures, CloseError>
    ensures { ClosePromise book.old statement.old result book.new statement.new }
{
    let formed = judge(book).ok_or(CloseError::BookIllFormed)?;
    close_day(book, statement, &formed)
}

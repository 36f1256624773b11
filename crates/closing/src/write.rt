// Document 01, "Close": what an accepted close writes.
// Book and `formed` apart: the statement reads the book, the writing changes it; one struct would be lent by `&` and by `&mut`.
ghost use Rattle.std.specs.Prelude.{◌≡◌, ◌+◌, ◌≤◌, length};
ghost use Rattle.rulebook.specs.Layout.{size};
ghost use Rattle.rulebook.specs.Close.{slot_blanked, day_difference, day_closed, statement_written};
ghost use Rattle.amounts.specs.Day.{SlotRanged};
ghost use Rattle.closing.specs.Slots.{slot_words, settled_then};
ghost use Rattle.closing.specs.Written.{Settling, StatementOf};

use crate::ledger::{grow, grow_balances};
use crate::slots::{edition_of, settled_day};
use crate::statement::{mssl_amount, post_amounts};
use amounts::settled::Settled;
use amounts::slot::Slot;
use book::judge::FormedBook;
use book::places::slot_start;
use rulebook::accepted::AcceptedTerms;
use rulebook::layout::{self, slot_length};

// A day's slot of the book.
fn slot_of(book: &[i64], terms: AcceptedTerms, day: usize) -> Slot
    requires { (size terms ≤ length book.now) × (terms.first ≤ day) × SlotRanged terms.accounts (slot_words terms book.now day) }
    ensures words { result.words.now ≡ slot_words terms book.now day }
    ensures accounts { result.accounts ≡ terms.accounts }
{
    let accounts = terms.get().accounts;
    let i = slot_start(terms, day);
    let j = i + slot_length(accounts);
    Slot {
        words: &book[i..j],
        accounts,
    }
}

// The slot of r, if r is not before F, with its edition, R and S.
fn settled_of<'a>(book: &'a [i64], formed: &FormedBook) -> Option<Settled<'a>>
    requires { Settling book.now formed.now.terms formed.now.next }
    ensures { result ≡ settled_then formed.now.terms book.now formed.now.next }
{
    let settled = settled_day(formed)?;
    let then = slot_of(book, formed.terms, settled);
    let edition = edition_of(formed.terms.get(), settled);
    Some(Settled::new(then, edition, then.residuals()))
}

// N + 1 cents go to the statement, the MSSL's last; words beyond are kept. The result is the rounding difference.
pub fn write_statement(statement: &mut [i64], book: &[i64], formed: &FormedBook) -> i64
    requires { Settling book.now formed.now.terms formed.now.next × (formed.now.terms.accounts + 1 ≤ length statement.old) }
    ensures statement { statement.new ≡ statement_written formed.now.terms book.now formed.now.next statement.old }
    ensures difference { result ≡ day_difference formed.now.terms book.now formed.now.next }
{
    let today = slot_of(book, formed.terms, formed.next);
    let then = settled_of(book, formed);
    let difference = post_amounts(statement, today, &then);
    let n = today.accounts;
    statement[n] = mssl_amount(&statement[..n]);
    difference
}

// r's slot is lent onward to be blanked, if r is not before F.
fn blank_settled(book: &mut [i64], formed: &FormedBook)
    requires { size formed.now.terms ≤ length book.old }
    ensures { book.new ≡ slot_blanked formed.now.terms formed.now.next book.old }
{
    if let Some(settled) = settled_day(formed) {
        let a = slot_start(formed.terms, settled);
        let e = a + slot_length(formed.terms.get().accounts);
        let slot = &mut book[a..e];
        slot.fill(0);
    }
}

// Balances grow by the statement, the MSSL's too, and word 8 by the rounding difference; C rises by one; r's slot is blanked.
pub fn write_book(book: &mut [i64], statement: &[i64], difference: i64, formed: &FormedBook)
    requires settling { Settling book.old formed.now.terms formed.now.next }
    requires statement { StatementOf book.old formed.now.terms formed.now.next statement.now }
    requires difference { difference ≡ day_difference formed.now.terms book.old formed.now.next }
    ensures { book.new ≡ day_closed formed.now.terms book.old formed.now.next }
{
    let n = formed.terms.get().accounts;
    grow_balances(book, &statement[..n]);
    grow(book, layout::MSSL, statement[n]);
    grow(book, layout::DIFFERENCES, difference);
    // `as`: there is no From of a usize for i64.
    book[layout::NEXT_DAY] = formed.next as i64 + 1;
    blank_settled(book, formed);
}

// Document 01, "The book": is a lent book well formed?
ghost use Rattle.std.specs.Prelude.{◌≡◌, ◌≤◌, length};
ghost use Rattle.rulebook.specs.Layout.{size};
ghost use Rattle.rulebook.specs.WellFormed.{contents_fit};
ghost use Rattle.book.specs.Judged.{judged_book};

use crate::slots::slots_fit;
use opening::header::{Header, book_size};
use rulebook::accepted::AcceptedTerms;
use rulebook::layout;

// What a well-formed book's header says: its terms, and C, the next day to close.
// Not `Header`: without ghost fields, so that contracts can equate it.
#[derive(Clone, Copy)]
pub struct FormedBook {
    pub terms: AcceptedTerms,
    pub next: usize,
}

// The MSSL's balance, the rounding differences' sum, the accounts' balances and the slots, where the words are no fewer than the size.
fn contents_fit(header: &Header, book: &[i64]) -> bool
    requires { size header.now.terms ≤ length book.now }
    ensures { result ≡ contents_fit header.now.terms book.now header.now.next }
{
    let base = layout::balance_word(header.terms.get().accounts);
    let end = book_size(header.terms);
    header.mssl_fits(book)
        & header.differences_fit(book)
        & header.balances_fit(book)
        & slots_fit(&book[base..end], header.terms, header.closes())
}

// "The book": "It is well formed if ..", of any words whatever. The header comes before the size, so a wild one is refused with no read past
// the end.
pub fn judge(book: &[i64]) -> Option<FormedBook>
    ensures { result ≡ judged_book book.now }
{
    let header = Header::of(book)?;
    if book.len() < book_size(header.terms) {
        return None;
    }
    if !contents_fit(&header, book) {
        return None;
    }
    Some(FormedBook {
        terms: header.terms,
        next: header.next,
    })
}

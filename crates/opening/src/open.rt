// Document 01, "The book": opening.
ghost use Rattle.std.specs.Prelude.{◌≡◌, ◌≤◌, length};
ghost use Rattle.rulebook.specs.Layout.{size};
ghost use Rattle.rulebook.specs.Opening.{header, new_book};
ghost use Rattle.rulebook.specs.Promises.{OpenPromise};

use crate::header::book_size;
use crate::words::clear;
use rulebook::accepted::AcceptedTerms;
use rulebook::{OpenError, Terms, layout};

// 395, N, L, H, F, C = F, the MSSL's balance, X and the rounding differences' sum: the words before the header's zeros. No `From` makes words of
// numbers; `as` is proved to lose nothing.
fn new_header(terms: AcceptedTerms) -> [i64; layout::HEADER_SPARES]
    ensures { result ≡ header terms }
{
    let terms = terms.get();
    let next = terms.first as i64;
    [
        layout::BOOK_MARK as i64,
        terms.accounts as i64,
        terms.lag as i64,
        terms.horizon as i64,
        terms.first as i64,
        next,
        0,
        terms.change as i64,
        0,
    ]
}

// "Opening writes every word of the size": the header, then zeros.
fn put_new_book(book: &mut [i64], terms: AcceptedTerms)
    requires { size terms ≤ length book.old }
    ensures { book.new ≡ new_book terms book.old }
{
    book[..layout::HEADER_SPARES].copy_from_slice(&new_header(terms));
    let end = book_size(terms);
    clear(&mut book[layout::HEADER_SPARES..end]);
}

// The opening call, "The book" and "Numbers returned": 1 for terms outside their ranges, then 2 for too few words, and the book is as it was;
// else every word of the size is written, and no word beyond.
pub fn open_book(book: &mut [i64], terms: Terms) -> Result<(), OpenError>
    ensures { OpenPromise terms book.old result book.new }
{
    let accepted = AcceptedTerms::new(terms).ok_or(OpenError::BadTerms)?;
    if book.len() < book_size(accepted) {
        return Err(OpenError::TooShort);
    }
    put_new_book(book, accepted);
    Ok(())
}

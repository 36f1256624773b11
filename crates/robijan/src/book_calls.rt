// The calls on a book.
ghost use Rattle.std.specs.Prelude.{◌≡◌};
ghost use Rattle.rulebook.specs.Numbers.{of_open, of_submit, of_close};
ghost use Rattle.rulebook.specs.Opening.{opened};
ghost use Rattle.rulebook.specs.Submit.{submitted};
ghost use Rattle.rulebook.specs.Close.{closed};
ghost use Rattle.robijan.specs.Returned.{size_returned, judge_number};

use book::judge::judge;
use closing::close::close;
use opening::header::book_size;
use opening::open::open_book;
use rulebook::accepted::AcceptedTerms;
use rulebook::numbers::{ACCEPTED, NOT_WELL_FORMED, OUTSIDE_RANGE};
use rulebook::{Answer, Terms};
use submission::submit::submit;

// The number of a call, and a book's size in words. Programs in other languages get it, hence C's layout, and numbers (`as`: every usize fits
// u64, and there is no From between them).
#[repr(C)]
#[derive(Clone, Copy)]
pub struct BookSize {
    pub number: u64,
    pub words: u64,
}

// Opens a book in the words lent.
pub fn robijan_open(book: &mut [i64], terms: Terms) -> Answer
    ensures answered { result ≡ of_open (opened terms book.old).answer }
    ensures book_after { book.new ≡ (opened terms book.old).words }
{
    open_book(book, terms).into()
}

// Submits a file to a book.
pub fn robijan_submit(book: &mut [i64], file: &[u8]) -> Answer
    ensures answered { result ≡ of_submit (submitted book.old file.now).answer }
    ensures book_after { book.new ≡ (submitted book.old file.now).words }
{
    submit(book, file).into()
}

// Closes a book's next day.
pub fn robijan_close(book: &mut [i64], statement: &mut [i64]) -> Answer
    ensures answered { result ≡ of_close (closed book.old statement.old).answer }
    ensures book_after { book.new ≡ (closed book.old statement.old).words }
    ensures statement_after { statement.new ≡ (closed book.old statement.old).statement }
{
    close(book, statement).into()
}

// Is a lent book well formed? 0, or 3.
pub fn robijan_judge(book: &[i64]) -> u64
    ensures { result ≡ judge_number book.now }
{
    match judge(book) {
        Some(_) => ACCEPTED,
        None => NOT_WELL_FORMED,
    }
}

// The words that a book of these terms takes; terms that an opening refuses are refused as by it.
pub fn robijan_book_size(terms: Terms) -> BookSize
    ensures { result ≡ size_returned terms }
{
    match AcceptedTerms::new(terms) {
        Some(terms) => BookSize {
            number: ACCEPTED,
            words: book_size(terms) as u64,
        },
        None => BookSize {
            number: OUTSIDE_RANGE,
            words: 0,
        },
    }
}

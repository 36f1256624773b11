// The calls on a book. Each is the function of its name in the crate `robijan`, whose clauses it states again.
ghost use Rattle.std.specs.Prelude.{◌≡◌};
ghost use Rattle.rulebook.specs.Numbers.{of_open, of_submit, of_close};
ghost use Rattle.rulebook.specs.Opening.{opened};
ghost use Rattle.rulebook.specs.Submit.{submitted};
ghost use Rattle.rulebook.specs.Close.{closed};
ghost use Rattle.robijan.specs.Returned.{size_returned, judge_number};

use robijan::book_calls::BookSize;
use rulebook::{Answer, Terms};

// Opens a book in the words lent.
#[unsafe(no_mangle)]
pub extern "C" fn robijan_open(book: &mut [i64], terms: Terms) -> Answer
    ensures answered { result ≡ of_open (opened terms book.old).answer }
    ensures book_after { book.new ≡ (opened terms book.old).words }
{
    robijan::book_calls::robijan_open(book, terms)
}

// Submits a file to a book.
#[unsafe(no_mangle)]
pub extern "C" fn robijan_submit(book: &mut [i64], file: &[u8]) -> Answer
    ensures answered { result ≡ of_submit (submitted book.old file.now).answer }
    ensures book_after { book.new ≡ (submitted book.old file.now).words }
{
    robijan::book_calls::robijan_submit(book, file)
}

// Closes a book's next day.
#[unsafe(no_mangle)]
pub extern "C" fn robijan_close(book: &mut [i64], statement: &mut [i64]) -> Answer
    ensures answered { result ≡ of_close (closed book.old statement.old).answer }
    ensures book_after { book.new ≡ (closed book.old statement.old).words }
    ensures statement_after { statement.new ≡ (closed book.old statement.old).statement }
{
    robijan::book_calls::robijan_close(book, statement)
}

// Is a lent book well formed? 0, or 3.
#[unsafe(no_mangle)]
pub extern "C" fn robijan_judge(book: &[i64]) -> u64
    ensures { result ≡ judge_number book.now }
{
    robijan::book_calls::robijan_judge(book)
}

// The words that a book of these terms takes; terms that an opening refuses are refused as by it.
#[unsafe(no_mangle)]
pub extern "C" fn robijan_book_size(terms: Terms) -> BookSize
    ensures { result ≡ size_returned terms }
{
    robijan::book_calls::robijan_book_size(terms)
}

// Document 01, "Program `settle`": what it does with its input, item by item. Each call puts together the line to print.
#![tactic(auto)]

ghost use Rattle.std.specs.Prelude.{◌≡◌, ◌+◌, ◌≤◌, ◌<◌, ◌^◌, length, take};
ghost use Rattle.integer.specs.Words.{part};
ghost use Rattle.rulebook.specs.Submit.{submitted};
ghost use Rattle.rulebook.specs.Close.{closed};
ghost use Rattle.rulebook.specs.Numbers.{of_submit, of_close};
ghost use Rattle.console.specs.Lines.{line_room, submit_line, close_line};
ghost use Rattle.interpreter.specs.Interpreter.{most_accounts, new_statement, Begins, Performs};

use closing::close::close;
use console::input::{Item, OPENING, item_of, opening_terms, wanted};
use console::line::Line;
use console::lines::{bad_line, close_line, open_line, submit_line};
use opening::open::open_book;
use rulebook::units::MOST_ACCOUNTS;
use submission::submit::submit;

// The words of the program's book.
pub const BOOK_WORDS: usize = 5072;

// The words of a statement with room for every book's: an amount an account, and the MSSL's.
const STATEMENT_WORDS: usize = MOST_ACCOUNTS + 1;

// What an opening or an item hands to the next: how many accounts the book has, and where the next item stands in the input. `Ok` where the
// input is read on from there, `Err` where the run ended. No ghost field bounds the accounts, since contracts equate what is handed on.
#[derive(Clone, Copy)]
pub struct Next {
    pub accounts: usize,
    pub position: u64,
}

// The opening; s has its five bytes, or what there is of them. Book and line are lent apart, here and below: a call of the library takes the
// one, a line is put into the other. `as`, since every usize fits u64 and there is no From between them.
pub fn begin<const ROOM: usize>(
    book: &mut [i64],
    s: &[u8],
    line: &mut Line<ROOM>,
) -> Result<Next, Next>
    requires { line_room ≤ ROOM }
    ensures { Begins book.old s.now result book.new line.new }
{
    let unopened = Next {
        accounts: 0,
        position: OPENING as u64,
    };
    if s.len() < OPENING {
        bad_line(line, 0);
        return Err(unopened);
    }
    let terms = opening_terms(s);
    let answer = open_book(book, terms);
    open_line(line, answer);
    match answer {
        Ok(()) => Ok(Next {
            accounts: terms.accounts,
            ..unopened
        }),
        Err(_) => Err(unopened),
    }
}

// A submission of a file.
fn submit_file<const ROOM: usize>(book: &mut [i64], file: &[u8], line: &mut Line<ROOM>)
    requires { line_room ≤ ROOM }
    ensures { (book.new ≡ (submitted book.old file.now).words) × (line.new ≡ submit_line (of_submit (submitted book.old file.now).answer)) }
{
    let answer = submit(book, file);
    submit_line(line, answer);
}

// A close; the amounts are those of the accounts and the MSSL's.
fn close_next<const ROOM: usize>(book: &mut [i64], accounts: usize, line: &mut Line<ROOM>)
    requires { (accounts ≤ most_accounts) × (line_room ≤ ROOM) }
    ensures { (book.new ≡ (closed book.old new_statement).words) × (line.new ≡ close_line (of_close (closed book.old new_statement).answer) (take (accounts + 1) (closed book.old new_statement).statement)) }
{
    let mut statement = [0i64; STATEMENT_WORDS];
    let answer = close(book, &mut statement);
    let stop = accounts + 1;
    close_line(line, answer, &statement[..stop]);
}

// The item that the last turn named; s is the input from its position on, at least as far as the item goes.
pub fn perform<const ROOM: usize>(
    book: &mut [i64],
    turn: Next,
    s: &[u8],
    line: &mut Line<ROOM>,
) -> Result<Next, Next>
    requires { (turn.accounts ≤ most_accounts) × (turn.position < 2 ^ 63) × (line_room ≤ ROOM) }
    ensures { Performs turn.accounts turn.position book.old s.now result book.new line.new }
{
    let accounts = turn.accounts;
    let position = turn.position + wanted(s) as u64;
    let next = Next { accounts, position };
    match item_of(s) {
        Item::Close => {
            close_next(book, accounts, line);
            Ok(next)
        }
        Item::Submit(n) => {
            let stop = 3 + n;
            submit_file(book, &s[3..stop], line);
            Ok(next)
        }
        Item::Bad(k) => {
            bad_line(line, turn.position + k as u64);
            Err(next)
        }
        Item::End => {
            line.clear();
            Err(next)
        }
    }
}

// The calls on the book. Each frame says how many of the book's words are lent, from the first on.
ghost use Rattle.std.specs.Prelude.{◌≡◌, set};
ghost use Rattle.rulebook.specs.Submit.{submitted};
ghost use Rattle.rulebook.specs.Close.{closed};
ghost use Rattle.replay.specs.Frames.{Lent, Opens, Submits, Closes, SubmittedFrom, ClosedWith, Poked};

use crate::{input, output};
use robijan::book_calls::{robijan_close, robijan_open, robijan_submit};
use rulebook::Terms;

// Three tranches, four facilities, residual and NCC rows of a day of 32 accounts are fewer.
const FILE_BYTES: usize = 131072;

const STATEMENT_WORDS: usize = 40;

// One word written; none by an index past the end. Not by `get_mut`, whose two ways the proof would have to put together again as one `set`.
fn write_word(book: &mut [i64], i: usize, z: i64)
    ensures { book.new ≡ set book.old i z }
{
    if i < book.len() {
        book[i] = z;
    }
}

// No call: one word of the book is written.
pub fn poke(book: &mut [i64])
    ensures { Poked book.old book.new }
{
    let i = input::count(book);
    let z = input::word();
    write_word(book, i, z);
}

// Here and below, functions and no closures as `with_list` takes: their contracts say what the lent words become.
fn open_lent(lent: &mut [i64])
    ensures { Opens lent.old lent.new }
{
    let terms = Terms {
        accounts: input::long(),
        lag: input::long(),
        horizon: input::long(),
        first: input::long(),
        change: input::long(),
    };
    let answer = robijan_open(lent, terms);
    output::name(b"open");
    output::figure(answer.number);
    output::figure(answer.position);
    output::digest(lent);
    output::end();
}

pub fn open(book: &mut [i64])
    ensures { Lent Opens book.old book.new }
{
    let n = input::count(book);
    open_lent(&mut book[..n]);
}

fn submit_lent(lent: &mut [i64], file: &[u8])
    ensures { lent.new ≡ (submitted lent.old file.now).words }
{
    let answer = robijan_submit(lent, file);
    output::name(b"submit");
    output::figure(answer.number);
    output::figure(answer.position);
    output::digest(lent);
    output::file_digest(file);
    output::end();
}

fn submit_from(lent: &mut [i64], space: &mut [u8])
    ensures { SubmittedFrom lent.old lent.new space.old space.new }
{
    let n = input::file(space);
    submit_lent(lent, &space[..n]);
}

pub fn submit(book: &mut [i64])
    ensures { Lent Submits book.old book.new }
{
    let n = input::count(book);
    let mut space = [0u8; FILE_BYTES];
    submit_from(&mut book[..n], &mut space);
}

fn close_lent(lent: &mut [i64], statement: &mut [i64])
    ensures { (lent.new ≡ (closed lent.old statement.old).words) × (statement.new ≡ (closed lent.old statement.old).statement) }
{
    let answer = robijan_close(lent, statement);
    output::name(b"close");
    output::figure(answer.number);
    output::figure(answer.position);
    output::figure(answer.day);
    output::figure(answer.count);
    output::figure(answer.difference);
    output::digest(lent);
    output::words(statement);
    output::end();
}

fn close_with(lent: &mut [i64], space: &mut [i64])
    ensures { ClosedWith lent.old space.old lent.new space.new }
{
    let n = input::count(space);
    close_lent(lent, &mut space[..n]);
}

pub fn close(book: &mut [i64])
    ensures { Lent Closes book.old book.new }
{
    let n = input::count(book);
    let z = input::word();
    let mut space = [z; STATEMENT_WORDS];
    close_with(&mut book[..n], &mut space);
}

// The program `settle` of document 01: it reads, hands what it read to the calls of `interpreter`, and writes the line that they made. What an
// item is and does, where the next one stands and whether there is one, is proved there and in `console`.
#![tactic(auto)]

ghost use Rattle.std.specs.Prelude.{◌≡◌, ◌≤◌, ◌<◌, ◌^◌, length, take};
ghost use Rattle.console.specs.Input.{opening_bytes, longest_item, item_bytes, WithinItem};
ghost use Rattle.interpreter.specs.Interpreter.{most_accounts, new_words};
ghost use Rattle.interpreter.specs.Running.{SomeItem, Steps, Runs};

use console::input::{LONGEST_ITEM, OPENING, wanted};
use console::line::{LINE_ROOM, Line};
use console::lines::print;
use interpreter::{BOOK_WORDS, Next, begin, perform};

// Standard input.
const STDIN_FILENO: i32 = 0;

// More positions than any input has (`farthest`): a proved loop has to end.
const LIMIT: u64 = 9_000_000_000_000_000_000;

// Reads on as far as the bytes at hand tell, and answers how many there are then. A slice, here and below, that is asked to have room: parts of
// it are lent on.
fn read_on(bytes: &mut [u8], got: usize) -> usize
    requires { (longest_item ≤ length bytes.old) × WithinItem got bytes.old }
    ensures { WithinItem result bytes.new }
{
    let end = wanted(&bytes[..got]);
    got + io::read_full(STDIN_FILENO, &mut bytes[got..end])
}

// Reads an item: the command, a submission's length, its file. Answers how many bytes there are: those of an item and no more.
fn read_item(bytes: &mut [u8]) -> usize
    requires { longest_item ≤ length bytes.old }
    ensures { (result ≤ longest_item) × (item_bytes (take result bytes.new) ≡ take result bytes.new) }
{
    let command = read_on(bytes, 0);
    let length = read_on(bytes, command);
    read_on(bytes, length)
}

// The next item.
fn step(
    book: &mut [i64],
    turn: Next,
    bytes: &mut [u8],
    line: &mut Line<LINE_ROOM>,
) -> Result<Next, Next>
    requires { (turn.accounts ≤ most_accounts) × (turn.position < 2 ^ 63) × (longest_item ≤ length bytes.old) }
    ensures { Steps SomeItem turn.accounts turn.position book.old result book.new line.new }
{
    let got = read_item(bytes);
    perform(book, turn, &bytes[..got], line)
}

// The opening, and then item after item while the last one hands on where the next stands. Answers whether every line was written.
fn run(book: &mut [i64], opening: &[u8], bytes: &mut [u8], line: &mut Line<LINE_ROOM>) -> bool
    requires { (book.old ≡ new_words) × (length opening.now ≤ opening_bytes) × (longest_item ≤ length bytes.old) }
    ensures { Runs SomeItem new_words opening.now result book.new line.new }
{
    let mut next = begin(book, opening, line);
    while print(line) {
        let Ok(turn) = next else {
            return true;
        };
        if LIMIT <= turn.position {
            return true;
        }
        next = step(book, turn, bytes, line);
    }
    false
}

fn main() {
    let mut book = [0i64; BOOK_WORDS];
    let mut opening = [0u8; OPENING];
    let mut bytes = [0u8; LONGEST_ITEM];
    let mut line = Line::new();
    let got = io::read_full(STDIN_FILENO, &mut opening);
    run(&mut book, &opening[..got], &mut bytes, &mut line);
}

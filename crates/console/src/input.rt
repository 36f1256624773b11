// Document 01, "Program `settle`": its input, told from the bytes at hand.
ghost use Rattle.std.specs.Prelude.{◌≡◌, ◌+◌, ◌≤◌, ◌<◌, length};
ghost use Rattle.console.specs.Input.{opening_bytes, opening_terms, longest_item, allowed_length, item_of, wanted as Input·wanted};

use rulebook::Terms;
use rulebook::file::number;

pub const OPENING: usize = 5;

pub const CLOSE: u8 = 0x43;

pub const SUBMIT: u8 = 0x53;

pub const LONGEST_FILE: usize = 16384;

pub const LONGEST_ITEM: usize = 3 + LONGEST_FILE;

// What the rest of the input begins with: a close, a submission with its file's length, an item that is cut short, over-long or unknown, with
// its place in the rest, or nothing.
#[derive(Clone, Copy)]
pub enum Item {
    Close,
    Submit(usize),
    Bad(usize),
    End,
}

// The opening's arguments.
pub fn opening_terms(s: &[u8]) -> Terms
    requires { opening_bytes ≤ length s.now }
    ensures { result ≡ opening_terms s.now }
{
    Terms {
        accounts: usize::from(s[0]),
        lag: usize::from(s[1]),
        horizon: usize::from(s[2]),
        first: number(s, 3, 2),
        change: 0,
    }
}

// A submission's length, where the two bytes are there and it is allowed.
fn file_length(s: &[u8]) -> Option<usize>
    ensures { result ≡ allowed_length s.now }
{
    if s.len() < 3 {
        return None;
    }
    let n = number(s, 1, 2);
    if n <= LONGEST_FILE { Some(n) } else { None }
}

// What the rest of the input begins with.
pub fn item_of(s: &[u8]) -> Item
    ensures { result ≡ item_of s.now }
{
    match s {
        [] => Item::End,
        [CLOSE, ..] => Item::Close,
        [SUBMIT, ..] => match file_length(s) {
            Some(n) if 3 + n <= s.len() => Item::Submit(n),
            _ => Item::Bad(1),
        },
        _ => Item::Bad(0),
    }
}

// How many bytes to have before the item can be told: one, with a submission's length three, with its file all.
pub fn wanted(s: &[u8]) -> usize
    ensures { (result ≡ Input·wanted s.now) × (result ≤ longest_item) }
{
    match s {
        [SUBMIT, ..] => match file_length(s) {
            Some(n) => 3 + n,
            None => 3,
        },
        _ => 1,
    }
}

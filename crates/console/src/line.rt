// A line of the program, put together in place: it holds its bytes, so nothing is allocated.
ghost use Rattle.std.specs.Prelude.{◌≡◌, [], ◌∷◌, ◌++◌, ◌+◌, ◌≤◌, ◌<◌, length};
ghost use Rattle.console.specs.Lines.{space};
ghost use Rattle.console.specs.Written.{Put};

use itoa::{Buffer, Integer};
use std::marker::Model;

// Bytes enough for every line.
pub const LINE_ROOM: usize = 1024;

// Puts a text into lent bytes, from an index on, and answers the index past it.
pub fn put_text(bytes: &mut [u8], at: usize, text: &[u8]) -> usize
    requires { at + length text.now ≤ length bytes.old }
    ensures { Put bytes.old at text.now bytes.new result }
{
    let end = at + text.len();
    bytes[at..end].copy_from_slice(text);
    end
}

// The first `end` of the bytes.
#[derive(Drop)]
pub struct Line<const ROOM: usize> {
    bytes: [u8; ROOM],
    end: usize,
}

impl<const ROOM: usize> Model for Line<ROOM> {
    ghost use Rattle.std.specs.Prelude.{ℕ, List, ◌≤◌, take};

    ghost Value = { List ℕ };

    ghost view = { λ l. take l.end l.bytes };

    ghost invariant = { λ l. l.end ≤ ROOM };
}

impl<const ROOM: usize> Line<ROOM> {
    pub fn new() -> Line<ROOM>
        ensures { result ≡ [] }
    {
        Line {
            bytes: [0; ROOM],
            end: 0,
        }
    }

    pub fn clear(&mut self)
        ensures { self.new ≡ [] }
    {
        self.end = 0;
    }

    pub fn as_bytes(&self) -> &[u8]
        ensures { result.now ≡ self.now }
    {
        &self.bytes[..self.end]
    }

    // A text.
    pub fn put(&mut self, text: &[u8])
        requires { length self.old + length text.now ≤ ROOM }
        ensures after { self.new ≡ self.old ++ text.now }
        ensures grown { length self.new ≡ length self.old + length text.now }
    {
        let end = put_text(&mut self.bytes, self.end, text);
        self.end = end;
    }

    // A number.
    pub fn put_digits<I: Integer>(&mut self, n: I)
        requires { length self.old + length (I.text n) ≤ ROOM }
        ensures after { self.new ≡ self.old ++ I.text n }
        ensures grown { length self.new ≡ length self.old + length (I.text n) }
    {
        let mut buffer = Buffer::new();
        let digits = buffer.format(n).as_bytes();
        self.put(digits);
    }

    // One space and a number.
    pub fn put_number<I: Integer>(&mut self, n: I)
        requires { length self.old + 1 + I.MAX_STR_LEN ≤ ROOM }
        ensures after { self.new ≡ self.old ++ space ∷ I.text n }
        ensures grown { length self.new ≤ length self.old + 1 + I.MAX_STR_LEN }
    {
        let mut buffer = Buffer::new();
        self.put(b" ");
        self.put(buffer.format(n).as_bytes());
    }
}

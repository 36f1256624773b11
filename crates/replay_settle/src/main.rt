// A test program: inputs of the program `settle` framed on standard input, and for each the lines that `settle` prints on it, then a line `end`.
// A frame is a length of 2 bytes, little-endian, and so many bytes of an input. Its files stdin and stdout are what the second
// implementation, reference/, generated.
#![tactic(auto)]

ghost use Rattle.std.specs.Prelude.{◌≡◌, ◌≤◌, ◌<◌, length, drop};
ghost use Rattle.interpreter.specs.Interpreter.{most_accounts, new_words, Performs};
ghost use Rattle.interpreter.specs.Running.{RestOf, RunLeaves};

use console::line::{LINE_ROOM, Line};
use console::lines::print;
use interpreter::{BOOK_WORDS, Next, begin, perform};

// Standard input and output.
const STDIN_FILENO: i32 = 0;

const STDOUT_FILENO: i32 = 1;

// The longest input.
const FRAME_BYTES: usize = 40000;

// A frame's length, or `most` where it is more; the lower byte comes first.
fn length_of(field: [u8; 2], most: usize) -> usize
    ensures { result ≤ most }
{
    usize::from(u16::from_le_bytes(field)).min(most)
}

// The item that the last turn named, of an input in memory (its bound is asked here and of the two calls below: a type around the slice is no
// plainer): what `printed_from` says of it.
fn item(book: &mut [i64], turn: Next, s: &[u8], line: &mut Line<LINE_ROOM>) -> Result<Next, Next>
    requires { (turn.accounts ≤ most_accounts) × (turn.position ≤ length s.now) × (length s.now ≤ 40000) }
    ensures { Performs turn.accounts turn.position book.old (drop turn.position s.now) result book.new line.new }
{
    // `as`: there is no From of a u64 for usize.
    let from = turn.position as usize;
    perform(book, turn, &s[from..], line)
}

// An input on a new book. A loop of its own beside that of `settle`: its items are at hand, those are read, and the contracts differ.
fn run(book: &mut [i64], s: &[u8], line: &mut Line<LINE_ROOM>)
    requires { (book.old ≡ new_words) × (length s.now ≤ 40000) }
    ensures { RunLeaves (RestOf s.now) new_words s.now book.new line.new }
{
    let mut next = begin(book, s, line);
    while print(line) {
        let Ok(turn) = next else {
            return;
        };
        next = item(book, turn, s, line);
    }
}

// An input, and then `end`.
fn replay(s: &[u8])
    requires { length s.now ≤ 40000 }
{
    let mut book = [0i64; BOOK_WORDS];
    let mut line = Line::new();
    run(&mut book, s, &mut line);
    io::write_all(STDOUT_FILENO, b"end\n");
}

// One frame; false at the end of the stream.
fn step(space: &mut [u8; FRAME_BYTES]) -> bool {
    let mut field = [0u8; 2];
    if io::read_full(STDIN_FILENO, &mut field) < 2 {
        return false;
    }
    let n = length_of(field, space.len());
    let got = io::read_full(STDIN_FILENO, &mut space[..n]);
    replay(&space[..got]);
    true
}

// The frames, one after another; up to u64::MAX, since a proved loop has to end.
fn replay_all(space: &mut [u8; FRAME_BYTES]) {
    for _ in 0..u64::MAX {
        if !step(space) {
            break;
        }
    }
}

fn main() {
    let mut space = [0u8; FRAME_BYTES];
    replay_all(&mut space);
}

// A test program: calls of the library `robijan` framed on standard input, a line for what each answers, and a digest or the words of all
// that was lent to it. Its files stdin and stdout are what the second implementation, reference/, generated.
//
// A frame is a byte and its fields, little-endian: counts of 4 bytes; N, L, H, F, X and words of 8; a list after its count, a file after its
// length. `lent` counts the words lent of the book, which stays from frame to frame; `fill` is each word of a statement or output before; fields,
// and an output of bytes before, are files.
//
//     P index, word               the book's word is written      V MEP, IEQ                  price
//     O lent, N, L, H, F, X       open                            R R, fill, UEGQ, count      share
//     S lent, file                submit                          E R, fill, UEGQ, count      share of the second edition
//     C lent, fill, count         close                           T RVQ, BVQ, MQ              tranche
//     Q T, D, quantities          profile                         d, w, s: day                date, weekday, statement day
//     K amounts, output           pack                            b, f: day, holidays         business day, final statement
//     U fields, fill, count       unpack                          m year, month, holidays     residual due day
//                                                                 y year, month, day          day
//
// A line has the call's name, number and figures, then what was lent: the digest of the book, a file or a list, the words of a statement or
// an output.
#![tactic(auto)]

mod input; // input.rt: fields of standard input
mod output; // output.rt: lines of standard output, digests
mod book_calls; // book_calls.rt: open, submit, close
mod rules_calls; // rules_calls.rt: price, share, tranche, profile
mod packed_calls; // packed_calls.rt: pack, unpack
mod calendar_calls; // calendar_calls.rt: the seven calendar calls

ghost use Rattle.std.specs.Prelude.{◌≡◌};
ghost use Rattle.replay.specs.Commands.{bookless, starts};
ghost use Rattle.replay.specs.Frames.{Framed, Stepped, Ran};

use book_calls::{close, open, poke, submit};
use calendar_calls::calendar_call;
use packed_calls::{pack, unpack};
use rulebook::Edition;
use rules_calls::{price, profile, share, tranche};

// The words of the one book: as many as N = 4, L = 75, H = 92 take, and some beyond. The largest book of all, 6,188,672 words, is more than
// a stack of 8 MB has.
const BOOK_WORDS: usize = 802000;

// A call on no book; false for a byte that is none. No enum of commands: each byte would be matched twice, to name the call and to make it.
fn call_without_book(command: u8) -> bool
    ensures { result ≡ bookless command }
{
    match command {
        b'V' => price(),
        b'R' => share(Edition::First),
        b'E' => share(Edition::Second),
        b'T' => tranche(),
        b'Q' => profile(),
        b'K' => pack(),
        b'U' => unpack(),
        _ => return calendar_call(command),
    }
    true
}

// One frame, by its byte; false for a byte that starts none. No enum of commands, for the same reason.
fn frame(book: &mut [i64], command: u8) -> bool
    ensures { Framed command book.old book.new × (result ≡ starts command) }
{
    match command {
        b'P' => poke(book),
        b'O' => open(book),
        b'S' => submit(book),
        b'C' => close(book),
        _ => return call_without_book(command),
    }
    true
}

// The next frame; false at the end of the input, or at a byte that starts none.
fn step(book: &mut [i64]) -> bool
    ensures { Stepped result book.old book.new }
{
    match input::command() {
        Some(command) => frame(book, command),
        None => false,
    }
}

// The frames, one after another; up to u64::MAX, since a proved loop has to end.
fn run(book: &mut [i64])
    ensures { Ran book.old book.new }
{
    for _ in 0..u64::MAX {
        if !step(book) {
            break;
        }
    }
}

fn main() {
    let mut book = [0i64; BOOK_WORDS];
    run(&mut book);
}

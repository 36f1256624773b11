// Document 01, "Program `settle`": its lines.
ghost use Rattle.std.specs.Prelude.{◌≡◌, [], ◌∷◌, ◌+◌, ◌*◌, ◌≤◌, length};
ghost use Rattle.rulebook.specs.Numbers.{of_open, of_submit, of_close};
ghost use Rattle.console.specs.Decimal.{decimal};
ghost use Rattle.console.specs.Lines.{line_of, answer_line, open_line, submit_line, closed_line, close_line, bad_line};

pub use crate::line::LINE_ROOM;
use crate::line::Line;
use rulebook::numbers::ACCEPTED;
use rulebook::{Answer, CloseError, CloseFigures, OpenError, SubmitError};

// Standard output.
const STDOUT_FILENO: i32 = 1;

// A word, number and position.
fn numbers_line<const ROOM: usize>(line: &mut Line<ROOM>, word: &[u8], number: u64, position: u64)
    requires { length word.now + 43 ≤ ROOM }
    ensures { line.new ≡ line_of word.now (decimal number ∷ decimal position ∷ []) }
{
    line.clear();
    line.put(word);
    line.put_number(number);
    line.put_number(position);
    line.put(b"\n");
}

fn answer_line<const ROOM: usize>(line: &mut Line<ROOM>, word: &[u8], answer: Answer)
    requires { length word.now + 43 ≤ ROOM }
    ensures { line.new ≡ answer_line word.now answer }
{
    numbers_line(line, word, answer.number, answer.position);
}

// `close 0`, day, count and the amounts.
fn closed_line<const ROOM: usize>(line: &mut Line<ROOM>, figures: CloseFigures, amounts: &[i64])
    requires { 69 + 21 * length amounts.now ≤ ROOM }
    ensures { line.new ≡ closed_line figures.day figures.count amounts.now }
{
    line.clear();
    line.put(b"close");
    line.put_number(ACCEPTED);
    line.put_number(figures.day);
    line.put_number(figures.count);
    for amount in amounts {
        line.put_number(*amount);
    }
    line.put(b"\n");
}

// `open`, number and position.
pub fn open_line<const ROOM: usize>(line: &mut Line<ROOM>, answer: Result<(), OpenError>)
    requires { 64 ≤ ROOM }
    ensures { line.new ≡ open_line (of_open answer) }
{
    answer_line(line, b"open", answer.into());
}

// `submit`, number and position.
pub fn submit_line<const ROOM: usize>(line: &mut Line<ROOM>, answer: Result<(), SubmitError>)
    requires { 64 ≤ ROOM }
    ensures { line.new ≡ submit_line (of_submit answer) }
{
    answer_line(line, b"submit", answer.into());
}

// `close`, number and position; where it was accepted, 0, day, count and the amounts.
pub fn close_line<const ROOM: usize>(
    line: &mut Line<ROOM>,
    answer: Result<CloseFigures, CloseError>,
    amounts: &[i64],
)
    requires { 69 + 21 * length amounts.now ≤ ROOM }
    ensures { line.new ≡ close_line (of_close answer) amounts.now }
{
    match answer {
        Ok(figures) => closed_line(line, figures, amounts),
        Err(_) => answer_line(line, b"close", answer.into()),
    }
}

// `bad` and the first position of an item.
pub fn bad_line<const ROOM: usize>(line: &mut Line<ROOM>, position: u64)
    requires { 64 ≤ ROOM }
    ensures { line.new ≡ bad_line position }
{
    line.clear();
    line.put(b"bad");
    line.put_number(position);
    line.put(b"\n");
}

// ---- Printed

// Writes a line; false where that fails.
pub fn print<const ROOM: usize>(line: &Line<ROOM>) -> bool {
    io::write_all(STDOUT_FILENO, line.as_bytes())
}

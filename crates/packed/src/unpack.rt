// Document 02, P4: fields judged, and read back as amounts.
ghost use Rattle.std.specs.Prelude.{◌≡◌, true, ◌+◌, ◌*◌, ◌/◌, ◌%◌, ◌≤◌, ◌<◌, length};
ghost use Rattle.integer.specs.Words.{filled};
ghost use Rattle.packed.specs.Packed.{field_bytes, whole_fields, magnitude_at, amount_at, wrong_in, first_wrong, unpack_returned, unpack_call};
ghost use Rattle.packed.specs.Pairs.{is_pair, is_last, with_pair, pairs_right, pairs_value, is_negative_zero, is_nothing, wrong_byte};

use super::{FIELD_BYTES, MINUS, PAIRS, PLUS, UnpackError, count_fits};
use integer::signed;

// Are both halves of a byte digits?
fn is_pair(b: u8) -> bool
    ensures { result ≡ is_pair b }
{
    (b < 160) & (b % 16 < 10)
}

// Is the last byte a digit and a sign?
fn is_last(b: u8) -> bool
    ensures { result ≡ is_last b }
{
    let sign = b % 16;
    (b < 160) & ((sign == PLUS) | (sign == MINUS))
}

// Are the first 14 half bytes of a field digits? All are asked, with no branch.
fn pairs_right(field: &[u8; FIELD_BYTES]) -> bool
    ensures { result ≡ pairs_right field.now 0 }
{
    field[..PAIRS]
        .iter()
        .fold(true, |right, b| right & is_pair(*b))
}

// A number with the two digits of a byte behind it.
fn with_pair(n: u64, b: u8) -> u64
    requires { n < 10000000000000000 }
    ensures { (result ≡ with_pair n b) × (result ≤ 100 * n + 165) }
{
    10 * (10 * n + u64::from(b / 16)) + u64::from(b % 16)
}

// The number that the first 14 digits spell. A `for`: of a total in a `fold` the proof lacks the bound.
fn pairs_value(field: &[u8; FIELD_BYTES]) -> u64
    ensures { (result ≡ pairs_value field.now 0) × (result < 200000000000000) }
{
    let mut n = 0;
    for b in &field[..PAIRS] {
        n = with_pair(n, *b);
    }
    n
}

// The number that the 15 digits of a field spell.
fn magnitude(field: &[u8; FIELD_BYTES]) -> u64
    ensures { (result ≡ magnitude_at field.now 0) × (result < 2000000000000016) }
{
    10 * pairs_value(field) + u64::from(field[PAIRS] / 16)
}

// Is a field a negative zero? Its last byte alone says mostly that it is not.
fn is_negative_zero(field: &[u8; FIELD_BYTES]) -> bool
    ensures { result ≡ is_negative_zero field.now 0 }
{
    field[PAIRS] == MINUS && magnitude(field) == 0
}

// Is a field right?
fn is_field(field: &[u8; FIELD_BYTES]) -> bool
    ensures { result ≡ is_nothing (wrong_in field.now 0) }
{
    pairs_right(field) && is_last(field[PAIRS]) && !is_negative_zero(field)
}

// The first wrong byte of a field that is not right: where its 14 first digits are right, its last. Cold: compiled into the walk over the
// fields, it would slow the tests of right ones by a third.
#[cold]
fn wrong_byte(field: &[u8; FIELD_BYTES]) -> usize
    ensures { (result ≡ wrong_byte field.now 0) × (result < field_bytes) }
{
    field[..PAIRS]
        .iter()
        .position(|b| !is_pair(*b))
        .unwrap_or(PAIRS)
}

// The first wrong byte of fields, or the first byte of a cut one.
fn first_wrong(s: &[u8]) -> Option<usize>
    ensures { result ≡ first_wrong s.now }
{
    let (fields, cut) = s.as_chunks::<FIELD_BYTES>();
    for (f, field) in fields.iter().enumerate() {
        if !is_field(field) {
            return Some(FIELD_BYTES * f + wrong_byte(field));
        }
    }
    if cut.is_empty() {
        None
    } else {
        Some(FIELD_BYTES * fields.len())
    }
}

// The amount of a field.
fn amount(field: &[u8; FIELD_BYTES]) -> i64
    ensures { result ≡ amount_at field.now 0 }
{
    let m = signed(magnitude(field));
    if field[PAIRS] % 16 == MINUS { -m } else { m }
}

// Writes the amount of each whole field, and keeps the words beyond.
fn put_amounts(s: &[u8], output: &mut [i64])
    requires { whole_fields s.now ≤ length output.old }
    ensures { output.new ≡ filled (whole_fields s.now) (λ f. amount_at s.now (field_bytes * f)) output.old }
{
    let (whole, _) = s.as_chunks::<FIELD_BYTES>();
    for (f, word) in output[..whole.len()].iter_mut().enumerate() {
        *word = amount(&whole[f]);
    }
}

// Reads a statement's fields back, and says how many amounts they are. A list and its output, as the C interface lends them.
pub fn unpack(s: &[u8], output: &mut [i64]) -> Result<usize, UnpackError>
    ensures { record { returned = unpack_returned result; output = output.new } ≡ unpack_call s.now output.old }
{
    let n = s.len() / FIELD_BYTES;
    if !count_fits(n) {
        return Err(UnpackError::OutsideRange);
    }
    if output.len() < n {
        return Err(UnpackError::OutputTooShort);
    }
    if let Some(p) = first_wrong(s) {
        return Err(UnpackError::WrongAt(p));
    }
    put_amounts(s, output);
    Ok(n)
}

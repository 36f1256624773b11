// Document 02, P4: a statement's amounts written as fields.
ghost use Rattle.std.specs.Prelude.{◌≡◌, true, ◌+◌, ◌*◌, ◌/◌, ◌%◌, ◌≤◌, ◌<◌, nat_abs, length};
ghost use Rattle.integer.specs.Below.{tabulate};
ghost use Rattle.integer.specs.Words.{grid, word};
ghost use Rattle.packed.specs.Packed.{most_amount, amount_fits, statement_fits, field_bytes, sign_of, field_byte, pack_number, pack_call};
ghost use Rattle.packed.specs.Pairs.{pair_of, pair_at};

use super::{FIELD_BYTES, MINUS, PAIRS, PLUS, PackError, count_fits};

// The greatest number of 15 digits, either way.
const MOST_AMOUNT: i64 = 999999999999999;

const LEAST_AMOUNT: i64 = -MOST_AMOUNT;

// At most 15 digits.
fn amount_fits(z: i64) -> bool
    ensures { result ≡ amount_fits z }
{
    (LEAST_AMOUNT..=MOST_AMOUNT).contains(&z)
}

// 2 to 33 amounts, each of at most 15 digits.
fn statement_fits(amounts: &[i64]) -> bool
    ensures { result ≡ statement_fits amounts.now }
{
    if !count_fits(amounts.len()) {
        return false;
    }
    amounts.iter().fold(true, |fit, z| fit & amount_fits(*z))
}

// Two digits as a byte: 16 for each ten. They fit, so `as`, and no `try_from` with an error that never comes.
fn pair(n: u64) -> u8
    requires { n < 100 }
    ensures { result ≡ pair_of n }
{
    (n + 6 * (n / 10)) as u8
}

// The digits of n, two a byte: from the last byte on, as division by 100 gives them. By index: of bytes written through `iter_mut().rev()` no
// proof knows what they became.
fn put_pairs(n: u64, bytes: &mut [u8])
    ensures { bytes.new ≡ tabulate (length bytes.old) (pair_at n (length bytes.old)) }
{
    let mut rest = n;
    for i in (0..bytes.len()).rev() {
        bytes[i] = pair(rest % 100);
        rest /= 100;
    }
}

// The half byte of an amount's sign.
fn sign(z: i64) -> u8
    ensures { (result ≡ sign_of z) × (result < 16) }
{
    if z < 0 { MINUS } else { PLUS }
}

// The last digit, and the sign; the digit fits, so `as`.
fn last_byte(z: i64, digit: u64) -> u8
    requires { digit < 10 }
    ensures { result ≡ 16 * digit + sign_of z }
{
    16 * digit as u8 + sign(z)
}

// The field of an amount, written in place: a field returned as `[u8; 8]` and then copied takes a tenth longer.
fn put_field(z: i64, field: &mut [u8])
    requires { (nat_abs z ≤ most_amount) × (length field.old ≡ field_bytes) }
    ensures { field.new ≡ tabulate (length field.old) (field_byte z) }
{
    let m = z.unsigned_abs();
    put_pairs(m / 10, &mut field[..PAIRS]);
    field[PAIRS] = last_byte(z, m % 10);
}

// The fields of amounts, one after another; the bytes beyond are kept. By index: of fields written through `as_chunks_mut` and
// `zip` no proof knows what they became.
fn put_fields(amounts: &[i64], output: &mut [u8])
    requires { (statement_fits amounts.now ≡ true) × (field_bytes * length amounts.now ≤ length output.old) }
    ensures { output.new ≡ grid 0 field_bytes field_bytes (λ i. field_byte (word amounts.now i)) (length amounts.now) output.old }
{
    for (i, z) in amounts.iter().enumerate() {
        let start = FIELD_BYTES * i;
        put_field(*z, &mut output[start..start + FIELD_BYTES]);
    }
}

// Writes a statement's amounts as fields of 8 bytes. A list and its output, as the C interface lends them.
pub fn pack(amounts: &[i64], output: &mut [u8]) -> Result<(), PackError>
    ensures { record { number = pack_number result; output = output.new } ≡ pack_call amounts.now output.old }
{
    if !statement_fits(amounts) {
        return Err(PackError::OutsideRange);
    }
    if output.len() < FIELD_BYTES * amounts.len() {
        return Err(PackError::OutputTooShort);
    }
    put_fields(amounts, output);
    Ok(())
}

// Document 01, "A submission file": one field, its bytes in little-endian order, values in two's complement.
ghost use Rattle.std.specs.Prelude.{◌≡◌, ◌+◌, ◌≤◌, ◌<◌, length, OnOk};
ghost use Rattle.std.specs.Int.Signed.{mag};
ghost use Rattle.rulebook.specs.File.{num, value_at};
ghost use Rattle.rulebook.specs.Judging.{whole};
ghost use Rattle.files.specs.Outcome.{outcome, field_outcome};

use rulebook::file::number;
use rulebook::{Refusal, Why};

// The number of the n bytes at a position, wherever that is, if they are all there; then `at + n` is the position past them.
pub fn field_at(s: &[u8], at: usize, n: usize) -> Result<usize, Refusal>
    requires { n ≤ 2 }
    ensures answer { result ≡ outcome (whole n s.now at) (num n s.now at) }
    ensures past { OnOk result (at + n ≤ length s.now) }
{
    if s.len() < at || s.len() - at < n {
        return Err(Refusal {
            why: Why::NotWhole,
            at,
        });
    }
    Ok(number(s, at, n))
}

// A field that was read at a position: whole, and from low to high, else refused for `why`.
pub fn judge_field(
    field: Result<usize, Refusal>,
    at: usize,
    low: usize,
    high: usize,
    why: Why,
) -> Result<usize, Refusal>
    ensures { result ≡ field_outcome field at low high why }
{
    let v = field?;
    if low <= v && v <= high {
        Ok(v)
    } else {
        Err(Refusal { why, at })
    }
}

// The value at a position. The four bytes compile to one load.
// A position, and no four bytes cut out: `Form::word` finds a value by its index.
pub fn value_at(s: &[u8], at: usize) -> i64
    requires { at + 4 ≤ length s.now }
    ensures { (result ≡ value_at s.now at) × (mag result < 2147483648) }
{
    i64::from(i32::from_le_bytes([s[at], s[at + 1], s[at + 2], s[at + 3]]))
}

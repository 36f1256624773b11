// Integers and loops: the laws that every proof above leans on stand in specs/ and proofs/. Here are conversions and sums that fit, and rounding.
#![tactic(auto)]

ghost use Rattle.std.specs.Prelude.{◌≡◌, ◌+◌, ◌*◌, ◌/◌, ◌^◌, ◌≤◌, ◌<◌, min, max, pos, nat_abs, ◌+ℤ◌, length, set};
ghost use Rattle.integer.specs.Integer.{positive, with_sign};
ghost use Rattle.integer.specs.Nearest.{nearest};
ghost use Rattle.integer.specs.Words.{word};

// An unsigned number as a signed one. No From does this, and TryFrom would ask again whether it fits.
pub fn signed(n: u64) -> i64
    requires { n < 2 ^ 63 }
    ensures { result ≡ pos n }
{
    n as i64
}

// A sum that fits, said once in magnitudes: `+` asks for the sum itself, and callers know magnitudes.
pub fn add(a: i64, b: i64) -> i64
    requires { nat_abs a + nat_abs b < 2 ^ 63 }
    ensures { result ≡ a +ℤ b }
{
    a + b
}

// max(z, 0), unsigned. `as`, since there is no From of an i64 for usize, and `try_from` compares more often.
pub fn natural(z: i64) -> usize
    ensures { result ≡ positive z }
{
    if z < 0 { 0 } else { z as usize }
}

// m with the sign of z. Not `signum`, which is 0 of 0.
pub fn with_sign(z: i64, m: u64) -> i64
    requires { m < 2 ^ 63 }
    ensures { result ≡ with_sign z m }
{
    let r = m as i64;
    if z < 0 { 0 - r } else { r }
}

// The nearest whole number to z / d, a tie going away from zero: the signed quotient, cut toward zero, and one further from zero where
// the magnitude of the remainder is half of d or more. No From makes an i64 of d, hence `as`.
pub fn nearest_to(z: i64, d: u64) -> i64
    requires { (nat_abs z ≤ 2 ^ 62) × ((0 < d) × (d ≤ 2 ^ 62)) }
    ensures { result ≡ nearest z d }
{
    let divisor = d as i64;
    let quotient = z / divisor;
    let remainder = z % divisor;
    if 2 * remainder.unsigned_abs() < d {
        quotient
    } else {
        quotient + with_sign(z, 1)
    }
}

// Document 01, "Units and ranges": is a value in the range of its kind?
ghost use Rattle.std.specs.Prelude.{◌≡◌, true, cond, ◌≤◌, Ok, Err};
ghost use Rattle.rulebook.specs.declared.Kind.TheVariants.{Quantity};
ghost use Rattle.rulebook.specs.declared.RuleError.TheVariants.{OutsideRange};
ghost use Rattle.rulebook.specs.Units.{between, in_range, as_quantity, most_quantity};
ghost use Rattle.rulebook.specs.Calls.{all_in_range};

use rulebook::{Kind, RuleError, units};

// `(low..=high).contains(&z)` at each call would be no plainer.
pub fn is_between(low: i64, high: i64, z: i64) -> bool
    ensures { result ≡ between low high z }
{
    low <= z && z <= high
}

pub fn in_range(kind: Kind, z: i64) -> bool
    ensures { result ≡ in_range kind z }
{
    match kind {
        Kind::Quantity => is_between(0, units::MOST_QUANTITY, z),
        Kind::Injection => is_between(units::LEAST_INJECTION, units::MOST_QUANTITY, z),
        Kind::Load => is_between(0, units::MOST_LOAD, z),
        Kind::Price => is_between(units::LEAST_PRICE, units::MOST_PRICE, z),
    }
}

// Every word of the list is in the range of its kind. Left at the first that is not: lists are short, and 64-bit comparisons of vectors dear.
pub fn all_in_range(kind: Kind, xs: &[i64]) -> bool
    ensures { result ≡ all_in_range kind xs.now }
{
    xs.iter().all(|x| in_range(kind, *x))
}

// A word that is in the range of a quantity, as an unsigned number.
// `unsigned_abs`, named once with the range of its word and its bound.
pub fn as_quantity(z: i64) -> u64
    requires { in_range Quantity z ≡ true }
    ensures { (result ≡ as_quantity z) × (result ≤ most_quantity) }
{
    z.unsigned_abs()
}

// A word as an unsigned number, if it is in the range of a quantity.
pub fn quantity(z: i64) -> Result<u64, RuleError>
    ensures { result ≡ cond (in_range Quantity z) (Ok (as_quantity z)) (Err OutsideRange) }
{
    if in_range(Kind::Quantity, z) {
        Ok(as_quantity(z))
    } else {
        Err(RuleError::OutsideRange)
    }
}

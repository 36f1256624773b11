// Document 01, "Reference price V" (003, 3.6.1).
ghost use Rattle.std.specs.Prelude.{◌≡◌, ◌*◌, ◌-◌, ◌≤◌, ◌<◌, pos, nat_abs, ◌+ℤ◌, ◌*ℤ◌, length};
ghost use Rattle.integer.specs.Words.{word};
ghost use Rattle.rulebook.specs.Units.{most_price, most_quantity};
ghost use Rattle.rulebook.specs.ReferencePrice.{most_facilities, weight, average};
ghost use Rattle.rulebook.specs.Numbers.{price_returned};
ghost use Rattle.rulebook.specs.Calls.{price_input, price_call, PricesIn};
ghost use Rattle.rules.specs.PriceSums.{sums_of, no_facility, added, SumsWithin};

use crate::ranges::all_in_range;
use integer::{add, natural, nearest_to, signed};
use rulebook::units::MOST_FACILITIES;
use rulebook::{Kind, RuleError};
use std::marker::Model;

// The sums of some facilities, of which V is the average: MEP times weight, weight, MEP, and their number. MEP and IEQ are in their ranges.
#[derive(Clone, Copy)]
pub struct Sums {
    weighted: i64,
    weights: u64,
    simple: i64,
    facilities: u64,
}

impl Model for Sums {
    ghost use Rattle.rules.specs.PriceSums.{FacilitySums, SumsWithin};

    ghost Value = { FacilitySums };

    ghost view = { λ a. record { weighted = a.weighted; weights = a.weights; simple = a.simple; facilities = a.facilities } };

    ghost invariant = { λ a. SumsWithin (record { weighted = a.weighted; weights = a.weights; simple = a.simple; facilities = a.facilities }) };

    ghost inverse = { λ s. record { weighted = s.weighted; weights = s.weights; simple = s.simple; facilities = s.facilities } };
}

// Σ (MEP × weight) with one facility more.
fn weighted_more(weighted: i64, mep: i64, w: u64) -> i64
    requires { (nat_abs weighted ≤ (most_facilities - 1) * (most_price * most_quantity)) × (nat_abs mep ≤ most_price) × (w ≤ most_quantity) }
    ensures { result ≡ weighted +ℤ mep *ℤ pos w }
{
    weighted + mep * signed(w)
}

impl Sums {
    // From known sums, each within the bound of its facilities.
    pub fn of(weighted: i64, weights: u64, simple: i64, facilities: u64) -> Sums
        requires { SumsWithin (record { weighted = weighted; weights = weights; simple = simple; facilities = facilities }) }
        ensures { result ≡ record { weighted = weighted; weights = weights; simple = simple; facilities = facilities } }
    {
        Sums {
            weighted,
            weights,
            simple,
            facilities,
        }
    }

    // Before the first facility.
    pub fn none() -> Sums
        ensures { result ≡ no_facility }
    {
        Sums::of(0, 0, 0, 0)
    }

    // Σ (MEP × weight).
    pub fn weighted(self) -> i64
        ensures { result ≡ self.weighted }
    {
        self.weighted
    }

    // Σ weight.
    pub fn weights(self) -> u64
        ensures { result ≡ self.weights }
    {
        self.weights
    }

    // Σ MEP.
    pub fn simple(self) -> i64
        ensures { result ≡ self.simple }
    {
        self.simple
    }

    // The number of facilities.
    pub fn facilities(self) -> u64
        ensures { result ≡ self.facilities }
    {
        self.facilities
    }

    // With one facility more, whose weight is max(IEQ, 0).
    pub fn with_facility(self, mep: i64, ieq: i64) -> Sums
        requires { (self.facilities < most_facilities) × (nat_abs mep ≤ most_price) × (nat_abs ieq ≤ most_quantity) }
        ensures { result ≡ added self mep ieq }
    {
        // `as`: every usize fits u64, and there is no From between them.
        let weight = natural(ieq) as u64;
        Sums {
            weighted: weighted_more(self.weighted, mep, weight),
            weights: self.weights + weight,
            simple: add(self.simple, mep),
            facilities: self.facilities + 1,
        }
    }

    // V: the weighted average, or where the weights sum to 0 the simple average.
    pub fn price(self) -> i64
        requires { (0 < self.facilities) × (self.facilities ≤ most_facilities) }
        ensures { result ≡ average self.weighted self.weights self.simple self.facilities }
    {
        if self.weights == 0 {
            nearest_to(self.simple, self.facilities)
        } else {
            nearest_to(self.weighted, self.weights)
        }
    }
}

// The sums of the lists.
fn sums_of(mep: &[i64], ieq: &[i64]) -> Sums
    requires { PricesIn mep.now ieq.now }
    ensures { result ≡ sums_of (length mep.now) (word mep.now) (word ieq.now) }
{
    let mut sums = Sums::none();
    for (m, i) in mep.iter().zip(ieq) {
        sums = sums.with_facility(*m, *i);
    }
    sums
}

// 1 to 4 facilities, as many IEQ as MEP, each in its range. Left at the first test that fails: so the compiler knows that the lists are short, and
// unrolls the loops over them.
fn price_input(mep: &[i64], ieq: &[i64]) -> bool
    ensures { result ≡ price_input mep.now ieq.now }
{
    let n = mep.len();
    if !(1..=MOST_FACILITIES).contains(&n) {
        return false;
    }
    if ieq.len() != n {
        return false;
    }
    all_in_range(Kind::Price, mep) && all_in_range(Kind::Injection, ieq)
}

// The reference price call: two lists, of MEP and of IEQ, as the C interface lends them.
pub fn reference_price(mep: &[i64], ieq: &[i64]) -> Result<i64, RuleError>
    ensures { price_returned result ≡ price_call mep.now ieq.now }
{
    if !price_input(mep, ieq) {
        return Err(RuleError::OutsideRange);
    }
    Ok(sums_of(mep, ieq).price())
}

// Document 02, P1: profiles from the load forecasters (000, section 2).
ghost use Rattle.std.specs.Prelude.{◌≡◌, cond, ◌*◌, ◌≤◌, length, Ok, Err};
ghost use Rattle.rulebook.specs.declared.Kind.TheVariants.{Quantity};
ghost use Rattle.rulebook.specs.declared.RuleError.TheVariants.{OutsideRange};
ghost use Rattle.rulebook.specs.Units.{intervals, most_quantity};
ghost use Rattle.rulebook.specs.Profile.{most_contracted, least_kwh, most_kwh, balancing_periods, period_kwh, total_possible};
ghost use Rattle.rulebook.specs.Numbers.{profile_returned};
ghost use Rattle.rulebook.specs.Calls.{all_in_range, quantities_in, profile_terms, profile_call};
ghost use Rattle.rules.specs.PeriodsTold.{span_of, extended, span_keeps};

use crate::ranges::{is_between, quantity};
use integer::natural;
use rulebook::{RuleError, units};

// The lowest and the highest kWh of some periods, and their total.
#[derive(Clone, Copy)]
pub struct Span {
    pub lowest: usize,
    pub highest: usize,
    pub total: usize,
}

impl Span {
    // With one period more.
    fn with_period(self, kwh: usize) -> Span
        requires { (self.total ≤ intervals * most_quantity) × (kwh ≤ 2 * most_quantity) }
        ensures { result ≡ extended self kwh }
    {
        Span {
            lowest: self.lowest.min(kwh),
            highest: self.highest.max(kwh),
            total: self.total + kwh,
        }
    }
}

// That of a profile of 48 quantities, two a period; left at the first word that is no quantity. No period has more kWh than two quantities.
// `as`: there is no From of an i64, nor of a u64, for usize.
fn span_of(profile: &[i64]) -> Result<Span, RuleError>
    requires { length profile.now ≡ intervals }
    ensures { result ≡ cond (all_in_range Quantity profile.now) (Ok (span_of balancing_periods (period_kwh (quantities_in profile.now)))) (Err OutsideRange) }
{
    let mut span = Span {
        lowest: 2 * units::MOST_QUANTITY as usize,
        highest: 0,
        total: 0,
    };
    for [first, second] in profile.as_chunks::<2>().0 {
        let kwh = quantity(*first)? + quantity(*second)?;
        span = span.with_period(kwh as usize);
    }
    Ok(span)
}

// D, the contracted quantity of a Gas Balancing Period, and its limits.
#[derive(Clone, Copy)]
pub struct Contracted {
    pub kwh: usize,
    ghost few: { kwh ≤ most_contracted },
}

impl Contracted {
    // 80 per cent of D, rounded up: the least whole kWh of a period.
    fn least_kwh(self) -> usize
        ensures { result ≡ least_kwh self.kwh }
    {
        (4 * self.kwh).div_ceil(5)
    }

    // 125 per cent of D, rounded down: the most.
    fn most_kwh(self) -> usize
        ensures { result ≡ most_kwh self.kwh }
    {
        5 * self.kwh / 4
    }

    // All periods are within the limits, and their total is T.
    fn keeps(self, span: Span, total: usize) -> bool
        ensures { result ≡ span_keeps total self.kwh span }
    {
        (self.least_kwh() <= span.lowest)
            & (span.highest <= self.most_kwh())
            & (span.total == total)
    }

    // Some 48 quantities keep the limits and total T.
    fn allows(self, total: usize) -> bool
        ensures { result ≡ total_possible total self.kwh }
    {
        (units::BALANCING_PERIODS * self.least_kwh() <= total)
            & (total <= units::BALANCING_PERIODS * self.most_kwh())
    }
}

// 48 intervals, T and D in range.
fn profile_terms(count: usize, total: i64, contracted: i64) -> bool
    ensures { result ≡ profile_terms count total contracted }
{
    (count == units::INTERVALS)
        & (is_between(0, units::MOST_DAY_KWH, total)
            & is_between(0, units::MOST_CONTRACTED, contracted))
}

// The profile call: the 48 quantities, the day's total T, and D. Whether T is possible is asked before the pass, so that its answer need not wait for it.
// The arguments are those of the C interface.
pub fn check_profile(profile: &[i64], total: i64, contracted: i64) -> Result<bool, RuleError>
    ensures { profile_returned result ≡ profile_call profile.now total contracted }
{
    if !profile_terms(profile.len(), total, contracted) {
        return Err(RuleError::OutsideRange);
    }
    let total = natural(total);
    let contracted = Contracted {
        kwh: natural(contracted),
    };
    let possible = contracted.allows(total);
    let span = span_of(profile)?;
    if !possible {
        return Err(RuleError::TotalImpossible);
    }
    Ok(contracted.keeps(span, total))
}

// Document 01, "Shares and tranches": tranches (000, section 5.2).
ghost use Rattle.std.specs.Prelude.{◌≡◌, ◌≤◌, pos};
ghost use Rattle.rulebook.specs.Units.{most_quantity};
ghost use Rattle.rulebook.specs.Tranches.{tranche1, tranche2};
ghost use Rattle.rulebook.specs.Numbers.{tranche_returned};
ghost use Rattle.rulebook.specs.Calls.{tranche_call};

use crate::ranges::quantity;
use integer::signed;
use rulebook::{RuleError, Tranches};

// Tranche 1 of a share: min(RVQ, max(MQ - BVQ, 0)). Tranche 2 is the rest.
pub fn first_tranche(rvq: u64, bvq: u64, mq: u64) -> u64
    ensures { result ≡ tranche1 rvq bvq mq }
{
    rvq.min(mq.saturating_sub(bvq))
}

// Both tranches of a share.
fn split(rvq: u64, bvq: u64, mq: u64) -> Tranches
    requires { rvq ≤ most_quantity }
    ensures { result ≡ record { first = pos (tranche1 rvq bvq mq); second = pos (tranche2 rvq bvq mq) } }
{
    let first = first_tranche(rvq, bvq, mq);
    Tranches {
        first: signed(first),
        second: signed(rvq - first),
    }
}

// The tranche call, of RVQ, BVQ and MQ as the C interface passes them; each is a quantity.
pub fn tranches(rvq: i64, bvq: i64, mq: i64) -> Result<Tranches, RuleError>
    ensures { tranche_returned result ≡ tranche_call rvq bvq mq }
{
    Ok(split(quantity(rvq)?, quantity(bvq)?, quantity(mq)?))
}

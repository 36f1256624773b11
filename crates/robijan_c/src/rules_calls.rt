// The calls of the rules, which hold no book. Each is the function of its name in the crate `robijan`, whose clauses it states again.
ghost use Rattle.std.specs.Prelude.{◌≡◌};
ghost use Rattle.rulebook.specs.declared.Edition.TheVariants.{First, Second};
ghost use Rattle.rulebook.specs.Calls.{price_call, share_call, tranche_call, profile_call};

use rulebook::{PriceReturned, ProfileReturned, TrancheReturned};

// The reference price of facilities with these MEP and IEQ.
#[unsafe(no_mangle)]
pub extern "C" fn robijan_price(mep: &[i64], ieq: &[i64]) -> PriceReturned
    ensures { result ≡ price_call mep.now ieq.now }
{
    robijan::rules_calls::robijan_price(mep, ieq)
}

// Writes each account's share of the residual load R, by the first edition.
#[unsafe(no_mangle)]
pub extern "C" fn robijan_share(residual: i64, uegq: &[i64], output: &mut [i64]) -> u64
    ensures { record { number = result; output = output.new } ≡ share_call First residual uegq.now output.old }
{
    robijan::rules_calls::robijan_share(residual, uegq, output)
}

// The same by the second edition, whose shares use every kWh.
#[unsafe(no_mangle)]
pub extern "C" fn robijan_second_share(residual: i64, uegq: &[i64], output: &mut [i64]) -> u64
    ensures { record { number = result; output = output.new } ≡ share_call Second residual uegq.now output.old }
{
    robijan::rules_calls::robijan_second_share(residual, uegq, output)
}

// Both tranches of a share.
#[unsafe(no_mangle)]
pub extern "C" fn robijan_tranche(rvq: i64, bvq: i64, mq: i64) -> TrancheReturned
    ensures { result ≡ tranche_call rvq bvq mq }
{
    robijan::rules_calls::robijan_tranche(rvq, bvq, mq)
}

// Whether a profile of 48 intervals keeps the limits of the day's total T and the contracted quantity D.
#[unsafe(no_mangle)]
pub extern "C" fn robijan_profile(profile: &[i64], total: i64, contracted: i64) -> ProfileReturned
    ensures { result ≡ profile_call profile.now total contracted }
{
    robijan::rules_calls::robijan_profile(profile, total, contracted)
}

// The calls of the rules: reference price, shares, tranches, profiles.
ghost use Rattle.std.specs.Prelude.{◌≡◌};
ghost use Rattle.rulebook.specs.declared.Edition.TheVariants.{First, Second};
ghost use Rattle.rulebook.specs.Calls.{price_call, share_call, tranche_call, profile_call};

use rulebook::numbers::number_of;
use rulebook::{Edition, PriceReturned, ProfileReturned, TrancheReturned};
use rules::price::reference_price;
use rules::profile::check_profile;
use rules::share::shares;
use rules::tranche::tranches;

// The reference price of facilities with these MEP and IEQ.
pub fn robijan_price(mep: &[i64], ieq: &[i64]) -> PriceReturned
    ensures { result ≡ price_call mep.now ieq.now }
{
    reference_price(mep, ieq).into()
}

// Writes each account's share of the residual load R, by the first edition.
pub fn robijan_share(residual: i64, uegq: &[i64], output: &mut [i64]) -> u64
    ensures { record { number = result; output = output.new } ≡ share_call First residual uegq.now output.old }
{
    number_of(shares(Edition::First, residual, uegq, output))
}

// The same by the second edition, whose shares use every kWh.
pub fn robijan_second_share(residual: i64, uegq: &[i64], output: &mut [i64]) -> u64
    ensures { record { number = result; output = output.new } ≡ share_call Second residual uegq.now output.old }
{
    number_of(shares(Edition::Second, residual, uegq, output))
}

// Both tranches of a share.
pub fn robijan_tranche(rvq: i64, bvq: i64, mq: i64) -> TrancheReturned
    ensures { result ≡ tranche_call rvq bvq mq }
{
    tranches(rvq, bvq, mq).into()
}

// Whether a profile of 48 intervals keeps the limits of the day's total T and the contracted quantity D.
pub fn robijan_profile(profile: &[i64], total: i64, contracted: i64) -> ProfileReturned
    ensures { result ≡ profile_call profile.now total contracted }
{
    check_profile(profile, total, contracted).into()
}

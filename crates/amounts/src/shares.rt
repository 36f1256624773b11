// Document 01, "Shares and tranches", and document 02, P2: an account's shares of r's slot by any R and S, of any sums before it. `settled` has those of
// the day that a close settles, whose R, S and sums are its slot's own.
ghost use Rattle.std.specs.Option.{ForSome};
ghost use Rattle.std.specs.Prelude.{◌≡◌, ◌<◌, ◌+◌};
ghost use Rattle.rulebook.specs.Units.{intervals};
ghost use Rattle.amounts.specs.Shares.{SumsRanged, SharesRanged, sums_if, share_after, shares_if};

use crate::slot::Slot;
use rulebook::Edition;
use rulebook::units::INTERVALS;
use rules::share::Residual;
use std::array;

// R and S of a day's 48 intervals.
pub type Residuals = [Residual; INTERVALS];

// The sums of UEGQ in a day's 48 intervals, over the accounts so far.
pub type RunningSums = [u64; INTERVALS];

// The shares of one account in a day's 48 intervals, in kWh.
pub type DayShares = [u64; INTERVALS];

// The sums with the account's UEGQ; none where no residual is due.
pub fn sums_due(then: &Option<Slot>, sums: &RunningSums, a: usize) -> RunningSums
    requires { ForSome then.now (λ s. a < s.accounts) × SumsRanged a sums.now }
    ensures sums { result ≡ sums_if then.now sums.now a }
    ensures ranged { SumsRanged (a + 1) result }
{
    match then {
        Some(slot) => array::from_fn(|h| sums[h] + slot.cell(a, h).uegq()),
        None => [0; INTERVALS],
    }
}

// The account's shares, where the accounts before it have these sums; none where no residual is due.
pub fn shares_due(
    then: &Option<Slot>,
    edition: Edition,
    residuals: &Residuals,
    sums: &RunningSums,
    a: usize,
) -> DayShares
    requires { ForSome then.now (λ s. a < s.accounts) × SumsRanged a sums.now }
    ensures shares { result ≡ shares_if then.now edition residuals.now sums.now a }
    ensures ranged { SharesRanged result }
{
    match then {
        Some(slot) => array::from_fn(
            |h|
                requires { (h < intervals) × (a < slot.now.accounts) × SumsRanged a sums.now }
                ensures { result ≡ share_after edition slot.entry.now.accounts slot.entry.now.words.now residuals.entry.now sums.entry.now a h }
            { residuals[h].share_by(edition, sums[h], slot.cell(a, h).uegq()) },
        ),
        None => [0; INTERVALS],
    }
}

// Document 01, "Shares and tranches": shares (003, 2.5.8.1); document 02, P2: their second edition.
ghost use Rattle.std.specs.Prelude.{◌≡◌, cond, ◌+◌, ◌≤◌, nat_abs, length, Ok, Err};
ghost use Rattle.rulebook.specs.declared.Kind.TheVariants.{Quantity};
ghost use Rattle.rulebook.specs.declared.RuleError.TheVariants.{OutsideRange};
ghost use Rattle.rulebook.specs.Shares.{most_accounts, least_residual, most_spare, share_of, share_by};
ghost use Rattle.rulebook.specs.Numbers.{share_number, ShareReturned};
ghost use Rattle.rulebook.specs.Calls.{all_in_range, share_input, spare_in, share_call};

use crate::ranges::{as_quantity, is_between, quantity};
use integer::signed;
use rulebook::{Edition, RuleError, units};
use std::marker::Model;

// The residual load R of an interval, within what a share takes, and the spare generation S, the sum of all UEGQ.
#[derive(Clone, Copy)]
pub struct Residual {
    load: i64,
    spare: u64,
}

impl Model for Residual {
    ghost use Rattle.std.specs.Prelude.{◌≤◌, nat_abs};
    ghost use Rattle.rulebook.specs.Shares.{least_residual};
    ghost use Rattle.rules.specs.LoadAndSpare.{LoadAndSpare};

    ghost Value = { LoadAndSpare };

    ghost view = { λ a. record { load = a.load; spare = a.spare } };

    ghost invariant = { λ a. nat_abs a.load ≤ least_residual };

    ghost inverse = { λ r. record { load = r.load; spare = r.spare } };
}

impl Residual {
    pub fn new(load: i64, spare: u64) -> Residual
        requires { nat_abs load ≤ least_residual }
        ensures { result ≡ record { load = load; spare = spare } }
    {
        Residual { load, spare }
    }

    // The residual load R.
    pub fn load(self) -> i64
        ensures { (result ≡ self.load) × (nat_abs result ≤ least_residual) }
    {
        self.load
    }

    // The spare generation S.
    pub fn spare(self) -> u64
        ensures { result ≡ self.spare }
    {
        self.spare
    }

    // The share of an account with UEGQ u, or of accounts with UEGQ u together.
    pub fn share(self, u: u64) -> u64
        requires { u ≤ most_spare }
        ensures { result ≡ share_of self.load self.spare u }
    {
        if self.load <= 0 || self.spare == 0 {
            return 0;
        }
        let load = self.load.unsigned_abs();
        if self.spare <= load {
            u
        } else {
            load * u / self.spare
        }
    }

    // The share by edition, where the accounts before it have `before`. By the second: what they get together with it, less what they get without it.
    pub fn share_by(self, edition: Edition, before: u64, u: u64) -> u64
        requires { before + u ≤ most_spare }
        ensures { result ≡ share_by edition self.load self.spare before u }
    {
        match edition {
            Edition::First => self.share(u),
            Edition::Second => self.share(before + u) - self.share(before),
        }
    }
}

// S: the sum of all UEGQ, each judged as it is added; left at the first that is no quantity.
fn spare_generation(uegq: &[i64]) -> Result<u64, RuleError>
    requires { length uegq.now ≤ most_accounts }
    ensures { result ≡ cond (all_in_range Quantity uegq.now) (Ok (spare_in uegq.now)) (Err OutsideRange) }
{
    let mut total = 0;
    for u in uegq {
        total += quantity(*u)?;
    }
    Ok(total)
}

// R and S, where R and each UEGQ are in range, and there are 1 to 32 accounts.
fn residual_of(r: i64, uegq: &[i64]) -> Result<Residual, RuleError>
    ensures { result ≡ cond (share_input r uegq.now) (Ok (record { load = r; spare = spare_in uegq.now })) (Err OutsideRange) }
{
    let n = uegq.len();
    if !(is_between(units::LEAST_RESIDUAL, units::MOST_RESIDUAL, r)
        & ((1 <= n) & (n <= units::MOST_ACCOUNTS)))
    {
        return Err(RuleError::OutsideRange);
    }
    Ok(Residual::new(r, spare_generation(uegq)?))
}

// The share call of an edition: R, each account's UEGQ, and the output, of which one word an account is written. By the second edition each
// gets what is shared up to it, less what was given before it: one division an account, where `share_by` would take two. R and the lists are those of the C interface.
pub fn shares(edition: Edition, r: i64, uegq: &[i64], output: &mut [i64]) -> Result<(), RuleError>
    ensures { record { number = share_number result; output = output.new } ≡ share_call edition r uegq.now output.old }
{
    let residual = residual_of(r, uegq)?;
    if output.len() < uegq.len() {
        return Err(RuleError::OutputTooShort);
    }
    let mut sum = 0;
    let mut given = 0;
    // By index: of words written through `iter_mut().zip(..)` no proof knows what they became.
    for (a, u) in uegq.iter().enumerate() {
        let u = as_quantity(*u);
        sum += u;
        let share = match edition {
            Edition::First => residual.share(u),
            Edition::Second => residual.share(sum) - given,
        };
        given += share;
        output[a] = signed(share);
    }
    Ok(())
}

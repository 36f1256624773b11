// Document 01, "Close": the statement, N amounts and then the MSSL's, in cents; document 02, P5: the rounding difference.
ghost use Rattle.std.specs.Prelude.{◌≡◌, ◌≤◌, length};
ghost use Rattle.std.specs.Option.{ForSome};
ghost use Rattle.integer.specs.Below.{sum_ℤ};
ghost use Rattle.integer.specs.Words.{word, filled};
ghost use Rattle.rulebook.specs.Shares.{most_accounts};
ghost use Rattle.rulebook.specs.DayAmount.{minus_sum};
ghost use Rattle.amounts.specs.Day.{slot_cents, slot_difference};
ghost use Rattle.amounts.specs.Shares.{cents_by, difference_by};
ghost use Rattle.closing.specs.Written.{Small};

use amounts::day::{posted_amount, posted_of_shares};
use amounts::settled::Settled;
use amounts::shares::{Residuals, shares_due, sums_due};
use amounts::slot::Slot;
use integer::add;
use rulebook::Edition;
use rulebook::units::INTERVALS;

// Posts the accounts' amounts, of today's slot and of the day that is settled; what they leave of the exact amounts, together.
pub fn post_amounts(statement: &mut [i64], today: Slot, then: &Option<Settled>) -> i64
    requires { ForSome then.now (λ t. t.accounts ≡ today.accounts) × (today.accounts ≤ length statement.old) }
    ensures statement { statement.new ≡ filled today.entry.accounts (slot_cents today.entry.accounts today.entry.words.now then.now) statement.old }
    ensures difference { result ≡ sum_ℤ today.entry.accounts (slot_difference today.entry.accounts today.entry.words.now then.now) }
{
    let mut sums = [0; INTERVALS];
    let mut difference = 0;
    for (a, amount) in statement[..today.accounts].iter_mut().enumerate() {
        let posted = posted_amount(today, then, &mut sums, a);
        *amount = posted.cents;
        difference += posted.difference;
    }
    difference
}

// The same by any R and S: each account's shares are of these, by then's edition, after the accounts before it.
pub fn post_shared(
    statement: &mut [i64],
    today: Slot,
    then: &Option<Slot>,
    edition: Edition,
    residuals: &Residuals,
) -> i64
    requires { ForSome then.now (λ s. s.accounts ≡ today.accounts) × (today.accounts ≤ length statement.old) }
    ensures statement { statement.new ≡ filled today.entry.accounts (cents_by edition today.entry.accounts today.entry.words.now then.now residuals.now) statement.old }
    ensures difference { result ≡ sum_ℤ today.entry.accounts (difference_by edition today.entry.accounts today.entry.words.now then.now residuals.now) }
{
    let mut sums = [0; INTERVALS];
    let mut difference = 0;
    for (a, amount) in statement[..today.accounts].iter_mut().enumerate() {
        let shares = shares_due(then, edition, residuals, &sums, a);
        let posted = posted_of_shares(today, then, &shares, a);
        *amount = posted.cents;
        difference = add(difference, posted.difference);
        sums = sums_due(then, &sums, a);
    }
    difference
}

// The sum of the amounts.
// The length of a lent list, asked of each caller: no type for it outlives a close.
fn amounts_sum(amounts: &[i64]) -> i64
    requires { Small (length amounts.now) amounts.now × (length amounts.now ≤ most_accounts) }
    ensures { result ≡ sum_ℤ (length amounts.now) (word amounts.now) }
{
    let mut sum: i64 = 0;
    // A `for`: of a `sum` of signed numbers the proof lacks the bound.
    for amount in amounts {
        sum += *amount;
    }
    sum
}

// The MSSL gets minus that.
pub fn mssl_amount(amounts: &[i64]) -> i64
    requires { Small (length amounts.now) amounts.now × (length amounts.now ≤ most_accounts) }
    ensures { result ≡ minus_sum (length amounts.now) (word amounts.now) }
{
    -amounts_sum(amounts)
}

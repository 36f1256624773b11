// Document 01, "Day amount": an account's posted amount from the slots of D and of r.
ghost use Rattle.std.specs.Option.{ForSome};
ghost use Rattle.std.specs.Prelude.{◌≡◌, ◌≤◌, ◌<◌, ◌+◌, ◌+ℤ◌, nat_abs};
ghost use Rattle.rulebook.specs.Units.{intervals, most_quantity};
ghost use Rattle.rulebook.specs.DayAmount.{vesting_amount};
ghost use Rattle.amounts.specs.Cell.{cell_data};
ghost use Rattle.amounts.specs.Day.{HasAccount, cell_residual, sum_before, sums_before, slot_amount, slot_posted};
ghost use Rattle.amounts.specs.Shares.{SharesRanged, amount_of, shares_posted};

use crate::cell::Cell;
use crate::settled::Settled;
use crate::shares::DayShares;
use crate::slot::Slot;
use crate::total::{DayTotal, Posted, absorb};
use integer::add;
use rulebook::units::INTERVALS;

// What an account has where a residual is due: vesting of today's cell, and then's share with V of then.
fn settled_amount(cell: Cell, then: Cell, share: u64) -> i64
    requires { share ≤ most_quantity }
    ensures small { nat_abs result ≤ 100000000000000 }
    ensures amount { result ≡ vesting_amount (cell_data cell.entry.words.now) +ℤ cell_residual then.entry.words.now share }
{
    let vesting = cell.vesting_amount();
    add(vesting, then.residual_amount(then.price(), share))
}

// The account's amount at interval h: vesting of today's cell and, where a residual is due, that of then's share with V of then. `sum` is the UEGQ
// of the accounts before it at then's interval; it goes on with the account's.
// Slot and settled day apart: the second may be missing, and a struct of both for three calls is no plainer.
fn slot_amount(today: Slot, then: &Option<Settled>, sum: &mut u64, a: usize, h: usize) -> i64
    requires { (a < today.accounts) × HasAccount a then.now × (h < intervals) × (sum.old ≡ sum_before then.now a h) }
    ensures small { nat_abs result ≤ 100000000000000 }
    ensures amount { result ≡ slot_amount today.entry.accounts today.entry.words.now then.now a h }
    ensures sum { sum.new ≡ sum_before then.now (a + 1) h }
{
    let cell = today.cell(a, h);
    match then {
        Some(settled) => {
            let share = settled.share(sum, a, h);
            settled_amount(cell, settled.cell(a, h), share)
        }
        None => cell.vesting_amount(),
    }
}

// The posted amount of account a: the nearest whole cent to its amounts over the 48 intervals, which the day's total is lent to take; with what that leaves
// of them, at most 500 thousandths. `sums` are the UEGQ of the accounts before it at then's intervals; they go on with the account's.
pub fn posted_amount(
    today: Slot,
    then: &Option<Settled>,
    sums: &mut [u64; INTERVALS],
    a: usize,
) -> Posted
    requires { (a < today.accounts) × HasAccount a then.now × (sums.old ≡ sums_before then.now a) }
    ensures small { nat_abs result.difference ≤ 500 }
    ensures amount { result ≡ slot_posted today.entry.accounts today.entry.words.now then.now a }
    ensures sums { sums.new ≡ sums_before then.now (a + 1) }
{
    let mut total = DayTotal { thousandths: 0 };
    for (h, sum) in sums.iter_mut().enumerate() {
        absorb(&mut total, slot_amount(today, then, sum, a, h));
    }
    total.posted()
}

// The account's amount at interval h, of a share that is given.
fn shared_amount(today: Slot, then: &Option<Slot>, share: u64, a: usize, h: usize) -> i64
    requires { (a < today.accounts) × ForSome then.now (λ s. a < s.accounts) × (h < intervals) × (share ≤ most_quantity) }
    ensures small { nat_abs result ≤ 100000000000000 }
    ensures amount { result ≡ amount_of today.entry.accounts today.entry.words.now then.now share a h }
{
    let cell = today.cell(a, h);
    match then {
        Some(slot) => settled_amount(cell, slot.cell(a, h), share),
        None => cell.vesting_amount(),
    }
}

// The posted amount of account a, of any shares: the nearest whole cent to its amounts over the 48 intervals; with what that leaves of them.
pub fn posted_of_shares(today: Slot, then: &Option<Slot>, shares: &DayShares, a: usize) -> Posted
    requires { (a < today.accounts) × ForSome then.now (λ s. a < s.accounts) × SharesRanged shares.now }
    ensures small { nat_abs result.difference ≤ 500 }
    ensures amount { result ≡ shares_posted today.entry.accounts today.entry.words.now then.now shares.now a }
{
    let mut total = DayTotal { thousandths: 0 };
    for (h, share) in shares.iter().enumerate() {
        absorb(&mut total, shared_amount(today, then, *share, a, h));
    }
    total.posted()
}

// Document 01, "Day amount": the running total, which takes one interval after another, and what is posted of it; document 02, P5: what that leaves.
ghost use Rattle.std.specs.Prelude.{◌≡◌, ◌≤◌, nat_abs, ◌+ℤ◌};
ghost use Rattle.std.specs.Int.{w64};
ghost use Rattle.std.proofs.Common.{SFits};
ghost use Rattle.amounts.specs.Total.{absorbed, posted_of};

use integer::nearest_to;
use rulebook::units::THOUSANDTHS_PER_CENT;

// An account's day so far: its amount in thousandths of a cent.
#[derive(Clone, Copy)]
pub struct DayTotal {
    pub thousandths: i64,
}

// What is posted of a day's total, in cents, and what that adds to the rounding difference, in thousandths.
#[derive(Clone, Copy)]
pub struct Posted {
    pub cents: i64,
    pub difference: i64,
}

// The total with one interval's amount more.
// A function of its own for the sum: what is proved of one interval more is said there alone.
pub fn total_after(total: DayTotal, amount: i64) -> DayTotal
    requires { SFits w64 (total.thousandths +ℤ amount) }
    ensures { result ≡ absorbed total amount }
{
    DayTotal {
        thousandths: total.thousandths + amount,
    }
}

// One interval's amount goes into the total that the caller lends.
pub fn absorb(total: &mut DayTotal, amount: i64)
    requires { SFits w64 (total.old.thousandths +ℤ amount) }
    ensures { total.new ≡ absorbed total.old amount }
{
    *total = total_after(*total, amount);
}

impl DayTotal {
    // The nearest whole cent to the total, and the total less 1,000 times that.
    pub fn posted(self) -> Posted
        requires { nat_abs self.thousandths ≤ 4800000000000000 }
        ensures { result ≡ posted_of self }
    {
        let cents = nearest_to(self.thousandths, THOUSANDTHS_PER_CENT);
        Posted {
            cents,
            // `as`: no From makes an i64 of a u64.
            difference: self.thousandths - THOUSANDTHS_PER_CENT as i64 * cents,
        }
    }
}

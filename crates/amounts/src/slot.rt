// A day's slot: the words of its 48 intervals.
ghost use Rattle.std.specs.Prelude.{◌≡◌, ◌≤◌, ◌<◌};
ghost use Rattle.rulebook.specs.Units.{intervals};
ghost use Rattle.rulebook.specs.Shares.{most_accounts};
ghost use Rattle.rulebook.specs.Layout.{interval_of};
ghost use Rattle.amounts.specs.Day.{cell_at, SlotRanged, residuals_of};

use crate::cell::Cell;
use crate::interval::Interval;
use rulebook::layout::interval_length;
use rulebook::units::INTERVALS;
use rules::share::Residual;
use std::array;

// The words of a slot, in range.
#[derive(Clone, Copy)]
pub struct Slot<'a> {
    pub words: &'a [i64],
    pub accounts: usize,
    ghost few: { accounts ≤ most_accounts },
    ghost ranged: { SlotRanged accounts words.now },
}

// a and h are bare indices: the loops over accounts and intervals make them, and a type would wrap each.
impl<'a> Slot<'a> {
    // Interval h.
    pub fn interval(self, h: usize) -> Interval<'a>
        requires { h < intervals }
        ensures words { result.words.now ≡ interval_of self.entry.accounts self.entry.words.now h }
        ensures accounts { result.accounts ≡ self.entry.accounts }
    {
        let size = interval_length(self.accounts);
        let i = h * size;
        Interval {
            words: &self.words[i..i + size],
            accounts: self.accounts,
        }
    }

    // Account a's cell at interval h.
    pub fn cell(self, a: usize, h: usize) -> Cell<'a>
        requires { (a < self.accounts) × (h < intervals) }
        ensures { result.words.now ≡ cell_at self.entry.accounts self.entry.words.now a h }
    {
        self.interval(h).cell(a)
    }

    // R and S of each interval, formed once for all accounts.
    pub fn residuals(self) -> [Residual; INTERVALS]
        ensures { result ≡ residuals_of self.entry.accounts self.entry.words.now }
    {
        array::from_fn(|h| self.interval(h).residual())
    }
}

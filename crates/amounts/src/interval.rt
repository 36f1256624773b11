// Document 01, "Shares and tranches": R and S of one interval. An interval is its own 4 words and a cell for each account. The hedge total is formed as the
// holders' reports read it (document 02, P3): all base quantities, then all first tranches, the second, the third, one figure through them all.
ghost use Rattle.std.specs.Prelude.{◌≡◌, ◌+◌, ◌*◌, ◌≤◌, ◌<◌, pos, nat_abs, ◌-ℤ◌};
ghost use Rattle.rulebook.specs.Units.{most_quantity, most_load};
ghost use Rattle.rulebook.specs.Shares.{most_accounts, least_residual};
ghost use Rattle.rulebook.specs.Layout.{cell_of};
ghost use Rattle.rulebook.specs.DayAmount.{tenders, hedge_total, report_figure, spare_generation};
ghost use Rattle.amounts.specs.Interval.{IntervalRanged, QuantityWord, quantities_at, data_in, report_of, residual_at};

use crate::cell::Cell;
use integer::signed;
use rulebook::layout::{ACCOUNT_WORDS, BVQ, INTERVAL_WORDS, NCC_LOAD, TVQ, UEGQ, cell_place};
use rules::ranges::as_quantity;
use rules::share::Residual;

// The figures of the holders' report: after the base round, and after those of the first, second and third tranches.
#[derive(Clone, Copy)]
pub struct HedgeReport {
    pub base: u64,
    pub first: u64,
    pub second: u64,
    pub third: u64,
}

// The NCC load less what is hedged.
fn less_vested(load: i64, vested: u64) -> i64
    requires { (nat_abs load ≤ most_load) × (vested ≤ least_residual) }
    ensures { result ≡ load -ℤ pos vested }
{
    load - signed(vested)
}

// The words of an interval, in range.
#[derive(Clone, Copy)]
pub struct Interval<'a> {
    pub words: &'a [i64],
    pub accounts: usize,
    ghost few: { accounts ≤ most_accounts },
    ghost ranged: { IntervalRanged accounts words.now },
}

impl<'a> Interval<'a> {
    // Account a's cell.
    pub fn cell(self, a: usize) -> Cell<'a>
        requires { a < self.accounts }
        ensures { result.words.now ≡ cell_of self.entry.words.now a }
    {
        let i = cell_place(a);
        Cell {
            words: &self.words[i..i + ACCOUNT_WORDS],
        }
    }

    // One round over the accounts, ascending: a figure before it, and the quantity at one word of each cell more.
    fn round(self, at: usize, before: u64) -> u64
        requires { QuantityWord self.accounts self.words.now at × (before ≤ tenders * (most_accounts * most_quantity)) }
        ensures { result ≡ before + quantities_at self.entry.accounts self.entry.words.now at }
    {
        let mut figure = before;
        for cell in self.words[INTERVAL_WORDS..].as_chunks::<ACCOUNT_WORDS>().0 {
            figure += as_quantity(cell[at]);
        }
        figure
    }

    // The report's base round: all accounts' BVQ.
    fn base_round(self) -> u64
        ensures { result ≡ report_figure self.entry.accounts (data_in self.entry.words.now) 0 }
    {
        self.round(BVQ, 0)
    }

    // Its round of tranche t: the report's figure before it, and all accounts' TVQ of that tranche.
    fn tranche_round(self, t: usize, before: u64) -> u64
        requires { (t < tenders) × (before ≡ report_figure self.accounts (data_in self.words.now) t) }
        ensures { result ≡ report_figure self.entry.accounts (data_in self.entry.words.now) (t + 1) }
    {
        self.round(TVQ + 2 * t, before)
    }

    // All rounds, one figure through them.
    fn hedge_report(self) -> HedgeReport
        ensures { result ≡ report_of self.entry.accounts self.entry.words.now }
    {
        let base = self.base_round();
        let first = self.tranche_round(0, base);
        let second = self.tranche_round(1, first);
        let third = self.tranche_round(2, second);
        HedgeReport {
            base,
            first,
            second,
            third,
        }
    }

    // What all accounts' contracts hedge: the report's last figure.
    fn hedge_total(self) -> u64
        ensures { result ≡ hedge_total self.entry.accounts (data_in self.entry.words.now) }
    {
        self.hedge_report().third
    }

    // S: all accounts' UEGQ.
    fn spare(self) -> u64
        ensures { result ≡ spare_generation self.entry.accounts (data_in self.entry.words.now) }
    {
        self.round(UEGQ, 0)
    }

    // R and S.
    pub fn residual(self) -> Residual
        ensures { result ≡ residual_at self.entry.accounts self.entry.words.now }
    {
        let load = less_vested(self.words[NCC_LOAD], self.hedge_total());
        Residual::new(load, self.spare())
    }
}

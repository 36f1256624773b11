// Document 01, "Shares and tranches", and document 02, P2: an account's shares of a day that is settled, from its slot.
ghost use Rattle.std.specs.Prelude.{◌≡◌, ◌≤◌, ◌<◌, ◌+◌};
ghost use Rattle.rulebook.specs.Units.{intervals, most_quantity};
ghost use Rattle.amounts.specs.Day.{cell_at, uegq_in, residuals_of, share_in, sum_in};

use crate::cell::Cell;
use crate::slot::Slot;
use rulebook::Edition;
use rulebook::units::INTERVALS;
use rules::share::Residual;
use std::marker::Model;

// The slot of r, its edition, and R and S of its intervals.
#[derive(Drop)]
pub struct Settled<'a> {
    slot: Slot<'a>,
    edition: Edition,
    residuals: [Residual; INTERVALS],
}

impl<'a> Model for Settled<'a> {
    ghost use Rattle.std.specs.Prelude.{◌≡◌};
    ghost use Rattle.amounts.specs.Day.{Then, residuals_of};

    ghost Value = { Then };

    ghost view = { λ s. record { accounts = s.slot.accounts; words = s.slot.words.now; edition = s.edition } };

    ghost invariant = { λ s. s.residuals ≡ residuals_of s.slot.accounts s.slot.words.now };
}

impl<'a> Settled<'a> {
    pub fn new(slot: Slot<'a>, edition: Edition, residuals: [Residual; INTERVALS]) -> Settled<'a>
        requires { residuals ≡ residuals_of slot.accounts slot.words.now }
        ensures { result ≡ record { accounts = slot.entry.accounts; words = slot.entry.words.now; edition = edition } }
    {
        Settled {
            slot,
            edition,
            residuals,
        }
    }

    // Account a's cell at interval h.
    pub fn cell(&self, a: usize, h: usize) -> Cell<'a>
        requires { (a < self.now.accounts) × (h < intervals) }
        ensures { result.words.now ≡ cell_at self.now.accounts self.now.words a h }
    {
        self.slot.cell(a, h)
    }

    // Account a's share at interval h, where `sum` is the UEGQ of the accounts before it; it goes on with the account's.
    pub fn share(&self, sum: &mut u64, a: usize, h: usize) -> u64
        requires { (a < self.now.accounts) × (h < intervals) × (sum.old ≡ sum_in self.now a h) }
        ensures share { (result ≡ share_in self.now a h) × (result ≤ most_quantity) }
        ensures sum { sum.new ≡ sum_in self.now (a + 1) h }
    {
        let slot = self.slot;
        let before = *sum;
        let u = slot.cell(a, h).uegq();
        *sum = before + u;
        let residuals = &self.residuals;
        residuals[h].share_by(self.edition, before, u)
    }
}

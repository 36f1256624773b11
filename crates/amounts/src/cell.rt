// Document 01, "Day amount": one account at one interval. A cell is the account's 24 words; amounts are in thousandths of a cent.
ghost use Rattle.std.specs.Prelude.{◌≡◌, true, ◌≤◌, ◌<◌, pos, nat_abs, ◌-ℤ◌, ◌*ℤ◌};
ghost use Rattle.integer.specs.Words.{word};
ghost use Rattle.rulebook.specs.declared.Kind.TheVariants.{Quantity};
ghost use Rattle.rulebook.specs.Units.{in_range, as_quantity, most_price, most_quantity};
ghost use Rattle.rulebook.specs.Layout.{account_words};
ghost use Rattle.rulebook.specs.DayAmount.{reference_price_of, tender_amount, vesting_amount, share_amount};
ghost use Rattle.rules.specs.PriceSums.{sums_of};
ghost use Rattle.amounts.specs.Cell.{cell_data, RangedCell};

use integer::{add, natural, signed};
use rulebook::layout::{BVP, BVQ, MEP, METER_FLAG, MQ, RVP1, RVP2, TVQ, UEGQ};
use rulebook::units::TENDERS;
use rules::price::Sums;
use rules::ranges::as_quantity;
use rules::tranche::first_tranche;

// (price - V) × quantity.
// V is a bare i64 whose bound each contract asks: a type for it would be unwrapped in every product.
fn priced(price: i64, v: i64, quantity: u64) -> i64
    requires { (nat_abs price ≤ most_price) × (nat_abs v ≤ most_price) × (quantity ≤ most_quantity) }
    ensures { result ≡ (price -ℤ v) *ℤ pos quantity }
{
    (price - v) * signed(quantity)
}

// An account's words at an interval, in range.
#[derive(Clone, Copy)]
pub struct Cell<'a> {
    pub words: &'a [i64],
    ghost ranged: { RangedCell words.now },
}

impl<'a> Cell<'a> {
    // The quantity at a word.
    fn quantity(self, at: usize) -> u64
        requires { (at < account_words) × (in_range Quantity (word self.words.now at) ≡ true) }
        ensures { (result ≡ as_quantity (word self.entry.words.now at)) × (result ≤ most_quantity) }
    {
        as_quantity(self.words[at])
    }

    // (price - V) × quantity, with the price at a word.
    fn priced(self, at: usize, v: i64, quantity: u64) -> i64
        requires { (at < account_words) × (nat_abs (word self.words.now at) ≤ most_price) × (nat_abs v ≤ most_price) × (quantity ≤ most_quantity) }
        ensures { result ≡ (word self.entry.words.now at -ℤ v) *ℤ pos quantity }
    {
        priced(self.words[at], v, quantity)
    }

    // How many facilities the cell has: its meter row's flag.
    fn facilities(self) -> usize
        ensures { result ≡ (cell_data self.entry.words.now).facilities }
    {
        natural(self.words[METER_FLAG])
    }

    // The sums of the cell's facilities, of which V is the average. Lists lent apart, as `rules::price` sums them, and pairs in a row have but
    // `with_facility` in common.
    fn sums(self) -> Sums
        ensures { result ≡ sums_of (cell_data self.entry.words.now).facilities (cell_data self.entry.words.now).mep (cell_data self.entry.words.now).ieq }
    {
        let mut sums = Sums::none();
        let end = MEP + 2 * self.facilities();
        for [mep, ieq] in self.words[MEP..end].as_chunks::<2>().0 {
            sums = sums.with_facility(*mep, *ieq);
        }
        sums
    }

    // V.
    pub fn price(self) -> i64
        ensures { result ≡ reference_price_of (cell_data self.entry.words.now) }
    {
        self.sums().price()
    }

    // Σ (TVP - V) × TVQ.
    fn tender_amount(self, v: i64) -> i64
        requires { nat_abs v ≤ most_price }
        ensures { result ≡ tender_amount (cell_data self.entry.words.now) v }
    {
        let mut total: i64 = 0;
        for [quantity, price] in self.words[TVQ..TVQ + 2 * TENDERS].as_chunks::<2>().0 {
            total = add(total, priced(*price, v, as_quantity(*quantity)));
        }
        total
    }

    // (BVP - V) × BVQ + Σ (TVP - V) × TVQ.
    pub fn vesting_amount(self) -> i64
        ensures { result ≡ vesting_amount (cell_data self.entry.words.now) }
    {
        let v = self.price();
        let base = self.priced(BVP, v, self.quantity(BVQ));
        add(base, self.tender_amount(v))
    }

    // UEGQ.
    pub fn uegq(self) -> u64
        ensures { (result ≡ (cell_data self.entry.words.now).uegq) × (result ≤ most_quantity) }
    {
        self.quantity(UEGQ)
    }

    // (RVP1 - V) × tranche 1 + (RVP2 - V) × tranche 2 of a share, of V = v.
    pub fn residual_amount(self, v: i64, share: u64) -> i64
        requires { (nat_abs v ≤ most_price) × (share ≤ most_quantity) }
        ensures { result ≡ share_amount (cell_data self.entry.words.now) v share }
    {
        let first = first_tranche(share, self.quantity(BVQ), self.quantity(MQ));
        let one = self.priced(RVP1, v, first);
        add(one, self.priced(RVP2, v, share - first))
    }
}

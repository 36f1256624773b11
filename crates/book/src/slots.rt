// Document 01, "The book": the slots, as they lie. A slot of a day of the window has 48 intervals that fit, every other is blank.
ghost use Rattle.std.specs.Prelude.{◌≡◌, ◌*◌, ◌≤◌, ◌<◌, length};
ghost use Rattle.rulebook.specs.Units.{last_day};
ghost use Rattle.rulebook.specs.Shares.{most_accounts};
ghost use Rattle.rulebook.specs.Layout.{slot_length, ring};
ghost use Rattle.rulebook.specs.WindowWalk.{window_place};
ghost use Rattle.book.specs.Day.{is_closed};
ghost use Rattle.book.specs.Parts.{intervals_fit, day_fits};
ghost use Rattle.book.specs.Slots.{day_at, slots_fit};

use crate::day::Day;
use crate::interval::interval_fits;
use opening::words::are_blank;
use rulebook::accepted::AcceptedTerms;
use rulebook::layout::{interval_length, slot_length};
use rulebook::units;

// A day's 48 intervals, of n accounts: n, and not the slot's length, says it more plainly.
fn intervals_fit(slot: &[i64], n: usize, day: Day) -> bool
    requires { (length slot.now ≡ slot_length n) × (n ≤ most_accounts) }
    ensures { result ≡ intervals_fit n (is_closed day) slot.now }
{
    slot.chunks_exact(interval_length(n))
        .all(|interval| interval_fits(interval, day))
}

// A slot of n accounts, of a day of the window or of none. As above, n says it more plainly.
fn slot_fits(slot: &[i64], n: usize, day: Option<Day>) -> bool
    requires { (length slot.now ≡ slot_length n) × (n ≤ most_accounts) }
    ensures { result ≡ day_fits n day slot.now }
{
    match day {
        Some(day) => intervals_fit(slot, n, day),
        None => are_blank(slot),
    }
}

// The place of slot v in the window of L + H days from C − L on, after some closes.
fn window_place(terms: AcceptedTerms, closes: usize, v: usize) -> usize
    requires { (closes ≤ last_day) × (v < ring terms) }
    ensures { (result ≡ window_place terms closes v) × (result < ring terms) }
{
    let ring = terms.ring();
    let today = (closes + terms.get().horizon) % ring;
    (v + (ring - today)) % ring
}

// The day of the place, if that is from F to 36,524: those before C are closed.
fn day_at(terms: AcceptedTerms, closes: usize, place: usize) -> Option<Day>
    requires { (closes ≤ last_day) × (place < ring terms) }
    ensures { result ≡ day_at terms closes place }
{
    let terms = terms.get();
    let at = closes + place;
    if at < terms.lag {
        return None;
    }
    if units::LAST_DAY < terms.first + (at - terms.lag) {
        return None;
    }
    if place < terms.lag {
        Some(Day::Closed)
    } else {
        Some(Day::Open)
    }
}

// "The book": every slot, in the order in which they lie; day d has slot (d − F) mod (L + H).
pub fn slots_fit(slots: &[i64], terms: AcceptedTerms, closes: usize) -> bool
    requires { (closes ≤ last_day) × (length slots.now ≡ ring terms * slot_length terms.accounts) }
    ensures { result ≡ slots_fit terms closes slots.now }
{
    let n = terms.get().accounts;
    for (v, slot) in slots.chunks_exact(slot_length(n)).enumerate() {
        let place = window_place(terms, closes, v);
        if !slot_fits(slot, n, day_at(terms, closes, place)) {
            return false;
        }
    }
    true
}

// Document 01, "The book": where a day's slot starts, and how many words an interval has.
ghost use Rattle.std.specs.Prelude.{◌≡◌, ◌≤◌};
ghost use Rattle.rulebook.specs.Shares.{most_accounts};
ghost use Rattle.rulebook.specs.Layout.{interval_length, interval_size, slot_start};

use rulebook::accepted::AcceptedTerms;
use rulebook::layout::{balance_word, interval_length};
use rulebook::units;

// Words of an interval: 4 + 24N.
pub fn interval_size(terms: AcceptedTerms) -> usize
    ensures { (result ≡ interval_size terms) × (result ≤ interval_length most_accounts) }
{
    interval_length(terms.get().accounts)
}

// The first word of the slot of a day: slot (d − F) mod (L + H).
pub fn slot_start(terms: AcceptedTerms, day: usize) -> usize
    requires { terms.first ≤ day }
    ensures { result ≡ slot_start terms day }
{
    let slot = (day - terms.get().first) % terms.ring();
    balance_word(terms.get().accounts) + slot * units::INTERVALS * interval_size(terms)
}

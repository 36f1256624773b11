// Document 01, "Close": r = D − L, the day whose residuals a close of D settles, and, document 02, P2, its edition.
ghost use Rattle.std.specs.Option.{ForSome};
ghost use Rattle.std.specs.Prelude.{◌≡◌, ◌≤◌};
ghost use Rattle.rulebook.specs.DayAmount.{edition_of};
ghost use Rattle.closing.specs.Slots.{settled_day};

use book::judge::FormedBook;
use rulebook::{Edition, Terms};

// r, unless it is before F.
pub fn settled_day(formed: &FormedBook) -> Option<usize>
    ensures day { result ≡ settled_day formed.now.terms formed.now.next }
    ensures late { ForSome result (λ r. formed.now.terms.first ≤ r) }
{
    let terms = formed.terms.get();
    if terms.first + terms.lag <= formed.next {
        Some(formed.next - terms.lag)
    } else {
        None
    }
}

// The edition of a residual day: the second from X on, and never if X is 0.
pub fn edition_of(terms: Terms, settled: usize) -> Edition
    ensures { result ≡ edition_of terms settled }
{
    if (terms.change != 0) & (terms.change <= settled) {
        Edition::Second
    } else {
        Edition::First
    }
}

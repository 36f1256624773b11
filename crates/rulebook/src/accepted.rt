// Document 01, "The book": the terms that an opening accepts.
ghost use Rattle.std.specs.Prelude.{◌≡◌, ◌+◌, cond, Some, None};
ghost use Rattle.rulebook.specs.Terms.{change_fits, terms_fit, InTerms};

use crate::Terms;
use crate::units::{EARLIEST_FIRST_DAY, LAST_DAY, MOST_ACCOUNTS, MOST_HORIZON, MOST_LAG};
use std::marker::Model;

// X is 0, for never, or 9,497 to 36,524.
fn change_fits(x: usize) -> bool
    ensures { result ≡ change_fits x }
{
    (x == 0) | ((EARLIEST_FIRST_DAY <= x) & (x <= LAST_DAY))
}

// N is 1 to 32, L 1 to 75, H 1 to 92, F 9,497 to 36,524, and X.
fn terms_fit(terms: Terms) -> bool
    ensures { result ≡ terms_fit terms }
{
    (1 <= terms.accounts)
        & (terms.accounts <= MOST_ACCOUNTS)
        & (1 <= terms.lag)
        & (terms.lag <= MOST_LAG)
        & (1 <= terms.horizon)
        & (terms.horizon <= MOST_HORIZON)
        & (EARLIEST_FIRST_DAY <= terms.first)
        & (terms.first <= LAST_DAY)
        & change_fits(terms.change)
}

// Terms that an opening accepts.
#[derive(Clone, Copy)]
pub struct AcceptedTerms {
    terms: Terms,
}

impl Model for AcceptedTerms {
    ghost use Rattle.rulebook.specs.declared.Terms.{Terms};
    ghost use Rattle.rulebook.specs.Terms.{InTerms};

    ghost Value = { Terms };

    ghost view = { λ a. a.terms };

    ghost invariant = { λ a. InTerms a.terms };

    ghost inverse = { λ o. record { terms = o } };
}

impl AcceptedTerms {
    // The terms, if an opening accepts them.
    pub fn new(terms: Terms) -> Option<AcceptedTerms>
        ensures { result ≡ cond (terms_fit terms) (Some terms) None }
    {
        if terms_fit(terms) {
            Some(AcceptedTerms { terms })
        } else {
            None
        }
    }

    // As they were given.
    pub fn get(&self) -> Terms
        ensures same { result ≡ self.now }
        ensures accepted { InTerms self.now }
    {
        self.terms
    }

    // How many slots a book has, one a day from L back to H ahead.
    pub fn ring(&self) -> usize
        ensures { result ≡ self.now.lag + self.now.horizon }
    {
        self.terms.lag + self.terms.horizon
    }
}

// Document 01, "The book": the header, the size, and the sums over accounts and closed days.
ghost use Rattle.std.specs.Prelude.{◌≡◌, ◌&&◌, ◌+◌, ◌-◌, ◌*◌, ◌≤◌, ◌<◌, suc, pos, cond, leb, nat_abs, length, drop, Some, None, IfSome, is_some};
ghost use Rattle.std.specs.Int.Signed.{le_z};
ghost use Rattle.integer.specs.Integer.{positive};
ghost use Rattle.integer.specs.Words.{word, part};
ghost use Rattle.rulebook.specs.Units.{last_day, between};
ghost use Rattle.rulebook.specs.Layout.{size, header_words, book_mark, mark_word, balance_word, mssl_word, differences_word};
ghost use Rattle.rulebook.specs.BookData.{terms_of, next_day};
ghost use Rattle.rulebook.specs.WellFormed.{day_bound, next_day_fits, terms_words_fit, header_fits, sum_fits, balance_fits, differences_fit, balances_fit};
ghost use Rattle.opening.specs.Blank.{blank};

use crate::words::{is_blank, is_within};
use integer::natural;
use rulebook::accepted::AcceptedTerms;
use rulebook::layout::{BALANCE_WORDS, HEADER_WORDS, balance_word, interval_length};
use rulebook::{Terms, layout, units};
use rules::ranges::is_between;

// Word 0, and the next day to close of a finished book, as words: a constant calls no `from`.
const BOOK_MARK: i64 = layout::BOOK_MARK as i64;

const FINISHED: i64 = units::LAST_DAY as i64 + 1;

// A word that is not below zero, as a number.
fn count(word: i64) -> Option<usize>
    ensures { result ≡ cond (le_z (pos 0) word) (Some (positive word)) None }
{
    usize::try_from(word).ok()
}

// N, L, H, F and X, if an opening accepts them. Of a word below zero 0 is read, which only X may be.
fn terms_in(words: &[i64; HEADER_WORDS]) -> Option<AcceptedTerms>
    ensures { result ≡ cond (terms_words_fit words.now) (Some (terms_of words.now)) None }
{
    let change = count(words[layout::CHANGE_DAY])?;
    AcceptedTerms::new(Terms {
        accounts: natural(words[layout::ACCOUNTS]),
        lag: natural(words[layout::LAG]),
        horizon: natural(words[layout::HORIZON]),
        first: natural(words[layout::FIRST_DAY]),
        change,
    })
}

// Word 0 of every book is 395.
fn is_mark(word: i64) -> bool
    ensures { result ≡ between (pos book_mark) (pos book_mark) word }
{
    word == BOOK_MARK
}

// 395; C, which is F to 36,525; zeros.
fn frame_fits(words: &[i64; HEADER_WORDS]) -> bool
    ensures { result ≡ (between (pos book_mark) (pos book_mark) (word words.now mark_word) && next_day_fits words.now && blank (part words.now 9 55)) }
{
    is_mark(words[layout::MARK])
        & is_between(words[layout::FIRST_DAY], FINISHED, words[layout::NEXT_DAY])
        & is_blank(&words[layout::HEADER_SPARES..])
}

// What a header that fits says: its terms, and C, the next day to close.
#[derive(Clone, Copy)]
pub struct Header {
    pub terms: AcceptedTerms,
    pub next: usize,
    pub ghost begun: { terms.first ≤ next },
    pub ghost ended: { next ≤ suc last_day },
}

impl Header {
    // "The book": words 0 to 63, but for the MSSL's balance and the rounding differences' sum.
    pub fn of(book: &[i64]) -> Option<Header>
        ensures fits { is_some result ≡ (leb header_words (length book.now) && header_fits book.now) }
        ensures told { IfSome result (λ h. (h.terms ≡ terms_of book.now) × (h.next ≡ next_day book.now)) }
    {
        let words = book.first_chunk()?;
        let terms = terms_in(words)?;
        if !frame_fits(words) {
            return None;
        }
        Some(Header {
            terms,
            next: natural(words[layout::NEXT_DAY]),
        })
    }

    // How many days are closed: C − F.
    pub fn closes(&self) -> usize
        ensures { (result ≡ self.now.next - self.now.terms.first) × (result ≤ last_day) }
    {
        self.next - self.terms.get().first
    }

    // The most of an account's sum, either way, to which a closed day adds at most so much.
    fn bound(&self, per_day: usize) -> u64
        requires { per_day ≤ day_bound }
        ensures { (result ≡ (self.now.next - self.now.terms.first) * per_day) × (result ≤ last_day * day_bound) }
    {
        // `as`: every usize fits u64, and there is no From between them.
        (self.closes() * per_day) as u64
    }

    // A sum over all accounts is within N times that.
    fn sum_fits(&self, per_day: usize, sum: i64) -> bool
        requires { per_day ≤ day_bound }
        ensures { result ≡ sum_fits per_day self.now.terms.accounts (self.now.next - self.now.terms.first) sum }
    {
        // `as`: every usize fits u64, and there is no From between them.
        let n = self.terms.get().accounts as u64;
        is_within(sum, n * self.bound(per_day))
    }

    // "The book": the MSSL's balance is within N × (C − F) × 4,800,000,000,000.
    pub fn mssl_fits(&self, book: &[i64]) -> bool
        requires { mssl_word < length book.now }
        ensures { result ≡ balance_fits self.now.terms.accounts (self.now.next - self.now.terms.first) (word book.now mssl_word) }
    {
        self.sum_fits(units::DAY_BOUND, book[layout::MSSL])
    }

    // Document 02, P5: the rounding differences' sum is within 500 × N × (C − F).
    pub fn differences_fit(&self, book: &[i64]) -> bool
        requires { differences_word < length book.now }
        ensures { result ≡ differences_fit self.now.terms.accounts (self.now.next - self.now.terms.first) (word book.now differences_word) }
    {
        self.sum_fits(units::DIFFERENCE_BOUND, book[layout::DIFFERENCES])
    }

    // "The book": each account's balance is within (C − F) × 4,800,000,000,000, and its seven zeros.
    pub fn balances_fit(&self, book: &[i64]) -> bool
        requires { balance_word self.now.terms.accounts ≤ length book.now }
        ensures { result ≡ balances_fit book.now (self.now.next - self.now.terms.first) self.now.terms.accounts }
    {
        let bound = self.bound(units::DAY_BOUND);
        let end = balance_word(self.terms.get().accounts);
        let (balances, _) = book[HEADER_WORDS..end].as_chunks::<BALANCE_WORDS>();
        balances.iter().all(|words| balance_words_fit(words, bound))
    }
}

// An account's eight words: its balance within a bound, and zeros.
fn balance_words_fit(words: &[i64; BALANCE_WORDS], bound: u64) -> bool
    ensures { result ≡ (leb (nat_abs (word words.now 0)) bound && blank (drop 1 words.now)) }
{
    is_within(words[0], bound) & is_blank(&words[1..])
}

// "The book": "Size: 64 + 8N + 48(L + H)(4 + 24N) words"
pub fn book_size(terms: AcceptedTerms) -> usize
    ensures { result ≡ size terms }
{
    let n = terms.get().accounts;
    balance_word(n) + units::INTERVALS * terms.ring() * interval_length(n)
}

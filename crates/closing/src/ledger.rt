// Document 01, "Close": balances grow, and the rounding differences' sum.
ghost use Rattle.std.specs.Prelude.{◌≡◌, ◌+◌, ◌≤◌, ◌<◌, ◌^◌, nat_abs, ◌+ℤ◌, length, set};
ghost use Rattle.integer.specs.Words.{word};
ghost use Rattle.rulebook.specs.Shares.{most_accounts};
ghost use Rattle.rulebook.specs.Close.{balances_grown_by};
ghost use Rattle.closing.specs.Written.{BalancesRoom};

use rulebook::layout::balance_word;

// The sum at an index grows by an amount, an account's, the MSSL's or the rounding difference: in one place, where it is proved to fit.
pub fn grow(book: &mut [i64], at: usize, amount: i64)
    requires { (at < length book.old) × (nat_abs (word book.old at) + nat_abs amount < 2 ^ 63) }
    ensures { book.new ≡ set book.old at (word book.old at +ℤ amount) }
{
    book[at] += amount;
}

// Each account's grows by its amount.
// The length of a lent list, asked of each caller: no type for it outlives a close.
pub fn grow_balances(book: &mut [i64], amounts: &[i64])
    requires { BalancesRoom (length amounts.now) book.old amounts.now × (length amounts.now ≤ most_accounts) }
    ensures { book.new ≡ balances_grown_by book.old (word amounts.now) (length amounts.now) }
{
    for (a, amount) in amounts.iter().enumerate() {
        grow(book, balance_word(a), *amount);
    }
}

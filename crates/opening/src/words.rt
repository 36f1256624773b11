// Tests of a word, and of zeros; zeros written.
ghost use Rattle.std.specs.Prelude.{◌≡◌, leb, pos, nat_abs, length};
ghost use Rattle.integer.specs.Below.{tabulate};
ghost use Rattle.rulebook.specs.WellFormed.{is_zero};
ghost use Rattle.opening.specs.Blank.{blank};

// Words of a row of `are_blank`.
pub const ROW: usize = 64;

// The word is zero, as absent data and unused pairs are.
pub fn is_zero(word: i64) -> bool
    ensures { result ≡ is_zero word }
{
    word == 0
}

// The word, a balance, is within a bound either way.
pub fn is_within(word: i64, bound: u64) -> bool
    ensures { result ≡ leb (nat_abs word) bound }
{
    word.unsigned_abs() <= bound
}

// "The book", blank: every word is zero. All are read: a loop that is left early is not vectorised.
pub fn is_blank(part: &[i64]) -> bool
    ensures { result ≡ blank part.now }
{
    part.iter().fold(true, |ok, word| ok & is_zero(*word))
}

// The same, row by row: a row's loop is unrolled.
pub fn are_blank(part: &[i64]) -> bool
    ensures { result ≡ blank part.now }
{
    let (rows, rest) = part.as_chunks::<ROW>();
    rows.iter().fold(true, |ok, row| ok & is_blank(row)) & is_blank(rest)
}

// Blanks a part: every word is written zero.
pub fn clear(part: &mut [i64])
    ensures { part.new ≡ tabulate (length part.old) (λ k. pos 0) }
{
    part.fill(0);
}

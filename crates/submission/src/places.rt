// Document 01, "The book": where the words of a row stand in an interval.
ghost use Rattle.std.specs.Prelude.{◌≡◌, ◌≤◌};
ghost use Rattle.rulebook.specs.declared.Section.TheVariants.{Residual};
ghost use Rattle.rulebook.specs.Shares.{most_accounts};
ghost use Rattle.rulebook.specs.Layout.{place};

use rulebook::{Section, layout};

// The place in an interval of the first word of a row.
// A table by section that takes an argument, as a match: an NCC row's words are the interval's own.
pub fn place_of(sec: Section, account: usize) -> usize
    requires { account ≤ most_accounts }
    ensures { (result ≡ place sec account 0) × (result ≤ place Residual most_accounts 0) }
{
    let cell = layout::cell_place(account);
    match sec {
        Section::Vesting => cell + layout::VESTING_FLAG,
        Section::Meter => cell + layout::METER_FLAG,
        Section::Residual => cell + layout::RESIDUAL_FLAG,
        Section::Ncc => layout::NCC_LOAD,
    }
}

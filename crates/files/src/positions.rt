// Document 01, "A submission file": where the fields of a row stand, what they say, and where the row ends, for whoever reads an accepted file.
ghost use Rattle.std.specs.Prelude.{◌≡◌, ◌+◌, ◌*◌, ◌-◌, ◌≤◌, ◌<◌, ◌^◌, length, take, drop};
ghost use Rattle.rulebook.specs.Units.{intervals};
ghost use Rattle.rulebook.specs.ReferencePrice.{most_facilities};
ghost use Rattle.rulebook.specs.File.{first_row, day_pos, count_pos, values_pos, account_at, day_at, count_at, values_of, row_end_of, rows_in};

use crate::sections::{per_interval, row_form};
use rulebook::Section;
use rulebook::file::number;
use rulebook::units::INTERVALS;

// The bytes of a section's count of rows, of a row's day and of each of its values.
pub const ROWS_BYTES: usize = 2;

pub const DAY_BYTES: usize = 2;

pub const VALUE_BYTES: usize = 4;

// The first row of the section at a position.
pub fn first_row(at: usize) -> usize
    requires { at < 2 ^ 63 }
    ensures { result ≡ first_row at }
{
    at + ROWS_BYTES
}

// How many rows the section at a position of the file has. Positions, and no parts of the file, since a refusal names them.
pub fn rows_in(file: &[u8], at: usize) -> usize
    requires { at + 2 ≤ length file.now }
    ensures { result ≡ rows_in file.now at }
{
    number(file, at, ROWS_BYTES)
}

// How many values a row has, of a tranche or facility count.
// Section and count apart: the section is known before a row's count is read.
pub fn values_of(section: Section, count: usize) -> usize
    requires { count ≤ most_facilities }
    ensures { (result ≡ values_of section count) × (result ≤ intervals * 10) }
{
    INTERVALS * per_interval(section, count)
}

// A row of a section, which starts at a position of a file.
#[derive(Clone, Copy)]
pub struct Row<'a> {
    pub section: Section,
    pub file: &'a [u8],
    pub at: usize,
    ghost near: { at < 2 ^ 63 },
}

impl<'a> Row<'a> {
    // The day stands past the account,
    pub fn day_pos(&self) -> usize
        ensures { (result ≡ day_pos self.now.section self.now.at) × (result ≤ self.now.at + 1) }
    {
        self.at + row_form(self.section).account_bytes
    }

    // the count past the day,
    pub fn count_pos(&self) -> usize
        ensures { (result ≡ count_pos self.now.section self.now.at) × (result ≤ self.now.at + 3) }
    {
        self.day_pos() + DAY_BYTES
    }

    // and the values past the count.
    pub fn values_pos(&self) -> usize
        ensures { (result ≡ values_pos self.now.section self.now.at) × (result ≤ self.now.at + 4) }
    {
        self.count_pos() + row_form(self.section).count_bytes
    }

    // The position past the row, of such a count.
    pub fn end(&self, count: usize) -> usize
        requires { count ≤ most_facilities }
        ensures { result ≡ row_end_of self.now.section self.now.at count }
    {
        self.values_pos() + VALUE_BYTES * values_of(self.section, count)
    }

    // Its account; an NCC row's is 0.
    pub fn account(&self) -> usize
        requires { day_pos self.now.section self.now.at ≤ length self.now.file.now }
        ensures { result ≡ account_at self.now.section self.now.file.now self.now.at }
    {
        number(self.file, self.at, row_form(self.section).account_bytes)
    }

    // Its day.
    pub fn day(&self) -> usize
        requires { count_pos self.now.section self.now.at ≤ length self.now.file.now }
        ensures { result ≡ day_at self.now.section self.now.file.now self.now.at }
    {
        number(self.file, self.day_pos(), DAY_BYTES)
    }

    // Its tranche or facility count, 0 where it has none.
    pub fn count(&self) -> usize
        requires { values_pos self.now.section self.now.at ≤ length self.now.file.now }
        ensures { result ≡ count_at self.now.section self.now.file.now self.now.at }
    {
        number(
            self.file,
            self.count_pos(),
            row_form(self.section).count_bytes,
        )
    }

    // The file from its values on.
    pub fn values(&self) -> &'a [u8]
        requires { values_pos self.now.section self.now.at ≤ length self.now.file.now }
        ensures { result.now ≡ drop (values_pos self.now.section self.now.at) self.now.file.now }
    {
        let file = self.file;
        &file[self.values_pos()..]
    }
}

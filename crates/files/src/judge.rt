// Document 01, "A submission file": one row, its fields judged in file order; the rows of a section, the four sections, and the end of the file.
ghost use Rattle.std.specs.Prelude.{◌≡◌, ◌≤◌, length, OnOk};
ghost use Rattle.rulebook.specs.File.{row_end, section_end};
ghost use Rattle.rulebook.specs.Judging.{key, row_after, judged_section, judged};
ghost use Rattle.files.specs.Judgeable.{Judgeable};
ghost use Rattle.files.specs.Marks.{mark_of, marked, marks_after};

use crate::positions::{DAY_BYTES, ROWS_BYTES, VALUE_BYTES, values_of};
use crate::reader::Reader;
use crate::sections::{open_from, row_form};
use crate::values::judge_values;
use rulebook::units::MOST_ACCOUNTS;
use rulebook::{Limits, Refusal, Section, Why};
use std::mem;

// What a file is judged by, the file as far as it is judged, and the marks: one for each account and open day that the section gave so far.
#[derive(Drop)]
struct Judge<'a> {
    limits: Limits,
    reader: Reader<'a>,
    marks: &'a mut [u8],
    ghost judgeable: { Judgeable limits (length marks.now) },
}

impl Judge<'_> {
    // The row that comes next, after those whose accounts and days are marked.
    fn row(&mut self, section: Section) -> Result<(), Refusal>
        ensures answer { result ≡ row_after self.old.limits section self.old.reader.file.now self.old.reader.at (marked self.old.marks.now (mark_of self.old.limits section self.old.reader.file.now self.old.reader.at)) }
        ensures past { OnOk result (self.new.reader.at ≡ row_end section self.old.reader.file.now self.old.reader.at) }
        ensures marks { self.new.marks.now ≡ marks_after (key self.old.limits section self.old.reader.file.now self.old.reader.at) (mark_of self.old.limits section self.old.reader.file.now self.old.reader.at) self.old.marks.now }
        ensures file { self.new.reader.file ≡ self.old.reader.file }
        ensures limits { self.new.limits ≡ self.old.limits }
    {
        let form = row_form(section);
        let last = self.limits.accounts - 1;
        let account = self
            .reader
            .field(form.account_bytes, 0, last, Why::OutOfRange)?;
        let day_pos = self.reader.at;
        let low = open_from(self.limits, section);
        let day = self
            .reader
            .field(DAY_BYTES, low, self.limits.last, Why::DayNotOpen)?;
        let mark = MOST_ACCOUNTS * (day - low) + account;
        let marks = &mut *self.marks;
        let again = mem::replace(&mut marks[mark], 1) == 1;
        if again {
            return Err(Refusal {
                why: Why::Repeated,
                at: day_pos,
            });
        }
        let count = self.reader.field(
            form.count_bytes,
            form.least_count,
            form.most_count,
            Why::OutOfRange,
        )?;
        let file = self.reader.file;
        let from = self.reader.at;
        let n = values_of(section, count);
        let end = from + VALUE_BYTES * n;
        let cut = end.min(file.len());
        judge_values(&file[from..cut], from, section, n)?;
        self.reader.at = end;
        Ok(())
    }

    // The section that comes next: its count of rows, then the rows. The marks are cleared where there are rows.
    fn section(&mut self, section: Section) -> Result<(), Refusal>
        ensures answer { result ≡ judged_section self.old.limits section self.old.reader.file.now self.old.reader.at }
        ensures past { OnOk result (self.new.reader.at ≡ section_end section self.old.reader.file.now self.old.reader.at) }
        ensures file { self.new.reader.file ≡ self.old.reader.file }
        ensures limits { self.new.limits ≡ self.old.limits }
    {
        let count = self.reader.take(ROWS_BYTES)?;
        if count == 0 {
            return Ok(());
        }
        let marks = &mut *self.marks;
        marks.fill(0);
        for _ in 0..count {
            self.row(section)?;
        }
        Ok(())
    }
}

// The file: its four sections, and no byte after them. The caller lends a table of marks, whatever it holds, with room for the open days.
pub fn judge_file(limits: Limits, file: &[u8], marks: &mut [u8]) -> Result<(), Refusal>
    requires { Judgeable limits (length marks.old) }
    ensures { result ≡ judged limits file.now }
{
    let reader = Reader::new(file);
    let mut judge = Judge {
        limits,
        reader,
        marks,
    };
    judge.section(Section::Vesting)?;
    judge.section(Section::Meter)?;
    judge.section(Section::Residual)?;
    judge.section(Section::Ncc)?;
    let end = judge.reader.at;
    if end < file.len() {
        return Err(Refusal {
            why: Why::Excess,
            at: end,
        });
    }
    Ok(())
}

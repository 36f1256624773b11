// Document 01, "A submission file": an accepted row replaces all it names, in the 48 intervals of its day.
ghost use Rattle.std.specs.Prelude.{◌≡◌, ◌+◌, ◌-◌, ◌*◌, ◌≤◌, length};
ghost use Rattle.integer.specs.Below.{tabulate};
ghost use Rattle.integer.specs.Words.{grid};
ghost use Rattle.rulebook.specs.Units.{intervals};
ghost use Rattle.rulebook.specs.ReferencePrice.{most_facilities};
ghost use Rattle.rulebook.specs.Sections.{most_count};
ghost use Rattle.rulebook.specs.Layout.{size};
ghost use Rattle.rulebook.specs.File.{row_end, row_at, section_end, section_rows, file_rows};
ghost use Rattle.rulebook.specs.Submit.{row_stored, rows_stored};
ghost use Rattle.submission.specs.Stored.{RowFits, SectionFits, FileFits, form_of, word_from, row_from};

use crate::places::place_of;
use book::places::slot_start;
use files::fields::value_at;
use files::positions::{Row, VALUE_BYTES, first_row, rows_in};
use files::sections::per_interval;
use rulebook::accepted::AcceptedTerms;
use rulebook::units::INTERVALS;
use rulebook::{Section, layout};

// A row's words at an interval: how many they are, which of them is the flag, what the flag is, and how many values the row has.
#[derive(Clone, Copy)]
pub struct Form {
    pub words: usize,
    pub place: usize,
    pub flag: i64,
    pub values: usize,
}

impl Form {
    // That of a section's rows, of a tranche or facility count.
    fn of(section: Section, count: usize) -> Form
        requires { count ≤ most_facilities }
        ensures { result ≡ form_of section count }
    {
        let values = per_interval(section, count);
        // No From makes an i64 of a usize; that the casts keep the number is proved.
        match section {
            Section::Vesting => Form {
                words: layout::VESTING_WORDS,
                place: 0,
                flag: 1 + count as i64,
                values,
            },
            Section::Meter => Form {
                words: layout::METER_WORDS,
                place: 0,
                flag: count as i64,
                values,
            },
            Section::Residual => Form {
                words: layout::RESIDUAL_WORDS,
                place: 0,
                flag: 1,
                values,
            },
            Section::Ncc => Form {
                words: layout::NCC_WORDS,
                place: layout::NCC_FLAG,
                flag: 1,
                values,
            },
        }
    }

    // Word j of an interval, whose values come first in `values`: the flag, a value, or the zero of an unused pair.
    fn word(&self, values: &[u8], j: usize) -> i64
        requires { 4 * self.now.values ≤ length values.now }
        ensures { result ≡ word_from self.now values.now 0 j }
    {
        if j == self.place {
            return self.flag;
        }
        let k = if j < self.place { j } else { j - 1 };
        if k < self.values {
            value_at(values, VALUE_BYTES * k)
        } else {
            0
        }
    }

    // Writes the words of an interval.
    fn put(&self, words: &mut [i64], values: &[u8])
        requires { 4 * self.now.values ≤ length values.now }
        ensures { words.new ≡ tabulate (length words.old) (word_from self.now values.now 0) }
    {
        for (j, word) in words.iter_mut().enumerate() {
            *word = self.word(values, j);
        }
    }

    // Writes the words of the 48 intervals, from `start` on and `stride` words apart.
    fn put_row(&self, book: &mut [i64], start: usize, stride: usize, values: &[u8])
        requires { (start + (intervals - 1) * stride + self.now.words ≤ length book.old) × (4 * (intervals * self.now.values) ≤ length values.now) }
        ensures { book.new ≡ grid start stride self.now.words (row_from self.now values.now 0) intervals book.old }
    {
        // By index: chunks would have to pair the intervals of the book with those of the values, and of no values there are none.
        for i in 0..INTERVALS {
            let a = start + i * stride;
            let e = a + self.words;
            self.put(&mut book[a..e], &values[VALUE_BYTES * (i * self.values)..]);
        }
    }
}

// The words of a book, which are enough for its terms.
#[derive(Drop)]
pub struct Store<'a> {
    pub words: &'a mut [i64],
    pub terms: AcceptedTerms,
    ghost room: { size terms ≤ length words.now },
}

impl Store<'_> {
    // Stores a row; the position past it.
    fn put_row(&mut self, row: &Row) -> usize
        requires { RowFits self.old.terms row.now.section row.now.file.now row.now.at }
        ensures past { result ≡ row_end row.now.section row.now.file.now row.now.at }
        ensures words { self.new.words.now ≡ row_stored self.old.terms (row_at row.now.section row.now.file.now row.now.at) intervals self.old.words.now }
        ensures terms { self.new.terms ≡ self.old.terms }
        ensures same_reference { self.new.words.ghost_name ≡ self.old.words.ghost_name }
    {
        let count = row.count();
        let form = Form::of(row.section, count);
        let stride = layout::interval_length(self.terms.get().accounts);
        let start = slot_start(self.terms, row.day()) + place_of(row.section, row.account());
        let words = &mut *self.words;
        form.put_row(words, start, stride, row.values());
        row.end(count)
    }

    // Stores the rows of the section at a position, in file order; the position past it.
    // A position, and no part of the file: it is handed on from section to section.
    fn put_section(&mut self, section: Section, file: &[u8], at: usize) -> usize
        requires { SectionFits self.old.terms section file.now at }
        ensures past { result ≡ section_end section file.now at }
        ensures words { self.new.words.now ≡ rows_stored self.old.terms (section_rows section file.now at) self.old.words.now }
        ensures terms { self.new.terms ≡ self.old.terms }
        ensures same_reference { self.new.words.ghost_name ≡ self.old.words.ghost_name }
    {
        let count = rows_in(file, at);
        let mut next = first_row(at);
        for _ in 0..count {
            let row = Row {
                section,
                file,
                at: next,
            };
            next = self.put_row(&row);
        }
        next
    }

    // Stores the rows of an accepted file, section after section.
    pub fn put_file(&mut self, file: &[u8])
        requires { FileFits self.old.terms file.now }
        ensures words { self.new.words.now ≡ rows_stored self.old.terms (file_rows file.now) self.old.words.now }
        ensures same_reference { self.new.words.ghost_name ≡ self.old.words.ghost_name }
    {
        let meter = self.put_section(Section::Vesting, file, 0);
        let residual = self.put_section(Section::Meter, file, meter);
        let ncc = self.put_section(Section::Residual, file, residual);
        self.put_section(Section::Ncc, file, ncc);
    }
}

// Document 01: a reader over the submission moves on only past what is whole.
ghost use Rattle.std.specs.Prelude.{◌≡◌, ◌+◌, ◌≤◌, length, OnOk, OnErr};
ghost use Rattle.rulebook.specs.File.{num};
ghost use Rattle.rulebook.specs.Judging.{whole, field_in};
ghost use Rattle.files.specs.Outcome.{outcome};

use crate::fields::{field_at, judge_field};
use rulebook::{Refusal, Why};

// A file, and the position of what is read next.
#[derive(Drop)]
pub struct Reader<'a> {
    pub file: &'a [u8],
    pub at: usize,
    ghost inside: { at ≤ length file.now },
}

impl<'a> Reader<'a> {
    // At the start of a file.
    pub fn new(file: &'a [u8]) -> Reader<'a>
        ensures { (result.file ≡ file.entry) × (result.at ≡ 0) }
    {
        Reader { file, at: 0 }
    }

    // The number of the next n bytes, if they are all there.
    // n is a constant, or a row form's width: one bound, asked where a width is passed on.
    pub fn take(&mut self, n: usize) -> Result<usize, Refusal>
        requires { n ≤ 2 }
        ensures answer { result ≡ outcome (whole n self.old.file.now self.old.at) (num n self.old.file.now self.old.at) }
        ensures file { self.new.file ≡ self.old.file }
        ensures past { OnOk result (self.new.at ≡ self.old.at + n) }
        ensures stays { OnErr result (self.new.at ≡ self.old.at) }
    {
        let v = field_at(self.file, self.at, n)?;
        self.at += n;
        Ok(v)
    }

    // The field of n bytes that comes next: whole, and from low to high, else refused for `why`.
    pub fn field(&mut self, n: usize, low: usize, high: usize, why: Why) -> Result<usize, Refusal>
        requires { n ≤ 2 }
        ensures answer { result ≡ outcome (field_in n low high why self.old.file.now self.old.at) (num n self.old.file.now self.old.at) }
        ensures file { self.new.file ≡ self.old.file }
        ensures past { OnOk result (self.new.at ≡ self.old.at + n) }
    {
        let at = self.at;
        judge_field(self.take(n), at, low, high, why)
    }
}

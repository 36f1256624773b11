// Document 02, P4: a statement in signed packed decimal, for ledgers that take it. Nothing of the book is here.
#![tactic(auto)]

pub mod pack; // pack.rt: amounts written as fields
pub mod unpack; // unpack.rt: fields judged, then read
pub mod returned; // returned.rt: what both return, by the table of numbers

ghost use Rattle.std.specs.Prelude.{◌≡◌};
ghost use Rattle.packed.specs.Packed.{count_fits};

// The bytes of a field: 15 digits, two a byte, the last with the sign.
pub const FIELD_BYTES: usize = 8;

// Bytes of two digits.
pub(crate) const PAIRS: usize = FIELD_BYTES - 1;

// The last half byte: zero and above, below zero.
pub(crate) const PLUS: u8 = 0xC;

pub(crate) const MINUS: u8 = 0xD;

const LEAST_AMOUNTS: usize = 2;

const MOST_AMOUNTS: usize = 33;

// Why writing is refused.
#[derive(Clone, Copy, PartialEq, Eq, Debug)]
pub enum PackError {
    OutsideRange,
    OutputTooShort,
}

// Why reading is refused; a wrong field with the byte.
#[derive(Clone, Copy, PartialEq, Eq, Debug)]
pub enum UnpackError {
    OutsideRange,
    OutputTooShort,
    WrongAt(usize),
}

// What the reading call returns: number, position of a wrong field, count of amounts; refused, every other figure is 0. Programs in other
// languages get it, hence C's layout.
#[repr(C)]
#[derive(Clone, Copy)]
pub struct UnpackReturned {
    pub number: u64,
    pub position: u64,
    pub count: u64,
}

// A statement has 2 to 33 amounts.
pub(crate) fn count_fits(n: usize) -> bool
    ensures { result ≡ count_fits n }
{
    (LEAST_AMOUNTS..=MOST_AMOUNTS).contains(&n)
}

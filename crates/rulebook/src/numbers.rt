// Document 01, "Numbers returned", with the numbers of document 02: the table, and what each call returns by it.
// No `From` takes a usize to a u64, hence `as`.
ghost use Rattle.std.specs.Prelude.{◌≡◌};
ghost use Rattle.rulebook.specs.Numbers.{why_number, numbered as Numbers·numbered, of_open, of_submit, of_close, rule_number, share_number, price_returned, tranche_returned, profile_returned};

use crate::{
    Answer, CloseError, CloseFigures, OpenError, PriceReturned, ProfileReturned, RuleError,
    SubmitError, TrancheReturned, Tranches, Why,
};

// What the C interface returns; inside, each is a variant of an error enum.
pub const ACCEPTED: u64 = 0;

pub const OUTSIDE_RANGE: u64 = 1;

pub const WORDS_TOO_FEW: u64 = 2;

pub const NOT_WELL_FORMED: u64 = 3;

pub const FIELD_NOT_WHOLE: u64 = 4;

pub const FIELD_OUT_OF_RANGE: u64 = 5;

pub const DAY_NOT_OPEN: u64 = 6;

pub const ROW_REPEATED: u64 = 7;

pub const BYTES_AFTER_END: u64 = 8;

pub const BOOK_FINISHED: u64 = 9;

pub const OUTPUT_TOO_SHORT: u64 = 10;

pub const DATUM_ABSENT: u64 = 11;

pub const NO_SUCH_DATE: u64 = 12;

pub const BAD_HOLIDAYS: u64 = 13;

pub const PAST_LAST_DAY: u64 = 14;

pub const TOTAL_IMPOSSIBLE: u64 = 15;

pub const PACKED_FIELD_WRONG: u64 = 16;

impl From<Why> for u64 {
    ghost from_gives = { λ why n. n ≡ why_number why };

    fn from(why: Why) -> u64 {
        match why {
            Why::NotWhole => FIELD_NOT_WHOLE,
            Why::OutOfRange => FIELD_OUT_OF_RANGE,
            Why::DayNotOpen => DAY_NOT_OPEN,
            Why::Repeated => ROW_REPEATED,
            Why::Excess => BYTES_AFTER_END,
        }
    }
}

impl From<RuleError> for u64 {
    ghost from_gives = { λ e n. n ≡ rule_number e };

    fn from(e: RuleError) -> u64 {
        match e {
            RuleError::OutsideRange => OUTSIDE_RANGE,
            RuleError::OutputTooShort => OUTPUT_TOO_SHORT,
            RuleError::TotalImpossible => TOTAL_IMPOSSIBLE,
        }
    }
}

// A refusal, with its position; every other figure is 0.
fn numbered(n: u64, position: usize) -> Answer
    ensures { result ≡ Numbers·numbered n position }
{
    Answer {
        number: n,
        position: position as u64,
        day: 0,
        count: 0,
        difference: 0,
    }
}

impl From<Result<(), OpenError>> for Answer {
    ghost from_gives = { λ r a. a ≡ of_open r };

    fn from(answer: Result<(), OpenError>) -> Answer {
        match answer {
            Ok(()) => numbered(ACCEPTED, 0),
            Err(OpenError::BadTerms) => numbered(OUTSIDE_RANGE, 0),
            Err(OpenError::TooShort) => numbered(WORDS_TOO_FEW, 0),
        }
    }
}

impl From<Result<(), SubmitError>> for Answer {
    ghost from_gives = { λ r a. a ≡ of_submit r };

    fn from(answer: Result<(), SubmitError>) -> Answer {
        match answer {
            Ok(()) => numbered(ACCEPTED, 0),
            Err(SubmitError::IllFormed) => numbered(NOT_WELL_FORMED, 0),
            Err(SubmitError::FileRefused(refusal)) => numbered(u64::from(refusal.why), refusal.at),
        }
    }
}

impl From<Result<CloseFigures, CloseError>> for Answer {
    ghost from_gives = { λ r a. a ≡ of_close r };

    fn from(answer: Result<CloseFigures, CloseError>) -> Answer {
        match answer {
            Ok(figures) => Answer {
                number: ACCEPTED,
                position: 0,
                day: figures.day as u64,
                count: figures.count as u64,
                difference: figures.difference,
            },
            Err(CloseError::BookIllFormed) => numbered(NOT_WELL_FORMED, 0),
            Err(CloseError::Finished) => numbered(BOOK_FINISHED, 0),
            Err(CloseError::NoRoom) => numbered(OUTPUT_TOO_SHORT, 0),
            Err(CloseError::DatumMissing(at)) => numbered(DATUM_ABSENT, at),
        }
    }
}

impl From<Result<i64, RuleError>> for PriceReturned {
    ghost from_gives = { λ r p. p ≡ price_returned r };

    fn from(answer: Result<i64, RuleError>) -> PriceReturned {
        match answer {
            Ok(price) => PriceReturned {
                number: ACCEPTED,
                price,
            },
            Err(e) => PriceReturned {
                number: u64::from(e),
                price: 0,
            },
        }
    }
}

impl From<Result<Tranches, RuleError>> for TrancheReturned {
    ghost from_gives = { λ r t. t ≡ tranche_returned r };

    fn from(answer: Result<Tranches, RuleError>) -> TrancheReturned {
        match answer {
            Ok(tranches) => TrancheReturned {
                number: ACCEPTED,
                first: tranches.first,
                second: tranches.second,
            },
            Err(e) => TrancheReturned {
                number: u64::from(e),
                first: 0,
                second: 0,
            },
        }
    }
}

impl From<Result<bool, RuleError>> for ProfileReturned {
    ghost from_gives = { λ r p. p ≡ profile_returned r };

    fn from(answer: Result<bool, RuleError>) -> ProfileReturned {
        match answer {
            Ok(keeps) => ProfileReturned {
                number: ACCEPTED,
                keeps: u64::from(keeps),
            },
            Err(e) => ProfileReturned {
                number: u64::from(e),
                keeps: 0,
            },
        }
    }
}

// The number alone, where a call returns no figure.
pub fn number_of(answer: Result<(), RuleError>) -> u64
    ensures { result ≡ share_number answer }
{
    match answer {
        Ok(()) => ACCEPTED,
        Err(e) => u64::from(e),
    }
}

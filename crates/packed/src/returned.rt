// What writing and reading return, by the table of numbers. No `From` takes a usize to a u64, hence `as`.
ghost use Rattle.std.specs.Prelude.{◌≡◌};
ghost use Rattle.packed.specs.Packed.{pack_error_number, pack_number, unpack_refused, unpack_returned};

use crate::{PackError, UnpackError, UnpackReturned};
use rulebook::numbers::{ACCEPTED, OUTPUT_TOO_SHORT, OUTSIDE_RANGE, PACKED_FIELD_WRONG};

impl From<PackError> for u64 {
    ghost from_gives = { λ e n. n ≡ pack_error_number e };

    fn from(e: PackError) -> u64 {
        match e {
            PackError::OutsideRange => OUTSIDE_RANGE,
            PackError::OutputTooShort => OUTPUT_TOO_SHORT,
        }
    }
}

// The number alone: writing returns no figure. Beside the rule book's `number_of`: one over any error would have to promise a number of any Into.
pub fn pack_number(answer: Result<(), PackError>) -> u64
    ensures { result ≡ pack_number answer }
{
    match answer {
        Ok(()) => ACCEPTED,
        Err(e) => u64::from(e),
    }
}

// A refusal, with its position.
fn refused(number: u64, position: usize) -> UnpackReturned
    ensures { result ≡ unpack_refused number position }
{
    UnpackReturned {
        number,
        position: position as u64,
        count: 0,
    }
}

impl From<Result<usize, UnpackError>> for UnpackReturned {
    ghost from_gives = { λ r u. u ≡ unpack_returned r };

    fn from(answer: Result<usize, UnpackError>) -> UnpackReturned {
        match answer {
            Ok(count) => UnpackReturned {
                number: ACCEPTED,
                position: 0,
                count: count as u64,
            },
            Err(UnpackError::OutsideRange) => refused(OUTSIDE_RANGE, 0),
            Err(UnpackError::OutputTooShort) => refused(OUTPUT_TOO_SHORT, 0),
            Err(UnpackError::WrongAt(position)) => refused(PACKED_FIELD_WRONG, position),
        }
    }
}

// What each call returns, by the table of numbers: refused, every figure is 0. No `From` takes a usize to a u64, hence `as`.
ghost use Rattle.std.specs.Prelude.{◌≡◌};
ghost use Rattle.calendar.specs.Calendar.{calendar_number, date_returned, day_returned, weekday_returned, business_returned};

use crate::{BusinessReturned, CalendarError, Date, DateReturned, DayReturned, WeekdayReturned};
use rulebook::numbers::{ACCEPTED, BAD_HOLIDAYS, NO_SUCH_DATE, PAST_LAST_DAY};

impl From<CalendarError> for u64 {
    ghost from_gives = { λ e n. n ≡ calendar_number e };

    fn from(e: CalendarError) -> u64 {
        match e {
            CalendarError::NoSuchDate => NO_SUCH_DATE,
            CalendarError::BadHolidays => BAD_HOLIDAYS,
            CalendarError::PastLastDay => PAST_LAST_DAY,
        }
    }
}

impl From<Result<Date, CalendarError>> for DateReturned {
    ghost from_gives = { λ r d. d ≡ date_returned r };

    fn from(answer: Result<Date, CalendarError>) -> DateReturned {
        match answer {
            Ok(date) => DateReturned {
                number: ACCEPTED,
                year: date.year as u64,
                month: date.month as u64,
                day: date.day as u64,
            },
            Err(e) => DateReturned {
                number: u64::from(e),
                year: 0,
                month: 0,
                day: 0,
            },
        }
    }
}

impl From<Result<usize, CalendarError>> for DayReturned {
    ghost from_gives = { λ r d. d ≡ day_returned r };

    fn from(answer: Result<usize, CalendarError>) -> DayReturned {
        match answer {
            Ok(day) => DayReturned {
                number: ACCEPTED,
                day: day as u64,
            },
            Err(e) => DayReturned {
                number: u64::from(e),
                day: 0,
            },
        }
    }
}

// As for a day: the C interface has a struct for each.
impl From<Result<usize, CalendarError>> for WeekdayReturned {
    ghost from_gives = { λ r w. w ≡ weekday_returned r };

    fn from(answer: Result<usize, CalendarError>) -> WeekdayReturned {
        match answer {
            Ok(weekday) => WeekdayReturned {
                number: ACCEPTED,
                weekday: weekday as u64,
            },
            Err(e) => WeekdayReturned {
                number: u64::from(e),
                weekday: 0,
            },
        }
    }
}

// As for `ProfileReturned` in the rule book: the C interface has a struct for each.
impl From<Result<bool, CalendarError>> for BusinessReturned {
    ghost from_gives = { λ r b. b ≡ business_returned r };

    fn from(answer: Result<bool, CalendarError>) -> BusinessReturned {
        match answer {
            Ok(business) => BusinessReturned {
                number: ACCEPTED,
                business: u64::from(business),
            },
            Err(e) => BusinessReturned {
                number: u64::from(e),
                business: 0,
            },
        }
    }
}

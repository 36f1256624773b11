// Days, months and years, unsigned.
ghost use Rattle.std.specs.Prelude.{◌≡◌, true, false, ◌+◌, ◌≤◌, ◌<◌, MatchResult};
ghost use Rattle.integer.specs.Integer.{positive};
ghost use Rattle.rulebook.specs.Units.{last_day};
ghost use Rattle.calendar.specs.declared.CalendarError.TheVariants.{NoSuchDate};
ghost use Rattle.calendar.specs.Calendar.{first_year, last_year, is_day, is_leap, days_in_year, days_in_month, is_date, is_month, days_before_year, days_before_month, day_of, date_of, due_after};
ghost use Rattle.calendar.specs.Steps.{InYear};

use crate::{CalendarError, Date};
use integer::natural;
use rulebook::units::LAST_DAY;

const FIRST_YEAR: usize = 2000;

const LAST_YEAR: usize = 2099;

// LAST_DAY, for a day as it is given: a constant's value calls no conversion.
const LAST_DAY_GIVEN: i64 = LAST_DAY as i64;

// 0 to 36,524: one comparison, where `try_from` makes three.
pub(crate) fn is_day(z: i64) -> bool
    ensures { result ≡ is_day z }
{
    (0..=LAST_DAY_GIVEN).contains(&z)
}

pub(crate) fn day_in(z: i64) -> Result<usize, CalendarError>
    ensures { MatchResult result (λ d. (is_day z ≡ true) × (d ≡ positive z)) (λ e. (is_day z ≡ false) × (e ≡ NoSuchDate)) }
{
    if !is_day(z) {
        return Err(CalendarError::NoSuchDate);
    }
    Ok(natural(z))
}

fn is_leap(year: usize) -> bool
    ensures { result ≡ is_leap year }
{
    year % 4 == 0
}

// Year and month apart: a struct of the two would be made anew of a Date, or of a call's words, each time.
fn days_in_month(year: usize, month: usize) -> usize
    ensures { result ≡ days_in_month year month }
{
    match month {
        2 => if is_leap(year) { 29 } else { 28 },
        4 | 6 | 9 | 11 => 30,
        _ => 31,
    }
}

// The days of the years before this one: every fourth, from 2000 on, has one more.
pub(crate) fn days_before_year(year: usize) -> usize
    requires { (first_year ≤ year) × (year ≤ last_year + 1) }
    ensures { result ≡ days_before_year year }
{
    let years = year - FIRST_YEAR;
    365 * years + years.div_ceil(4)
}

// The days of this year's months before this one. A chain with `sum` asks for a bound of the sum apart from it.
fn days_before_month(year: usize, month: usize) -> usize
    requires { (1 ≤ month) × (month ≤ 12) }
    ensures { result ≡ days_before_month year month }
{
    let mut days = 0;
    for m in 1..month {
        days += days_in_month(year, m);
    }
    days
}

pub(crate) fn is_month(year: usize, month: usize) -> bool
    ensures { result ≡ is_month year month }
{
    (FIRST_YEAR..=LAST_YEAR).contains(&year) & (1..=12).contains(&month)
}

pub(crate) fn is_date(date: Date) -> bool
    ensures { result ≡ is_date date }
{
    is_month(date.year, date.month) & (1..=days_in_month(date.year, date.month)).contains(&date.day)
}

// Days since 1 January 2000.
pub(crate) fn day_number(date: Date) -> usize
    requires { (first_year ≤ date.year) × (date.year ≤ last_year + 1) × (1 ≤ date.month) × (date.month ≤ 12) × (1 ≤ date.day) × (date.day ≤ 31) }
    ensures { result ≡ day_of date }
{
    days_before_year(date.year) + days_before_month(date.year, date.month) + (date.day - 1)
}

// The year of a day: four years have 1,461 days, the first of them a leap year.
pub(crate) fn year_of(day: usize) -> usize
    requires { day ≤ last_day }
    ensures { InYear day result }
{
    let cycle = day / 1461;
    let rest = day % 1461;
    if rest < 366 {
        FIRST_YEAR + 4 * cycle
    } else {
        FIRST_YEAR + 1 + 4 * cycle + (rest - 366) / 365
    }
}

// The date so many days into a year.
pub(crate) fn date_in_year(year: usize, days: usize) -> Date
    requires { (first_year ≤ year) × (year ≤ last_year) × (days < days_in_year year) }
    ensures { result ≡ date_of (days_before_year year + days) }
{
    let mut rest = days;
    for month in 1..12 {
        let length = days_in_month(year, month);
        if rest < length {
            return Date {
                year,
                month,
                day: rest + 1,
            };
        }
        rest -= length;
    }
    Date {
        year,
        month: 12,
        day: rest + 1,
    }
}

// The 10th of the second month following.
pub(crate) fn due_after(year: usize, month: usize) -> usize
    requires { is_month year month ≡ true }
    ensures { result ≡ day_of (due_after year month) }
{
    if 10 < month {
        day_number(Date {
            year: year + 1,
            month: month - 10,
            day: 10,
        })
    } else {
        day_number(Date {
            year,
            month: month + 2,
            day: 10,
        })
    }
}

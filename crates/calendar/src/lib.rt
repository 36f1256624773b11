// The trading calendar of document 01, "Calendar (003)": what each call answers on any input. Numbers are tried in the order 12, 13, 14.
#![tactic(auto)]

mod dates; // days, months and years, unsigned
mod holidays; // holiday lists and business days
mod returned; // what each call returns, by the table of numbers

ghost use Rattle.std.specs.Prelude.{◌≡◌};
ghost use Rattle.calendar.specs.Calendar.{date_returned, date_told, day_returned, day_told, weekday_returned, weekday_told, statement_told, business_returned, business_told, final_statement_told, residual_due_told};

use dates::{
    date_in_year, day_in, day_number, days_before_year, due_after, is_date, is_month, year_of,
};
use holidays::Holidays;
use integer::natural;
use rulebook::units::LAST_DAY;

// From a trading day to its statement day (003, 2.5.10).
const STATEMENT_LAG: usize = 75;

// Why a call is refused: numbers 12 to 14.
#[derive(Clone, Copy, PartialEq, Eq, Debug)]
pub enum CalendarError {
    NoSuchDate,
    BadHolidays,
    PastLastDay,
}

// January is month 1.
#[derive(Clone, Copy, PartialEq, Eq, Debug)]
pub struct Date {
    pub year: usize,
    pub month: usize,
    pub day: usize,
}

// What the calls return: number and figures; refused, every figure is 0. Programs in other languages get these four structs, hence
// C's layout.
#[repr(C)]
#[derive(Clone, Copy)]
pub struct DateReturned {
    pub number: u64,
    pub year: u64,
    pub month: u64,
    pub day: u64,
}

// A day, in days since 1 January 2000.
#[repr(C)]
#[derive(Clone, Copy)]
pub struct DayReturned {
    pub number: u64,
    pub day: u64,
}

// 0 is Saturday, 6 is Friday.
#[repr(C)]
#[derive(Clone, Copy)]
pub struct WeekdayReturned {
    pub number: u64,
    pub weekday: u64,
}

// 1 for a business day, else 0.
#[repr(C)]
#[derive(Clone, Copy)]
pub struct BusinessReturned {
    pub number: u64,
    pub business: u64,
}

// Day to date. Years, months, days and lists as the C interface passes them.
pub fn date_of(day: i64) -> Result<Date, CalendarError>
    ensures { date_returned result ≡ date_told day }
{
    let d = day_in(day)?;
    let year = year_of(d);
    Ok(date_in_year(year, d - days_before_year(year)))
}

// Date to day, in days since 1 January 2000.
pub fn day_of(year: i64, month: i64, day: i64) -> Result<usize, CalendarError>
    ensures { day_returned result ≡ day_told year month day }
{
    let date = Date {
        year: natural(year),
        month: natural(month),
        day: natural(day),
    };
    if !is_date(date) {
        return Err(CalendarError::NoSuchDate);
    }
    Ok(day_number(date))
}

// The weekday of a day: 0 is Saturday, 6 is Friday.
pub fn weekday(day: i64) -> Result<usize, CalendarError>
    ensures { weekday_returned result ≡ weekday_told day }
{
    let d = day_in(day)?;
    Ok(d % 7)
}

// The statement day of a trading day.
pub fn statement_day(day: i64) -> Result<usize, CalendarError>
    ensures { day_returned result ≡ statement_told day }
{
    let d = day_in(day)? + STATEMENT_LAG;
    if d > LAST_DAY {
        return Err(CalendarError::PastLastDay);
    }
    Ok(d)
}

// Whether a day is a business day: Monday to Friday, and not listed.
pub fn business_day(day: i64, holidays: &[i64]) -> Result<bool, CalendarError>
    ensures { business_returned result ≡ business_told day holidays.now }
{
    let d = day_in(day)?;
    let list = Holidays::new(holidays)?;
    Ok(list.is_business_day(d))
}

// The final statement of a trading day: the tenth business day after its statement day.
pub fn final_statement(day: i64, holidays: &[i64]) -> Result<usize, CalendarError>
    ensures { day_returned result ≡ final_statement_told day holidays.now }
{
    let d = day_in(day)?;
    let list = Holidays::new(holidays)?;
    list.nth_business_day(10, d + STATEMENT_LAG)
        .ok_or(CalendarError::PastLastDay)
}

// The day on which a month's residual data fall due: the first business day after the 10th of the second month following (003, 2.5.7).
pub fn residual_due(year: i64, month: i64, holidays: &[i64]) -> Result<usize, CalendarError>
    ensures { day_returned result ≡ residual_due_told year month holidays.now }
{
    let y = natural(year);
    let m = natural(month);
    if !is_month(y, m) {
        return Err(CalendarError::NoSuchDate);
    }
    let list = Holidays::new(holidays)?;
    list.nth_business_day(1, due_after(y, m))
        .ok_or(CalendarError::PastLastDay)
}

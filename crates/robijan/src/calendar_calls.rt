// The trading calendar.
ghost use Rattle.std.specs.Prelude.{◌≡◌};
ghost use Rattle.calendar.specs.Calendar.{date_told, day_told, weekday_told, statement_told, business_told, final_statement_told, residual_due_told};

use calendar::{
    BusinessReturned, DateReturned, DayReturned, WeekdayReturned, business_day, date_of, day_of,
    final_statement, residual_due, statement_day, weekday,
};

// The date of a day.
pub fn robijan_date(day: i64) -> DateReturned
    ensures { result ≡ date_told day }
{
    date_of(day).into()
}

// The day of a date.
pub fn robijan_day(year: i64, month: i64, day: i64) -> DayReturned
    ensures { result ≡ day_told year month day }
{
    day_of(year, month, day).into()
}

// The weekday of a day.
pub fn robijan_weekday(day: i64) -> WeekdayReturned
    ensures { result ≡ weekday_told day }
{
    weekday(day).into()
}

// The statement day of a trading day.
pub fn robijan_statement_day(day: i64) -> DayReturned
    ensures { result ≡ statement_told day }
{
    statement_day(day).into()
}

// Whether a day is a business day.
pub fn robijan_business_day(day: i64, holidays: &[i64]) -> BusinessReturned
    ensures { result ≡ business_told day holidays.now }
{
    business_day(day, holidays).into()
}

// The day of a trading day's final statement.
pub fn robijan_final_statement(day: i64, holidays: &[i64]) -> DayReturned
    ensures { result ≡ final_statement_told day holidays.now }
{
    final_statement(day, holidays).into()
}

// The day on which a month's residual data fall due.
pub fn robijan_residual_due(year: i64, month: i64, holidays: &[i64]) -> DayReturned
    ensures { result ≡ residual_due_told year month holidays.now }
{
    residual_due(year, month, holidays).into()
}

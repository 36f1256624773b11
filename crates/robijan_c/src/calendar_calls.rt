// The calls of the calendar. Each is the function of its name in the crate `robijan`, whose clauses it states again.
ghost use Rattle.std.specs.Prelude.{◌≡◌};
ghost use Rattle.calendar.specs.Calendar.{date_told, day_told, weekday_told, statement_told, business_told, final_statement_told, residual_due_told};

use calendar::{BusinessReturned, DateReturned, DayReturned, WeekdayReturned};

// The date of a day.
#[unsafe(no_mangle)]
pub extern "C" fn robijan_date(day: i64) -> DateReturned
    ensures { result ≡ date_told day }
{
    robijan::calendar_calls::robijan_date(day)
}

// The day of a date.
#[unsafe(no_mangle)]
pub extern "C" fn robijan_day(year: i64, month: i64, day: i64) -> DayReturned
    ensures { result ≡ day_told year month day }
{
    robijan::calendar_calls::robijan_day(year, month, day)
}

// The weekday of a day.
#[unsafe(no_mangle)]
pub extern "C" fn robijan_weekday(day: i64) -> WeekdayReturned
    ensures { result ≡ weekday_told day }
{
    robijan::calendar_calls::robijan_weekday(day)
}

// The statement day of a trading day.
#[unsafe(no_mangle)]
pub extern "C" fn robijan_statement_day(day: i64) -> DayReturned
    ensures { result ≡ statement_told day }
{
    robijan::calendar_calls::robijan_statement_day(day)
}

// Whether a day is a business day.
#[unsafe(no_mangle)]
pub extern "C" fn robijan_business_day(day: i64, holidays: &[i64]) -> BusinessReturned
    ensures { result ≡ business_told day holidays.now }
{
    robijan::calendar_calls::robijan_business_day(day, holidays)
}

// The day of a trading day's final statement.
#[unsafe(no_mangle)]
pub extern "C" fn robijan_final_statement(day: i64, holidays: &[i64]) -> DayReturned
    ensures { result ≡ final_statement_told day holidays.now }
{
    robijan::calendar_calls::robijan_final_statement(day, holidays)
}

// The day on which a month's residual data fall due.
#[unsafe(no_mangle)]
pub extern "C" fn robijan_residual_due(year: i64, month: i64, holidays: &[i64]) -> DayReturned
    ensures { result ≡ residual_due_told year month holidays.now }
{
    robijan::calendar_calls::robijan_residual_due(year, month, holidays)
}

// The calls of the trading calendar.
ghost use Rattle.std.specs.Prelude.{◌≡◌};
ghost use Rattle.replay.specs.Commands.{calendar_command};

use crate::{input, output};
use calendar::DayReturned;
use robijan::calendar_calls::{
    robijan_business_day, robijan_date, robijan_day, robijan_final_statement, robijan_residual_due,
    robijan_statement_day, robijan_weekday,
};

const HOLIDAYS: usize = 1200;

fn print_day(answer: DayReturned) {
    output::figure(answer.number);
    output::figure(answer.day);
}

fn day_to_date() {
    let day = input::word();
    let date = robijan_date(day);
    output::name(b"date");
    output::figure(date.number);
    output::figure(date.year);
    output::figure(date.month);
    output::figure(date.day);
    output::end();
}

fn date_to_day() {
    let year = input::word();
    let month = input::word();
    let day = input::word();
    output::name(b"day");
    print_day(robijan_day(year, month, day));
    output::end();
}

fn day_to_weekday() {
    let day = input::word();
    let answer = robijan_weekday(day);
    output::name(b"weekday");
    output::figure(answer.number);
    output::figure(answer.weekday);
    output::end();
}

fn day_to_statement() {
    let day = input::word();
    output::name(b"statement");
    print_day(robijan_statement_day(day));
    output::end();
}

fn business() {
    let day = input::word();
    input::with_list::<HOLIDAYS, _>(|holidays| {
        let answer = robijan_business_day(day, holidays);
        output::name(b"business");
        output::figure(answer.number);
        output::figure(answer.business);
        output::digest(holidays);
        output::end();
    });
}

fn day_to_final() {
    let day = input::word();
    input::with_list::<HOLIDAYS, _>(|holidays| {
        output::name(b"final");
        print_day(robijan_final_statement(day, holidays));
        output::digest(holidays);
        output::end();
    });
}

fn month_to_due() {
    let year = input::word();
    let month = input::word();
    input::with_list::<HOLIDAYS, _>(|holidays| {
        output::name(b"due");
        print_day(robijan_residual_due(year, month, holidays));
        output::digest(holidays);
        output::end();
    });
}

// A calendar call; false for a byte that is none. No enum of commands, as in main.rt.
pub fn calendar_call(command: u8) -> bool
    ensures { result ≡ calendar_command command }
{
    match command {
        b'd' => day_to_date(),
        b'y' => date_to_day(),
        b'w' => day_to_weekday(),
        b's' => day_to_statement(),
        b'b' => business(),
        b'f' => day_to_final(),
        b'm' => month_to_due(),
        _ => return false,
    }
    true
}

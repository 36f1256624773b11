// Holiday lists and business days.
ghost use Rattle.std.specs.Prelude.{◌≡◌, true, false, ◌+◌, ◌<◌, length, MatchResult};
ghost use Rattle.integer.specs.Below.{all};
ghost use Rattle.rulebook.specs.Units.{last_day};
ghost use Rattle.calendar.specs.declared.CalendarError.TheVariants.{BadHolidays};
ghost use Rattle.calendar.specs.Calendar.{is_later, is_proper, is_listed, is_business_day, nth_after};
ghost use Rattle.calendar.specs.Steps.{FirstFrom};

use super::CalendarError;
use super::dates::is_day;
use integer::natural;
use rulebook::units::LAST_DAY;

// Saturday is 0.
const MONDAY: usize = 2;

// Each entry is later than the entry before it.
fn is_ascending(days: &[i64]) -> bool
    ensures { result ≡ all (length days.now) (is_later days.now) }
{
    days.is_sorted_by(|a, b| a < b)
}

// Strictly ascending in 0 to 36,524. If it ascends, its first and its last entry say that all are days.
fn is_proper(days: &[i64]) -> bool
    ensures { result ≡ is_proper days.now }
{
    if days.is_empty() {
        return true;
    }
    (is_day(days[0]) & is_day(days[days.len() - 1])) && is_ascending(days)
}

// A holiday list: strictly ascending in 0 to 36,524.
#[derive(Clone, Copy)]
pub(crate) struct Holidays<'a> {
    days: &'a [i64],
    ghost proper: { is_proper days.now ≡ true },
}

impl<'a> Holidays<'a> {
    // The whole list is judged.
    pub(crate) fn new(days: &'a [i64]) -> Result<Holidays<'a>, CalendarError>
        ensures { MatchResult result (λ h. (is_proper days.now ≡ true) × (h.days.now ≡ days.now)) (λ e. (is_proper days.now ≡ false) × (e ≡ BadHolidays)) }
    {
        if !is_proper(days) {
            return Err(CalendarError::BadHolidays);
        }
        Ok(Holidays { days })
    }

    // The day's place in the list.
    fn place_of(&self, day: usize) -> Place<'a>
        ensures { (result.holidays ≡ self.now) × (result.day ≡ day) }
    {
        Place {
            holidays: *self,
            day,
            next: self.days.partition_point(|entry| natural(*entry) < day),
        }
    }

    pub(crate) fn is_business_day(&self, day: usize) -> bool
        ensures { result ≡ is_business_day self.now.days.now day }
    {
        self.place_of(day).is_business_day()
    }

    // The n-th business day after day d, up to 31 December 2099. The list is searched once, then walked along.
    pub(crate) fn nth_business_day(&self, n: usize, d: usize) -> Option<usize>
        requires { 0 < n }
        ensures { result ≡ nth_after (is_business_day self.now.days.now) n d }
    {
        let mut place = self.place_of(d);
        let mut passed = 0;
        // Not `for _ in d..LAST_DAY`: the test on the day itself bounds it, so that it is divided by 7 in 16 bits, a third faster.
        while place.day < LAST_DAY {
            place.go_on();
            // A branch, and no test added as a number: the end of the walk need not wait for the list.
            if !place.is_business_day() {
                continue;
            }
            passed += 1;
            if passed == n {
                return Some(place.day);
            }
        }
        None
    }
}

// A day, and the index of the first entry that is not before it.
#[derive(Clone, Copy)]
struct Place<'a> {
    holidays: Holidays<'a>,
    day: usize,
    next: usize,
    ghost first: { FirstFrom holidays.days.now day next },
}

impl<'a> Place<'a> {
    // The entry at `next` is the day. Not `is_some_and`: with it the proof did not close.
    fn is_listed(&self) -> bool
        ensures { result ≡ is_listed self.now.holidays.days.now self.now.day }
    {
        match self.holidays.days.get(self.next) {
            Some(entry) => natural(*entry) == self.day,
            None => false,
        }
    }

    // Monday to Friday, and not listed.
    fn is_business_day(&self) -> bool
        ensures { result ≡ is_business_day self.now.holidays.days.now self.now.day }
    {
        self.day % 7 >= MONDAY && !self.is_listed()
    }

    // To the day after.
    fn go_on(&mut self)
        requires { self.old.day < last_day }
        ensures { (self.new.holidays ≡ self.old.holidays) × (self.new.day ≡ self.old.day + 1) }
    {
        self.next += usize::from(self.is_listed());
        self.day += 1;
    }
}

// Dates of the Gregorian calendar from 2000 to 2099.
ghost use Rattle.std.specs.Prelude.{◌≡◌, ◌*◌, ◌≤◌, true};
ghost use Rattle.std.specs.Option.{option_map};
ghost use Rattle.values.specs.Digits.{digits};
ghost use Rattle.values.specs.Calendar.{months_in_year, common_days, leap, leap_day, days_in, valid_date, dated, days_of, day_of_year};
ghost use Rattle.values.specs.Calendar.{NumberingLaw, SameDayLaw, SixDigitsLaw};
ghost use Rattle.values.specs.Calendar.{yymmdd};

use crate::digits::digits;

const FIRST_YEAR: u64 = 2000;

const LAST_YEAR: u64 = 2099;

const MONTHS: usize = 12;

// How many days the months from January have in a common year.
const MONTH_LENGTHS: [u8; MONTHS] = [31, 28, 31, 30, 31, 30, 31, 31, 30, 31, 30, 31];

// A date: nothing but a valid one can be made.
#[derive(Clone, Copy)]
pub struct Date {
    year: u16,
    month: u8,
    day: u8,
    ghost valid: { valid_date year month day ≡ true },
}

fn is_leap(year: u64) -> bool
    ensures { result ≡ leap year }
{
    year % 4 == 0 && (year % 100 != 0 || year % 400 == 0)
}

// How many days a month has in a common year.
fn common_days(month: u64) -> u8
    requires { (1 ≤ month) × (month ≤ months_in_year) }
    ensures { result ≡ common_days month }
{
    MONTH_LENGTHS[(month - 1) as usize]
}

// The day that February has more in a leap year.
fn leap_day(year: u64, month: u64) -> u64
    ensures { result ≡ leap_day year month }
{
    if month == 2 && is_leap(year) { 1 } else { 0 }
}

// How many days a month of the year has.
fn days_in(year: u64, month: u64) -> u64
    requires { (1 ≤ month) × (month ≤ months_in_year) }
    ensures exact { result ≡ days_in year month }
    ensures few { result ≤ 32 }
{
    common_days(month) as u64 + leap_day(year, month)
}

fn is_date(year: u64, month: u64, day: u64) -> bool
    ensures { result ≡ valid_date year month day }
{
    year >= FIRST_YEAR
        && year <= LAST_YEAR
        && month >= 1
        && month <= MONTHS as u64
        && day >= 1
        && day <= days_in(year, month)
}

// How many days the first months of the year have together.
fn days_of(year: u64, months: u64) -> u64
    requires { months ≤ months_in_year }
    ensures exact { result ≡ days_of year months }
    ensures few { result ≤ 32 * months }
{
    let mut days = 0;
    for month in 1..=months {
        days += days_in(year, month);
    }
    days
}

impl Date {
    // The date of a year, a month from 1 and a day from 1, where there is one.
    pub fn new(year: u64, month: u64, day: u64) -> Option<Date>
        ensures { option_map (λ d. (d.year, d.month, d.day)) result ≡ dated year month day }
    {
        if !is_date(year, month, day) {
            return None;
        }
        Some(Date {
            year: year as u16,
            month: month as u8,
            day: day as u8,
        })
    }

    // The number of the day in its year, 1 January's being 1.
    pub fn day_of_year(self) -> u16
        ensures { result ≡ day_of_year self.year self.month self.day }
    {
        (days_of(self.year as u64, self.month as u64 - 1) + self.day as u64) as u16
    }

    // The day of the year as three digits.
    pub fn day_digits(self) -> [u8; 3]
        ensures { result ≡ digits 3 (day_of_year self.year self.month self.day) }
    {
        digits(self.day_of_year() as u64)
    }

    // Two digits each of year, month and day.
    pub fn yymmdd(self) -> [u8; 6]
        ensures { result ≡ yymmdd self.year self.month self.day }
    {
        let y = digits::<2>(self.year as u64 % 100);
        let m = digits::<2>(self.month as u64);
        let d = digits::<2>(self.day as u64);
        // written out, since the digits of one number of six would not show that each part has two
        [y[0], y[1], m[0], m[1], d[0], d[1]]
    }
}

// What the numbers and the digits of dates mean, whatever the date.
pub fn date_laws()
    ensures numbering { NumberingLaw }
    ensures same_day { SameDayLaw }
    ensures six_digits { SixDigitsLaw }
{}

// Dates of the Gregorian calendar from 1900 to 2199: which are real, and a number that orders them.
#![tactic(auto)]

ghost use Rattle.std.specs.Prelude.{◌≡◌, true, ◌≤◌};
ghost use Rattle.calendar.specs.Dates.{leap, short, days_in, real, key as key_of};

// Any three numbers; they need be no date.
#[derive(Clone, Copy)]
pub struct Date {
    pub year: u32,
    pub month: u32,
    pub day: u32,
}

// Whether the date is one of the calendar, and its year is 1900 to 2199.
pub fn is_real(date: Date) -> bool
    ensures { result ≡ real date }
{
    let is_month = (1900 <= date.year)
        & (date.year <= 2199)
        & (1 <= date.month)
        & (date.month <= 12);
    is_month && (1 <= date.day) & (date.day <= days_in(date.year, date.month))
}

// How many days a month has.
fn days_in(year: u32, month: u32) -> u32
    requires { (1 ≤ month) × (month ≤ 12) }
    ensures { result ≡ days_in year month }
{
    if month == 2 {
        february(year)
    } else if is_short(month) {
        30
    } else {
        31
    }
}

// Whether the month is April, June, September or November. All four are asked for at once: a jump by month can't be foreseen.
fn is_short(month: u32) -> bool
    ensures { result ≡ short month }
{
    (month == 4) | ((month == 6) | ((month == 9) | (month == 11)))
}

// How many days February has.
fn february(year: u32) -> u32
    ensures { result ≡ days_in year 2 }
{
    if is_leap(year) { 29 } else { 28 }
}

// Whether the year has a 29 February.
fn is_leap(year: u32) -> bool
    ensures { result ≡ leap year }
{
    (year % 4 == 0) & ((year % 100 != 0) | (year % 400 == 0))
}

// A number that is the smaller of two dates' for the earlier one. A month has less than 32 days, and a year less than 16 months.
// `Date` derives no order: windows compare these numbers, many at a time.
#[tactic(auto, using(crate::proofs::Real::is_real))]
pub fn key(date: Date) -> u32
    requires { real date ≡ true }
    ensures { result ≡ key_of date }
{
    (date.year * 16 + date.month) * 32 + date.day
}

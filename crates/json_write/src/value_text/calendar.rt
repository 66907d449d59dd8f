//! Dates of the proleptic Gregorian calendar and the numbers of their days.
ghost use Rattle.std.specs.Prelude.{◌≡◌, ◌↔◌, ◌+◌, ◌^◌, ◌<◌, ◌≤◌, ◌+ℤ◌, ◌*ℤ◌, ◌≤ℤ◌, IsTrue, negsuc, pos, unsigned_abs};
ghost use Rattle.std.specs.Int.{int_div_euclid, int_rem_euclid};
ghost use Rattle.json_write.specs.Calendar.{IsDate, date_of, day_number, days_in_month, is_leap_year};
ghost use Rattle.json_write.specs.March.{march_day_number, march_days, march_months};

/// A date: a year, a month from 1 and a day of the month from 1.
#[derive(Clone, Copy, Debug, PartialEq, Eq)]
pub struct Date {
    pub year: i64,
    pub month: u8,
    pub day: u8,
}

/// The days of 400 years.
const CYCLE: i64 = 146_097;

/// The days from 1 March of the year 0 to 1970-01-01, less four cycles.
const EPOCH: u32 = 135_080;

/// Returns the date of a day, counted from 1970-01-01.
pub fn date_of_day(day: i64) -> Date
    ensures date { result ≡ date_of day }
    ensures exists { IsDate result }
{
    let cycle = day.div_euclid(CYCLE);
    let days = day.rem_euclid(CYCLE) as u32 + EPOCH;
    let (years, day_of_year) = march_year(days);
    let scaled = 5 * day_of_year + 461;
    let month = scaled / 153;
    let day = (scaled % 153 / 5 + 1) as u8;
    if month > 12 {
        Date {
            year: year_in_cycle(cycle, years + 1),
            month: (month - 12) as u8,
            day,
        }
    } else {
        Date {
            year: year_in_cycle(cycle, years),
            month: month as u8,
            day,
        }
    }
}

/// Returns the year that many years after the start of the fourth cycle after `cycle`.
fn year_in_cycle(cycle: i64, years: u32) -> i64
    requires cycle { (negsuc (10 ^ 15) ≤ℤ cycle) × (cycle ≤ℤ pos (10 ^ 15)) }
    requires years { years ≤ 1000 }
    ensures { result ≡ (cycle +ℤ pos 4) *ℤ pos 400 +ℤ pos years }
{
    400 * (cycle + 4) + years as i64
}

// Years that begin on 1 March end with the leap day, if they have one.
/// Returns the year that began on the last 1 March and the day of that year from 0, for a day counted from 1 March of the year 0.
fn march_year(days: u32) -> (u32, u32)
    requires { days < 300_000 }
    ensures value { march_days result.0 + result.1 ≡ days }
    ensures within { days < march_days (result.0 + 1) }
    ensures bound { result.1 < 366 }
{
    let scaled = 4 * days + 3;
    let century = scaled / 146_097;
    let in_century = scaled % 146_097 / 4 * 4 + 3;
    (100 * century + in_century / 1461, in_century % 1461 / 4)
}

/// Returns the number of the day of a date, counted from 1970-01-01.
pub fn day_of_date(date: Date) -> i64
    requires exists { IsDate date }
    requires year { unsigned_abs date.year < 10 ^ 15 }
    ensures { result ≡ day_number date }
{
    if date.month > 2 {
        march_number(date.year, date.month, date.day)
    } else {
        march_number(date.year - 1, date.month + 12, date.day)
    }
}

/// Returns the number of a day of a year that begins in March and has the months 3 to 14.
fn march_number(year: i64, month: u8, day: u8) -> i64
    requires year { unsigned_abs year ≤ 10 ^ 15 }
    requires month { (3 ≤ month) × (month ≤ 14) }
    requires day { day ≤ 31 }
    ensures { result ≡ march_day_number (int_div_euclid year (pos 400)) (unsigned_abs (int_rem_euclid year (pos 400))) month day }
{
    let cycle = year.div_euclid(400);
    let years = year.rem_euclid(400) as u32;
    cycle * CYCLE + days_from_march(years, month, day) as i64 - 719_469
}

/// Returns the days from 1 March of a year 0 to a day of one of the next 400 years that begin in March, counting both.
fn days_from_march(years: u32, month: u8, day: u8) -> u32
    requires years { years < 400 }
    requires month { (3 ≤ month) × (month ≤ 14) }
    requires day { day ≤ 31 }
    ensures value { result ≡ march_days years + march_months month + day }
    ensures bound { result < 200_000 }
{
    let months = (153 * month as u32 - 457) / 5;
    365 * years + years / 4 - years / 100 + months + day as u32
}

impl Date {
    /// Returns whether the calendar has this date.
    pub fn exists(self) -> bool
        ensures { IsTrue result ↔ IsDate self }
    {
        1 <= self.month
            && self.month <= 12
            && 1 <= self.day
            && self.day <= month_length(has_leap_day(self.year), self.month)
    }
}

/// Returns whether a year has a 29 February.
fn has_leap_day(year: i64) -> bool
    ensures { result ≡ is_leap_year year }
{
    let years = year.unsigned_abs();
    years % 4 == 0 && (years % 100 != 0 || years % 400 == 0)
}

/// Returns the number of days of a month.
fn month_length(leap: bool, month: u8) -> u8
    ensures { result ≡ days_in_month leap month }
{
    match month {
        2 => { if leap { 29 } else { 28 } }
        4 | 6 | 9 | 11 => 30,
        _ => 31,
    }
}

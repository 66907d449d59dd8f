//! Properties of the calendar, as functions with empty bodies.
ghost use Rattle.std.specs.Prelude.{◌≡◌, ℤ, ◌+ℤ◌, negsuc, pos};
ghost use Rattle.json_write.specs.Calendar.{IsDate, date_of, day_number, days_in_year, first_day, next_date};
ghost use Rattle.json_write.specs.declared.value_text.calendar.Date.{Date};

/// A day has one date, which exists, and a date that exists has one day.
pub fn days_are_dates()
    ensures exists { (n : ℤ) → IsDate (date_of n) }
    ensures number { (n : ℤ) → day_number (date_of n) ≡ n }
    ensures date { (d : Date) → IsDate d → date_of (day_number d) ≡ d }
    ensures one_day { (d e : Date) → IsDate d → IsDate e → day_number d ≡ day_number e → d ≡ e }
    ensures one_date { (m n : ℤ) → date_of m ≡ date_of n → m ≡ n }
{}

/// The date of the next day is the next date, and a year begins after the days of the year before.
pub fn days_follow_each_other()
    ensures days { (n : ℤ) → date_of (n +ℤ pos 1) ≡ next_date (date_of n) }
    ensures years { (y : ℤ) → first_day (y +ℤ pos 1) ≡ first_day y +ℤ pos (days_in_year y) }
{}

/// Day 0, the leap day of a year that is a multiple of 400, the day after February of one that is a multiple of 100 only, the last day of a
/// negative year, and the last day of year 9999.
pub fn some_dates()
    ensures epoch { date_of (pos 0) ≡ record { year = pos 1970; month = 1; day = 1 } }
    ensures leap_day { date_of (pos 11_016) ≡ record { year = pos 2000; month = 2; day = 29 } }
    ensures no_leap_day { date_of (negsuc 25_507) ≡ record { year = pos 1900; month = 3; day = 1 } }
    ensures negative { date_of (negsuc 719_528) ≡ record { year = negsuc 0; month = 12; day = 31 } }
    ensures four_digits { date_of (pos 2_932_896) ≡ record { year = pos 9999; month = 12; day = 31 } }
{}

//! The text of single values, as people and tools read them: dates, times, timestamps, durations, intervals and decimals.

pub mod calendar;
pub mod calendar_laws;
pub mod decimal_laws;
pub mod decimals;
mod digits;
pub mod durations;
pub mod magnitude;
pub mod parse_times;
mod reading;
pub mod time_laws;
pub mod times;
mod unit;

pub use calendar::Date;
pub use decimals::{write_decimal, write_decimal_256, write_decimal_digits};
pub use durations::{write_days_ms, write_duration, write_month_day_nano, write_months};
pub use magnitude::Magnitude;
pub use parse_times::{parse_date, parse_millisecond_date, parse_time, parse_timestamp};
pub use times::{is_time, write_date, write_millisecond_date, write_time, write_timestamp};

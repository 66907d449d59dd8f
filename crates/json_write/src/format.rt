//! How native values are written, by data type.
ghost use Rattle.std.specs.Prelude.{◌≡◌};
ghost use Rattle.nest_memory.specs.TypeOf.{type_of};
ghost use Rattle.json_write.specs.Formats.{format_of_type};

use nest_memory::datatypes::floats::{Precision, precision_of};
use nest_memory::datatypes::{DataType, IntervalUnit, TimeUnit};

/// How the native values of an array are written.
#[derive(Clone, Copy, Debug, PartialEq, Eq)]
pub enum ValueFormat {
    /// As a number, or as the array of the numbers of a value.
    Number,
    /// As a decimal: the precision, and the number of digits after the point.
    Decimal(usize, usize),
    /// As a decimal of 256 bits: the precision, and the number of digits after the point.
    Decimal256(usize, usize),
    /// As the date of a day.
    Date,
    /// As the date of a millisecond, with the time if it is not midnight.
    MillisecondDate,
    /// As a time of day.
    Time(TimeUnit),
    /// As a date and a time, in UTC or without a zone.
    Timestamp(TimeUnit, bool),
    /// As an ISO 8601 duration in seconds.
    Duration(TimeUnit),
    /// As an ISO 8601 duration in months.
    Months,
    /// As an ISO 8601 duration in days and seconds.
    DaysMs,
    /// As an ISO 8601 duration in months, days and seconds.
    MonthDayNano,
    /// As the floating-point number that has these bits.
    Float(Precision),
}

impl ValueFormat {
    /// Returns the format of the native values of a data type: for a dictionary that of its values, for an extension that is not a
    /// floating-point type that of its storage.
    pub fn of_type(data_type: &DataType) -> ValueFormat
        ensures { result ≡ format_of_type (type_of data_type.now) }
    {
        match data_type {
            DataType::Decimal(precision, scale) => ValueFormat::Decimal(*precision, *scale),
            DataType::Decimal256(precision, scale) => ValueFormat::Decimal256(*precision, *scale),
            DataType::Date32 => ValueFormat::Date,
            DataType::Date64 => ValueFormat::MillisecondDate,
            DataType::Time32(unit) | DataType::Time64(unit) => ValueFormat::Time(*unit),
            DataType::Timestamp(unit, zone) => ValueFormat::Timestamp(*unit, zone.is_some()),
            DataType::Duration(unit) => ValueFormat::Duration(*unit),
            DataType::Interval(IntervalUnit::YearMonth) => ValueFormat::Months,
            DataType::Interval(IntervalUnit::DayTime) => ValueFormat::DaysMs,
            DataType::Interval(IntervalUnit::MonthDayNano) => ValueFormat::MonthDayNano,
            DataType::Dictionary(_, values, _) => ValueFormat::of_type(values),
            DataType::Extension(_, inner, _) => match precision_of(data_type) {
                Some(precision) => ValueFormat::Float(precision),
                None => ValueFormat::of_type(inner),
            },
            _ => ValueFormat::Number,
        }
    }
}

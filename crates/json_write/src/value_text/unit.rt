//! Units of time.
ghost use Rattle.std.specs.Prelude.{◌≡◌, ◌≤◌};
ghost use Rattle.std.specs.Fmt.{WritesOnOk};
ghost use Rattle.json_write.specs.Times.{clock_length, subseconds, unit_digits, whole_seconds};

use nest_memory::datatypes::TimeUnit;

/// Returns the number of digits of a second after the point.
pub(crate) fn digits(unit: TimeUnit) -> u32
    ensures value { result ≡ unit_digits unit }
    ensures bound { result ≤ 9 }
{
    match unit {
        TimeUnit::Second => 0,
        TimeUnit::Millisecond => 3,
        TimeUnit::Microsecond => 6,
        TimeUnit::Nanosecond => 9,
    }
}

/// Returns the length of the text of a time of day.
pub(crate) fn clock_len(unit: TimeUnit) -> usize
    ensures value { result ≡ clock_length (unit_digits unit) }
    ensures bound { result ≤ 18 }
{
    match unit {
        TimeUnit::Second => 8,
        TimeUnit::Millisecond => 12,
        TimeUnit::Microsecond => 15,
        TimeUnit::Nanosecond => 18,
    }
}

/// Splits a number of units into whole seconds, rounded down, and the units after them.
pub(crate) fn split(unit: TimeUnit, value: i64) -> (i64, u32)
    ensures seconds { result.0 ≡ whole_seconds (unit_digits unit) value }
    ensures fraction { result.1 ≡ subseconds (unit_digits unit) value }
{
    match unit {
        TimeUnit::Second => (value, 0),
        TimeUnit::Millisecond => (value.div_euclid(1_000), value.rem_euclid(1_000) as u32),
        TimeUnit::Microsecond => (
            value.div_euclid(1_000_000),
            value.rem_euclid(1_000_000) as u32,
        ),
        TimeUnit::Nanosecond => (
            value.div_euclid(1_000_000_000),
            value.rem_euclid(1_000_000_000) as u32,
        ),
    }
}

//! The text of single values, and values read from text. The dates and timestamps are those of Python's `datetime` and of NumPy.
use json_write::value_text::{
    Magnitude, is_time, parse_date, parse_millisecond_date, parse_time, parse_timestamp,
    write_date, write_days_ms, write_decimal, write_decimal_256, write_decimal_digits,
    write_duration, write_millisecond_date, write_month_day_nano, write_months, write_time,
    write_timestamp,
};
use nest_memory::datatypes::TimeUnit;
use nest_memory::types::i256;
use std::alloc::Global;
use std::fmt;
use std::fmt::{Display, Formatter};
use std::process::Abort;
use std::test::*;

/// A value of each kind that has a text.
#[derive(Clone, Copy, Debug)]
enum Value {
    Date(i64),
    MillisecondDate(i64),
    Time(TimeUnit, i64),
    Timestamp(TimeUnit, bool, i64),
    Duration(TimeUnit, i64),
    Months(i32),
    DaysMs(i32, i32),
    MonthDayNano(i32, i32, i64),
    Decimal(i128, usize),
    Decimal256(i128, u128, usize),
    Digits(bool, &'static str, usize),
}

impl Display for Value {
    fn fmt<W: fmt::Write>(&self, f: &mut Formatter<W>) -> fmt::Result {
        match *self {
            Value::Date(day) => write_date(f, day),
            Value::MillisecondDate(value) => write_millisecond_date(f, value),
            Value::Time(unit, value) => write_time(f, unit, value),
            Value::Timestamp(unit, utc, value) => write_timestamp(f, unit, utc, value),
            Value::Duration(unit, value) => write_duration(f, unit, value),
            Value::Months(months) => write_months(f, months),
            Value::DaysMs(days, milliseconds) => write_days_ms(f, days, milliseconds),
            Value::MonthDayNano(months, days, ns) => write_month_day_nano(f, months, days, ns),
            Value::Decimal(value, scale) => write_decimal(f, value, scale),
            Value::Decimal256(high, low, scale) => {
                write_decimal_256(f, i256::from_words(high, low), scale)
            }
            Value::Digits(negative, digits, scale) => {
                write_decimal_digits(f, negative, digits, scale)
            }
        }
    }
}

fn text(alloc: Global, value: Value) -> Result<String, Fail> {
    Ok(format!(in alloc; "{value}")?)
}

/// Each value has its text.
fn check(rt: &(impl Abort + AllocGlobal), rows: &[(Value, &str)]) -> Result<(), Fail> {
    for (value, want) in rows {
        let found = text(rt.alloc(), *value)?;
        assert!(rt; found.as_str() == *want, "{value:?}: {found}");
    }
    Ok(())
}

/// Days since 1970-01-01.
const DATES: &[(i64, &str)] = &[
    (0, "1970-01-01"),
    (-1, "1969-12-31"),
    (1, "1970-01-02"),
    (11_016, "2000-02-29"),
    (-25_508, "1900-03-01"),
    (-25_509, "1900-02-28"),
    (59, "1970-03-01"),
    (789, "1972-02-29"),
    (-719_162, "0001-01-01"),
    (2_932_896, "9999-12-31"),
    (19_782, "2024-02-29"),
    (19_783, "2024-03-01"),
    (18_992, "2021-12-31"),
    (-141_427, "1582-10-15"),
    (1_178_255, "5195-12-15"),
    (2_912_024, "9942-11-08"),
    (1_628_693, "6429-03-18"),
    (2_874_781, "9840-11-19"),
    (77_344, "2181-10-05"),
    (55_359, "2121-07-27"),
    (2_606_824, "9107-03-31"),
    (-324_380, "1081-11-17"),
    (3_789_391, "+012345-01-01"),
    (-719_529, "-000001-12-31"),
    (-10_000_000, "-025410-12-06"),
    (1_000_000_000, "+2739877-01-03"),
];

#[test]
fn dates_are_written_and_read(rt: HostRuntime) -> Result<(), Fail> {
    for (day, want) in DATES {
        let found = text(rt.alloc(), Value::Date(*day))?;
        assert!(&rt; found.as_str() == *want, "{day}: {found}");
        assert!(&rt; parse_date(want.as_bytes()) == Some(*day), "{want}");
    }
    for k in 0..3_000 {
        let day = k * 37 - 800_000;
        let found = text(rt.alloc(), Value::Date(day))?;
        assert!(&rt; parse_date(found.as_bytes()) == Some(day), "{found}");
    }
    Ok(())
}

/// Units of each length, values before 1970, and the largest values of 64 bits.
const TIMESTAMPS: &[(TimeUnit, i64, &str)] = &[
    (TimeUnit::Second, 0, "1970-01-01T00:00:00"),
    (TimeUnit::Second, 1_709_210_096, "2024-02-29T12:34:56"),
    (TimeUnit::Millisecond, -1, "1969-12-31T23:59:59.999"),
    (TimeUnit::Microsecond, 1_709_210_096_000_001, "2024-02-29T12:34:56.000001"),
    (TimeUnit::Nanosecond, -1, "1969-12-31T23:59:59.999999999"),
    (TimeUnit::Nanosecond, i64::MAX, "2262-04-11T23:47:16.854775807"),
    (TimeUnit::Nanosecond, -i64::MAX, "1677-09-21T00:12:43.145224193"),
];

#[test]
fn timestamps_are_written_and_read(rt: HostRuntime) -> Result<(), Fail> {
    for (unit, value, want) in TIMESTAMPS {
        let local = text(rt.alloc(), Value::Timestamp(*unit, false, *value))?;
        assert!(&rt; local.as_str() == *want, "{value}: {local}");
        assert!(&rt; parse_timestamp(local.as_bytes(), *unit, false) == Some(*value), "{want}");
        let utc = text(rt.alloc(), Value::Timestamp(*unit, true, *value))?;
        assert!(&rt; utc == format!(in rt.alloc(); "{want}Z")?, "{value}: {utc}");
        assert!(&rt; parse_timestamp(utc.as_bytes(), *unit, true) == Some(*value), "{utc}");
        assert!(&rt; parse_timestamp(local.as_bytes(), *unit, true) == None, "{local}");
        assert!(&rt; parse_timestamp(utc.as_bytes(), *unit, false) == None, "{utc}");
    }
    for value in [i64::MIN, i64::MAX] {
        for unit in [TimeUnit::Second, TimeUnit::Millisecond, TimeUnit::Nanosecond] {
            let found = text(rt.alloc(), Value::Timestamp(unit, false, value))?;
            assert!(&rt; parse_timestamp(found.as_bytes(), unit, false) == Some(value), "{found}");
        }
    }
    Ok(())
}

#[test]
fn times_are_written_and_read(rt: HostRuntime) -> Result<(), Fail> {
    for (unit, value, want) in [
        (TimeUnit::Second, 0, "00:00:00"),
        (TimeUnit::Second, 86_399, "23:59:59"),
        (TimeUnit::Second, 86_400, "86400"),
        (TimeUnit::Second, -1, "-1"),
        (TimeUnit::Millisecond, 45_296_789, "12:34:56.789"),
        (TimeUnit::Microsecond, 45_296_000_001, "12:34:56.000001"),
        (TimeUnit::Nanosecond, 86_399_999_999_999, "23:59:59.999999999"),
        (TimeUnit::Nanosecond, 86_400_000_000_000, "86400000000000"),
    ] {
        let found = text(rt.alloc(), Value::Time(unit, value))?;
        assert!(&rt; found.as_str() == want, "{value}: {found}");
        assert!(&rt; parse_time(found.as_bytes(), unit) == Some(value), "{found}");
        assert!(&rt; is_time(unit, value) == want.as_bytes().contains(&b':'), "{found}");
    }
    for (value, want) in [
        (1_709_164_800_000, "2024-02-29"),
        (1_709_164_800_001, "2024-02-29T00:00:00.001"),
        (-1, "1969-12-31T23:59:59.999"),
        (-86_400_000, "1969-12-31"),
    ] {
        let found = text(rt.alloc(), Value::MillisecondDate(value))?;
        assert!(&rt; found.as_str() == want, "{value}: {found}");
        assert!(&rt; parse_millisecond_date(found.as_bytes()) == Some(value), "{found}");
    }
    Ok(())
}

#[test]
fn other_texts_are_no_dates_or_times(rt: HostRuntime) -> Result<(), Fail> {
    for other in [
        "", "2023-02-29", "1900-02-29", "2024-13-01", "2024-00-01", "2024-01-00", "2024-04-31", "2024-2-09",
        "+009999-01-01", "-000000-01-01", "+12345-01-01", "10000-01-01", "2024-01-01 ", "2024/01/01",
        "+10000000000000000-01-01",
    ] {
        assert!(&rt; parse_date(other.as_bytes()) == None, "{other}");
    }
    for other in ["24:00:00", "12:60:00", "12:00:60", "12:34:56.7", "1:02:03", "86399", "0", "-0", "1 ", ""] {
        assert!(&rt; parse_time(other.as_bytes(), TimeUnit::Second) == None, "{other}");
    }
    for other in [
        "2024-02-29 12:34:56", "2024-02-29T12:34", "2024-02-30T12:34:56", "2024-02-29T12:34:56.0", "T12:34:56", "",
    ] {
        assert!(&rt; parse_timestamp(other.as_bytes(), TimeUnit::Second, false) == None, "{other}");
    }
    for past in ["2262-04-11T23:47:16.854775808", "1677-09-21T00:12:43.145224191"] {
        assert!(&rt; parse_timestamp(past.as_bytes(), TimeUnit::Nanosecond, false) == None, "{past}");
    }
    for other in ["2024-02-29T00:00:00.000", "+300000000-01-01"] {
        assert!(&rt; parse_millisecond_date(other.as_bytes()) == None, "{other}");
    }
    Ok(())
}

#[test]
fn durations_intervals_and_decimals_are_written(rt: HostRuntime) -> Result<(), Fail> {
    check(
        &rt,
        &[
            (Value::Duration(TimeUnit::Millisecond, 1_500), "PT1.500S"),
            (Value::Duration(TimeUnit::Second, -3), "PT-3S"),
            (Value::Duration(TimeUnit::Nanosecond, i64::MIN), "PT-9223372036.854775808S"),
            (Value::Duration(TimeUnit::Millisecond, -1), "PT-0.001S"),
            (Value::Months(14), "P14M"),
            (Value::Months(i32::MIN), "P-2147483648M"),
            (Value::DaysMs(1, 3), "P1DT0.003S"),
            (Value::DaysMs(-1, -2_000), "P-1DT-2.000S"),
            (Value::MonthDayNano(1, 2, 3), "P1M2DT0.000000003S"),
            (Value::MonthDayNano(-1, -2, -3), "P-1M-2DT-0.000000003S"),
            (Value::Decimal(125, 2), "1.25"),
            (Value::Decimal(-5, 2), "-0.05"),
            (Value::Decimal(0, 3), "0.000"),
            (Value::Decimal(-7, 0), "-7"),
            (Value::Decimal(i128::MIN, 38), "-1.70141183460469231731687303715884105728"),
            (
                Value::Decimal256(
                    3_628_068_951_366_785_029_352_481_634_746_183_932,
                    98_730_458_594_047_848_209_239_609_727_044_598_464,
                    5,
                ),
                "12345678901234567890123456789012345678901234567890123456789012345678901.23456",
            ),
            (
                Value::Decimal256(
                    -29_387_358_770_557_187_699_218_413_430_556_141_946,
                    181_493_370_963_361_119_677_159_889_420_079_333_377,
                    0,
                ),
                "-9999999999999999999999999999999999999999999999999999999999999999999999999999",
            ),
            (Value::Decimal256(100, 0, 2), "340282366920938463463374607431768211456.00"),
            (Value::Decimal256(-100, 0, 2), "-340282366920938463463374607431768211456.00"),
            (Value::Decimal256(-2, u128::MAX, 2), "-3402823669209384634633746074317682114.57"),
            (Value::Decimal256(-1, u128::MAX - 4, 2), "-0.05"),
            (Value::Decimal256(0, 0, 3), "0.000"),
            (Value::Decimal256(0, 7, 0), "7"),
            (
                Value::Decimal256(i128::MIN, 0, 0),
                "-57896044618658097711785492504343953926634992332820282019728792003956564819968",
            ),
            (
                Value::Decimal256(i128::MAX, u128::MAX, 80),
                "0.00057896044618658097711785492504343953926634992332820282019728792003956564819967",
            ),
            (Value::Digits(true, "5", 2), "-0.05"),
            (Value::Digits(false, "115792", 4), "11.5792"),
        ],
    )
}

/// The most of 256 bits, with and without a sign, and powers of ten.
#[test]
fn magnitudes_have_256_bits(rt: HostRuntime) {
    let most = Magnitude {
        high: u128::MAX,
        low: u128::MAX,
    };
    let tenth = Magnitude {
        high: 34_028_236_692_093_846_346_337_460_743_176_821_145,
        low: 204_169_420_152_563_078_078_024_764_459_060_926_873,
    };
    assert!(&rt; tenth.with_digit(5) == Some(most));
    assert!(&rt; tenth.with_digit(6) == None);
    assert!(&rt; most.has_at_most(78) && !most.has_at_most(77));
    let power = Magnitude {
        high: 29_387_358_770_557_187_699,
        low: 74_322_239_116_966_006_171_368_701_637_485_920_256,
    };
    assert!(&rt; power.has_at_most(59) && !power.has_at_most(58));
    let zero = Magnitude { high: 0, low: 0 };
    assert!(&rt; zero.has_at_most(0));
    assert!(&rt; zero.with_sign(true) == Some(i256::from_words(0, 0)));
    let half = Magnitude {
        high: 1 << 127,
        low: 0,
    };
    let least = i256::from_words(i128::MIN, 0);
    assert!(&rt; half.with_sign(true) == Some(least) && half.with_sign(false) == None);
    assert!(&rt; Magnitude::of(least) == half);
    let above = Magnitude { low: 1, ..half };
    assert!(&rt; above.with_sign(true) == None);
    let minus_one = i256::from_words(-1, u128::MAX);
    assert!(&rt; Magnitude::of(minus_one) == Magnitude { high: 0, low: 1 });
}

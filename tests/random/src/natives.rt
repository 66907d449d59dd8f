//! Native values, by their integers.

use crate::numbers::Generator;
use crate::types::logical;
use nest_flat::any_native::AnyNative;
use nest_memory::datatypes::{DataType, IntervalUnit, PrimitiveType};
use nest_memory::types::{days_ms, i256, months_days_ns};

/// The native kind of a type's values, as the Arrow format lays them out; `None` of a type of another layout.
pub fn native_kind(data_type: &DataType) -> Option<PrimitiveType> {
    Some(match logical(data_type) {
        DataType::Int8 => PrimitiveType::Int8,
        DataType::Int16 => PrimitiveType::Int16,
        DataType::Int32 | DataType::Date32 | DataType::Time32(_) => PrimitiveType::Int32,
        DataType::Interval(IntervalUnit::YearMonth) => PrimitiveType::Int32,
        DataType::Int64 | DataType::Date64 | DataType::Time64(_) => PrimitiveType::Int64,
        DataType::Timestamp(_, _) | DataType::Duration(_) => PrimitiveType::Int64,
        DataType::UInt8 => PrimitiveType::UInt8,
        DataType::UInt16 => PrimitiveType::UInt16,
        DataType::UInt32 => PrimitiveType::UInt32,
        DataType::UInt64 => PrimitiveType::UInt64,
        DataType::Decimal(_, _) => PrimitiveType::Int128,
        DataType::Decimal256(_, _) => PrimitiveType::Int256,
        DataType::Interval(IntervalUnit::DayTime) => PrimitiveType::DaysMs,
        DataType::Interval(IntervalUnit::MonthDayNano) => PrimitiveType::MonthDayNano,
        _ => return None,
    })
}

/// A whole number of that many bits, at most 64; often a small one.
fn unsigned(rng: &mut Generator, bits: u32) -> i128 {
    if rng.one_in(3) {
        return rng.below(3) as i128;
    }
    i128::from(rng.word() >> (64 - bits))
}

fn signed(rng: &mut Generator, bits: u32) -> i128 {
    if rng.one_in(3) {
        return rng.below(3) as i128 - 1;
    }
    i128::from(rng.word() >> (64 - bits)) - (1i128 << (bits - 1))
}

fn wide(rng: &mut Generator) -> i128 {
    if rng.one_in(3) {
        return rng.below(3) as i128 - 1;
    }
    i128::from_ne_bytes(rng.wide().to_ne_bytes())
}

/// The numbers of a value of a kind, and zeros after them.
pub fn random_numbers(rng: &mut Generator, kind: PrimitiveType) -> [i128; 3] {
    match kind {
        PrimitiveType::Int8 => [signed(rng, 8), 0, 0],
        PrimitiveType::Int16 => [signed(rng, 16), 0, 0],
        PrimitiveType::Int32 => [signed(rng, 32), 0, 0],
        PrimitiveType::Int64 => [signed(rng, 64), 0, 0],
        PrimitiveType::UInt8 => [unsigned(rng, 8), 0, 0],
        PrimitiveType::UInt16 => [unsigned(rng, 16), 0, 0],
        PrimitiveType::UInt32 => [unsigned(rng, 32), 0, 0],
        PrimitiveType::UInt64 => [unsigned(rng, 64), 0, 0],
        PrimitiveType::Int128 => [wide(rng), 0, 0],
        PrimitiveType::Int256 => [wide(rng), unsigned(rng, 64), unsigned(rng, 64)],
        PrimitiveType::DaysMs => [signed(rng, 32), signed(rng, 32), 0],
        PrimitiveType::MonthDayNano => [signed(rng, 32), signed(rng, 32), signed(rng, 64)],
        PrimitiveType::Float16 | PrimitiveType::Float32 | PrimitiveType::Float64 => [0; 3],
    }
}

/// A value of 256 bits, whose lower half is pushed by its two words.
pub fn i256_of(numbers: [i128; 3]) -> i256 {
    let [high, upper, lower] = numbers;
    i256::from_words(high, ((upper as u128) << 64) | lower as u128)
}

pub fn days_ms_of(numbers: [i128; 3]) -> days_ms {
    days_ms {
        days: numbers[0] as i32,
        milliseconds: numbers[1] as i32,
    }
}

pub fn months_days_ns_of(numbers: [i128; 3]) -> months_days_ns {
    months_days_ns {
        months: numbers[0] as i32,
        days: numbers[1] as i32,
        ns: numbers[2] as i64,
    }
}

/// The numbers of a value, and zeros after them.
pub fn numbers_of(value: AnyNative) -> [i128; 3] {
    match value {
        AnyNative::Int8(x) => [i128::from(x), 0, 0],
        AnyNative::Int16(x) => [i128::from(x), 0, 0],
        AnyNative::Int32(x) => [i128::from(x), 0, 0],
        AnyNative::Int64(x) => [i128::from(x), 0, 0],
        AnyNative::UInt8(x) => [i128::from(x), 0, 0],
        AnyNative::UInt16(x) => [i128::from(x), 0, 0],
        AnyNative::UInt32(x) => [i128::from(x), 0, 0],
        AnyNative::UInt64(x) => [i128::from(x), 0, 0],
        AnyNative::Int128(x) => [x, 0, 0],
        AnyNative::Int256(x) => [
            x.high,
            (x.low >> 64) as i128,
            (x.low & u128::from(u64::MAX)) as i128,
        ],
        AnyNative::DaysMs(x) => [i128::from(x.days), i128::from(x.milliseconds), 0],
        AnyNative::MonthDayNano(x) => [i128::from(x.months), i128::from(x.days), i128::from(x.ns)],
    }
}

//! Values of types without children, random, few of each kind so that many come again.

use nest_flat::any_native::AnyNative;
use nest_flat::plain::Plain;
use nest_memory::datatypes::DataType;
use nest_memory::datatypes::physical_type::{PhysicalType, PrimitiveType};
use nest_memory::error::Error;
use nest_memory::types::{days_ms, i256, months_days_ns};
use random::numbers::Generator;
use random::slot::Slot;
use std::alloc::Global;

const TEXT_VALUES: [&str; 7] = ["", "a", "b", "ab", "\u{e9}", "a\u{0}", "\u{1f34e}\u{1f34e}"];

/// A value of a type, which has no children and is not that of nulls.
pub fn a_random_value(
    alloc: Global,
    rng: &mut Generator,
    data_type: &DataType,
) -> Result<Slot, Error> {
    Ok(match data_type.to_physical_type() {
        PhysicalType::Boolean => Slot::Truth(rng.boolean()),
        PhysicalType::Primitive(kind) => Slot::Number(numbers(rng, kind)),
        PhysicalType::Utf8 | PhysicalType::LargeUtf8 => Slot::Text(Vec::from_slice(
            alloc,
            TEXT_VALUES[rng.below(TEXT_VALUES.len())].as_bytes(),
        )?),
        PhysicalType::FixedSizeBinary => {
            let size = data_type.size().unwrap_or(0);
            Slot::Bytes(bytes(alloc, rng, size)?)
        }
        _ => {
            let size = rng.below(4);
            Slot::Bytes(bytes(alloc, rng, size)?)
        }
    })
}

fn bytes(alloc: Global, rng: &mut Generator, size: usize) -> Result<Vec<u8>, Error> {
    let mut bytes = Vec::with_capacity(alloc, size)?;
    for _ in 0..size {
        bytes.push(if rng.boolean() { 0 } else { 255 })?;
    }
    Ok(bytes)
}

/// A number between bounds: one of them, or a small one.
fn bounded(rng: &mut Generator, low: i128, high: i128) -> i128 {
    match rng.below(8) {
        0 => low,
        1 => high,
        2 => low.max(-1),
        _ => rng.below(4) as i128,
    }
}

fn numbers(rng: &mut Generator, kind: PrimitiveType) -> [i128; 3] {
    let small = |rng: &mut Generator| bounded(rng, i32::MIN as i128, i32::MAX as i128);
    let long = |rng: &mut Generator| bounded(rng, i64::MIN as i128, i64::MAX as i128);
    let word = |rng: &mut Generator| bounded(rng, 0, u64::MAX as i128);
    match kind {
        PrimitiveType::Int8 => [bounded(rng, i8::MIN as i128, i8::MAX as i128), 0, 0],
        PrimitiveType::Int16 => [bounded(rng, i16::MIN as i128, i16::MAX as i128), 0, 0],
        PrimitiveType::Int32 => [small(rng), 0, 0],
        PrimitiveType::Int64 => [long(rng), 0, 0],
        PrimitiveType::Int128 => [bounded(rng, i128::MIN, i128::MAX), 0, 0],
        PrimitiveType::Int256 => [bounded(rng, i128::MIN, i128::MAX), word(rng), word(rng)],
        PrimitiveType::UInt8 => [bounded(rng, 0, u8::MAX as i128), 0, 0],
        PrimitiveType::UInt16 => [bounded(rng, 0, u16::MAX as i128), 0, 0],
        PrimitiveType::UInt32 => [bounded(rng, 0, u32::MAX as i128), 0, 0],
        PrimitiveType::UInt64 => [word(rng), 0, 0],
        PrimitiveType::DaysMs => [small(rng), small(rng), 0],
        _ => [small(rng), small(rng), long(rng)],
    }
}

/// A slot of a type without children as the value that it is pushed as; none of a null.
pub fn plain<'a>(data_type: &DataType, slot: &'a Slot) -> Option<Plain<'a>> {
    match slot {
        Slot::Truth(boolean) => Some(Plain::Boolean(*boolean)),
        Slot::Number(parts) => native(data_type.to_physical_type(), parts).map(
            |value| Plain::Native(value),
        ),
        Slot::Text(bytes) => std::str::from_utf8(bytes.as_slice())
            .ok()
            .map(|text| Plain::Text(text)),
        Slot::Bytes(bytes) => Some(Plain::Bytes(bytes.as_slice())),
        _ => None,
    }
}

fn native(physical: PhysicalType, parts: &[i128; 3]) -> Option<AnyNative> {
    let [first, second, third] = *parts;
    let PhysicalType::Primitive(kind) = physical else {
        return None;
    };
    Some(match kind {
        PrimitiveType::Int8 => AnyNative::Int8(first as i8),
        PrimitiveType::Int16 => AnyNative::Int16(first as i16),
        PrimitiveType::Int32 => AnyNative::Int32(first as i32),
        PrimitiveType::Int64 => AnyNative::Int64(first as i64),
        PrimitiveType::Int128 => AnyNative::Int128(first),
        PrimitiveType::Int256 => AnyNative::Int256(i256 {
            high: first,
            low: (second as u128) << 64 | third as u128,
        }),
        PrimitiveType::UInt8 => AnyNative::UInt8(first as u8),
        PrimitiveType::UInt16 => AnyNative::UInt16(first as u16),
        PrimitiveType::UInt32 => AnyNative::UInt32(first as u32),
        PrimitiveType::UInt64 => AnyNative::UInt64(first as u64),
        PrimitiveType::DaysMs => AnyNative::DaysMs(days_ms {
            days: first as i32,
            milliseconds: second as i32,
        }),
        PrimitiveType::MonthDayNano => AnyNative::MonthDayNano(months_days_ns {
            months: first as i32,
            days: second as i32,
            ns: third as i64,
        }),
        _ => return None,
    })
}

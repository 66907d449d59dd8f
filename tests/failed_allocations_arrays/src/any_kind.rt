//! Builders of any kind, as mirrors.

use crate::mirrors::{Mirrored, change};
use failed_allocations::failures::{Failure, Failures};
use nest_any::AnyMutableArray;
use nest_build::array::MutableArray;
use nest_flat::any_native::AnyNative;
use nest_flat::plain::Plain;
use nest_memory::datatypes::physical_type::{PhysicalType, PrimitiveType};
use nest_memory::types::{days_ms, i256, months_days_ns};
use std::alloc::Global;

/// How many different values there are of each kind but booleans.
const VALUES: usize = 3;

const TEXT_VALUES: [&str; VALUES] = ["a text", "", "\u{e9}"];

const BYTES: [&[u8; 2]; VALUES] = [b"ab", b"cd", b"ee"];

/// A value of a kind, by its number.
fn value(kind: PhysicalType, number: usize) -> Option<Plain<'static>> {
    let n = number % VALUES;
    match kind {
        PhysicalType::Null => None,
        PhysicalType::Boolean => Some(Plain::Boolean(n % 2 == 0)),
        PhysicalType::Primitive(kind) => Some(Plain::Native(native(kind, n as i8))),
        PhysicalType::Utf8 | PhysicalType::LargeUtf8 => Some(Plain::Text(TEXT_VALUES[n])),
        _ => Some(Plain::Bytes(BYTES[n])),
    }
}

fn native(kind: PrimitiveType, n: i8) -> AnyNative {
    match kind {
        PrimitiveType::Int8 => AnyNative::Int8(n),
        PrimitiveType::Int16 => AnyNative::Int16(i16::from(n)),
        PrimitiveType::Int32 => AnyNative::Int32(i32::from(n)),
        PrimitiveType::Int64 => AnyNative::Int64(i64::from(n)),
        PrimitiveType::Int128 => AnyNative::Int128(i128::from(n)),
        PrimitiveType::Int256 => AnyNative::Int256(i256 {
            high: i128::from(n),
            low: 7,
        }),
        PrimitiveType::UInt8 => AnyNative::UInt8(n as u8),
        PrimitiveType::UInt16 => AnyNative::UInt16(n as u16),
        PrimitiveType::UInt32 => AnyNative::UInt32(n as u32),
        PrimitiveType::DaysMs => AnyNative::DaysMs(days_ms {
            days: i32::from(n),
            milliseconds: 7,
        }),
        PrimitiveType::MonthDayNano => AnyNative::MonthDayNano(months_days_ns {
            months: i32::from(n),
            days: 7,
            ns: 8,
        }),
        _ => AnyNative::UInt64(n as u64),
    }
}

/// The kind of the values that a builder takes.
fn value_kind(builder: &AnyMutableArray) -> PhysicalType {
    let data_type = builder.data_type();
    data_type
        .value_type()
        .unwrap_or(data_type)
        .to_physical_type()
}

/// Whether two builders, and those below them, have the same rows.
fn are_same(first: &mut AnyMutableArray, second: &mut AnyMutableArray) -> bool {
    if first.len() != second.len()
        || first.is_complete() != second.is_complete()
        || first.has_complete_children() != second.has_complete_children()
    {
        return false;
    }
    let kind = value_kind(first);
    let rows_are_same = (0..first.len()).all(|i| {
        first.is_valid(i) == second.is_valid(i)
            && (0..VALUES).all(|n| hold_equal(first, second, i, kind, n))
    });
    rows_are_same && have_same_children(first, second)
}

/// Whether both hold a value at an index, or neither.
fn hold_equal(
    first: &AnyMutableArray,
    second: &AnyMutableArray,
    i: usize,
    kind: PhysicalType,
    number: usize,
) -> bool {
    match value(kind, number) {
        Some(value) => first.holds(i, &value) == second.holds(i, &value),
        None => true,
    }
}

fn have_same_children(first: &mut AnyMutableArray, second: &mut AnyMutableArray) -> bool {
    if let (AnyMutableArray::Dictionary(first), AnyMutableArray::Dictionary(second)) = (
        &*first, &*second,
    ) {
        return first.values().len() == second.values().len();
    }
    for i in 0..usize::MAX {
        match (first.child(i), second.child(i)) {
            (Some(first), Some(second)) => {
                if !are_same(first, second) {
                    return false;
                }
            }
            (None, None) => return true,
            _ => return false,
        }
    }
    false
}

/// How many rows are pushed one after another.
const ROWS: usize = 4;

impl Mirrored for AnyMutableArray {
    fn is_same(&mut self, other: &mut AnyMutableArray) -> bool {
        are_same(self, other)
    }

    fn fill(
        failures: &mut Failures,
        _alloc: Global,
        first: &mut AnyMutableArray,
        second: &mut AnyMutableArray,
    ) -> Result<(), Failure> {
        for row in 0..ROWS {
            fill(failures, first, second, row)?;
        }
        change(failures, first, second, |b| b.push_null())?;
        change(failures, first, second, |b| b.reserve(40))?;
        change(failures, first, second, |b| b.shrink_to_fit())
    }
}

/// Adds a row by its number to both, with the items below it.
fn fill(
    failures: &mut Failures,
    first: &mut AnyMutableArray,
    second: &mut AnyMutableArray,
    row: usize,
) -> Result<(), Failure> {
    let children = child_rows(first, row);
    let mut is_nested = false;
    for (i, rows) in children.iter().enumerate() {
        if let (Some(first), Some(second)) = (first.child(i), second.child(i)) {
            is_nested = true;
            for item in 0..*rows {
                fill(failures, first, second, row + item + i)?;
            }
        }
    }
    if is_nested {
        return change(failures, first, second, |b| b.push_row(row % 4 != 3));
    }
    let kind = value_kind(first);
    let pushed = if row % 4 == 3 { None } else { value(kind, row) };
    change(failures, first, second, |b| b.try_push_plain(pushed))
}

/// How many rows each child needs for one row more.
fn child_rows(builder: &AnyMutableArray, row: usize) -> [usize; 12] {
    match builder.data_type().to_physical_type() {
        PhysicalType::List | PhysicalType::LargeList => [row % 3; 12],
        PhysicalType::FixedSizeList => [builder.data_type().size().unwrap_or(0); 12],
        _ => [1; 12],
    }
}

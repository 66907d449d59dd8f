//! Native values of any kind.
ghost use Rattle.std.specs.Prelude.{◌≡◌, ◌↔◌, IsTrue};
ghost use Rattle.nest_flat.specs.Words.{native_kind, native_numbers};

use crate::any_primitive::Native;
use nest_memory::types::{days_ms, i256, months_days_ns};

/// A native value: one variant for each native type.
#[derive(Clone, Copy, Debug, PartialEq, Eq, Hash)]
pub enum AnyNative {
    Int8(i8),
    Int16(i16),
    Int32(i32),
    Int64(i64),
    Int128(i128),
    Int256(i256),
    UInt8(u8),
    UInt16(u16),
    UInt32(u32),
    UInt64(u64),
    DaysMs(days_ms),
    MonthDayNano(months_days_ns),
}

// Returns whether `any` is of the kind of `T` and equals `value`.
fn has_numbers<T: Native>(value: T, any: AnyNative) -> bool
    requires { native_kind any ≡ T.PRIMITIVE }
    ensures { IsTrue result ↔ (T.numbers value ≡ native_numbers any) }
{
    match T::from_any(any) {
        Some(other) => value == other,
        None => unreachable!(),
    }
}

impl AnyNative {
    /// Returns whether both are of one kind and equal.
    pub fn same_numbers(self, other: AnyNative) -> bool
        requires { native_kind self ≡ native_kind other }
        ensures { IsTrue result ↔ (native_numbers self ≡ native_numbers other) }
    {
        match self {
            AnyNative::Int8(value) => has_numbers(value, other),
            AnyNative::Int16(value) => has_numbers(value, other),
            AnyNative::Int32(value) => has_numbers(value, other),
            AnyNative::Int64(value) => has_numbers(value, other),
            AnyNative::Int128(value) => has_numbers(value, other),
            AnyNative::Int256(value) => has_numbers(value, other),
            AnyNative::UInt8(value) => has_numbers(value, other),
            AnyNative::UInt16(value) => has_numbers(value, other),
            AnyNative::UInt32(value) => has_numbers(value, other),
            AnyNative::UInt64(value) => has_numbers(value, other),
            AnyNative::DaysMs(value) => has_numbers(value, other),
            AnyNative::MonthDayNano(value) => has_numbers(value, other),
        }
    }
}

//! The native types, and conversions between typed arrays and [`AnyPrimitive`].
ghost use Rattle.std.specs.Prelude.{◌≡◌, ◌↔◌, IsSome, IfSome};
ghost use Rattle.nest_memory.specs.declared.datatypes.physical_type.PhysicalType.TheVariants as physical;
ghost use Rattle.nest_flat.specs.Words.{Layout, layout_type, native_kind, native_numbers, physical_type, primitive_layout};

use crate::any_native::AnyNative;
use crate::any_primitive::AnyPrimitive;
use crate::primitive::PrimitiveArray;
use nest_memory::types::{NativeType, days_ms, i256, months_days_ns};

/// One of the twelve native types.
pub trait Native: NativeType {
    /// Returns the value in the variant of its type.
    fn to_any(self) -> AnyNative
        ensures kind { native_kind result ≡ Self.PRIMITIVE }
        ensures same_numbers { native_numbers result ≡ Self.numbers self };

    /// Returns the value, or `None` if it is of another type.
    fn from_any(any: AnyNative) -> Option<Self>
        ensures kind { IsSome result ↔ (native_kind any ≡ Self.PRIMITIVE) }
        ensures same_numbers { IfSome result (λ x. Self.numbers x ≡ native_numbers any) };
}

/// A native type and its array type.
pub trait NativeArray: Native {
    /// `PrimitiveArray<Self>`.
    type Array;

    ghost layout_of_array: { Self.Array → Layout };

    /// Wraps the array in the variant of its type.
    fn wrap(array: Self::Array) -> AnyPrimitive
        ensures { primitive_layout result ≡ layout_of_array array };

    /// Returns the typed array. The data type must be of this kind.
    fn of(any: &AnyPrimitive) -> &Self::Array
        requires { physical_type (layout_type (primitive_layout any.now)) ≡ physical.Primitive Self.PRIMITIVE }
        ensures { layout_of_array result.now ≡ primitive_layout any.now };
}

impl NativeArray for i8 {
    type Array = PrimitiveArray<i8>;

    ghost layout_of_array = { λ a. a };

    fn wrap(array: PrimitiveArray<i8>) -> AnyPrimitive {
        AnyPrimitive::Int8(array)
    }

    fn of(any: &AnyPrimitive) -> &PrimitiveArray<i8> {
        any.known();
        match any {
            AnyPrimitive::Int8(array) => array,
            _ => unreachable!(),
        }
    }
}

impl Native for i8 {
    fn to_any(self) -> AnyNative {
        AnyNative::Int8(self)
    }

    fn from_any(any: AnyNative) -> Option<i8> {
        match any {
            AnyNative::Int8(value) => Some(value),
            _ => None,
        }
    }
}

impl NativeArray for i16 {
    type Array = PrimitiveArray<i16>;

    ghost layout_of_array = { λ a. a };

    fn wrap(array: PrimitiveArray<i16>) -> AnyPrimitive {
        AnyPrimitive::Int16(array)
    }

    fn of(any: &AnyPrimitive) -> &PrimitiveArray<i16> {
        any.known();
        match any {
            AnyPrimitive::Int16(array) => array,
            _ => unreachable!(),
        }
    }
}

impl Native for i16 {
    fn to_any(self) -> AnyNative {
        AnyNative::Int16(self)
    }

    fn from_any(any: AnyNative) -> Option<i16> {
        match any {
            AnyNative::Int16(value) => Some(value),
            _ => None,
        }
    }
}

impl NativeArray for i32 {
    type Array = PrimitiveArray<i32>;

    ghost layout_of_array = { λ a. a };

    fn wrap(array: PrimitiveArray<i32>) -> AnyPrimitive {
        AnyPrimitive::Int32(array)
    }

    fn of(any: &AnyPrimitive) -> &PrimitiveArray<i32> {
        any.known();
        match any {
            AnyPrimitive::Int32(array) => array,
            _ => unreachable!(),
        }
    }
}

impl Native for i32 {
    fn to_any(self) -> AnyNative {
        AnyNative::Int32(self)
    }

    fn from_any(any: AnyNative) -> Option<i32> {
        match any {
            AnyNative::Int32(value) => Some(value),
            _ => None,
        }
    }
}

impl NativeArray for i64 {
    type Array = PrimitiveArray<i64>;

    ghost layout_of_array = { λ a. a };

    fn wrap(array: PrimitiveArray<i64>) -> AnyPrimitive {
        AnyPrimitive::Int64(array)
    }

    fn of(any: &AnyPrimitive) -> &PrimitiveArray<i64> {
        any.known();
        match any {
            AnyPrimitive::Int64(array) => array,
            _ => unreachable!(),
        }
    }
}

impl Native for i64 {
    fn to_any(self) -> AnyNative {
        AnyNative::Int64(self)
    }

    fn from_any(any: AnyNative) -> Option<i64> {
        match any {
            AnyNative::Int64(value) => Some(value),
            _ => None,
        }
    }
}

impl NativeArray for i128 {
    type Array = PrimitiveArray<i128>;

    ghost layout_of_array = { λ a. a };

    fn wrap(array: PrimitiveArray<i128>) -> AnyPrimitive {
        AnyPrimitive::Int128(array)
    }

    fn of(any: &AnyPrimitive) -> &PrimitiveArray<i128> {
        any.known();
        match any {
            AnyPrimitive::Int128(array) => array,
            _ => unreachable!(),
        }
    }
}

impl Native for i128 {
    fn to_any(self) -> AnyNative {
        AnyNative::Int128(self)
    }

    fn from_any(any: AnyNative) -> Option<i128> {
        match any {
            AnyNative::Int128(value) => Some(value),
            _ => None,
        }
    }
}

impl NativeArray for i256 {
    type Array = PrimitiveArray<i256>;

    ghost layout_of_array = { λ a. a };

    fn wrap(array: PrimitiveArray<i256>) -> AnyPrimitive {
        AnyPrimitive::Int256(array)
    }

    fn of(any: &AnyPrimitive) -> &PrimitiveArray<i256> {
        any.known();
        match any {
            AnyPrimitive::Int256(array) => array,
            _ => unreachable!(),
        }
    }
}

impl Native for i256 {
    fn to_any(self) -> AnyNative {
        AnyNative::Int256(self)
    }

    fn from_any(any: AnyNative) -> Option<i256> {
        match any {
            AnyNative::Int256(value) => Some(value),
            _ => None,
        }
    }
}

impl NativeArray for u8 {
    type Array = PrimitiveArray<u8>;

    ghost layout_of_array = { λ a. a };

    fn wrap(array: PrimitiveArray<u8>) -> AnyPrimitive {
        AnyPrimitive::UInt8(array)
    }

    fn of(any: &AnyPrimitive) -> &PrimitiveArray<u8> {
        any.known();
        match any {
            AnyPrimitive::UInt8(array) => array,
            _ => unreachable!(),
        }
    }
}

impl Native for u8 {
    fn to_any(self) -> AnyNative {
        AnyNative::UInt8(self)
    }

    fn from_any(any: AnyNative) -> Option<u8> {
        match any {
            AnyNative::UInt8(value) => Some(value),
            _ => None,
        }
    }
}

impl NativeArray for u16 {
    type Array = PrimitiveArray<u16>;

    ghost layout_of_array = { λ a. a };

    fn wrap(array: PrimitiveArray<u16>) -> AnyPrimitive {
        AnyPrimitive::UInt16(array)
    }

    fn of(any: &AnyPrimitive) -> &PrimitiveArray<u16> {
        any.known();
        match any {
            AnyPrimitive::UInt16(array) => array,
            _ => unreachable!(),
        }
    }
}

impl Native for u16 {
    fn to_any(self) -> AnyNative {
        AnyNative::UInt16(self)
    }

    fn from_any(any: AnyNative) -> Option<u16> {
        match any {
            AnyNative::UInt16(value) => Some(value),
            _ => None,
        }
    }
}

impl NativeArray for u32 {
    type Array = PrimitiveArray<u32>;

    ghost layout_of_array = { λ a. a };

    fn wrap(array: PrimitiveArray<u32>) -> AnyPrimitive {
        AnyPrimitive::UInt32(array)
    }

    fn of(any: &AnyPrimitive) -> &PrimitiveArray<u32> {
        any.known();
        match any {
            AnyPrimitive::UInt32(array) => array,
            _ => unreachable!(),
        }
    }
}

impl Native for u32 {
    fn to_any(self) -> AnyNative {
        AnyNative::UInt32(self)
    }

    fn from_any(any: AnyNative) -> Option<u32> {
        match any {
            AnyNative::UInt32(value) => Some(value),
            _ => None,
        }
    }
}

impl NativeArray for u64 {
    type Array = PrimitiveArray<u64>;

    ghost layout_of_array = { λ a. a };

    fn wrap(array: PrimitiveArray<u64>) -> AnyPrimitive {
        AnyPrimitive::UInt64(array)
    }

    fn of(any: &AnyPrimitive) -> &PrimitiveArray<u64> {
        any.known();
        match any {
            AnyPrimitive::UInt64(array) => array,
            _ => unreachable!(),
        }
    }
}

impl Native for u64 {
    fn to_any(self) -> AnyNative {
        AnyNative::UInt64(self)
    }

    fn from_any(any: AnyNative) -> Option<u64> {
        match any {
            AnyNative::UInt64(value) => Some(value),
            _ => None,
        }
    }
}

impl NativeArray for days_ms {
    type Array = PrimitiveArray<days_ms>;

    ghost layout_of_array = { λ a. a };

    fn wrap(array: PrimitiveArray<days_ms>) -> AnyPrimitive {
        AnyPrimitive::DaysMs(array)
    }

    fn of(any: &AnyPrimitive) -> &PrimitiveArray<days_ms> {
        any.known();
        match any {
            AnyPrimitive::DaysMs(array) => array,
            _ => unreachable!(),
        }
    }
}

impl Native for days_ms {
    fn to_any(self) -> AnyNative {
        AnyNative::DaysMs(self)
    }

    fn from_any(any: AnyNative) -> Option<days_ms> {
        match any {
            AnyNative::DaysMs(value) => Some(value),
            _ => None,
        }
    }
}

impl NativeArray for months_days_ns {
    type Array = PrimitiveArray<months_days_ns>;

    ghost layout_of_array = { λ a. a };

    fn wrap(array: PrimitiveArray<months_days_ns>) -> AnyPrimitive {
        AnyPrimitive::MonthDayNano(array)
    }

    fn of(any: &AnyPrimitive) -> &PrimitiveArray<months_days_ns> {
        any.known();
        match any {
            AnyPrimitive::MonthDayNano(array) => array,
            _ => unreachable!(),
        }
    }
}

impl Native for months_days_ns {
    fn to_any(self) -> AnyNative {
        AnyNative::MonthDayNano(self)
    }

    fn from_any(any: AnyNative) -> Option<months_days_ns> {
        match any {
            AnyNative::MonthDayNano(value) => Some(value),
            _ => None,
        }
    }
}

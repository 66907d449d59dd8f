//! Builders of primitive arrays of any native type.
ghost use Rattle.std.specs.Prelude.{◌≡◌, ◌<◌, [], IfOk, IsOkUnless, None, option_map, alloc_error};
ghost use Rattle.nest_flat.specs.Words.{Memory, built_layout, layout_type, len, primitive_layout, slots_of, type_of, valid_at, validity_of};

use crate::any_primitive::{AnyPrimitive, wrapped};
use crate::primitive::mutable::MutablePrimitiveArray;
use nest_memory::bitmap::mutable::MutableBitmap;
use nest_memory::datatypes::DataType;
use nest_memory::error::Error;
use nest_memory::types::{days_ms, i256, months_days_ns};

/// A builder of a primitive array: one variant for each native type.
#[derive(Drop)]
pub enum AnyMutablePrimitive {
    Int8(MutablePrimitiveArray<i8>),
    Int16(MutablePrimitiveArray<i16>),
    Int32(MutablePrimitiveArray<i32>),
    Int64(MutablePrimitiveArray<i64>),
    Int128(MutablePrimitiveArray<i128>),
    Int256(MutablePrimitiveArray<i256>),
    UInt8(MutablePrimitiveArray<u8>),
    UInt16(MutablePrimitiveArray<u16>),
    UInt32(MutablePrimitiveArray<u32>),
    UInt64(MutablePrimitiveArray<u64>),
    DaysMs(MutablePrimitiveArray<days_ms>),
    MonthDayNano(MutablePrimitiveArray<months_days_ns>),
}

// Matches the kind and evaluates an expression with the typed array.
macro_rules! each_kind {
    ($any:expr, $builder:ident => $body:expr) => {
        match $any {
            AnyMutablePrimitive::Int8($builder) => $body,
            AnyMutablePrimitive::Int16($builder) => $body,
            AnyMutablePrimitive::Int32($builder) => $body,
            AnyMutablePrimitive::Int64($builder) => $body,
            AnyMutablePrimitive::Int128($builder) => $body,
            AnyMutablePrimitive::Int256($builder) => $body,
            AnyMutablePrimitive::UInt8($builder) => $body,
            AnyMutablePrimitive::UInt16($builder) => $body,
            AnyMutablePrimitive::UInt32($builder) => $body,
            AnyMutablePrimitive::UInt64($builder) => $body,
            AnyMutablePrimitive::DaysMs($builder) => $body,
            AnyMutablePrimitive::MonthDayNano($builder) => $body,
        }
    };
}

impl AnyMutablePrimitive {
    /// Returns the number of slots.
    pub fn len(&self) -> usize
        ensures { result ≡ len (built_layout self.now) }
    {
        each_kind!(self, builder => builder.len())
    }

    /// Returns the data type.
    pub fn data_type(&self) -> &DataType
        ensures { type_of result.now ≡ layout_type (built_layout self.now) }
    {
        each_kind!(self, builder => builder.data_type())
    }

    /// Returns the validity bitmap: one bit per slot, 1 if valid. `None` means that every slot is valid.
    pub fn validity(&self) -> Option<&MutableBitmap>
        ensures { option_map (λ b. b.now) result ≡ validity_of (built_layout self.now) }
    {
        each_kind!(self, builder => builder.validity())
    }

    /// Returns whether slot `i` is valid.
    pub fn is_valid(&self, i: usize) -> bool
        requires { i < len (built_layout self.now) }
        ensures { result ≡ valid_at (validity_of (built_layout self.now)) i }
    {
        each_kind!(self, builder => builder.is_valid(i))
    }

    /// Returns the array of the slots and empties the builder, also on error. The data type is kept.
    ///
    /// # Errors
    /// `Memory` if an allocation fails.
    pub fn freeze(&mut self) -> Result<AnyPrimitive, Error>
        ensures ok { IfOk result (λ a. primitive_layout a ≡ built_layout self.old) }
        ensures no_slot { slots_of (built_layout self.new) ≡ [] }
        ensures no_validity { validity_of (built_layout self.new) ≡ None }
        ensures same_type { layout_type (built_layout self.new) ≡ layout_type (built_layout self.old) }
        ensures memory { IsOkUnless result (Memory alloc_error) }
    {
        match self {
            AnyMutablePrimitive::Int8(builder) => wrapped::<i8>(builder.freeze()),
            AnyMutablePrimitive::Int16(builder) => wrapped::<i16>(builder.freeze()),
            AnyMutablePrimitive::Int32(builder) => wrapped::<i32>(builder.freeze()),
            AnyMutablePrimitive::Int64(builder) => wrapped::<i64>(builder.freeze()),
            AnyMutablePrimitive::Int128(builder) => wrapped::<i128>(builder.freeze()),
            AnyMutablePrimitive::Int256(builder) => wrapped::<i256>(builder.freeze()),
            AnyMutablePrimitive::UInt8(builder) => wrapped::<u8>(builder.freeze()),
            AnyMutablePrimitive::UInt16(builder) => wrapped::<u16>(builder.freeze()),
            AnyMutablePrimitive::UInt32(builder) => wrapped::<u32>(builder.freeze()),
            AnyMutablePrimitive::UInt64(builder) => wrapped::<u64>(builder.freeze()),
            AnyMutablePrimitive::DaysMs(builder) => wrapped::<days_ms>(builder.freeze()),
            AnyMutablePrimitive::MonthDayNano(builder) => wrapped::<months_days_ns>(
                builder.freeze(),
            ),
        }
    }
}

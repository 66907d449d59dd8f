//! Empty and all-null primitive arrays of any native type.
ghost use Rattle.std.specs.Prelude.{◌≡◌, IfOk, IsOkUnless, None, alloc_error};
ghost use Rattle.nest_memory.specs.declared.datatypes.physical_type.PhysicalType.TheVariants as physical;
ghost use Rattle.nest_flat.specs.Words.{Memory, error_of, null_array, physical_type, primitive_layout, type_of};

use crate::any_primitive::{AnyPrimitive, wrapped};
use crate::primitive::PrimitiveArray;
use nest_memory::datatypes::DataType;
use nest_memory::datatypes::physical_type::PrimitiveType;
use nest_memory::error::Error;
use nest_memory::types::{days_ms, i256, months_days_ns};
use nest_model::fill::Fill;
use std::alloc::Global;

impl AnyPrimitive {
    /// Returns an array of `length` zeros, with `data_type` of this kind. With `Fill::Nulls` every slot is null; with
    /// `Fill::Nothing` there is no validity. Shared by `new_empty` and `new_null`.
    ///
    /// # Errors
    /// `Memory` if an allocation fails.
    pub fn of_nulls(
        alloc: Global,
        kind: PrimitiveType,
        data_type: &DataType,
        length: usize,
        fill: Fill,
    ) -> Result<AnyPrimitive, Error>
        requires kind { physical_type (type_of data_type.now) ≡ physical.Primitive kind }
        requires unrefused { error_of (type_of data_type.now) length fill ≡ None }
        ensures ok { IfOk result (λ a. primitive_layout a ≡ null_array (type_of data_type.now) length fill) }
        ensures err { IsOkUnless result (Memory alloc_error) }
    {
        macro_rules! nulls {
            ($native:ty) => {
                wrapped::<$native>(PrimitiveArray::of_nulls(alloc, data_type, length, fill))
            };
        }
        match kind {
            PrimitiveType::Int8 => nulls!(i8),
            PrimitiveType::Int16 => nulls!(i16),
            PrimitiveType::Int32 => nulls!(i32),
            PrimitiveType::Int64 => nulls!(i64),
            PrimitiveType::Int128 => nulls!(i128),
            PrimitiveType::Int256 => nulls!(i256),
            PrimitiveType::UInt8 => nulls!(u8),
            PrimitiveType::UInt16 => nulls!(u16),
            PrimitiveType::UInt32 => nulls!(u32),
            PrimitiveType::UInt64 => nulls!(u64),
            PrimitiveType::DaysMs => nulls!(days_ms),
            PrimitiveType::MonthDayNano => nulls!(months_days_ns),
            PrimitiveType::Float16 | PrimitiveType::Float32 | PrimitiveType::Float64 =>
                unreachable!(),
        }
    }
}

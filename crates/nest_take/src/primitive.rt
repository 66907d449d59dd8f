//! `take` for primitive arrays.
ghost use Rattle.std.specs.Prelude.{◌≡◌, IfOk, IsErrOf, IsOkUnless, MatchResult, alloc_error};
ghost use Rattle.nest_flat.specs.AnyPrimitive.{primitive_layout};
ghost use Rattle.nest_take.specs.Words.{AreBelow, IsTaken, Memory, len};

use crate::indices;
use nest_flat::any_primitive::{AnyPrimitive, NativeArray};
use nest_flat::primitive::PrimitiveArray;
use nest_memory::error::Error;
use nest_memory::types::{NativeType, days_ms, i256, months_days_ns};
use std::alloc::Global;

/// Takes the slots at `indices`.
fn take_natives<T: NativeType>(
    alloc: Global,
    array: &PrimitiveArray<T>,
    indices: &[usize],
) -> Result<PrimitiveArray<T>, Error>
    requires { AreBelow indices.now (len array.now) }
    ensures ok { IfOk result (λ b. IsTaken array.now indices.now b) }
    ensures err { IsOkUnless result (Memory alloc_error) }
{
    array.known();
    let values = indices::values_at(alloc, array.values().as_slice(), indices)?;
    let validity = indices::validity_at(alloc, array.validity(), indices)?;
    let data_type = array.data_type().clone(alloc)?;
    PrimitiveArray::try_new(data_type, values, validity)
}

/// Wraps the array in the variant of its type, or returns the error.
fn wrapped<T: NativeArray>(taken: Result<T::Array, Error>) -> Result<AnyPrimitive, Error>
    ensures { MatchResult taken
        (λ a. MatchResult result (λ b. primitive_layout b ≡ T.layout_of_array a) (λ _. ⊥))
        (λ e. IsErrOf result e) }
{
    match taken {
        Ok(array) => Ok(T::wrap(array)),
        Err(error) => Err(error),
    }
}

/// Takes the slots at `indices`.
pub(crate) fn take(
    alloc: Global,
    array: &AnyPrimitive,
    indices: &[usize],
) -> Result<AnyPrimitive, Error>
    requires { AreBelow indices.now (len (primitive_layout array.now)) }
    ensures ok { IfOk result (λ b. IsTaken (primitive_layout array.now) indices.now (primitive_layout b)) }
    ensures err { IsOkUnless result (Memory alloc_error) }
{
    match array {
        AnyPrimitive::Int8(array) => wrapped::<i8>(take_natives(alloc, array, indices)),
        AnyPrimitive::Int16(array) => wrapped::<i16>(take_natives(alloc, array, indices)),
        AnyPrimitive::Int32(array) => wrapped::<i32>(take_natives(alloc, array, indices)),
        AnyPrimitive::Int64(array) => wrapped::<i64>(take_natives(alloc, array, indices)),
        AnyPrimitive::Int128(array) => wrapped::<i128>(take_natives(alloc, array, indices)),
        AnyPrimitive::Int256(array) => wrapped::<i256>(take_natives(alloc, array, indices)),
        AnyPrimitive::UInt8(array) => wrapped::<u8>(take_natives(alloc, array, indices)),
        AnyPrimitive::UInt16(array) => wrapped::<u16>(take_natives(alloc, array, indices)),
        AnyPrimitive::UInt32(array) => wrapped::<u32>(take_natives(alloc, array, indices)),
        AnyPrimitive::UInt64(array) => wrapped::<u64>(take_natives(alloc, array, indices)),
        AnyPrimitive::DaysMs(array) => wrapped::<days_ms>(take_natives(alloc, array, indices)),
        AnyPrimitive::MonthDayNano(array) => {
            wrapped::<months_days_ns>(take_natives(alloc, array, indices))
        }
    }
}

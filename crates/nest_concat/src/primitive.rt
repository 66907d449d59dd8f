//! Concatenation of primitive arrays.
ghost use Rattle.std.specs.Prelude.{◌≡◌, ◌++◌, IfOk, IsErrOf, IsOkUnless, MatchResult, OnOk, alloc_error, map};
ghost use Rattle.std.specs.List.{flat_map};
ghost use Rattle.nest_memory.specs.declared.datatypes.physical_type.PhysicalType.TheVariants as physical;
ghost use Rattle.nest_array.specs.Seen.{layout_of};
ghost use Rattle.nest_flat.specs.AnyPrimitive.{primitive_kind, primitive_layout};
ghost use Rattle.nest_concat.specs.Words.{AreOfKind, AreWithin, IsJoined, Memory, count_slots, layout_type, natives_in, physical_type, laid, PassesLimits};

use crate::bits;
use crate::natives::{self, Natives};
use nest_array::{AnyArray, Window};
use nest_flat::any_primitive::{AnyPrimitive, NativeArray};
use nest_flat::primitive::PrimitiveArray;
use nest_memory::buffer::Buffer;
use nest_memory::error::Error;
use nest_memory::types::{days_ms, i256, months_days_ns};
use std::alloc::Global;

/// Appends the values of a window.
fn push_values<T: Natives>(taken: &mut Vec<T>, window: &Window<'_>) -> Result<(), Error>
    requires kind { physical_type (layout_type window.now.array) ≡ physical.Primitive T.PRIMITIVE }
    ensures ok { OnOk result (map T.numbers taken.new.items ≡ map T.numbers taken.old.items ++ natives_in window.now) }
    ensures err { IsOkUnless result (Memory alloc_error) }
{
    window.known();
    let array = window.array();
    array.known();
    let _len = array.len();
    let values = natives::part(T::values(array), window.offset(), window.len());
    taken.extend_from_slice(values)?;
    Ok(())
}

/// Returns the values of windows. `total` is the number of slots.
fn values<T: Natives>(
    alloc: Global,
    windows: &[Window<'_>],
    total: usize,
) -> Result<Buffer<T>, Error>
    requires kind { AreOfKind (physical.Primitive T.PRIMITIVE) windows.now }
    ensures ok { IfOk result (λ b. map T.numbers b ≡ flat_map natives_in windows.now) }
    ensures err { IsOkUnless result (Memory alloc_error) }
{
    let mut taken = Vec::with_capacity(alloc, total)?;
    for window in windows {
        push_values(&mut taken, window)?;
    }
    Buffer::from_vec(alloc, taken)
}

/// Concatenates windows over primitive arrays of one type, with the data type of one of them.
/// `total` is the number of slots.
fn join_natives<T: Natives>(
    alloc: Global,
    array: &AnyPrimitive,
    windows: &[Window<'_>],
    total: usize,
) -> Result<PrimitiveArray<T>, Error>
    requires kind { primitive_kind array.now ≡ T.PRIMITIVE }
    requires within { AreWithin (layout_type (primitive_layout array.now)) windows.now }
    requires total { total ≡ count_slots windows.now }
    ensures ok { IfOk result (λ a. IsJoined (layout_type (primitive_layout array.now)) windows.now a) }
    ensures laid { IfOk result (λ a. a ≡ laid (primitive_layout array.now) windows.now) }
    ensures room { IfOk result (λ a. PassesLimits (primitive_layout array.now) windows.now → ⊥) }
    ensures err { IsOkUnless result (Memory alloc_error) }
{
    array.known();
    let values = values::<T>(alloc, windows, total)?;
    let validity = bits::validity(alloc, windows, total)?;
    let data_type = array.data_type().clone(alloc)?;
    PrimitiveArray::try_new(data_type, values, validity)
}

/// Wraps the array in the variant of its type, or returns the error.
fn wrapped<T: NativeArray>(joined: Result<T::Array, Error>) -> Result<AnyArray, Error>
    ensures { MatchResult joined
        (λ a. MatchResult result (λ b. layout_of b ≡ T.layout_of_array a) (λ _. ⊥))
        (λ e. IsErrOf result e) }
{
    match joined {
        Ok(array) => Ok(AnyArray::Primitive(T::wrap(array))),
        Err(error) => Err(error),
    }
}

/// Concatenates windows over primitive arrays, with the data type of one of them. `total` is the number of slots.
#[inline(never)]
pub(crate) fn join(
    alloc: Global,
    array: &AnyPrimitive,
    windows: &[Window<'_>],
    total: usize,
) -> Result<AnyArray, Error>
    requires within { AreWithin (layout_type (primitive_layout array.now)) windows.now }
    requires total { total ≡ count_slots windows.now }
    ensures ok { IfOk result (λ a. IsJoined (layout_type (primitive_layout array.now)) windows.now (layout_of a)) }
    ensures laid { IfOk result (λ a. layout_of a ≡ laid (primitive_layout array.now) windows.now) }
    ensures room { IfOk result (λ a. PassesLimits (primitive_layout array.now) windows.now → ⊥) }
    ensures err { IsOkUnless result (Memory alloc_error) }
{
    match array {
        AnyPrimitive::Int8(_) => wrapped::<i8>(join_natives(alloc, array, windows, total)),
        AnyPrimitive::Int16(_) => wrapped::<i16>(join_natives(alloc, array, windows, total)),
        AnyPrimitive::Int32(_) => wrapped::<i32>(join_natives(alloc, array, windows, total)),
        AnyPrimitive::Int64(_) => wrapped::<i64>(join_natives(alloc, array, windows, total)),
        AnyPrimitive::Int128(_) => wrapped::<i128>(join_natives(alloc, array, windows, total)),
        AnyPrimitive::Int256(_) => wrapped::<i256>(join_natives(alloc, array, windows, total)),
        AnyPrimitive::UInt8(_) => wrapped::<u8>(join_natives(alloc, array, windows, total)),
        AnyPrimitive::UInt16(_) => wrapped::<u16>(join_natives(alloc, array, windows, total)),
        AnyPrimitive::UInt32(_) => wrapped::<u32>(join_natives(alloc, array, windows, total)),
        AnyPrimitive::UInt64(_) => wrapped::<u64>(join_natives(alloc, array, windows, total)),
        AnyPrimitive::DaysMs(_) => wrapped::<days_ms>(join_natives(alloc, array, windows, total)),
        AnyPrimitive::MonthDayNano(_) => {
            wrapped::<months_days_ns>(join_natives(alloc, array, windows, total))
        }
    }
}

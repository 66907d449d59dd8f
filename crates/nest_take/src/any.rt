//! `take` for arrays of any type.
ghost use Rattle.std.specs.Prelude.{IfErr, IfOk};
ghost use Rattle.nest_array.specs.Seen.{layout_of};
ghost use Rattle.nest_flat.specs.AnyPrimitive.{primitive_layout};
ghost use Rattle.nest_take.specs.Words.{AreBelow, IsTaken, RefusesTake, len};

use crate::{
    binary, boolean, dictionary, fixed_size_binary, fixed_size_list, list, map, null, primitive,
    struct_, union, utf8,
};
use nest_array::AnyArray;
use nest_flat::any_primitive::AnyPrimitive;
use nest_flat::binary::BinaryArray;
use nest_flat::boolean::BooleanArray;
use nest_flat::utf8::Utf8Array;
use nest_memory::error::Error;
use std::alloc::Global;

/// Returns the slots of an array at the given indices, in that order. An index may occur more than once.
///
/// The result has the data type of `array`.
///
/// # Errors
/// `Overflow` where the selected items, bytes or picks, at some level, are more than an offset or a length can hold.
/// A null list, map, binary or string has none. They are counted before they are copied.
///
/// `Memory` where an allocation fails.
#[cycle(take)]
pub fn take(alloc: Global, array: &AnyArray, indices: &[usize]) -> Result<AnyArray, Error>
    requires { AreBelow indices.now (len (layout_of array.now)) }
    ensures ok { IfOk result (λ a. IsTaken (layout_of array.now) indices.now (layout_of a)) }
    ensures err { IfErr result (λ e. RefusesTake e (layout_of array.now) indices.now) }
{
    match array {
        AnyArray::Null(array) => null::take(alloc, array, indices),
        AnyArray::Boolean(array) => take_booleans(alloc, array, indices),
        AnyArray::Primitive(array) => take_natives(alloc, array, indices),
        AnyArray::Binary(array) => take_bytes(alloc, array, indices),
        AnyArray::LargeBinary(array) => take_large_bytes(alloc, array, indices),
        AnyArray::Utf8(array) => take_texts(alloc, array, indices),
        AnyArray::LargeUtf8(array) => take_large_texts(alloc, array, indices),
        AnyArray::FixedSizeBinary(array) => fixed_size_binary::take(alloc, array, indices),
        AnyArray::FixedSizeList(array) => fixed_size_list::take_lists(alloc, array, indices),
        AnyArray::List(array) => list::take_lists(alloc, array, indices),
        AnyArray::LargeList(array) => list::take_large_lists(alloc, array, indices),
        AnyArray::Struct(array) => struct_::take_records(alloc, array, indices),
        AnyArray::Map(array) => map::take_maps(alloc, array, indices),
        AnyArray::Union(array) => union::take_picks(alloc, array, indices),
        AnyArray::Dictionary(array) => dictionary::take_keyed(alloc, array, indices),
    }
}

// One function for each flat type, not inlined: otherwise each call clears the stack space of all of them.
#[inline(never)]
fn take_booleans(alloc: Global, array: &BooleanArray, indices: &[usize]) -> Result<AnyArray, Error>
    requires { AreBelow indices.now (len array.now) }
    ensures ok { IfOk result (λ a. IsTaken array.now indices.now (layout_of a)) }
    ensures err { IfErr result (λ e. RefusesTake e array.now indices.now) }
{
    match boolean::take(alloc, array, indices) {
        Ok(array) => Ok(AnyArray::Boolean(array)),
        Err(error) => Err(error),
    }
}

#[inline(never)]
fn take_natives(alloc: Global, array: &AnyPrimitive, indices: &[usize]) -> Result<AnyArray, Error>
    requires { AreBelow indices.now (len (primitive_layout array.now)) }
    ensures ok { IfOk result (λ a. IsTaken (primitive_layout array.now) indices.now (layout_of a)) }
    ensures err { IfErr result (λ e. RefusesTake e (primitive_layout array.now) indices.now) }
{
    match primitive::take(alloc, array, indices) {
        Ok(array) => Ok(AnyArray::Primitive(array)),
        Err(error) => Err(error),
    }
}

#[inline(never)]
fn take_bytes(alloc: Global, array: &BinaryArray<i32>, indices: &[usize]) -> Result<AnyArray, Error>
    requires { AreBelow indices.now (len array.now) }
    ensures ok { IfOk result (λ a. IsTaken array.now indices.now (layout_of a)) }
    ensures err { IfErr result (λ e. RefusesTake e array.now indices.now) }
{
    match binary::take(alloc, array, indices) {
        Ok(array) => Ok(AnyArray::Binary(array)),
        Err(error) => Err(error),
    }
}

#[inline(never)]
fn take_large_bytes(
    alloc: Global,
    array: &BinaryArray<i64>,
    indices: &[usize],
) -> Result<AnyArray, Error>
    requires { AreBelow indices.now (len array.now) }
    ensures ok { IfOk result (λ a. IsTaken array.now indices.now (layout_of a)) }
    ensures err { IfErr result (λ e. RefusesTake e array.now indices.now) }
{
    match binary::take(alloc, array, indices) {
        Ok(array) => Ok(AnyArray::LargeBinary(array)),
        Err(error) => Err(error),
    }
}

#[inline(never)]
fn take_texts(alloc: Global, array: &Utf8Array<i32>, indices: &[usize]) -> Result<AnyArray, Error>
    requires { AreBelow indices.now (len array.now) }
    ensures ok { IfOk result (λ a. IsTaken array.now indices.now (layout_of a)) }
    ensures err { IfErr result (λ e. RefusesTake e array.now indices.now) }
{
    match utf8::take(alloc, array, indices) {
        Ok(array) => Ok(AnyArray::Utf8(array)),
        Err(error) => Err(error),
    }
}

#[inline(never)]
fn take_large_texts(
    alloc: Global,
    array: &Utf8Array<i64>,
    indices: &[usize],
) -> Result<AnyArray, Error>
    requires { AreBelow indices.now (len array.now) }
    ensures ok { IfOk result (λ a. IsTaken array.now indices.now (layout_of a)) }
    ensures err { IfErr result (λ e. RefusesTake e array.now indices.now) }
{
    match utf8::take(alloc, array, indices) {
        Ok(array) => Ok(AnyArray::LargeUtf8(array)),
        Err(error) => Err(error),
    }
}

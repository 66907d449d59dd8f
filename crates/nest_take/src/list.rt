//! `take` for list arrays with 32-bit and 64-bit offsets.
ghost use Rattle.std.specs.Prelude.{◌≡◌, IfErr, IfOk, IsOkUnless, alloc_error, false, true};
ghost use Rattle.nest_model.specs.Fits.{Fits};
ghost use Rattle.nest_model.specs.Layout as layouts;
ghost use Rattle.nest_array.specs.Seen.{layout_of};
ghost use Rattle.nest_take.specs.Words.{AreBelow, IsTaken, Memory, RefusesTake, len, type_of};

use crate::any::take;
use crate::spans;
use nest_array::{AnyArray, LargeListArray, ListArray};
use nest_memory::bitmap::immutable::Bitmap;
use nest_memory::datatypes::DataType;
use nest_memory::error::Error;
use nest_memory::offsets::OffsetsBuffer;
use std::alloc::Global;

/// Takes the slots at `indices`. A null row has no items.
#[cycle(take)]
#[inline(never)]
pub(crate) fn take_lists(
    alloc: Global,
    array: &ListArray,
    indices: &[usize],
) -> Result<AnyArray, Error>
    requires { AreBelow indices.now (len array.now) }
    ensures ok { IfOk result (λ a. IsTaken array.now indices.now (layout_of a)) }
    ensures err { IfErr result (λ e. RefusesTake e array.now indices.now) }
{
    array.known();
    array.offsets().known();
    let rows = spans::take_rows(alloc, array.offsets(), array.validity(), indices)?;
    rows.offsets.known();
    match take(alloc, array.values(), &rows.items) {
        Ok(values) => lists_of(
            alloc,
            array.data_type(),
            rows.offsets,
            values,
            rows.validity,
        ),
        Err(error) => Err(error),
    }
}

/// Returns the array with these parts.
fn lists_of(
    alloc: Global,
    data_type: &DataType,
    offsets: OffsetsBuffer<i32>,
    values: AnyArray,
    validity: Option<Bitmap>,
) -> Result<AnyArray, Error>
    requires { Fits (layouts.list false (type_of data_type.now) offsets (layout_of values) validity) }
    ensures ok { IfOk result (λ a. layout_of a ≡ layouts.list false (type_of data_type.now) offsets (layout_of values) validity) }
    ensures err { IsOkUnless result (Memory alloc_error) }
{
    match data_type.clone(alloc) {
        Ok(data_type) => match ListArray::new(alloc, data_type, offsets, values, validity) {
            Ok(array) => Ok(AnyArray::List(array)),
            Err(error) => Err(error),
        },
        Err(error) => {
            drop(validity);
            drop(values);
            drop(offsets);
            Err(error)
        }
    }
}

/// Takes the slots at `indices`. A null row has no items.
#[cycle(take)]
#[inline(never)]
pub(crate) fn take_large_lists(
    alloc: Global,
    array: &LargeListArray,
    indices: &[usize],
) -> Result<AnyArray, Error>
    requires { AreBelow indices.now (len array.now) }
    ensures ok { IfOk result (λ a. IsTaken array.now indices.now (layout_of a)) }
    ensures err { IfErr result (λ e. RefusesTake e array.now indices.now) }
{
    array.known();
    array.offsets().known();
    let rows = spans::take_rows(alloc, array.offsets(), array.validity(), indices)?;
    rows.offsets.known();
    match take(alloc, array.values(), &rows.items) {
        Ok(values) => large_lists_of(
            alloc,
            array.data_type(),
            rows.offsets,
            values,
            rows.validity,
        ),
        Err(error) => Err(error),
    }
}

/// Returns the array with these parts.
fn large_lists_of(
    alloc: Global,
    data_type: &DataType,
    offsets: OffsetsBuffer<i64>,
    values: AnyArray,
    validity: Option<Bitmap>,
) -> Result<AnyArray, Error>
    requires { Fits (layouts.list true (type_of data_type.now) offsets (layout_of values) validity) }
    ensures ok { IfOk result (λ a. layout_of a ≡ layouts.list true (type_of data_type.now) offsets (layout_of values) validity) }
    ensures err { IsOkUnless result (Memory alloc_error) }
{
    match data_type.clone(alloc) {
        Ok(data_type) => match LargeListArray::new(alloc, data_type, offsets, values, validity) {
            Ok(array) => Ok(AnyArray::LargeList(array)),
            Err(error) => Err(error),
        },
        Err(error) => {
            drop(validity);
            drop(values);
            drop(offsets);
            Err(error)
        }
    }
}

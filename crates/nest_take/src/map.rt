//! `take` for map arrays.
ghost use Rattle.std.specs.Prelude.{◌≡◌, IfErr, IfOk, IsOkUnless, alloc_error};
ghost use Rattle.nest_model.specs.Fits.{Fits};
ghost use Rattle.nest_model.specs.Layout as layouts;
ghost use Rattle.nest_array.specs.Seen.{layout_of};
ghost use Rattle.nest_take.specs.Words.{AreBelow, IsTaken, Memory, RefusesTake, len, type_of};

use crate::any::take;
use crate::spans;
use nest_array::{AnyArray, MapArray};
use nest_memory::bitmap::immutable::Bitmap;
use nest_memory::datatypes::DataType;
use nest_memory::error::Error;
use nest_memory::offsets::OffsetsBuffer;
use std::alloc::Global;

/// Takes the slots at `indices`. A null row has no entries.
#[cycle(take)]
#[inline(never)]
pub(crate) fn take_maps(
    alloc: Global,
    array: &MapArray,
    indices: &[usize],
) -> Result<AnyArray, Error>
    requires { AreBelow indices.now (len array.now) }
    ensures ok { IfOk result (λ a. IsTaken array.now indices.now (layout_of a)) }
    ensures err { IfErr result (λ e. RefusesTake e array.now indices.now) }
{
    array.known();
    array.offsets().known();
    let rows = spans::take_rows(alloc, array.offsets(), array.validity(), indices)?;
    rows.offsets.known();
    match take(alloc, array.field(), &rows.items) {
        Ok(values) => maps_of(
            alloc,
            array.data_type(),
            rows.offsets,
            values,
            rows.validity,
        ),
        Err(error) => Err(error),
    }
}

/// Returns the array with these parts.
fn maps_of(
    alloc: Global,
    data_type: &DataType,
    offsets: OffsetsBuffer<i32>,
    values: AnyArray,
    validity: Option<Bitmap>,
) -> Result<AnyArray, Error>
    requires { Fits (layouts.map (type_of data_type.now) offsets (layout_of values) validity) }
    ensures ok { IfOk result (λ a. layout_of a ≡ layouts.map (type_of data_type.now) offsets (layout_of values) validity) }
    ensures err { IsOkUnless result (Memory alloc_error) }
{
    match data_type.clone(alloc) {
        Ok(data_type) => match MapArray::new(alloc, data_type, offsets, values, validity) {
            Ok(array) => Ok(AnyArray::Map(array)),
            Err(error) => Err(error),
        },
        Err(error) => {
            drop(validity);
            drop(values);
            drop(offsets);
            Err(error)
        }
    }
}

//! `take` for fixed-size list arrays.
ghost use Rattle.std.specs.Prelude.{◌≡◌, IfErr, IfOk, IsOkUnless, alloc_error};
ghost use Rattle.nest_model.specs.Fits.{Fits};
ghost use Rattle.nest_model.specs.Layout as layouts;
ghost use Rattle.nest_array.specs.Seen.{layout_of};
ghost use Rattle.nest_take.specs.Words.{AreBelow, IsTaken, Memory, RefusesTake, len, type_of};

use crate::any::take;
use crate::indices;
use nest_array::{AnyArray, FixedSizeListArray};
use nest_memory::bitmap::immutable::Bitmap;
use nest_memory::datatypes::DataType;
use nest_memory::error::Error;
use std::alloc::Global;

/// Takes the slots at `indices`. The items under a null are taken too.
#[cycle(take)]
#[inline(never)]
pub(crate) fn take_lists(
    alloc: Global,
    array: &FixedSizeListArray,
    indices: &[usize],
) -> Result<AnyArray, Error>
    requires { AreBelow indices.now (len array.now) }
    ensures ok { IfOk result (λ a. IsTaken array.now indices.now (layout_of a)) }
    ensures err { IfErr result (λ e. RefusesTake e array.now indices.now) }
{
    array.known();
    let size = array.size();
    let children = array.values();
    // The child's length is a `usize`, so the index of an item cannot overflow.
    let _ = children.len();
    let _ = indices::count_blocks(size, indices)?;
    let items = indices::blocks(alloc, size, indices)?;
    let validity = indices::validity_at(alloc, array.validity(), indices)?;
    match take(alloc, children, &items) {
        Ok(values) => array_of(alloc, array.data_type(), values, validity),
        Err(error) => Err(error),
    }
}

/// Returns the array with these parts.
fn array_of(
    alloc: Global,
    data_type: &DataType,
    values: AnyArray,
    validity: Option<Bitmap>,
) -> Result<AnyArray, Error>
    requires { Fits (layouts.fixed_size_list (type_of data_type.now) (layout_of values) validity) }
    ensures ok { IfOk result (λ a. layout_of a ≡ layouts.fixed_size_list (type_of data_type.now) (layout_of values) validity) }
    ensures err { IsOkUnless result (Memory alloc_error) }
{
    match data_type.clone(alloc) {
        Ok(data_type) => match FixedSizeListArray::new(alloc, data_type, values, validity) {
            Ok(array) => Ok(AnyArray::FixedSizeList(array)),
            Err(error) => Err(error),
        },
        Err(error) => {
            drop(validity);
            drop(values);
            Err(error)
        }
    }
}

//! `concatenate`: arrays one after another.
ghost use Rattle.std.specs.Prelude.{◌≡◌, ◌<◌, ◌↔◌, IfErr, IfOk, IsErrOf, IsOkUnless, IsTrue, alloc_error, false, length, map, true};
ghost use Rattle.std.specs.List.{All};
ghost use Rattle.nest_array.specs.Seen.{layout_of};
ghost use Rattle.nest_concat.specs.Words.{AreOfOneType, AreWithin, InvalidArgumentError, IsConcatenated, ItemType, Memory, Overflow, RefusesConcatenate, first_array, joined_layout, joins_past, layout_type, type_of, whole};

use crate::any::join;
use nest_array::{AnyArray, Window};
use nest_memory::datatypes::DataType;
use nest_memory::error::{ArgumentError, Error};
use std::alloc::Global;

/// Returns whether an array has this data type.
fn has_type(array: &AnyArray, data_type: &DataType) -> bool
    ensures { IsTrue result ↔ (layout_type (layout_of array.now) ≡ type_of data_type.now) }
{
    *array.data_type() == *data_type
}

/// Returns whether all arrays have this data type.
fn have_type(arrays: &[AnyArray], data_type: &DataType) -> bool
    ensures { IsTrue result ↔ All (λ a. layout_type (layout_of a) ≡ type_of data_type.now) arrays.now }
{
    for array in arrays {
        if !has_type(array, data_type) {
            return false;
        }
    }
    true
}

/// Returns whether there is an array and all have the data type of the first.
pub(crate) fn are_of_one_type(arrays: &[AnyArray]) -> bool
    ensures { IsTrue result ↔ AreOfOneType (map layout_of arrays.now) }
{
    if arrays.is_empty() {
        return false;
    }
    have_type(arrays, arrays[0].data_type())
}

/// Returns the windows over all slots of the arrays.
fn windows(alloc: Global, arrays: &[AnyArray]) -> Result<Vec<Window<'_>>, Error>
    ensures ok { IfOk result (λ v. v.items ≡ map (λ a. whole (layout_of a)) arrays.now) }
    ensures within { AreOfOneType (map layout_of arrays.now) → IfOk result (λ v. AreWithin (layout_type (first_array v.items)) v.items) }
    ensures err { IsOkUnless result (Memory alloc_error) }
{
    let mut windows = Vec::with_capacity(alloc, arrays.len())?;
    for array in arrays {
        array.known();
        windows.push_reserved(Window::of(array));
    }
    Ok(windows)
}

/// Returns the slots of arrays of one data type, one array after another.
///
/// Buffers are concatenated, and offsets start at 0.
/// The result has a validity bitmap where one of the arrays has one.
///
/// If all dictionaries have equal values, the result shares those of the first.
/// Otherwise it has the values of all arrays, and keys move past the values of earlier arrays.
/// The raw key under a null is 0.
///
/// # Errors
/// `InvalidArgumentError(ItemType)` where there is no array or the data types differ.
///
/// `Overflow` where at some level:
/// - the slots are more than a length can hold,
/// - the items or bytes are more than an offset can hold,
/// - a field of dense unions has more than 2^31 slots, from the lowest picked one to the highest of each array,
/// - a valid key does not fit its type when it moves past the values of earlier arrays.
///
/// `Memory` where an allocation fails.
pub fn concatenate(alloc: Global, arrays: &[AnyArray]) -> Result<AnyArray, Error>
    ensures ok { IfOk result (λ a. IsConcatenated (map layout_of arrays.now) (layout_of a)) }
    ensures laid { IfOk result (λ a. layout_of a ≡ joined_layout (map layout_of arrays.now)) }
    ensures room { IfOk result (λ a. joins_past (map layout_of arrays.now) ≡ false) }
    ensures past { IsErrOf result Overflow → joins_past (map layout_of arrays.now) ≡ true }
    ensures types { IsErrOf result (InvalidArgumentError ItemType) ↔ (AreOfOneType (map layout_of arrays.now) → ⊥) }
    ensures err { IfErr result (λ e. RefusesConcatenate e (map layout_of arrays.now)) }
{
    if !are_of_one_type(arrays) {
        return Err(Error::InvalidArgumentError(ArgumentError::ItemType));
    }
    let windows = windows(alloc, arrays)?;
    join(alloc, &windows)
}

//! Concatenation of fixed-size list arrays.
ghost use Rattle.std.specs.Prelude.{◌≡◌, ◌<◌, IfErr, IfOk, IsOkUnless, alloc_error, length, map};
ghost use Rattle.nest_memory.specs.TypeTree.{size_of};
ghost use Rattle.nest_memory.specs.declared.datatypes.physical_type.PhysicalType.TheVariants as physical;
ghost use Rattle.nest_model.specs.Layout as layouts;
ghost use Rattle.nest_array.specs.Seen.{layout_of};
ghost use Rattle.nest_concat.specs.Words.{AreArrays, AreWithin, Fits, IsJoined, Memory, RefusesJoin, TopFits, blocks_of, count_slots, first_array, layout_type, physical_type, type_of, laid, PassesLimits};

use crate::any::join;
use crate::bits;
use nest_array::{AnyArray, FixedSizeListArray, Window};
use nest_memory::bitmap::immutable::Bitmap;
use nest_memory::datatypes::DataType;
use nest_memory::error::Error;
use std::alloc::Global;

/// Returns the window over the items of a window.
fn items_of_window<'a>(window: &Window<'a>, size: usize) -> Window<'a>
    requires kind { physical_type (layout_type window.now.array) ≡ physical.FixedSizeList }
    requires size { size ≡ size_of (layout_type window.now.array) }
    ensures parts { result ≡ blocks_of size window.now }
    ensures fits { TopFits result.array }
{
    window.known();
    let Some(array) = window.array().as_fixed_size_list() else {
        unreachable!()
    };
    array.known();
    let items = array.values();
    items.known();
    let _len = items.len();
    let start = window.offset() * size;
    let count = window.len() * size;
    Window::new(items, start, count)
}

/// Returns the windows over the items of windows over fixed-size list arrays of the type of `array`.
fn items<'a>(
    alloc: Global,
    array: &FixedSizeListArray,
    windows: &[Window<'a>],
) -> Result<Vec<Window<'a>>, Error>
    requires within { AreWithin (layout_type array.now) windows.now }
    ensures ok { IfOk result (λ v. v.items ≡ map (blocks_of (size_of (layout_type array.now))) windows.now) }
    ensures fit { IfOk result (λ v. AreArrays v.items) }
    ensures err { IsOkUnless result (Memory alloc_error) }
{
    array.known();
    let size = array.size();
    let mut items = Vec::with_capacity(alloc, windows.len())?;
    for window in windows {
        items.push_reserved(items_of_window(window, size));
    }
    Ok(items)
}

/// Concatenates windows over fixed-size list arrays, with the data type of `array`, the first array.
/// `total` is the number of slots.
#[cycle(join)]
#[inline(never)]
pub(crate) fn join_lists(
    alloc: Global,
    array: &FixedSizeListArray,
    windows: &[Window<'_>],
    total: usize,
) -> Result<AnyArray, Error>
    requires some { 0 < length windows.now }
    requires first { array.now ≡ first_array windows.now }
    requires within { AreWithin (layout_type array.now) windows.now }
    requires total { total ≡ count_slots windows.now }
    ensures ok { IfOk result (λ a. IsJoined (layout_type array.now) windows.now (layout_of a)) }
    ensures laid { IfOk result (λ a. layout_of a ≡ laid array.now windows.now) }
    ensures room { IfOk result (λ a. PassesLimits array.now windows.now → ⊥) }
    ensures err { IfErr result (λ e. RefusesJoin e array.now windows.now) }
{
    array.known();
    let validity = bits::validity(alloc, windows, total)?;
    let items = items(alloc, array, windows)?;
    match join(alloc, &items) {
        Ok(values) => array_of(alloc, array.data_type(), values, validity),
        Err(error) => Err(error),
    }
}

/// Returns the array with these parts.
fn array_of(
    alloc: Global,
    data_type: &DataType,
    values: AnyArray,
    validity: Option<Bitmap>,
) -> Result<AnyArray, Error>
    requires { Fits (layouts.fixed_size_list (type_of data_type.now) (layout_of values) validity) }
    ensures ok { IfOk result (λ a. layout_of a ≡ layouts.fixed_size_list (type_of data_type.now) (layout_of values) validity) }
    ensures err { IsOkUnless result (Memory alloc_error) }
{
    match data_type.clone(alloc) {
        Ok(data_type) => match FixedSizeListArray::new(alloc, data_type, values, validity) {
            Ok(array) => Ok(AnyArray::FixedSizeList(array)),
            Err(error) => Err(error),
        },
        Err(error) => {
            drop(validity);
            drop(values);
            Err(error)
        }
    }
}

//! Fixed-size list arrays.
ghost use Rattle.std.specs.Prelude.{◌≡◌, Ok, ◌≤◌, ◌+◌, ◌*◌};
ghost use Rattle.ipc_flatbuf.specs.ReadResults.{ReturnsOrRunsOut};
ghost use Rattle.nest_memory.specs.TypeOf.{type_of, field_of};
ghost use Rattle.nest_memory.specs.TypeTree as types;
ghost use Rattle.nest_memory.specs.TypeTree.{logical_type, size_of};
ghost use Rattle.nest_model.specs.Fits.{Fits};
ghost use Rattle.nest_model.specs.Layout as layouts;
ghost use Rattle.nest_array.specs.Seen.{layout_of};
ghost use Rattle.ipc_arrays.specs.Decoding.{rest_of};
ghost use Rattle.ipc_arrays.specs.NestedDecoding.{fixed_size_list_decoding};
ghost use Rattle.nest_model.specs.Accessors.{child_of};
ghost use Rattle.nest_model.specs.Layout.{layout_type};
ghost use Rattle.nest_model.specs.Meaning.{len};
ghost use Rattle.nest_array.specs.WindowParts.{window_parts};

use crate::cursor::{BatchCursor, ExpectedLength, NodeCounts};
use crate::reading::read_item;
use crate::validity::read_validity_buffer;
use ipc_flatbuf::IpcReadError;
use nest_array::any::AnyArray;
use nest_array::fixed_size_list::FixedSizeListArray;
use nest_array::window::Window;
use nest_memory::bitmap::immutable::Bitmap;
use nest_memory::datatypes::{DataType, Field};
use std::alloc::Global;

// Returns the array of these parts.
fn array_of(
    alloc: Global,
    data_type: &DataType,
    items: AnyArray,
    validity: Option<Bitmap>,
) -> Result<FixedSizeListArray, IpcReadError>
    requires { Fits (layouts.fixed_size_list (type_of data_type.now) (layout_of items) validity) }
    ensures { ReturnsOrRunsOut (λ a. a) result (Ok (layouts.fixed_size_list (type_of data_type.now) (layout_of items) validity)) }
{
    match data_type.clone(alloc) {
        Err(_) => {
            drop(items);
            drop(validity);
            Err(IpcReadError::Memory)
        }
        Ok(data_type) => match FixedSizeListArray::new(alloc, data_type, items, validity) {
            Err(_) => Err(IpcReadError::Memory),
            Ok(array) => Ok(array),
        },
    }
}

/// Reads a fixed-size list array: validity, then the child, of `size` items for each slot.
///
/// # Errors
///
/// `IpcReadError::TypeRange` if the size is 0, `IpcReadError::ChildLength` if the child has another length, and those of the buffers.
#[cycle(read)]
#[tactic(auto, unfolding(crate::specs::NestedDecoding::fixed_size_list_decoding))]
pub(crate) fn read_fixed_size_list<'a>(
    alloc: Global,
    data_type: &DataType,
    field: &Field,
    size: usize,
    counts: NodeCounts,
    body: &'a [u8],
    cursor: BatchCursor<'a>,
) -> Result<(FixedSizeListArray, BatchCursor<'a>), IpcReadError>
    requires { logical_type (type_of data_type.now) ≡ types.fixed_size_list (field_of field.now) size }
    ensures { ReturnsOrRunsOut (λ x. (x.0, rest_of x.1)) result (fixed_size_list_decoding (type_of data_type.now) (field_of field.now) size counts body.now (rest_of cursor.entry)) }
{
    if size == 0 {
        return Err(IpcReadError::TypeRange);
    }
    let (validity, cursor) = read_validity_buffer(alloc, counts, body, cursor)?;
    let count = counts.slots as u128 * size as u128;
    match read_item(alloc, field, ExpectedLength::Exactly(count), body, cursor) {
        Ok((items, cursor)) => {
            let array = array_of(alloc, data_type, items, validity)?;
            Ok((array, cursor))
        }
        Err(error) => {
            drop(validity);
            Err(error)
        }
    }
}

// ---- writing

/// Returns the items of `count` slots from index `offset` on, as a window over the child.
pub(crate) fn fixed_size_item_window(
    array: &FixedSizeListArray,
    offset: usize,
    count: usize,
) -> Window<'_>
    requires { offset + count ≤ len array.now }
    ensures { result ≡ window_parts (child_of array.now) (offset * size_of (layout_type array.now)) (count * size_of (layout_type array.now)) }
{
    array.known();
    let size = array.size();
    let items = array.values();
    let _len = items.len();
    Window::new(items, offset * size, count * size)
}

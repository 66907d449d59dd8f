//! List arrays with 32-bit and 64-bit offsets.
ghost use Rattle.std.specs.Prelude.{◌≡◌, false, true, Some, ◌<◌, ◌≤◌, ◌^◌, ◌+◌, ◌-◌, ◌++◌, ℕ, List, length, IfErr, IfOk, OnOk};
ghost use Rattle.ipc_flatbuf.specs.ReadResults.{ReturnsOrRunsOut};
ghost use Rattle.nest_memory.specs.Physical.{physical_type};
ghost use Rattle.nest_memory.specs.TypeOf.{type_of, field_of};
ghost use Rattle.nest_memory.specs.TypeTree as types;
ghost use Rattle.nest_memory.specs.TypeTree.{item_type, logical_type};
ghost use Rattle.nest_memory.specs.declared.datatypes.physical_type.PhysicalType.TheVariants as physical;
ghost use Rattle.nest_model.specs.Fits.{ValidityFits};
ghost use Rattle.nest_model.specs.Layout.{layout_type};
ghost use Rattle.nest_model.specs.Part.{count_rows, begin};
ghost use Rattle.nest_array.specs.Seen.{layout_of};
ghost use Rattle.ipc_arrays.specs.Decoding.{rest_of, variable_size_head, list_over};
ghost use Rattle.ipc_arrays.specs.NestedDecoding.{list_decoding};
ghost use Rattle.std.specs.Option.{option_map};
ghost use Rattle.ipc_flatbuf.specs.declared.error.IpcWriteError.TheVariants.{Memory};
ghost use Rattle.nest_memory.specs.Sublist.{sublist};
ghost use Rattle.nest_memory.specs.Rising.{last_of};
ghost use Rattle.nest_model.specs.Meaning.{len};
ghost use Rattle.nest_array.specs.WindowParts.{window_parts};
ghost use Rattle.ipc_arrays.specs.BodyBuffers.{body_of};
ghost use Rattle.ipc_arrays.specs.Encoding.{AppendsBuffers, list_buffers, rebased, IsLayoutError};
ghost use Rattle.ipc_arrays.specs.EncodingLaws.{OffsetsRoundTrip};

use crate::cursor::{BatchCursor, ExpectedLength, NodeCounts};
use crate::fixed_width::FixedWidthOffset;
use crate::layout::{BodyLayout, layout_buffers};
use crate::native::values_size;
use crate::reading::read_item;
use crate::strings::{VariableSizeHead, read_variable_size_head, write_offsets};
use crate::validity::{validity_size, write_validity};
use ipc_flatbuf::{IpcReadError, IpcWriteError};
use nest_array::any::AnyArray;
use nest_array::list::ListArray;
use nest_array::list::large::LargeListArray;
use nest_array::window::Window;
use nest_memory::bitmap::immutable::Bitmap;
use nest_memory::datatypes::{DataType, Field};
use nest_memory::offset::Offset;
use nest_memory::offsets::OffsetsBuffer;
use std::alloc::{AllocError, Global};

// Returns the list array over these items.
fn list_of_items<'a>(
    alloc: Global,
    data_type: &DataType,
    rows: VariableSizeHead<i32>,
    items: AnyArray,
    cursor: BatchCursor<'a>,
) -> Result<(ListArray, BatchCursor<'a>), IpcReadError>
    requires kind { physical_type (type_of data_type.now) ≡ physical.List }
    requires item { item_type (type_of data_type.now) ≡ Some (layout_type (layout_of items)) }
    requires valid { ValidityFits rows.validity (count_rows rows.offsets) }
    ensures { let t = type_of data_type.now in
        ReturnsOrRunsOut (λ x. (x.0, rest_of x.1)) result (list_over false t (variable_size_head rows.offsets rows.validity) (layout_of items, rest_of cursor.entry)) }
{
    if rows.offsets.last() > items.len() {
        drop(items);
        drop(rows);
        return Err(IpcReadError::OffsetPastChild);
    }
    match data_type.clone(alloc) {
        Err(_) => {
            drop(items);
            drop(rows);
            Err(IpcReadError::Memory)
        }
        Ok(data_type) => {
            match ListArray::new(alloc, data_type, rows.offsets, items, rows.validity) {
                Err(_) => Err(IpcReadError::Memory),
                Ok(array) => Ok((array, cursor)),
            }
        }
    }
}

// The same with 64-bit offsets.
fn large_list_of_items<'a>(
    alloc: Global,
    data_type: &DataType,
    rows: VariableSizeHead<i64>,
    items: AnyArray,
    cursor: BatchCursor<'a>,
) -> Result<(LargeListArray, BatchCursor<'a>), IpcReadError>
    requires kind { physical_type (type_of data_type.now) ≡ physical.LargeList }
    requires item { item_type (type_of data_type.now) ≡ Some (layout_type (layout_of items)) }
    requires valid { ValidityFits rows.validity (count_rows rows.offsets) }
    ensures { let t = type_of data_type.now in
        ReturnsOrRunsOut (λ x. (x.0, rest_of x.1)) result (list_over true t (variable_size_head rows.offsets rows.validity) (layout_of items, rest_of cursor.entry)) }
{
    if rows.offsets.last() > items.len() {
        drop(items);
        drop(rows);
        return Err(IpcReadError::OffsetPastChild);
    }
    match data_type.clone(alloc) {
        Err(_) => {
            drop(items);
            drop(rows);
            Err(IpcReadError::Memory)
        }
        Ok(data_type) => {
            match LargeListArray::new(alloc, data_type, rows.offsets, items, rows.validity) {
                Err(_) => Err(IpcReadError::Memory),
                Ok(array) => Ok((array, cursor)),
            }
        }
    }
}

/// Reads a list array: validity and offsets, then the child.
///
/// # Errors
///
/// `IpcReadError::OffsetPastChild` if the last offset is greater than the length of the child, and those of the buffers.
#[cycle(read)]
#[tactic(auto, unfolding(crate::specs::NestedDecoding::list_decoding))]
pub(crate) fn read_list<'a>(
    alloc: Global,
    data_type: &DataType,
    field: &Field,
    counts: NodeCounts,
    body: &'a [u8],
    cursor: BatchCursor<'a>,
) -> Result<(ListArray, BatchCursor<'a>), IpcReadError>
    requires { logical_type (type_of data_type.now) ≡ types.list (field_of field.now) }
    ensures { ReturnsOrRunsOut (λ x. (x.0, rest_of x.1)) result (list_decoding false (type_of data_type.now) (field_of field.now) counts body.now (rest_of cursor.entry)) }
{
    let (rows, cursor) = read_variable_size_head::<i32>(alloc, counts, body, cursor)?;
    match read_item(alloc, field, ExpectedLength::Any, body, cursor) {
        Ok((items, cursor)) => list_of_items(alloc, data_type, rows, items, cursor),
        Err(error) => {
            drop(rows);
            Err(error)
        }
    }
}

/// Reads a list array with 64-bit offsets; the errors are those of [`read_list`].
#[cycle(read)]
#[tactic(auto, unfolding(crate::specs::NestedDecoding::list_decoding))]
pub(crate) fn read_large_list<'a>(
    alloc: Global,
    data_type: &DataType,
    field: &Field,
    counts: NodeCounts,
    body: &'a [u8],
    cursor: BatchCursor<'a>,
) -> Result<(LargeListArray, BatchCursor<'a>), IpcReadError>
    requires { logical_type (type_of data_type.now) ≡ types.large_list (field_of field.now) }
    ensures { ReturnsOrRunsOut (λ x. (x.0, rest_of x.1)) result (list_decoding true (type_of data_type.now) (field_of field.now) counts body.now (rest_of cursor.entry)) }
{
    let (rows, cursor) = read_variable_size_head::<i64>(alloc, counts, body, cursor)?;
    match read_item(alloc, field, ExpectedLength::Any, body, cursor) {
        Ok((items, cursor)) => large_list_of_items(alloc, data_type, rows, items, cursor),
        Err(error) => {
            drop(rows);
            Err(error)
        }
    }
}

// ---- writing

// Returns offset `i`.
fn offset_at<O: Offset>(offsets: &OffsetsBuffer<O>, i: usize) -> usize
    requires { i ≤ count_rows offsets.now }
    ensures { result ≡ begin offsets.now i }
{
    offsets.known();
    if i < offsets.len_proxy() {
        offsets.start_end(i).0
    } else {
        offsets.last()
    }
}

/// Returns the items of `count` slots from index `offset` on, as a window over the child.
pub(crate) fn item_window<'a, O: Offset>(
    offsets: &OffsetsBuffer<O>,
    items: &'a AnyArray,
    offset: usize,
    count: usize,
) -> Window<'a>
    requires slots { offset + count ≤ count_rows offsets.now }
    requires within { last_of offsets.now ≤ len (layout_of items.now) }
    ensures { result ≡ window_parts (layout_of items.now) (begin offsets.now offset) (begin offsets.now (offset + count) - begin offsets.now offset) }
{
    offsets.known();
    let first = offset_at(offsets, offset);
    let end = offset_at(offsets, offset + count);
    Window::new(items, first, end - first)
}

/// Lays out the validity and the `slots + 1` offsets of a list or map array.
pub(crate) fn layout_list_buffers<O: FixedWidthOffset>(
    layout: &mut BodyLayout,
    validity: Option<&Bitmap>,
    slots: usize,
) -> Result<(), IpcWriteError>
    requires small { layout.old.length < 2 ^ 63 }
    requires slots { slots < 2 ^ 63 }
    ensures nodes { layout.new.nodes ≡ layout.old.nodes }
    ensures ok { OnOk result ((os : List ℕ) → length os ≡ slots + 1 → AppendsBuffers layout.old layout.new (list_buffers O.IS_LARGE os (option_map (λ b. b.now) validity.entry))) }
    ensures err { IfErr result (λ error. (os : List ℕ) → length os ≡ slots + 1 → IsLayoutError error layout.old (list_buffers O.IS_LARGE os (option_map (λ b. b.now) validity.entry))) }
{
    let size = values_size::<O>(slots + 1)?;
    layout_buffers(layout, &[validity_size(validity), size])
}

fn slice_offsets<O: FixedWidthOffset>(
    offsets: &OffsetsBuffer<O>,
    offset: usize,
    count: usize,
) -> Result<OffsetsBuffer<O>, IpcWriteError>
    requires { offset + count ≤ count_rows offsets.now }
    ensures ok { IfOk result (λ os. os ≡ sublist offsets.now offset (count + 1)) }
    ensures err { IfErr result (λ error. error ≡ Memory) }
{
    offsets.known();
    match offsets.clone() {
        Ok(offsets) => Ok(offsets.sliced(offset, count + 1)),
        Err(_) => Err(IpcWriteError::Memory),
    }
}

/// Appends the validity and the offsets of the `count` slots from index `offset` on. Offsets are rebased to start at 0.
pub(crate) fn write_list_buffers<O: FixedWidthOffset>(
    out: &mut Vec<u8>,
    validity: Option<&Bitmap>,
    offsets: &OffsetsBuffer<O>,
    offset: usize,
    count: usize,
) -> Result<(), IpcWriteError>
    requires { offset + count ≤ count_rows offsets.now }
    ensures ok { OnOk result (out.new.items ≡ out.old.items ++ body_of (list_buffers O.IS_LARGE (rebased (sublist offsets.now offset (count + 1))) (option_map (λ b. b.now) validity.entry))) }
    ensures round_trips { OnOk result (OffsetsRoundTrip O.IS_LARGE (sublist offsets.now offset (count + 1))) }
    ensures err { IfErr result (λ error. error ≡ Memory) }
{
    let rows = slice_offsets(offsets, offset, count)?;
    write_validity(out, validity)?;
    write_offsets(out, &rows)?;
    Ok(())
}

//! Sparse and dense union arrays.
ghost use Rattle.std.specs.Prelude.{◌≡◌, ◌&&◌, IfOk, map, nat_le, true, ◌<◌, ◌≤◌, ◌^◌, ◌+◌, ◌++◌, length, IfErr, OnOk, None};
ghost use Rattle.std.specs.List.{list_all};
ghost use Rattle.ipc_flatbuf.specs.ReadResults.{ReturnsOrRunsOut, check};
ghost use Rattle.ipc_flatbuf.specs.declared.error.IpcReadError.TheVariants.{TypeRange};
ghost use Rattle.nest_memory.specs.TypeOf.{type_of, field_list_of};
ghost use Rattle.nest_memory.specs.TypeTree as types;
ghost use Rattle.nest_memory.specs.TypeTree.{count_fields, ids_of, logical_type};
ghost use Rattle.nest_model.specs.Checks.{most_fields, type_count};
ghost use Rattle.nest_array.specs.Seen.{layouts_of};
ghost use Rattle.ipc_arrays.specs.Decoding.{rest_of, is_index_below, are_type_ids, are_known_types, decoded_values, decoded_types, union_parts, decoded_union_parts, union_child_length, union_of};
ghost use Rattle.ipc_arrays.specs.NestedDecoding.{union_decoding};
ghost use Rattle.ipc_arrays.specs.UnionTypeIds.{type_ids, MarksTypeIds, is_marked_type, PassesUnionChecks};
ghost use Rattle.ipc_flatbuf.specs.declared.error.IpcWriteError.TheVariants.{Memory};
ghost use Rattle.nest_memory.specs.Sublist.{sublist};
ghost use Rattle.nest_model.specs.Accessors.{start_of, types_of, union_offsets_of};
ghost use Rattle.nest_model.specs.Slice.{slice_offsets};
ghost use Rattle.nest_model.specs.Meaning.{len};
ghost use Rattle.ipc_arrays.specs.BodyBuffers.{body_of};
ghost use Rattle.ipc_arrays.specs.Encoding.{windows_below, own_buffers, normalized_slice, sparse_begin, AppendsBuffers, IsLayoutError};
ghost use Rattle.ipc_arrays.specs.EncodingLaws.{UnionPartsRoundTrip};

use crate::bytes::buffer_of;
use crate::cursor::{BatchCursor, ExpectedLength, NodeCounts, next_buffer};
use crate::fixed_width::FixedWidth;
use crate::layout::{BodyLayout, layout_buffers};
use crate::native::{read_values, values_size, write_values};
use crate::reading::read_items;
use crate::windows::{aligned_windows, full_windows};
use ipc_flatbuf::{IpcReadError, IpcWriteError};
use nest_array::any::AnyArray;
use nest_array::union::UnionArray;
use nest_array::window::Window;
use nest_memory::buffer::Buffer;
use nest_memory::datatypes::{DataType, Field, UnionMode};
use std::alloc::{AllocError, Global};

// The buffers of a union array: types, and offsets if it is dense.
#[derive(Drop)]
struct UnionParts {
    types: Buffer<i8>,
    offsets: Option<Buffer<i32>>,
}

fn is_type_id(id: i32) -> bool
    ensures { result ≡ is_index_below id type_count }
{
    0 <= id && id < 128
}

fn are_all_type_ids(ids: &[i32]) -> bool
    ensures { result ≡ list_all (λ id. is_index_below id type_count) ids.now }
{
    ids.iter().all(|id| is_type_id(*id))
}

// Returns whether there are at most 127 fields and, if the type has ids, one from 0 to 127 for each field.
fn are_valid_type_ids(ids: &Option<Vec<i32>>, fields: usize) -> bool
    ensures { result ≡ (nat_le fields most_fields && are_type_ids (type_ids ids.now) fields) }
{
    match ids {
        None => fields <= 127,
        Some(ids) => fields <= 127 && ids.len() == fields && are_all_type_ids(ids),
    }
}

fn check_type_ids(ids: &Option<Vec<i32>>, fields: usize) -> Result<(), IpcReadError>
    ensures checked { result ≡ check (nat_le fields most_fields && are_type_ids (type_ids ids.now) fields) TypeRange }
    ensures ids { IfOk result (λ _. are_type_ids (type_ids ids.now) fields ≡ true) }
{
    if are_valid_type_ids(ids, fields) {
        Ok(())
    } else {
        Err(IpcReadError::TypeRange)
    }
}

fn field_count(fields: &Vec<Field>) -> usize
    ensures { result ≡ count_fields (field_list_of fields.now.items) }
{
    fields.len()
}

// Returns a mark for each type: whether it is one of the ids.
fn type_id_marks(ids: &[i32]) -> [bool; 128]
    requires { list_all (λ id. is_index_below id type_count) ids.now ≡ true }
    ensures { MarksTypeIds result ids.now }
{
    let mut marks = [false; 128];
    for i in 0..ids.len() {
        marks[ids[i] as usize] = true;
    }
    marks
}

fn is_marked(marks: &[bool; 128], kind: i8) -> bool
    ensures { result ≡ is_marked_type marks.now kind }
{
    0 <= kind && marks[kind as usize]
}

fn are_marked(marks: &[bool; 128], kinds: &[i8]) -> bool
    ensures { result ≡ list_all (is_marked_type marks.now) kinds.now }
{
    kinds.iter().all(|kind| is_marked(marks, *kind))
}

fn is_field_index(fields: usize, kind: i8) -> bool
    ensures { result ≡ is_index_below kind fields }
{
    0 <= kind && (kind as usize) < fields
}

fn are_field_indices(fields: usize, kinds: &[i8]) -> bool
    ensures { result ≡ list_all (λ z. is_index_below z fields) kinds.now }
{
    kinds.iter().all(|kind| is_field_index(fields, *kind))
}

// Returns whether each type has a field.
fn have_fields(ids: &Option<Vec<i32>>, fields: usize, kinds: &[i8]) -> bool
    requires { are_type_ids (type_ids ids.now) fields ≡ true }
    ensures { result ≡ are_known_types (type_ids ids.now) fields kinds.now }
{
    match ids {
        None => are_field_indices(fields, kinds),
        Some(ids) => are_marked(&type_id_marks(ids), kinds),
    }
}

fn read_numbers<T: FixedWidth>(
    alloc: Global,
    slots: usize,
    bytes: &[u8],
) -> Result<Buffer<T>, IpcReadError>
    ensures { ReturnsOrRunsOut (λ b. map T.numbers b) result (decoded_values T.format slots bytes.now) }
{
    let values = read_values::<T>(alloc, slots, bytes)?;
    buffer_of(alloc, values)
}

// Reads the types buffer, and checks that each type has a field.
#[tactic(auto, unfolding(crate::specs::Decoding::decoded_types))]
fn read_types(
    alloc: Global,
    ids: &Option<Vec<i32>>,
    fields: usize,
    slots: usize,
    bytes: &[u8],
) -> Result<Buffer<i8>, IpcReadError>
    requires { are_type_ids (type_ids ids.now) fields ≡ true }
    ensures { ReturnsOrRunsOut (λ b. b) result (decoded_types (type_ids ids.now) fields slots bytes.now) }
{
    let kinds = read_numbers::<i8>(alloc, slots, bytes)?;
    if !have_fields(ids, fields, kinds.as_slice()) {
        return Err(IpcReadError::UnionType);
    }
    Ok(kinds)
}

#[tactic(auto, unfolding(crate::specs::Decoding::decoded_union_parts))]
fn read_union_parts<'a>(
    alloc: Global,
    mode: UnionMode,
    ids: &Option<Vec<i32>>,
    fields: usize,
    counts: NodeCounts,
    body: &'a [u8],
    cursor: BatchCursor<'a>,
) -> Result<(UnionParts, BatchCursor<'a>), IpcReadError>
    requires { are_type_ids (type_ids ids.now) fields ≡ true }
    ensures { let decoded = decoded_union_parts mode (type_ids ids.now) fields counts body.now (rest_of cursor.entry) in
        ReturnsOrRunsOut (λ x. (union_parts x.0.types x.0.offsets, rest_of x.1)) result decoded }
{
    let (bytes, cursor) = next_buffer(body, cursor)?;
    let types = read_types(alloc, ids, fields, counts.slots, bytes)?;
    match mode {
        UnionMode::Sparse => {
            let offsets = None;
            Ok((UnionParts { types, offsets }, cursor))
        }
        UnionMode::Dense => {
            let (bytes, cursor) = next_buffer(body, cursor)?;
            let offsets = read_numbers::<i32>(alloc, counts.slots, bytes)?;
            let offsets = Some(offsets);
            Ok((UnionParts { types, offsets }, cursor))
        }
    }
}

// Returns the length that each child must have.
fn child_length(mode: UnionMode, slots: usize) -> ExpectedLength
    ensures { result ≡ union_child_length mode slots }
{
    match mode {
        UnionMode::Sparse => ExpectedLength::AtLeast(slots),
        UnionMode::Dense => ExpectedLength::Any,
    }
}

// Returns the union array over these children. The constructor checks the offsets.
fn union_of_children<'a>(
    alloc: Global,
    data_type: &DataType,
    parts: UnionParts,
    children: Vec<AnyArray>,
    cursor: BatchCursor<'a>,
) -> Result<(UnionArray, BatchCursor<'a>), IpcReadError>
    requires { PassesUnionChecks (type_of data_type.now) parts.types (layouts_of children.items) parts.offsets }
    ensures { let t = type_of data_type.now in
        ReturnsOrRunsOut (λ x. (x.0, rest_of x.1)) result (union_of t (union_parts parts.types parts.offsets) (layouts_of children.items, rest_of cursor.entry)) }
{
    match data_type.clone(alloc) {
        Err(_) => {
            drop(children);
            drop(parts);
            Err(IpcReadError::Memory)
        }
        Ok(data_type) => {
            match UnionArray::try_new(data_type, parts.types, children, parts.offsets) {
                Ok(array) => Ok((array, cursor)),
                Err(_) => Err(IpcReadError::UnionOffset),
            }
        }
    }
}

/// Reads a union array: types, offsets if it is dense, then a child for each field.
///
/// # Errors
///
/// `IpcReadError::TypeRange` if there are more than 127 fields or the ids are invalid, `IpcReadError::UnionType` if a type has no field,
/// `IpcReadError::UnionOffset` if an offset is not within its child, `IpcReadError::ChildLength` if a child of a sparse union is too short,
/// and those of the buffers.
#[cycle(read)]
#[tactic(auto, unfolding(crate::specs::NestedDecoding::union_decoding))]
pub(crate) fn read_union<'a>(
    alloc: Global,
    data_type: &DataType,
    fields: &Vec<Field>,
    ids: &Option<Vec<i32>>,
    mode: UnionMode,
    counts: NodeCounts,
    body: &'a [u8],
    cursor: BatchCursor<'a>,
) -> Result<(UnionArray, BatchCursor<'a>), IpcReadError>
    requires { logical_type (type_of data_type.now) ≡ types.union (field_list_of fields.now.items) (type_ids ids.now) mode }
    ensures { ReturnsOrRunsOut (λ x. (x.0, rest_of x.1)) result (union_decoding (type_of data_type.now) (field_list_of fields.now.items) (type_ids ids.now) mode counts body.now (rest_of cursor.entry)) }
{
    let count = field_count(fields);
    check_type_ids(ids, count)?;
    let (parts, cursor) = read_union_parts(alloc, mode, ids, count, counts, body, cursor)?;
    match read_items(
        alloc,
        fields,
        child_length(mode, counts.slots),
        body,
        cursor,
    ) {
        Ok((children, cursor)) => union_of_children(alloc, data_type, parts, children, cursor),
        Err(error) => {
            drop(parts);
            Err(error)
        }
    }
}

// ---- writing

// Returns where the `count` slots from index `offset` on of a sparse union begin in its children.
fn sparse_child_offset(array: &UnionArray, offset: usize, count: usize) -> usize
    requires sparse { union_offsets_of array.now ≡ None }
    requires slots { offset + count ≤ len array.now }
    ensures { result ≡ sparse_begin (start_of array.now) offset count }
{
    if count == 0 { 0 } else { array.index(offset).1 }
}

/// Returns a window over each child: the same slots if the union is sparse, the whole child if it is dense.
pub(crate) fn field_windows(
    alloc: Global,
    array: &UnionArray,
    offset: usize,
    count: usize,
) -> Result<Vec<Window<'_>>, AllocError>
    requires { offset + count ≤ len array.now }
    ensures { IfOk result (λ v. v.items ≡ windows_below array.now offset count) }
{
    array.known();
    match array.offsets() {
        Some(_) => full_windows(alloc, array.fields()),
        None => aligned_windows(
            alloc,
            array.fields(),
            sparse_child_offset(array, offset, count),
            count,
        ),
    }
}

/// Lays out the types, and the offsets if the union is dense, of the `count` slots from index `offset` on.
pub(crate) fn layout_union_buffers(
    layout: &mut BodyLayout,
    array: &UnionArray,
    offset: usize,
    count: usize,
) -> Result<(), IpcWriteError>
    requires small { layout.old.length < 2 ^ 63 }
    requires slots { offset + count ≤ len array.now }
    ensures nodes { layout.new.nodes ≡ layout.old.nodes }
    ensures ok { OnOk result (AppendsBuffers layout.old layout.new (own_buffers (normalized_slice array.now offset count))) }
    ensures err { IfErr result (λ error. IsLayoutError error layout.old (own_buffers (normalized_slice array.now offset count))) }
{
    array.known();
    match array.offsets() {
        None => layout_buffers(layout, &[count]),
        Some(_) => {
            let size = values_size::<i32>(count)?;
            layout_buffers(layout, &[count, size])
        }
    }
}

fn part<T: Copy>(values: &Buffer<T>, offset: usize, count: usize) -> &[T]
    requires { offset + count ≤ length values.now }
    ensures { result.now ≡ sublist values.now offset count }
{
    &values.as_slice()[offset..offset + count]
}

/// Appends the types, and the offsets if the union is dense, of the `count` slots from index `offset` on.
pub(crate) fn write_union_buffers(
    out: &mut Vec<u8>,
    array: &UnionArray,
    offset: usize,
    count: usize,
) -> Result<(), AllocError>
    requires { offset + count ≤ len array.now }
    ensures ok { OnOk result (out.new.items ≡ out.old.items ++ body_of (own_buffers (normalized_slice array.now offset count))) }
    ensures round_trips { OnOk result (UnionPartsRoundTrip (sublist (types_of array.now) offset count) (slice_offsets (union_offsets_of array.now) offset count)) }
{
    array.known();
    write_values(out, part(array.types(), offset, count))?;
    match array.offsets() {
        None => Ok(()),
        Some(offsets) => write_values(out, part(offsets, offset, count)),
    }
}

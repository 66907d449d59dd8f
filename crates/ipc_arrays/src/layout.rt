//! Computes the field nodes and buffers of columns, before their body is written.
ghost use Rattle.std.specs.Prelude.{◌≡◌, ◌<◌, ◌≤◌, ◌^◌, ◌⊎◌, ◌+◌, ◌*◌, ◌++◌, List, ℕ, [], ◌∷◌, pos, map, length, IfOk, IfErr, OnOk, true, None};
ghost use Rattle.std.specs.Int.{div_ceil};
ghost use Rattle.std.specs.Option.{option_map};
ghost use Rattle.ipc_flatbuf.specs.declared.error.IpcWriteError.TheVariants.{Memory, Size};
ghost use Rattle.nest_model.specs.Slice.{slice_layout};
ghost use Rattle.nest_model.specs.Nullness.{null_count};
ghost use Rattle.nest_array.specs.Seen.{layout_of};
ghost use Rattle.ipc_arrays.specs.NoDictionaries.{is_not_dictionary};
ghost use Rattle.ipc_arrays.specs.ArrayKinds.{is_null_array, is_not_dictionary_array, is_flat_array};
ghost use Rattle.ipc_arrays.specs.NormalizedLaws.{is_null_layout};
ghost use Rattle.ipc_arrays.specs.EncodingLaws.{null_bits};
ghost use Rattle.ipc_arrays.specs.Encoding.{field_node_of, normalized_validity_bytes, own_buffers, flat_buffers, preorder, window_arrays, normalized_window, is_flat_layout, is_supported, size_error, IsBufferError, IsLayoutError, IsArrayError, IsWriteError, AppendsBuffers, AppendsArrays, IsLayoutOf};

use crate::boolean::layout_boolean;
use crate::dictionary::layout_dictionary;
use crate::fixed_size_binary::layout_fixed_size_binary;
use crate::list::layout_list_buffers;
use crate::native::layout_primitive;
use crate::strings::{layout_binary, layout_utf8};
use crate::union::layout_union_buffers;
use crate::validity::{slice_validity, validity_size};
use crate::windows::{full_windows, windows_of_children};
use ipc_flatbuf::{BufferSpec, FieldNode, IpcWriteError};
use nest_array::any::AnyArray;
use nest_array::window::Window;
use nest_memory::bitmap::immutable::Bitmap;
use std::alloc::Global;

/// The metadata of the body of a record batch (Message.fbs, table RecordBatch).
#[derive(Drop)]
pub struct BodyLayout {
    /// The length and null count of each array, in pre-order.
    pub nodes: Vec<FieldNode>,
    /// The offset and length, in bytes, of each buffer in the body.
    pub buffers: Vec<BufferSpec>,
    /// The length of the body in bytes.
    pub length: usize,
}

// Adds a buffer of `size` bytes.
fn layout_buffer(layout: &mut BodyLayout, size: usize) -> Result<(), IpcWriteError>
    requires { layout.old.length < 2 ^ 63 }
    ensures nodes { layout.new.nodes ≡ layout.old.nodes }
    ensures region { OnOk result (layout.new.buffers.items ≡ layout.old.buffers.items ++ record { offset = pos layout.old.length; length = pos size } ∷ []) }
    ensures length { OnOk result (layout.new.length ≡ layout.old.length + 8 * div_ceil size 8) }
    ensures small { OnOk result (layout.new.length < 2 ^ 63) }
    ensures err { IfErr result (λ error. IsBufferError error (layout.old.length + 8 * div_ceil size 8)) }
{
    if size >= 1 << 63 {
        return Err(IpcWriteError::Size);
    }
    let end = layout.length + 8 * size.div_ceil(8);
    if end >= 1 << 63 {
        return Err(IpcWriteError::Size);
    }
    layout.buffers.push(BufferSpec {
        offset: layout.length as i64,
        length: size as i64,
    })?;
    layout.length = end;
    Ok(())
}

/// Adds a buffer of each size, in bytes, at the next multiple of 8.
///
/// # Errors
///
/// `IpcWriteError::Size` if the body would pass 2^63 - 1 bytes, and `IpcWriteError::Memory` if an allocation fails.
pub(crate) fn layout_buffers(layout: &mut BodyLayout, sizes: &[usize]) -> Result<(), IpcWriteError>
    requires { layout.old.length < 2 ^ 63 }
    ensures nodes { layout.new.nodes ≡ layout.old.nodes }
    ensures ok { OnOk result ((buffers : List (List ℕ)) → map length buffers ≡ sizes.now → AppendsBuffers layout.old layout.new buffers) }
    ensures err { IfErr result (λ error. (buffers : List (List ℕ)) → map length buffers ≡ sizes.now → IsLayoutError error layout.old buffers) }
{
    for size in sizes {
        layout_buffer(layout, *size)?;
    }
    Ok(())
}

// Returns whether this is a null array.
fn has_null_layout(array: &AnyArray) -> bool
    ensures { result ≡ is_null_layout (layout_of array.now) }
{
    known_kind(array);
    match array {
        AnyArray::Null(_) => true,
        _ => false,
    }
}

fn count_unset_bits(validity: &Option<Bitmap>) -> usize
    ensures { result ≡ null_bits validity.now }
{
    match validity {
        None => 0,
        Some(bits) => bits.unset_bits(),
    }
}

// Returns the null count of a window; it is 0 for a union.
fn count_nulls(window: &Window<'_>) -> Result<usize, IpcWriteError>
    ensures ok { IfOk result (λ count. count ≡ null_count (normalized_window window.now)) }
    ensures few { IfOk result (λ count. count ≤ window.now.count) }
    ensures err { IfErr result (λ error. error ≡ Memory) }
{
    window.known();
    let array = window.array();
    array.known();
    known_kind(array);
    if has_null_layout(array) {
        return Ok(window.len());
    }
    let validity = slice_validity(window)?;
    Ok(count_unset_bits(&validity))
}

fn layout_node(layout: &mut BodyLayout, window: &Window<'_>) -> Result<(), IpcWriteError>
    ensures buffers { layout.new.buffers ≡ layout.old.buffers }
    ensures length { layout.new.length ≡ layout.old.length }
    ensures ok { OnOk result (layout.new.nodes.items ≡ layout.old.nodes.items ++ field_node_of (normalized_window window.now) ∷ []) }
    ensures slots { OnOk result (window.now.count < 2 ^ 63) }
    ensures err { IfErr result (λ error. IsBufferError error window.now.count) }
{
    window.known();
    let length = window.len();
    if length >= 1 << 63 {
        return Err(IpcWriteError::Size);
    }
    let nulls = count_nulls(window)?;
    layout.nodes.push(FieldNode {
        length: length as i64,
        null_count: nulls as i64,
    })?;
    Ok(())
}

fn layout_flat_array(layout: &mut BodyLayout, column: &AnyArray) -> Result<(), IpcWriteError>
    requires small { layout.old.length < 2 ^ 63 }
    requires flat { is_flat_layout (layout_of column.now) ≡ true }
    ensures nodes { layout.new.nodes ≡ layout.old.nodes }
    ensures ok { OnOk result (AppendsBuffers layout.old layout.new (flat_buffers (layout_of column.now))) }
    ensures err { IfErr result (λ error. IsLayoutError error layout.old (flat_buffers (layout_of column.now))) }
{
    known_kind(column);
    match column {
        AnyArray::Null(array) => {
            array.known();
            layout_buffers(layout, &[])
        }
        AnyArray::Boolean(array) => layout_boolean(layout, array),
        AnyArray::Primitive(array) => layout_primitive(layout, array),
        AnyArray::FixedSizeBinary(array) => layout_fixed_size_binary(layout, array),
        AnyArray::Binary(array) => layout_binary(layout, array),
        AnyArray::LargeBinary(array) => layout_binary(layout, array),
        AnyArray::Utf8(array) => layout_utf8(layout, array),
        AnyArray::LargeUtf8(array) => layout_utf8(layout, array),
        AnyArray::Dictionary(array) => layout_dictionary(layout, array),
        _ => unreachable!(),
    }
}

/// Returns the slots of a window as an array.
pub(crate) fn slice_window(alloc: Global, window: &Window<'_>) -> Result<AnyArray, IpcWriteError>
    ensures ok { IfOk result (λ a. layout_of a ≡ slice_layout window.now.array window.now.offset window.now.count) }
    ensures err { IfErr result (λ error. error ≡ Memory) }
{
    window.known();
    match window.array().clone(alloc) {
        Ok(array) => Ok(array.sliced(window.offset(), window.len())),
        Err(_) => Err(IpcWriteError::Memory),
    }
}

fn layout_flat_window(
    alloc: Global,
    layout: &mut BodyLayout,
    window: &Window<'_>,
) -> Result<(), IpcWriteError>
    requires small { layout.old.length < 2 ^ 63 }
    requires flat { is_flat_layout window.now.array ≡ true }
    ensures nodes { layout.new.nodes ≡ layout.old.nodes }
    ensures ok { OnOk result (AppendsBuffers layout.old layout.new (own_buffers (normalized_window window.now))) }
    ensures err { IfErr result (λ error. IsLayoutError error layout.old (own_buffers (normalized_window window.now))) }
{
    match slice_window(alloc, window) {
        Err(error) => Err(error),
        Ok(array) => {
            let result = layout_flat_array(layout, &array);
            drop(array);
            result
        }
    }
}

fn layout_validity(layout: &mut BodyLayout, validity: Option<&Bitmap>) -> Result<(), IpcWriteError>
    requires { layout.old.length < 2 ^ 63 }
    ensures nodes { layout.new.nodes ≡ layout.old.nodes }
    ensures ok { OnOk result (AppendsBuffers layout.old layout.new (normalized_validity_bytes (option_map (λ b. b.now) validity.entry) ∷ [])) }
    ensures err { IfErr result (λ error. IsLayoutError error layout.old (normalized_validity_bytes (option_map (λ b. b.now) validity.entry) ∷ [])) }
{
    layout_buffers(layout, &[validity_size(validity)])
}

// Lays out the buffers of a window, without those of its children.
fn layout_own_buffers(
    alloc: Global,
    layout: &mut BodyLayout,
    window: &Window<'_>,
) -> Result<(), IpcWriteError>
    requires small { layout.old.length < 2 ^ 63 }
    requires slots { window.now.count < 2 ^ 63 }
    ensures nodes { layout.new.nodes ≡ layout.old.nodes }
    ensures ok { OnOk result (AppendsBuffers layout.old layout.new (own_buffers (normalized_window window.now))) }
    ensures err { IfErr result (λ error. IsLayoutError error layout.old (own_buffers (normalized_window window.now))) }
{
    window.known();
    let count = window.len();
    let validity = slice_validity(window)?;
    let array = window.array();
    known_kind(array);
    match array {
        AnyArray::FixedSizeList(array) => {
            array.known();
            layout_validity(layout, validity.as_ref())
        }
        AnyArray::Struct(array) => {
            array.known();
            layout_validity(layout, validity.as_ref())
        }
        AnyArray::List(array) => {
            array.known();
            layout_list_buffers::<i32>(layout, validity.as_ref(), count)
        }
        AnyArray::LargeList(array) => {
            array.known();
            layout_list_buffers::<i64>(layout, validity.as_ref(), count)
        }
        AnyArray::Map(array) => {
            array.known();
            layout_list_buffers::<i32>(layout, validity.as_ref(), count)
        }
        AnyArray::Union(array) => layout_union_buffers(layout, array, window.offset(), count),
        AnyArray::Null(_)
        | AnyArray::Boolean(_)
        | AnyArray::Primitive(_)
        | AnyArray::FixedSizeBinary(_)
        | AnyArray::Binary(_)
        | AnyArray::LargeBinary(_)
        | AnyArray::Utf8(_)
        | AnyArray::LargeUtf8(_)
        | AnyArray::Dictionary(_) => layout_flat_window(alloc, layout, window),
    }
}

/// Lays out a window and its descendants.
#[cycle(layout)]
fn layout_window(
    alloc: Global,
    layout: &mut BodyLayout,
    window: &Window<'_>,
) -> Result<(), IpcWriteError>
    requires { layout.old.length < 2 ^ 63 }
    ensures ok { OnOk result (AppendsArrays layout.old layout.new (preorder (normalized_window window.now))) }
    ensures err { IfErr result (λ error. IsArrayError error layout.old.length (preorder (normalized_window window.now))) }
{
    window.known();
    layout_node(layout, window)?;
    layout_own_buffers(alloc, layout, window)?;
    let children = windows_of_children(alloc, window)?;
    layout_windows(alloc, layout, &children)
}

#[cycle(layout)]
fn layout_windows(
    alloc: Global,
    layout: &mut BodyLayout,
    windows: &[Window<'_>],
) -> Result<(), IpcWriteError>
    requires { layout.old.length < 2 ^ 63 }
    ensures ok { OnOk result (AppendsArrays layout.old layout.new (window_arrays windows.now)) }
    ensures err { IfErr result (λ error. IsArrayError error layout.old.length (window_arrays windows.now)) }
{
    for window in windows {
        layout_window(alloc, layout, window)?;
    }
    Ok(())
}

/// States what the variant of an array implies for its layout. Does nothing at run time.
pub(crate) fn known_kind(array: &AnyArray)
    ensures supported { is_supported (layout_of array.now) ≡ true }
    ensures flat { is_flat_layout (layout_of array.now) ≡ is_flat_array array.now }
    ensures nulls { is_null_layout (layout_of array.now) ≡ is_null_array array.now }
    ensures keys { is_not_dictionary (layout_of array.now) ≡ is_not_dictionary_array array.now }
{
    match array {
        AnyArray::Null(array) => array.known(),
        AnyArray::Boolean(array) => array.known(),
        AnyArray::Primitive(array) => array.known(),
        AnyArray::Binary(array) => array.known(),
        AnyArray::LargeBinary(array) => array.known(),
        AnyArray::Utf8(array) => array.known(),
        AnyArray::LargeUtf8(array) => array.known(),
        AnyArray::FixedSizeBinary(array) => array.known(),
        AnyArray::FixedSizeList(array) => array.known(),
        AnyArray::List(array) => array.known(),
        AnyArray::LargeList(array) => array.known(),
        AnyArray::Struct(array) => array.known(),
        AnyArray::Map(array) => array.known(),
        AnyArray::Union(array) => array.known(),
        AnyArray::Dictionary(array) => array.known(),
    }
}

/// Computes the field nodes and buffers of columns, as [`write_columns`] writes them.
///
/// # Errors
///
/// `IpcWriteError::Size` if an array has more than 2^63 - 1 slots or the body more than 2^63 - 1 bytes, and `IpcWriteError::Memory` if
/// an allocation fails.
pub fn layout_columns(alloc: Global, columns: &[AnyArray]) -> Result<BodyLayout, IpcWriteError>
    ensures ok { IfOk result (IsLayoutOf (map layout_of columns.now)) }
    ensures form { OnOk result (size_error (map layout_of columns.now) ≡ None) }
    ensures err { IfErr result (IsWriteError (map layout_of columns.now)) }
{
    let windows = full_windows(alloc, columns)?;
    let mut layout = BodyLayout {
        nodes: Vec::new(alloc),
        buffers: Vec::new(alloc),
        length: 0,
    };
    layout_windows(alloc, &mut layout, &windows)?;
    Ok(layout)
}

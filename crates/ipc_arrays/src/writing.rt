//! Writes columns to the body of a record batch.
ghost use Rattle.std.specs.Prelude.{◌≡◌, ◌∷◌, ◌++◌, [], true, map, IfErr, OnOk};
ghost use Rattle.std.specs.List.{AllByRecursion};
ghost use Rattle.std.specs.Option.{option_map};
ghost use Rattle.ipc_flatbuf.specs.declared.error.IpcWriteError.TheVariants.{Memory};
ghost use Rattle.nest_array.specs.Seen.{layout_of};
ghost use Rattle.ipc_arrays.specs.BodyBuffers.{body_of};
ghost use Rattle.ipc_arrays.specs.Encoding.{normalized_validity_bytes, own_buffers, flat_buffers, preorder, buffers_of, window_arrays, normalized_window, columns_body, is_flat_layout, RoundTrip};
ghost use Rattle.ipc_arrays.specs.EncodingLaws.{IsWritable, OwnBuffersRoundTrip};
ghost use Rattle.ipc_arrays.specs.ReplacedValues.{WindowRoundTripsOverExtensions, RoundTripOverExtensions};

use crate::boolean::write_boolean;
use crate::dictionary::write_dictionary;
use crate::fixed_size_binary::write_fixed_size_binary;
use crate::layout::{known_kind, slice_window};
use crate::list::write_list_buffers;
use crate::native::write_primitive;
use crate::strings::{write_binary, write_utf8};
use crate::union::write_union_buffers;
use crate::validity::{slice_validity, write_validity};
use crate::windows::{full_windows, windows_of_children};
use ipc_flatbuf::IpcWriteError;
use nest_array::any::AnyArray;
use nest_array::window::Window;
use nest_memory::bitmap::immutable::Bitmap;
use std::alloc::{AllocError, Global};

fn write_flat_array(out: &mut Vec<u8>, column: &AnyArray) -> Result<(), AllocError>
    requires { is_flat_layout (layout_of column.now) ≡ true }
    ensures ok { OnOk result (out.new.items ≡ out.old.items ++ body_of (flat_buffers (layout_of column.now))) }
    ensures writable { OnOk result (IsWritable (layout_of column.now)) }
{
    known_kind(column);
    match column {
        AnyArray::Null(array) => {
            array.known();
            Ok(())
        }
        AnyArray::Boolean(array) => write_boolean(out, array),
        AnyArray::Primitive(array) => write_primitive(out, array),
        AnyArray::FixedSizeBinary(array) => write_fixed_size_binary(out, array),
        AnyArray::Binary(array) => write_binary(out, array),
        AnyArray::LargeBinary(array) => write_binary(out, array),
        AnyArray::Utf8(array) => write_utf8(out, array),
        AnyArray::LargeUtf8(array) => write_utf8(out, array),
        AnyArray::Dictionary(array) => write_dictionary(out, array),
        _ => unreachable!(),
    }
}

fn write_flat_window(
    alloc: Global,
    out: &mut Vec<u8>,
    window: &Window<'_>,
) -> Result<(), IpcWriteError>
    requires { is_flat_layout window.now.array ≡ true }
    ensures ok { OnOk result (out.new.items ≡ out.old.items ++ body_of (own_buffers (normalized_window window.now))) }
    ensures round_trips { OnOk result (OwnBuffersRoundTrip window.now.array window.now.offset window.now.count) }
    ensures err { IfErr result (λ error. error ≡ Memory) }
{
    match slice_window(alloc, window) {
        Err(error) => Err(error),
        Ok(array) => {
            let result = write_flat_array(out, &array);
            drop(array);
            match result {
                Ok(()) => Ok(()),
                Err(_) => Err(IpcWriteError::Memory),
            }
        }
    }
}

fn write_validity_only(out: &mut Vec<u8>, validity: Option<&Bitmap>) -> Result<(), IpcWriteError>
    ensures ok { OnOk result (out.new.items ≡ out.old.items ++ body_of (normalized_validity_bytes (option_map (λ b. b.now) validity.entry) ∷ [])) }
    ensures err { IfErr result (λ error. error ≡ Memory) }
{
    write_validity(out, validity)?;
    Ok(())
}

// Appends the buffers of a window, without those of its children.
fn write_own_buffers(
    alloc: Global,
    out: &mut Vec<u8>,
    window: &Window<'_>,
) -> Result<(), IpcWriteError>
    ensures ok { OnOk result (out.new.items ≡ out.old.items ++ body_of (own_buffers (normalized_window window.now))) }
    ensures round_trips { OnOk result (OwnBuffersRoundTrip window.now.array window.now.offset window.now.count) }
    ensures err { IfErr result (λ error. error ≡ Memory) }
{
    window.known();
    let offset = window.offset();
    let count = window.len();
    let validity = slice_validity(window)?;
    let array = window.array();
    known_kind(array);
    match array {
        AnyArray::FixedSizeList(array) => {
            array.known();
            write_validity_only(out, validity.as_ref())
        }
        AnyArray::Struct(array) => {
            array.known();
            write_validity_only(out, validity.as_ref())
        }
        AnyArray::List(array) => {
            array.known();
            write_list_buffers(out, validity.as_ref(), array.offsets(), offset, count)
        }
        AnyArray::LargeList(array) => {
            array.known();
            write_list_buffers(out, validity.as_ref(), array.offsets(), offset, count)
        }
        AnyArray::Map(array) => {
            array.known();
            write_list_buffers(out, validity.as_ref(), array.offsets(), offset, count)
        }
        AnyArray::Union(array) => {
            array.known();
            Ok(write_union_buffers(out, array, offset, count)?)
        }
        AnyArray::Null(_)
        | AnyArray::Boolean(_)
        | AnyArray::Primitive(_)
        | AnyArray::FixedSizeBinary(_)
        | AnyArray::Binary(_)
        | AnyArray::LargeBinary(_)
        | AnyArray::Utf8(_)
        | AnyArray::LargeUtf8(_)
        | AnyArray::Dictionary(_) => write_flat_window(alloc, out, window),
    }
}

/// Appends the buffers of a window and of its descendants.
#[cycle(write)]
fn write_window(alloc: Global, out: &mut Vec<u8>, window: &Window<'_>) -> Result<(), IpcWriteError>
    ensures ok { OnOk result (out.new.items ≡ out.old.items ++ body_of (buffers_of (preorder (normalized_window window.now)))) }
    ensures again { OnOk result (WindowRoundTripsOverExtensions window.now) }
    ensures err { IfErr result (λ error. error ≡ Memory) }
{
    window.known();
    let array = window.array();
    array.known();
    known_kind(array);
    write_own_buffers(alloc, out, window)?;
    let children = windows_of_children(alloc, window)?;
    write_windows(alloc, out, &children)
}

#[cycle(write)]
fn write_windows(
    alloc: Global,
    out: &mut Vec<u8>,
    windows: &[Window<'_>],
) -> Result<(), IpcWriteError>
    ensures ok { OnOk result (out.new.items ≡ out.old.items ++ body_of (buffers_of (window_arrays windows.now))) }
    ensures again { OnOk result (AllByRecursion WindowRoundTripsOverExtensions windows.now) }
    ensures err { IfErr result (λ error. error ≡ Memory) }
{
    for window in windows {
        write_window(alloc, out, window)?;
    }
    Ok(())
}

/// Appends the body of a record batch of these columns.
///
/// The columns round-trip: [`read_columns`] over the metadata of [`layout_columns`] returns arrays with the same slots. The values of
/// dictionaries are not in the body; the reader may know any extension of them.
///
/// # Errors
///
/// `IpcWriteError::Memory` if an allocation fails.
pub fn write_columns(out: &mut Vec<u8>, columns: &[AnyArray]) -> Result<(), IpcWriteError>
    ensures ok { OnOk result (out.new.items ≡ out.old.items ++ columns_body (map layout_of columns.now)) }
    ensures again { OnOk result (RoundTrip (map layout_of columns.now)) }
    ensures over { OnOk result (RoundTripOverExtensions (map layout_of columns.now)) }
    ensures err { IfErr result (λ error. error ≡ Memory) }
{
    let alloc = *out.allocator();
    let windows = full_windows(alloc, columns)?;
    write_windows(alloc, out, &windows)
}

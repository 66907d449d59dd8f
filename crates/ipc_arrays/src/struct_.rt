//! Struct arrays.
ghost use Rattle.std.specs.Prelude.{◌≡◌, Ok, nat_lt, ◌≤◌, ◌+◌, IfOk};
ghost use Rattle.ipc_flatbuf.specs.ReadResults.{ReturnsOrRunsOut, check};
ghost use Rattle.ipc_flatbuf.specs.declared.error.IpcReadError.TheVariants.{TypeRange};
ghost use Rattle.nest_memory.specs.TypeOf.{type_of, field_list_of};
ghost use Rattle.nest_memory.specs.TypeTree as types;
ghost use Rattle.nest_memory.specs.TypeTree.{count_fields, logical_type};
ghost use Rattle.nest_model.specs.Fits.{Fits};
ghost use Rattle.nest_model.specs.Layout as layouts;
ghost use Rattle.nest_array.specs.Seen.{layouts_of};
ghost use Rattle.ipc_arrays.specs.Decoding.{rest_of};
ghost use Rattle.ipc_arrays.specs.NestedDecoding.{struct_decoding};
ghost use Rattle.nest_model.specs.Accessors.{children_of};
ghost use Rattle.nest_model.specs.Meaning.{len};
ghost use Rattle.ipc_arrays.specs.Encoding.{each_window};

use crate::cursor::{BatchCursor, ExpectedLength, NodeCounts};
use crate::reading::read_items;
use crate::validity::read_validity_buffer;
use crate::windows::aligned_windows;
use ipc_flatbuf::IpcReadError;
use nest_array::any::AnyArray;
use nest_array::struct_::StructArray;
use nest_array::window::Window;
use nest_memory::bitmap::immutable::Bitmap;
use nest_memory::datatypes::{DataType, Field};
use std::alloc::{AllocError, Global};

// Returns the array of these parts.
fn array_of(
    alloc: Global,
    data_type: &DataType,
    children: Vec<AnyArray>,
    validity: Option<Bitmap>,
) -> Result<StructArray, IpcReadError>
    requires { Fits (layouts.struct (type_of data_type.now) (layouts_of children.items) validity) }
    ensures { ReturnsOrRunsOut (λ a. a) result (Ok (layouts.struct (type_of data_type.now) (layouts_of children.items) validity)) }
{
    match data_type.clone(alloc) {
        Err(_) => {
            drop(children);
            drop(validity);
            Err(IpcReadError::Memory)
        }
        Ok(data_type) => Ok(StructArray::new(data_type, children, validity)),
    }
}

// Checks that there is at least one field.
fn check_has_fields(fields: &Vec<Field>) -> Result<(), IpcReadError>
    ensures { result ≡ check (nat_lt 0 (count_fields (field_list_of fields.now.items))) TypeRange }
{
    if fields.is_empty() {
        Err(IpcReadError::TypeRange)
    } else {
        Ok(())
    }
}

/// Reads a struct array: validity, then a child for each field.
///
/// # Errors
///
/// `IpcReadError::TypeRange` if there is no field, `IpcReadError::ChildLength` if a child has another length, and those of the buffers.
#[cycle(read)]
#[tactic(auto, unfolding(crate::specs::NestedDecoding::struct_decoding))]
pub(crate) fn read_struct<'a>(
    alloc: Global,
    data_type: &DataType,
    fields: &Vec<Field>,
    counts: NodeCounts,
    body: &'a [u8],
    cursor: BatchCursor<'a>,
) -> Result<(StructArray, BatchCursor<'a>), IpcReadError>
    requires { logical_type (type_of data_type.now) ≡ types.struct (field_list_of fields.now.items) }
    ensures { ReturnsOrRunsOut (λ x. (x.0, rest_of x.1)) result (struct_decoding (type_of data_type.now) (field_list_of fields.now.items) counts body.now (rest_of cursor.entry)) }
{
    check_has_fields(fields)?;
    let (validity, cursor) = read_validity_buffer(alloc, counts, body, cursor)?;
    let count = counts.slots as u128;
    match read_items(alloc, fields, ExpectedLength::Exactly(count), body, cursor) {
        Ok((children, cursor)) => {
            let array = array_of(alloc, data_type, children, validity)?;
            Ok((array, cursor))
        }
        Err(error) => {
            drop(validity);
            Err(error)
        }
    }
}

// ---- writing

/// Returns a window over the `count` slots from index `offset` on for each child.
pub(crate) fn child_windows(
    alloc: Global,
    array: &StructArray,
    offset: usize,
    count: usize,
) -> Result<Vec<Window<'_>>, AllocError>
    requires { offset + count ≤ len array.now }
    ensures { IfOk result (λ v. v.items ≡ each_window (children_of array.now) offset count) }
{
    array.known();
    aligned_windows(alloc, array.values(), offset, count)
}

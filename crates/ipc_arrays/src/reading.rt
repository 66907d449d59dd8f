//! Reads the array of a column by its physical type.
ghost use Rattle.std.specs.Prelude.{◌≡◌, Ok};
ghost use Rattle.ipc_flatbuf.specs.ReadResults.{ReturnsOrRunsOut};
ghost use Rattle.nest_memory.specs.Physical.{physical_type};
ghost use Rattle.nest_memory.specs.TypeOf.{type_of, field_of, field_list_of};
ghost use Rattle.nest_memory.specs.TypeTree.{logical_type};
ghost use Rattle.nest_memory.specs.declared.datatypes.physical_type.PhysicalType.TheVariants as physical;
ghost use Rattle.nest_model.specs.Layout as layouts;
ghost use Rattle.nest_array.specs.Seen.{layout_of, layouts_of};
ghost use Rattle.ipc_arrays.specs.Decoding.{Rest, rest_of, decoded_flat, decoded_column};
ghost use Rattle.ipc_arrays.specs.NestedDecoding.{is_flat_type, array_decoding, child_decoding, children_decoding};

use crate::boolean::read_boolean;
use crate::cursor::{BatchCursor, ExpectedLength, NodeCounts, next_node};
use crate::dictionary::read_dictionary;
use crate::fixed_size_binary::read_fixed_size_binary;
use crate::fixed_size_list::read_fixed_size_list;
use crate::list::{read_large_list, read_list};
use crate::map::read_map;
use crate::native::read_primitive;
use crate::strings::read_binary;
use crate::struct_::read_struct;
use crate::union::read_union;
use crate::utf8::read_utf8;
use ipc_flatbuf::IpcReadError;
use nest_array::any::AnyArray;
use nest_array::null::NullArray;
use nest_memory::datatypes::physical_type::PhysicalType;
use nest_memory::datatypes::{DataType, Field};
use std::alloc::Global;

fn nulls_of(alloc: Global, data_type: &DataType, length: usize) -> Result<NullArray, IpcReadError>
    requires { physical_type (type_of data_type.now) ≡ physical.Null }
    ensures { ReturnsOrRunsOut (λ a. a) result (Ok (layouts.null (type_of data_type.now) length)) }
{
    match data_type.clone(alloc) {
        Err(_) => Err(IpcReadError::Memory),
        Ok(data_type) => Ok(NullArray::new(data_type, length)),
    }
}

fn read_null<'a>(
    alloc: Global,
    data_type: &DataType,
    counts: NodeCounts,
    cursor: BatchCursor<'a>,
) -> Result<(NullArray, BatchCursor<'a>), IpcReadError>
    requires { physical_type (type_of data_type.now) ≡ physical.Null }
    ensures { ReturnsOrRunsOut {Y = layouts.Layout × Rest} (λ x. (x.0, rest_of x.1)) result (Ok (layouts.null (type_of data_type.now) counts.slots, rest_of cursor.entry)) }
{
    let array = nulls_of(alloc, data_type, counts.slots)?;
    Ok((array, cursor))
}

// Wraps the array that was read in its variant.
macro_rules! in_variant {
    ($variant:ident, $read:expr) => {
        match $read {
            Err(error) => Err(error),
            Ok((array, cursor)) => Ok((AnyArray::$variant(array), cursor)),
        }
    };
}

/// Reads an array without children.
fn read_flat<'a>(
    alloc: Global,
    data_type: &DataType,
    counts: NodeCounts,
    body: &'a [u8],
    cursor: BatchCursor<'a>,
) -> Result<(AnyArray, BatchCursor<'a>), IpcReadError>
    ensures { ReturnsOrRunsOut (λ x. (layout_of x.0, rest_of x.1)) result (decoded_flat (physical_type (type_of data_type.now)) (type_of data_type.now) counts body.now (rest_of cursor.entry)) }
{
    match data_type.to_physical_type() {
        PhysicalType::Null => in_variant!(Null, read_null(alloc, data_type, counts, cursor)),
        PhysicalType::Boolean => {
            in_variant!(
                Boolean,
                read_boolean(alloc, data_type, counts, body, cursor)
            )
        }
        PhysicalType::Primitive(kind) => {
            in_variant!(
                Primitive,
                read_primitive(alloc, kind, data_type, counts, body, cursor)
            )
        }
        PhysicalType::FixedSizeBinary => {
            in_variant!(
                FixedSizeBinary,
                read_fixed_size_binary(alloc, data_type, counts, body, cursor)
            )
        }
        PhysicalType::Binary => {
            in_variant!(
                Binary,
                read_binary::<i32>(alloc, data_type, counts, body, cursor)
            )
        }
        PhysicalType::LargeBinary => {
            in_variant!(
                LargeBinary,
                read_binary::<i64>(alloc, data_type, counts, body, cursor)
            )
        }
        PhysicalType::Utf8 => {
            in_variant!(
                Utf8,
                read_utf8::<i32>(alloc, data_type, counts, body, cursor)
            )
        }
        PhysicalType::LargeUtf8 => {
            in_variant!(
                LargeUtf8,
                read_utf8::<i64>(alloc, data_type, counts, body, cursor)
            )
        }
        PhysicalType::Dictionary(kind) => {
            in_variant!(
                Dictionary,
                read_dictionary(alloc, kind, data_type, counts, body, cursor)
            )
        }
        _ => Err(IpcReadError::UnsupportedType),
    }
}

/// Returns whether the type is neither an extension nor nested.
pub(crate) fn is_flat(data_type: &DataType) -> bool
    ensures { result ≡ is_flat_type (type_of data_type.now) }
{
    match data_type {
        DataType::Extension(_, _, _)
        | DataType::List(_)
        | DataType::LargeList(_)
        | DataType::FixedSizeList(_, _)
        | DataType::Map(_, _)
        | DataType::Struct(_)
        | DataType::Union(_, _, _) => false,
        _ => true,
    }
}

/// Reads an array of `data_type`, whose storage type is `stored`. For an extension type this is the type it extends.
#[cycle(read)]
fn read_array<'a>(
    alloc: Global,
    data_type: &DataType,
    stored: &DataType,
    counts: NodeCounts,
    body: &'a [u8],
    cursor: BatchCursor<'a>,
) -> Result<(AnyArray, BatchCursor<'a>), IpcReadError>
    requires { logical_type (type_of data_type.now) ≡ logical_type (type_of stored.now) }
    ensures { ReturnsOrRunsOut (λ x. (layout_of x.0, rest_of x.1)) result (array_decoding (type_of data_type.now) (type_of stored.now) counts body.now (rest_of cursor.entry)) }
{
    if is_flat(stored) {
        return read_flat(alloc, data_type, counts, body, cursor);
    }
    match stored {
        DataType::Extension(_, inner, _) => read_array(
            alloc, data_type, inner, counts, body, cursor,
        ),
        DataType::List(field) => {
            in_variant!(
                List,
                read_list(alloc, data_type, field, counts, body, cursor)
            )
        }
        DataType::LargeList(field) => {
            in_variant!(
                LargeList,
                read_large_list(alloc, data_type, field, counts, body, cursor)
            )
        }
        DataType::FixedSizeList(field, size) => {
            in_variant!(
                FixedSizeList,
                read_fixed_size_list(alloc, data_type, field, *size, counts, body, cursor)
            )
        }
        DataType::Map(field, sorted) => {
            in_variant!(
                Map,
                read_map(alloc, data_type, field, *sorted, counts, body, cursor)
            )
        }
        DataType::Struct(fields) => {
            in_variant!(
                Struct,
                read_struct(alloc, data_type, fields, counts, body, cursor)
            )
        }
        DataType::Union(fields, ids, mode) => {
            in_variant!(
                Union,
                read_union(alloc, data_type, fields, ids, *mode, counts, body, cursor)
            )
        }
        _ => unreachable!(),
    }
}

/// Reads the next array, of the type of a field.
#[cycle(read)]
pub(crate) fn read_item<'a>(
    alloc: Global,
    field: &Field,
    expected: ExpectedLength,
    body: &'a [u8],
    cursor: BatchCursor<'a>,
) -> Result<(AnyArray, BatchCursor<'a>), IpcReadError>
    ensures { ReturnsOrRunsOut (λ x. (layout_of x.0, rest_of x.1)) result (child_decoding (field_of field.now) expected body.now (rest_of cursor.entry)) }
{
    let (counts, cursor) = next_node(expected, cursor)?;
    let inner = field.data_type();
    read_array(alloc, inner, inner, counts, body, cursor)
}

/// Reads the next arrays, one for each field.
#[cycle(read)]
pub(crate) fn read_items<'a>(
    alloc: Global,
    fields: &Vec<Field>,
    expected: ExpectedLength,
    body: &'a [u8],
    cursor: BatchCursor<'a>,
) -> Result<(Vec<AnyArray>, BatchCursor<'a>), IpcReadError>
    ensures { ReturnsOrRunsOut (λ x. (layouts_of x.0.items, rest_of x.1)) result (children_decoding (field_list_of fields.now.items) expected body.now (rest_of cursor.entry)) }
{
    let mut children = Vec::new(alloc);
    let mut rest = cursor;
    for field in fields {
        match read_item(alloc, field, expected, body, rest) {
            Err(error) => return Err(error),
            Ok((child, tail)) => {
                children.push(child)?;
                rest = tail;
            }
        }
    }
    Ok((children, rest))
}

/// Reads the next array of a record batch, and returns it with the remaining nodes and buffers.
///
/// # Errors
///
/// `IpcReadError::UnsupportedType` if arrays of this type cannot be read, `IpcReadError::TypeRange` if no array has this type,
/// `IpcReadError::Memory` if an allocation fails, and otherwise the first rule of the format that the nodes, buffers or bytes break.
pub fn read_column<'a>(
    alloc: Global,
    data_type: &DataType,
    expected: ExpectedLength,
    body: &'a [u8],
    cursor: BatchCursor<'a>,
) -> Result<(AnyArray, BatchCursor<'a>), IpcReadError>
    ensures { ReturnsOrRunsOut (λ x. (layout_of x.0, rest_of x.1)) result (decoded_column (type_of data_type.now) expected body.now (rest_of cursor.entry)) }
{
    let (counts, cursor) = next_node(expected, cursor)?;
    read_array(alloc, data_type, data_type, counts, body, cursor)
}

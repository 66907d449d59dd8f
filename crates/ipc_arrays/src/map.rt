//! Map arrays: lists whose items are structs of a key and a value.
ghost use Rattle.std.specs.Prelude.{◌≡◌, Some, IfOk, IsTrue};
ghost use Rattle.ipc_flatbuf.specs.ReadResults.{ReturnsOrRunsOut, check};
ghost use Rattle.ipc_flatbuf.specs.declared.error.IpcReadError.TheVariants.{TypeRange};
ghost use Rattle.nest_memory.specs.Physical.{physical_type};
ghost use Rattle.nest_memory.specs.TypeOf.{type_of, field_of};
ghost use Rattle.nest_memory.specs.TypeTree as types;
ghost use Rattle.nest_memory.specs.TypeTree.{field_type, item_type, logical_type, has_pairs, is_pair};
ghost use Rattle.nest_memory.specs.declared.datatypes.physical_type.PhysicalType.TheVariants as physical;
ghost use Rattle.nest_model.specs.Fits.{ValidityFits};
ghost use Rattle.nest_model.specs.Layout.{layout_type};
ghost use Rattle.nest_model.specs.Part.{count_rows};
ghost use Rattle.nest_array.specs.Seen.{layout_of};
ghost use Rattle.ipc_arrays.specs.Decoding.{rest_of, variable_size_head, map_over};
ghost use Rattle.ipc_arrays.specs.NestedDecoding.{map_decoding};

use crate::cursor::{BatchCursor, ExpectedLength, NodeCounts};
use crate::reading::read_item;
use crate::strings::{VariableSizeHead, read_variable_size_head};
use ipc_flatbuf::IpcReadError;
use nest_array::any::AnyArray;
use nest_array::map::MapArray;
use nest_memory::datatypes::{DataType, Field};
use std::alloc::Global;

// Returns the map array over these entries.
fn map_of_entries<'a>(
    alloc: Global,
    data_type: &DataType,
    rows: VariableSizeHead<i32>,
    entries: AnyArray,
    cursor: BatchCursor<'a>,
) -> Result<(MapArray, BatchCursor<'a>), IpcReadError>
    requires kind { physical_type (type_of data_type.now) ≡ physical.Map }
    requires pairs { IsTrue (has_pairs (type_of data_type.now)) }
    requires item { item_type (type_of data_type.now) ≡ Some (layout_type (layout_of entries)) }
    requires valid { ValidityFits rows.validity (count_rows rows.offsets) }
    ensures { ReturnsOrRunsOut (λ x. (x.0, rest_of x.1)) result (map_over (type_of data_type.now) (variable_size_head rows.offsets rows.validity) (layout_of entries, rest_of cursor.entry)) }
{
    if rows.offsets.last() > entries.len() {
        drop(entries);
        drop(rows);
        return Err(IpcReadError::OffsetPastChild);
    }
    match data_type.clone(alloc) {
        Err(_) => {
            drop(entries);
            drop(rows);
            Err(IpcReadError::Memory)
        }
        Ok(data_type) => {
            match MapArray::new(alloc, data_type, rows.offsets, entries, rows.validity) {
                Err(_) => Err(IpcReadError::Memory),
                Ok(array) => Ok((array, cursor)),
            }
        }
    }
}

// Checks that the entries are structs of a key and a value.
fn check_entries(data_type: &DataType, field: &Field, sorted: bool) -> Result<(), IpcReadError>
    requires { logical_type (type_of data_type.now) ≡ types.map (field_of field.now) sorted }
    ensures checked { result ≡ check (is_pair (field_type (field_of field.now))) TypeRange }
    ensures pairs { IfOk result (λ _. IsTrue (has_pairs (type_of data_type.now))) }
{
    let _ = sorted;
    let _ = field;
    if data_type.has_pairs() {
        Ok(())
    } else {
        Err(IpcReadError::TypeRange)
    }
}

/// Reads a map array: validity and offsets, then the entries.
///
/// # Errors
///
/// `IpcReadError::TypeRange` if the entries are not structs of a key and a value, `IpcReadError::OffsetPastChild` if the last offset is
/// greater than the number of entries, and those of the buffers.
#[cycle(read)]
#[tactic(auto, unfolding(crate::specs::NestedDecoding::map_decoding))]
pub(crate) fn read_map<'a>(
    alloc: Global,
    data_type: &DataType,
    field: &Field,
    sorted: bool,
    counts: NodeCounts,
    body: &'a [u8],
    cursor: BatchCursor<'a>,
) -> Result<(MapArray, BatchCursor<'a>), IpcReadError>
    requires { logical_type (type_of data_type.now) ≡ types.map (field_of field.now) sorted }
    ensures { ReturnsOrRunsOut (λ x. (x.0, rest_of x.1)) result (map_decoding (type_of data_type.now) (field_of field.now) sorted counts body.now (rest_of cursor.entry)) }
{
    check_entries(data_type, field, sorted)?;
    let (rows, cursor) = read_variable_size_head::<i32>(alloc, counts, body, cursor)?;
    match read_item(alloc, field, ExpectedLength::Any, body, cursor) {
        Ok((entries, cursor)) => map_of_entries(alloc, data_type, rows, entries, cursor),
        Err(error) => {
            drop(rows);
            Err(error)
        }
    }
}

//! Reads all columns of a record batch.
ghost use Rattle.std.specs.Prelude.{◌≡◌, map};
ghost use Rattle.ipc_flatbuf.specs.ReadResults.{ReturnsOrRunsOut};
ghost use Rattle.nest_memory.specs.TypeOf.{type_of, field_of};
ghost use Rattle.nest_memory.specs.TypeTree.{TypeTree, field_type};
ghost use Rattle.nest_array.specs.Seen.{layout_of};
ghost use Rattle.ipc_arrays.specs.Decoding.{rest_of, decoded_each, decoded_columns, checked_exhausted};

use crate::cursor::{BatchCursor, ExpectedLength};
use crate::reading::read_column;
use ipc_flatbuf::IpcReadError;
use nest_array::any::AnyArray;
use nest_memory::datatypes::{DataType, Field};
use std::alloc::Global;

/// A value that states the data type of a column: a [`DataType`] or a [`Field`].
pub trait HasDataType {
    ghost tree: { Self → TypeTree };

    /// Returns the data type.
    fn data_type(&self) -> &DataType
        ensures { type_of result.now ≡ tree self.now };
}

impl HasDataType for DataType {
    ghost tree = { type_of };

    fn data_type(&self) -> &DataType {
        self
    }
}

impl HasDataType for Field {
    ghost tree = { λ f. field_type (field_of f) };

    fn data_type(&self) -> &DataType {
        &self.data_type
    }
}

/// Checks that every field node and every buffer has been read.
///
/// # Errors
///
/// `IpcReadError::NodeCount` if a field node is left, else `IpcReadError::BufferCount` if a buffer is left.
pub fn check_exhausted(cursor: BatchCursor<'_>) -> Result<(), IpcReadError>
    ensures { result ≡ checked_exhausted (rest_of cursor.entry) }
{
    if cursor.nodes.len() != 0 {
        return Err(IpcReadError::NodeCount);
    }
    if cursor.buffers.len() != 0 {
        return Err(IpcReadError::BufferCount);
    }
    Ok(())
}

fn read_each<'a, A: HasDataType>(
    alloc: Global,
    types: &[A],
    rows: usize,
    body: &'a [u8],
    cursor: BatchCursor<'a>,
) -> Result<(Vec<AnyArray>, BatchCursor<'a>), IpcReadError>
    ensures { ReturnsOrRunsOut (λ x. (map layout_of x.0.items, rest_of x.1)) result (decoded_each (map A.tree types.now) rows body.now (rest_of cursor.entry)) }
{
    let mut columns = Vec::new(alloc);
    let mut rest = cursor;
    for it in types {
        match read_column(
            alloc,
            it.data_type(),
            ExpectedLength::Rows(rows),
            body,
            rest,
        ) {
            Err(error) => return Err(error),
            Ok((column, tail)) => {
                columns.push(column)?;
                rest = tail;
            }
        }
    }
    Ok((columns, rest))
}

/// Reads the columns of a record batch of `rows` rows, one for each of `types`.
///
/// # Errors
///
/// The first error of [`read_column`], in the order of the columns; then those of [`check_exhausted`].
#[tactic(auto, unfolding(crate::specs::Decoding::decoded_columns))]
pub fn read_columns<A: HasDataType>(
    alloc: Global,
    types: &[A],
    rows: usize,
    body: &[u8],
    cursor: BatchCursor<'_>,
) -> Result<Vec<AnyArray>, IpcReadError>
    ensures { ReturnsOrRunsOut (λ v. map layout_of v.items) result (decoded_columns (map A.tree types.now) rows body.now (rest_of cursor.entry)) }
{
    match read_each(alloc, types, rows, body, cursor) {
        Err(error) => Err(error),
        Ok((columns, rest)) => match check_exhausted(rest) {
            Err(error) => Err(error),
            Ok(()) => Ok(columns),
        },
    }
}

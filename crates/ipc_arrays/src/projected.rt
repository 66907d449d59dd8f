//! Reads projected columns of a record batch and skips the others.
ghost use Rattle.std.specs.Prelude.{map};
ghost use Rattle.ipc_flatbuf.specs.ReadResults.{ReturnsOrRunsOut, Returns};
ghost use Rattle.ipc_flatbuf.specs.declared.error.IpcReadError.TheVariants.{NodeCount, BufferCount};
ghost use Rattle.nest_array.specs.Seen.{layout_of};
ghost use Rattle.ipc_arrays.specs.Decoding.{rest_of};
ghost use Rattle.ipc_arrays.specs.Projection.{skip_first, skipped_views, skipped_column, decoded_steps, decoded_projection, projection_state};

use crate::columns::{HasDataType, check_exhausted};
use crate::cursor::{BatchCursor, ExpectedLength};
use crate::reading::read_column;
use ipc_flatbuf::{BufferSpec, FieldAction, FieldNode, IpcReadError, SkippedField, non_negative};
use nest_array::any::AnyArray;
use std::alloc::Global;

/// A cursor over a record batch of which some columns are skipped.
///
/// `more` holds the `variadicBufferCounts` (Message.fbs, table RecordBatch) of the view arrays that have not been skipped yet.
#[derive(Clone, Copy)]
pub struct ProjectionCursor<'a> {
    pub left: BatchCursor<'a>,
    pub more: &'a [i64],
}

#[tactic(auto, unfolding(crate::specs::Projection::skip_first))]
pub(crate) fn skip_nodes(count: usize, nodes: &[FieldNode]) -> Result<&[FieldNode], IpcReadError>
    ensures { Returns (λ s. s.now) result (skip_first NodeCount count nodes.now) }
{
    if count <= nodes.len() {
        Ok(&nodes[count..])
    } else {
        Err(IpcReadError::NodeCount)
    }
}

/// Skips this number of buffers.
#[tactic(auto, unfolding(crate::specs::Projection::skip_first))]
pub(crate) fn skip_buffers(
    count: usize,
    buffers: &[BufferSpec],
) -> Result<&[BufferSpec], IpcReadError>
    ensures { Returns (λ s. s.now) result (skip_first BufferCount count buffers.now) }
{
    if count <= buffers.len() {
        Ok(&buffers[count..])
    } else {
        Err(IpcReadError::BufferCount)
    }
}

// Skips the variadic buffers of one view array.
#[tactic(auto, unfolding(crate::specs::Projection::skipped_views))]
fn skip_view<'a>(
    more: &'a [i64],
    buffers: &'a [BufferSpec],
) -> Result<(&'a [BufferSpec], &'a [i64]), IpcReadError>
    ensures { Returns (λ x. (x.0.now, x.1.now)) result (skipped_views 1 more.now buffers.now) }
{
    match more {
        [] => Err(IpcReadError::BufferCount),
        [count, others @ ..] => {
            let count = non_negative(IpcReadError::BufferCount, *count)?;
            Ok((skip_buffers(count, buffers)?, others))
        }
    }
}

/// Skips the variadic buffers of `views` view arrays.
pub(crate) fn skip_views<'a>(
    views: usize,
    more: &'a [i64],
    buffers: &'a [BufferSpec],
) -> Result<(&'a [BufferSpec], &'a [i64]), IpcReadError>
    ensures { Returns (λ x. (x.0.now, x.1.now)) result (skipped_views views more.now buffers.now) }
{
    let mut left = buffers;
    let mut counts = more;
    for _i in 0..views {
        let (tail, others) = skip_view(counts, left)?;
        left = tail;
        counts = others;
    }
    Ok((left, counts))
}

// Skips a column.
#[tactic(auto, unfolding(crate::specs::Projection::skipped_column))]
pub(crate) fn skip_column(
    span: SkippedField,
    ahead: ProjectionCursor<'_>,
) -> Result<ProjectionCursor<'_>, IpcReadError>
    ensures { Returns projection_state result (skipped_column span (projection_state ahead.entry)) }
{
    let nodes = skip_nodes(span.nodes, ahead.left.nodes)?;
    let buffers = skip_buffers(span.buffers, ahead.left.buffers)?;
    let (buffers, more) = skip_views(span.views, ahead.more, buffers)?;
    let dictionaries = ahead.left.dictionaries;
    let left = BatchCursor {
        nodes,
        buffers,
        dictionaries,
    };
    Ok(ProjectionCursor { left, more })
}

fn read_steps<'a, A: HasDataType>(
    alloc: Global,
    steps: &[FieldAction],
    types: &[A],
    rows: usize,
    body: &'a [u8],
    ahead: ProjectionCursor<'a>,
) -> Result<(Vec<AnyArray>, BatchCursor<'a>), IpcReadError>
    ensures { ReturnsOrRunsOut (λ x. (map layout_of x.0.items, rest_of x.1)) result (decoded_steps steps.now (map A.tree types.now) rows body.now (projection_state ahead.entry)) }
{
    let mut columns = Vec::new(alloc);
    let mut at = ahead;
    for step in steps {
        match *step {
            FieldAction::Skip(span) => match skip_column(span, at) {
                Err(error) => return Err(error),
                Ok(tail) => at = tail,
            },
            FieldAction::Read => {
                let k = columns.len();
                if k >= types.len() {
                    return Ok((columns, at.left));
                }
                match read_column(
                    alloc,
                    types[k].data_type(),
                    ExpectedLength::Rows(rows),
                    body,
                    at.left,
                ) {
                    Err(error) => return Err(error),
                    Ok((column, left)) => {
                        columns.push(column)?;
                        let more = at.more;
                        at = ProjectionCursor { left, more };
                    }
                }
            }
        }
    }
    Ok((columns, at.left))
}

/// Reads the projected columns of a record batch of `rows` rows, one for each of `types`, and skips the others.
///
/// Each step reads or skips the next column. Reading ends when there are no more steps, or no more `types` for a step that reads.
///
/// # Errors
///
/// The first error of [`read_column`] or of a skipped column, whose nodes, buffers or variadic counts may be missing
/// (`IpcReadError::NodeCount`, `IpcReadError::BufferCount`); then those of [`check_exhausted`].
#[tactic(auto, unfolding(crate::specs::Projection::decoded_projection))]
pub fn read_projected<A: HasDataType>(
    alloc: Global,
    steps: &[FieldAction],
    types: &[A],
    rows: usize,
    body: &[u8],
    ahead: ProjectionCursor<'_>,
) -> Result<Vec<AnyArray>, IpcReadError>
    ensures { ReturnsOrRunsOut (λ v. map layout_of v.items) result (decoded_projection steps.now (map A.tree types.now) rows body.now (projection_state ahead.entry)) }
{
    match read_steps(alloc, steps, types, rows, body, ahead) {
        Err(error) => Err(error),
        Ok((columns, rest)) => match check_exhausted(rest) {
            Err(error) => Err(error),
            Ok(()) => Ok(columns),
        },
    }
}

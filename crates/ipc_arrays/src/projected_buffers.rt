//! Finds the buffers of a record batch that its projected columns have.
ghost use Rattle.std.specs.Prelude.{◌≡◌, true, false, ◌++◌, map, IfOk, OnOk};
ghost use Rattle.ipc_flatbuf.specs.ReadResults.{ReturnsOrRunsOut};
ghost use Rattle.nest_memory.specs.TypeOf.{type_of};
ghost use Rattle.ipc_arrays.specs.BufferCounts.{array_skipped};
ghost use Rattle.ipc_arrays.specs.NeededBuffers.{column_skipped, flags, spec_needed_buffers};

use crate::buffer_counts::skip_array;
use crate::columns::HasDataType;
use crate::projected::{skip_buffers, skip_views};
use ipc_flatbuf::{BufferSpec, FieldAction, IpcReadError, SkippedField};
use nest_memory::datatypes::DataType;
use std::alloc::{AllocError, Global};

// Appends a flag for each of the buffers before `rest`.
fn push_flags(
    needed: &mut Vec<bool>,
    buffers: &[BufferSpec],
    rest: &[BufferSpec],
    is_needed: bool,
) -> Result<(), AllocError>
    ensures { OnOk result (needed.new.items ≡ needed.old.items ++ flags buffers.now rest.now is_needed) }
{
    let count = buffers.len().saturating_sub(rest.len());
    for _i in 0..count {
        needed.push(is_needed)?;
    }
    Ok(())
}

// Flags the buffers of a skipped column, and returns those after it.
#[tactic(auto, unfolding(crate::specs::NeededBuffers::column_skipped))]
fn flag_skipped<'a>(
    needed: &mut Vec<bool>,
    span: SkippedField,
    more: &'a [i64],
    buffers: &'a [BufferSpec],
) -> Result<(&'a [BufferSpec], &'a [i64]), IpcReadError>
    ensures value { ReturnsOrRunsOut (λ x. (x.0.now, x.1.now)) result (column_skipped span more.now buffers.now) }
    ensures flags { IfOk result (λ x. needed.new.items ≡ needed.old.items ++ flags buffers.now x.0.now false) }
{
    let rest = skip_buffers(span.buffers, buffers)?;
    let (rest, more) = skip_views(span.views, more, rest)?;
    push_flags(needed, buffers, rest, false)?;
    Ok((rest, more))
}

// Flags the buffers of a column that is read, and returns those after it.
fn flag_read<'a>(
    needed: &mut Vec<bool>,
    data_type: &DataType,
    buffers: &'a [BufferSpec],
) -> Result<&'a [BufferSpec], IpcReadError>
    ensures value { ReturnsOrRunsOut (λ s. s.now) result (array_skipped (type_of data_type.now) buffers.now) }
    ensures flags { IfOk result (λ s. needed.new.items ≡ needed.old.items ++ flags buffers.now s.now true) }
{
    let rest = skip_array(data_type, buffers)?;
    push_flags(needed, buffers, rest, true)?;
    Ok(rest)
}

/// Returns for each buffer of a record batch whether it is of a projected column. The steps, `types` and `more` are those of `read_projected`.
///
/// There is no flag for the buffers after the last column.
///
/// # Errors
///
/// `IpcReadError::BufferCount` if buffers or variadic counts of a column are missing.
pub fn needed_buffers<A: HasDataType>(
    alloc: Global,
    steps: &[FieldAction],
    types: &[A],
    more: &[i64],
    buffers: &[BufferSpec],
) -> Result<Vec<bool>, IpcReadError>
    ensures { ReturnsOrRunsOut (λ v. v.items) result (spec_needed_buffers steps.now (map A.tree types.now) more.now buffers.now) }
{
    let mut needed = Vec::new(alloc);
    let mut rest = buffers;
    let mut counts = more;
    let mut k = 0;
    for step in steps {
        match *step {
            FieldAction::Skip(span) => match flag_skipped(&mut needed, span, counts, rest) {
                Err(error) => return Err(error),
                Ok((tail, others)) => {
                    rest = tail;
                    counts = others;
                }
            },
            FieldAction::Read => {
                if k >= types.len() {
                    return Ok(needed);
                }
                match flag_read(&mut needed, types[k].data_type(), rest) {
                    Err(error) => return Err(error),
                    Ok(tail) => {
                        rest = tail;
                        k += 1;
                    }
                }
            }
        }
    }
    Ok(needed)
}

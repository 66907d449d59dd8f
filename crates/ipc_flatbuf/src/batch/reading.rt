//! Readers of the metadata of record batches.
ghost use Rattle.std.specs.Prelude.{◌≡◌, ◌<◌, ◌≤◌, ◌^◌, ◌+◌, ◌*◌, length, IfOk, Ok};
ghost use Rattle.ipc_flatbuf.specs.ReadResults.{ReturnsOrRunsOut};
ghost use Rattle.ipc_flatbuf.specs.Flatbuffers.{structs_at, vector_at};
ghost use Rattle.ipc_flatbuf.specs.Batches.{spec_node_at, spec_buffer_at, spec_all_within, batch_at, batch_of};

use crate::batch::bounds::all_within;
use crate::batch::metadata::BatchMetadata;
use crate::compression::read_compression;
use crate::{
    BufferSpec, FieldNode, IpcReadError, VectorItems, i64_at, i64_field, items_at, non_negative,
    offset_field, read_table,
};
use std::alloc::Global;

fn node_at(bytes: &[u8], position: usize) -> Result<FieldNode, IpcReadError>
    requires { position < 2 ^ 63 }
    ensures { result ≡ spec_node_at bytes.now position }
{
    let length = i64_at(bytes, position)?;
    let null_count = i64_at(bytes, position + 8)?;
    Ok(FieldNode { length, null_count })
}

fn buffer_at(bytes: &[u8], position: usize) -> Result<BufferSpec, IpcReadError>
    requires { position < 2 ^ 63 }
    ensures { result ≡ spec_buffer_at bytes.now position }
{
    let offset = i64_at(bytes, position)?;
    let length = i64_at(bytes, position + 8)?;
    Ok(BufferSpec { offset, length })
}

fn nodes_of(alloc: Global, bytes: &[u8], items: VectorItems) -> Result<Vec<FieldNode>, IpcReadError>
    requires length { length bytes.now < 2 ^ 32 }
    requires within { items.first + items.count * 16 ≤ length bytes.now }
    ensures { ReturnsOrRunsOut (λ v. v.items) result (structs_at (spec_node_at bytes.now) 16 items.count items.first) }
{
    let mut nodes = Vec::new(alloc);
    for i in 0..items.count {
        let node = node_at(bytes, items.first + 16 * i)?;
        nodes.push(node)?;
    }
    Ok(nodes)
}

fn buffers_of(
    alloc: Global,
    bytes: &[u8],
    items: VectorItems,
) -> Result<Vec<BufferSpec>, IpcReadError>
    requires length { length bytes.now < 2 ^ 32 }
    requires within { items.first + items.count * 16 ≤ length bytes.now }
    ensures { ReturnsOrRunsOut (λ v. v.items) result (structs_at (spec_buffer_at bytes.now) 16 items.count items.first) }
{
    let mut buffers = Vec::new(alloc);
    for i in 0..items.count {
        let buffer = buffer_at(bytes, items.first + 16 * i)?;
        buffers.push(buffer)?;
    }
    Ok(buffers)
}

#[tactic(auto, unfolding(crate::specs::Flatbuffers::vector_at))]
fn nodes_at(
    alloc: Global,
    bytes: &[u8],
    position: Option<usize>,
    left: usize,
) -> Result<(Vec<FieldNode>, usize), IpcReadError>
    requires { length bytes.now < 2 ^ 32 }
    ensures { ReturnsOrRunsOut (λ x. (x.0.items, x.1)) result (vector_at (spec_node_at bytes.now) 16 bytes.now position left) }
{
    let (items, left) = items_at(16, bytes, position, left)?;
    let nodes = nodes_of(alloc, bytes, items)?;
    Ok((nodes, left))
}

#[tactic(auto, unfolding(crate::specs::Flatbuffers::vector_at))]
fn buffers_at(
    alloc: Global,
    bytes: &[u8],
    position: Option<usize>,
    left: usize,
) -> Result<(Vec<BufferSpec>, usize), IpcReadError>
    requires { length bytes.now < 2 ^ 32 }
    ensures { ReturnsOrRunsOut (λ x. (x.0.items, x.1)) result (vector_at (spec_buffer_at bytes.now) 16 bytes.now position left) }
{
    let (items, left) = items_at(16, bytes, position, left)?;
    let buffers = buffers_of(alloc, bytes, items)?;
    Ok((buffers, left))
}

/// Returns the record batch whose table is at a position of the metadata, and whose body has `body` bytes.
///
/// # Errors
/// [`IpcReadError::Flatbuffer`] and [`IpcReadError::ApparentSize`], [`IpcReadError::RowCount`] where the length is
/// negative, [`IpcReadError::UnsupportedCompression`] where the codec or the method of `compression` is unknown,
/// [`IpcReadError::BufferRange`] and [`IpcReadError::BufferSum`] where the buffers are not within the body,
/// [`IpcReadError::Memory`] where an allocation fails.
#[tactic(auto, unfolding(crate::specs::Batches::batch_at))]
pub fn read_batch(
    alloc: Global,
    bytes: &[u8],
    position: usize,
    left: usize,
    body: usize,
) -> Result<BatchMetadata, IpcReadError>
    requires { length bytes.now < 2 ^ 32 }
    ensures value { ReturnsOrRunsOut batch_of result (batch_at bytes.now position left body) }
    ensures within { IfOk result (λ b. spec_all_within body b.buffers.items ≡ Ok tt) }
{
    let (table, left) = read_table(bytes, position, left)?;
    let rows = non_negative(IpcReadError::RowCount, i64_field(bytes, table, 0, 0)?)?;
    let to = offset_field(bytes, table, 3)?;
    let (compression, left) = read_compression(bytes, to, left)?;
    let to = offset_field(bytes, table, 1)?;
    let (nodes, left) = nodes_at(alloc, bytes, to, left)?;
    let to = offset_field(bytes, table, 2)?;
    let (buffers, _) = buffers_at(alloc, bytes, to, left)?;
    all_within(body, &buffers)?;
    Ok(BatchMetadata {
        rows,
        nodes,
        buffers,
        compression,
    })
}

//! Writers of the messages of record batches, without their bodies.
ghost use Rattle.std.specs.Prelude.{◌≡◌, ◌<◌, ◌≤◌, ◌^◌, ◌+◌, ◌*◌, ◌++◌, List, ℕ, length, OnOk, IfErr, Ok};
ghost use Rattle.std.specs.List.{flat_map, AllByRecursion};
ghost use Rattle.ipc_flatbuf.specs.WriteErrors.{IsSizeError};
ghost use Rattle.ipc_flatbuf.specs.MessageBytes.{metadata_size};
ghost use Rattle.ipc_flatbuf.specs.Batches.{batch_of};
ghost use Rattle.ipc_flatbuf.specs.BatchBytes.{node_bytes, buffer_bytes, plain_head, compressed_head, batch_part_head, batch_part_bytes, batch_message, IsBatchWriteError};
ghost use Rattle.ipc_flatbuf.specs.BatchLaws.{NodeFits, BufferFits, BatchFits, BatchRoundTripsWithBodies};

use crate::batch::metadata::BatchMetadata;
use crate::message::{MessageKind, write_message};
use crate::{BufferSpec, CompressionCodec, FieldNode, IpcWriteError, write_i64, write_u32};
use std::alloc::{AllocError, Global};

#[tactic(auto, unfolding(crate::specs::BatchBytes::node_bytes))]
fn write_node(out: &mut Vec<u8>, node: FieldNode) -> Result<(), AllocError>
    ensures ok { OnOk result (out.new.items ≡ out.old.items ++ node_bytes node) }
    ensures fits { NodeFits node }
{
    write_i64(out, node.length)?;
    write_i64(out, node.null_count)?;
    Ok(())
}

#[tactic(auto, unfolding(crate::specs::BatchBytes::buffer_bytes))]
fn write_buffer(out: &mut Vec<u8>, buffer: BufferSpec) -> Result<(), AllocError>
    ensures ok { OnOk result (out.new.items ≡ out.old.items ++ buffer_bytes buffer) }
    ensures fits { BufferFits buffer }
{
    write_i64(out, buffer.offset)?;
    write_i64(out, buffer.length)?;
    Ok(())
}

fn write_nodes(out: &mut Vec<u8>, nodes: &[FieldNode]) -> Result<(), AllocError>
    ensures ok { OnOk result (out.new.items ≡ out.old.items ++ flat_map node_bytes nodes.now) }
    ensures fits { OnOk result (AllByRecursion NodeFits nodes.now) }
{
    for node in nodes {
        write_node(out, *node)?;
    }
    Ok(())
}

fn write_buffers(out: &mut Vec<u8>, buffers: &[BufferSpec]) -> Result<(), AllocError>
    ensures ok { OnOk result (out.new.items ≡ out.old.items ++ flat_map buffer_bytes buffers.now) }
    ensures fits { OnOk result (AllByRecursion BufferFits buffers.now) }
{
    for buffer in buffers {
        write_buffer(out, *buffer)?;
    }
    Ok(())
}

#[tactic(auto, unfolding(crate::specs::BatchBytes::plain_head))]
fn write_plain_head(out: &mut Vec<u8>, rows: usize, count: usize) -> Result<(), AllocError>
    requires rows { rows < 2 ^ 63 }
    requires count { count < 2 ^ 27 }
    ensures { OnOk result (out.new.items ≡ out.old.items ++ plain_head rows count) }
{
    out.extend_from_slice(&[
        10, 0, 20, 0, 8, 0, 4, 0, 16, 0, 0, 0, 0, 0, 0, 0, 16, 0, 0, 0, 16, 0, 0, 0,
    ])?;
    write_i64(out, rows as i64)?;
    write_u32(out, (12 + 16 * count) as u32)?;
    Ok(())
}

// The table `BodyCompression` follows the table of the batch.
#[tactic(auto, unfolding(crate::specs::BatchBytes::compressed_head))]
fn write_compressed_head(
    out: &mut Vec<u8>,
    codec: CompressionCodec,
    rows: usize,
    count: usize,
) -> Result<(), AllocError>
    requires rows { rows < 2 ^ 63 }
    requires count { count < 2 ^ 27 }
    ensures { OnOk result (out.new.items ≡ out.old.items ++ compressed_head codec rows count) }
{
    let number = codec.number();
    out.extend_from_slice(&[
        12, 0, 24, 0, 8, 0, 4, 0, 16, 0, 20, 0, 0, 0, 0, 0, 16, 0, 0, 0, 40, 0, 0, 0,
    ])?;
    write_i64(out, rows as i64)?;
    write_u32(out, (36 + 16 * count) as u32)?;
    out.extend_from_slice(&[
        12, 0, 0, 0, 8, 0, 6, 0, 4, 0, 5, 0, 8, 0, 0, 0, number, 0, 0, 0, 0, 0, 0, 0,
    ])?;
    Ok(())
}

// Appends what precedes the vector of the nodes, of which there are `count`.
fn write_head(
    out: &mut Vec<u8>,
    compression: Option<CompressionCodec>,
    rows: usize,
    count: usize,
) -> Result<(), AllocError>
    requires rows { rows < 2 ^ 63 }
    requires count { count < 2 ^ 27 }
    ensures { OnOk result (out.new.items ≡ out.old.items ++ batch_part_head compression rows count) }
{
    match compression {
        None => write_plain_head(out, rows, count),
        Some(codec) => write_compressed_head(out, codec, rows, count),
    }
}

/// Checks that the numbers of rows, nodes and buffers fit the types of the format.
pub(crate) fn check_counts(batch: &BatchMetadata) -> Result<(), IpcWriteError>
    ensures rows { OnOk result (batch.now.rows < 2 ^ 63) }
    ensures nodes { OnOk result (length batch.now.nodes.items < 2 ^ 27) }
    ensures buffers { OnOk result (length batch.now.buffers.items < 2 ^ 27) }
    ensures size { IfErr result (IsBatchWriteError (batch_of batch.now) (length (batch_part_bytes (batch_of batch.now)))) }
{
    let few = 1 << 27;
    if batch.rows >= 1 << 63 || batch.nodes.len() >= few || batch.buffers.len() >= few {
        return Err(IpcWriteError::Size);
    }
    Ok(())
}

/// Appends the part of the metadata that holds the table of the batch, 16 bytes into it.
#[tactic(auto, unfolding(crate::specs::BatchBytes::batch_part_bytes, crate::specs::PartBytes::vector_bytes))]
pub(crate) fn write_batch_part(out: &mut Vec<u8>, batch: &BatchMetadata) -> Result<(), AllocError>
    requires rows { batch.now.rows < 2 ^ 63 }
    requires nodes { length batch.now.nodes.items < 2 ^ 27 }
    requires buffers { length batch.now.buffers.items < 2 ^ 27 }
    ensures ok { OnOk result (out.new.items ≡ out.old.items ++ batch_part_bytes (batch_of batch.now)) }
    ensures fits { OnOk result (BatchFits (batch_of batch.now)) }
{
    write_head(out, batch.compression, batch.rows, batch.nodes.len())?;
    write_u32(out, batch.nodes.len() as u32)?;
    write_nodes(out, &batch.nodes)?;
    out.extend_from_slice(&[0, 0, 0, 0])?;
    write_u32(out, batch.buffers.len() as u32)?;
    write_buffers(out, &batch.buffers)?;
    Ok(())
}

/// Appends the message of a record batch without its body, which has `body_length` bytes and follows it.
///
/// The batch round-trips where all buffers are within the body.
///
/// # Errors
/// [`IpcWriteError::Size`] where the number of rows is 2^63 or more, or the metadata has 2^31 bytes or more,
/// [`IpcWriteError::Memory`] where an allocation fails.
#[tactic(auto, unfolding(crate::specs::BatchBytes::batch_message))]
pub fn write_batch(
    alloc: Global,
    out: &mut Vec<u8>,
    batch: &BatchMetadata,
    body_length: usize,
) -> Result<(), IpcWriteError>
    requires { body_length < 2 ^ 63 }
    ensures ok { OnOk result (out.new.items ≡ out.old.items ++ batch_message (batch_of batch.now) body_length) }
    ensures rows { OnOk result (batch.now.rows < 2 ^ 63) }
    ensures small { OnOk result (metadata_size (batch_message (batch_of batch.now) body_length) < 2 ^ 31) }
    ensures again { OnOk result (BatchRoundTripsWithBodies (batch_of batch.now) body_length) }
    ensures size { IfErr result (IsBatchWriteError (batch_of batch.now) (metadata_size (batch_message (batch_of batch.now) body_length))) }
{
    check_counts(batch)?;
    let mut part = Vec::new(alloc);
    write_batch_part(&mut part, batch)?;
    write_message(alloc, out, MessageKind::RecordBatch, body_length, 16, &part)
}

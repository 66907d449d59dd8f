//! Fixed-size binary arrays.
ghost use Rattle.std.specs.Prelude.{◌≡◌, ◌<◌, ◌^◌, ◌+◌, ◌++◌, length, IfErr, OnOk, Ok};
ghost use Rattle.ipc_flatbuf.specs.ReadResults.{ReturnsOrRunsOut};
ghost use Rattle.nest_memory.specs.Physical.{physical_type};
ghost use Rattle.nest_memory.specs.TypeOf.{type_of};
ghost use Rattle.nest_memory.specs.declared.datatypes.physical_type.PhysicalType.TheVariants as physical;
ghost use Rattle.nest_model.specs.Fits.{Fits};
ghost use Rattle.nest_model.specs.Layout as layouts;
ghost use Rattle.ipc_arrays.specs.Decoding.{rest_of, decoded_fixed_size_binary};
ghost use Rattle.ipc_arrays.specs.BodyBuffers.{body_of};
ghost use Rattle.ipc_arrays.specs.Encoding.{flat_buffers, AppendsBuffers, IsLayoutError};
ghost use Rattle.ipc_arrays.specs.EncodingLaws.{IsWritable};

use crate::bytes::{read_slots, write_bytes};
use crate::cursor::{BatchCursor, NodeCounts, next_buffer};
use crate::layout::{BodyLayout, layout_buffers};
use crate::validity::{read_validity_buffer, validity_size, write_validity};
use ipc_flatbuf::{IpcReadError, IpcWriteError};
use nest_array::fixed_size_binary::FixedSizeBinaryArray;
use nest_memory::bitmap::immutable::Bitmap;
use nest_memory::buffer::Buffer;
use nest_memory::datatypes::DataType;
use std::alloc::{AllocError, Global};

fn array_of(
    alloc: Global,
    data_type: &DataType,
    values: Buffer<u8>,
    validity: Option<Bitmap>,
) -> Result<FixedSizeBinaryArray, IpcReadError>
    requires { Fits (layouts.fixed_size_binary (type_of data_type.now) values validity) }
    ensures { ReturnsOrRunsOut (λ a. a) result (Ok (layouts.fixed_size_binary (type_of data_type.now) values validity)) }
{
    match data_type.clone(alloc) {
        Err(_) => Err(IpcReadError::Memory),
        Ok(data_type) => Ok(FixedSizeBinaryArray::new(data_type, values, validity)),
    }
}

/// Reads the buffers of a fixed-size binary array: validity and values.
///
/// # Errors
///
/// `IpcReadError::TypeRange` if the size is 0, and those of the buffers.
#[tactic(auto, unfolding(crate::specs::Decoding::decoded_fixed_size_binary))]
pub(crate) fn read_fixed_size_binary<'a>(
    alloc: Global,
    data_type: &DataType,
    counts: NodeCounts,
    body: &'a [u8],
    cursor: BatchCursor<'a>,
) -> Result<(FixedSizeBinaryArray, BatchCursor<'a>), IpcReadError>
    requires { physical_type (type_of data_type.now) ≡ physical.FixedSizeBinary }
    ensures { ReturnsOrRunsOut (λ x. (x.0, rest_of x.1)) result (decoded_fixed_size_binary (type_of data_type.now) counts body.now (rest_of cursor.entry)) }
{
    let size = data_type.size().unwrap_or(0);
    if size == 0 {
        return Err(IpcReadError::TypeRange);
    }
    let (validity, cursor) = read_validity_buffer(alloc, counts, body, cursor)?;
    let (bytes, cursor) = next_buffer(body, cursor)?;
    let values = read_slots(alloc, counts.slots, size, bytes)?;
    let array = array_of(alloc, data_type, values, validity)?;
    Ok((array, cursor))
}

/// Lays out the buffers of a fixed-size binary array.
pub(crate) fn layout_fixed_size_binary(
    layout: &mut BodyLayout,
    array: &FixedSizeBinaryArray,
) -> Result<(), IpcWriteError>
    requires { layout.old.length < 2 ^ 63 }
    ensures nodes { layout.new.nodes ≡ layout.old.nodes }
    ensures ok { OnOk result (AppendsBuffers layout.old layout.new (flat_buffers array.now)) }
    ensures err { IfErr result (λ error. IsLayoutError error layout.old (flat_buffers array.now)) }
{
    array.known();
    let size = array.values().len();
    layout_buffers(layout, &[validity_size(array.validity()), size])
}

/// Appends the buffers of a fixed-size binary array.
pub(crate) fn write_fixed_size_binary(
    out: &mut Vec<u8>,
    array: &FixedSizeBinaryArray,
) -> Result<(), AllocError>
    ensures ok { OnOk result (out.new.items ≡ out.old.items ++ body_of (flat_buffers array.now)) }
    ensures writable { OnOk result (IsWritable array.now) }
{
    array.known();
    write_validity(out, array.validity())?;
    write_bytes(out, array.values().as_slice())
}

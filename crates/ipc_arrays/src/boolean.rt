//! Boolean arrays.
ghost use Rattle.std.specs.Prelude.{◌≡◌, ◌<◌, ◌^◌, ◌+◌, ◌++◌, length, IfErr, OnOk, Ok};
ghost use Rattle.ipc_flatbuf.specs.ReadResults.{ReturnsOrRunsOut};
ghost use Rattle.nest_memory.specs.Physical.{physical_type};
ghost use Rattle.nest_memory.specs.TypeOf.{type_of};
ghost use Rattle.nest_memory.specs.declared.datatypes.physical_type.PhysicalType.TheVariants as physical;
ghost use Rattle.nest_model.specs.Fits.{Fits};
ghost use Rattle.nest_model.specs.Layout as layouts;
ghost use Rattle.ipc_arrays.specs.Decoding.{rest_of, decoded_boolean};
ghost use Rattle.ipc_arrays.specs.BodyBuffers.{body_of};
ghost use Rattle.ipc_arrays.specs.Encoding.{flat_buffers, AppendsBuffers, IsLayoutError};
ghost use Rattle.ipc_arrays.specs.EncodingLaws.{IsWritable};

use crate::bits::{read_bits, write_bitmap};
use crate::cursor::{BatchCursor, NodeCounts, next_buffer};
use crate::layout::{BodyLayout, layout_buffers};
use crate::validity::{read_validity_buffer, validity_size, write_validity};
use ipc_flatbuf::{IpcReadError, IpcWriteError};
use nest_flat::boolean::BooleanArray;
use nest_memory::bitmap::immutable::Bitmap;
use nest_memory::datatypes::DataType;
use std::alloc::{AllocError, Global};

// Returns the array of these parts.
fn primitive_array(data_type: DataType, bits: Bitmap, validity: Option<Bitmap>) -> BooleanArray
    requires { Fits (layouts.boolean (type_of data_type) bits validity) }
    ensures { result ≡ layouts.boolean (type_of data_type) bits validity }
{
    match BooleanArray::try_new(data_type, bits, validity) {
        Ok(array) => array,
        Err(_) => unreachable!(),
    }
}

fn array_of(
    alloc: Global,
    data_type: &DataType,
    bits: Bitmap,
    validity: Option<Bitmap>,
) -> Result<BooleanArray, IpcReadError>
    requires { Fits (layouts.boolean (type_of data_type.now) bits validity) }
    ensures { ReturnsOrRunsOut (λ a. a) result (Ok (layouts.boolean (type_of data_type.now) bits validity)) }
{
    match data_type.clone(alloc) {
        Err(_) => Err(IpcReadError::Memory),
        Ok(data_type) => Ok(primitive_array(data_type, bits, validity)),
    }
}

/// Reads the buffers of a boolean array: validity and values, a bit each.
#[tactic(auto, unfolding(crate::specs::Decoding::decoded_boolean))]
pub(crate) fn read_boolean<'a>(
    alloc: Global,
    data_type: &DataType,
    counts: NodeCounts,
    body: &'a [u8],
    cursor: BatchCursor<'a>,
) -> Result<(BooleanArray, BatchCursor<'a>), IpcReadError>
    requires { physical_type (type_of data_type.now) ≡ physical.Boolean }
    ensures { ReturnsOrRunsOut (λ x. (x.0, rest_of x.1)) result (decoded_boolean (type_of data_type.now) counts body.now (rest_of cursor.entry)) }
{
    let (validity, cursor) = read_validity_buffer(alloc, counts, body, cursor)?;
    let (bytes, cursor) = next_buffer(body, cursor)?;
    let bits = read_bits(alloc, counts.slots, bytes)?;
    let array = array_of(alloc, data_type, bits, validity)?;
    Ok((array, cursor))
}

/// Lays out the buffers of a boolean array.
pub(crate) fn layout_boolean(
    layout: &mut BodyLayout,
    array: &BooleanArray,
) -> Result<(), IpcWriteError>
    requires { layout.old.length < 2 ^ 63 }
    ensures nodes { layout.new.nodes ≡ layout.old.nodes }
    ensures ok { OnOk result (AppendsBuffers layout.old layout.new (flat_buffers array.now)) }
    ensures err { IfErr result (λ error. IsLayoutError error layout.old (flat_buffers array.now)) }
{
    array.known();
    let size = array.values().len().div_ceil(8);
    layout_buffers(layout, &[validity_size(array.validity()), size])
}

/// Appends the buffers of a boolean array.
pub(crate) fn write_boolean(out: &mut Vec<u8>, array: &BooleanArray) -> Result<(), AllocError>
    ensures ok { OnOk result (out.new.items ≡ out.old.items ++ body_of (flat_buffers array.now)) }
    ensures writable { OnOk result (IsWritable array.now) }
{
    array.known();
    write_validity(out, array.validity())?;
    write_bitmap(out, array.values())
}

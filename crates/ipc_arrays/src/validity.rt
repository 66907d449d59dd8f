//! Validity buffers.
ghost use Rattle.std.specs.Prelude.{◌≡◌, ◌≤◌, ◌+◌, ◌++◌, length, Some, IfErr, IfOk, OnOk};
ghost use Rattle.std.specs.Option.{option_map};
ghost use Rattle.ipc_flatbuf.specs.ReadResults.{ReturnsOrRunsOut};
ghost use Rattle.ipc_flatbuf.specs.declared.error.IpcWriteError.TheVariants.{Memory};
ghost use Rattle.nest_memory.specs.Sublist.{sublist};
ghost use Rattle.nest_model.specs.Accessors.{validity_of};
ghost use Rattle.nest_model.specs.Fits.{ValidityFits};
ghost use Rattle.nest_model.specs.Part.{sliced_validity};
ghost use Rattle.ipc_arrays.specs.Decoding.{rest_of, decoded_validity, decoded_validity_buffer, validity_if_nulls};
ghost use Rattle.ipc_arrays.specs.BodyBuffers.{padded};
ghost use Rattle.ipc_arrays.specs.Encoding.{normalized_validity_bytes};

use crate::bits::{read_bits, write_bitmap};
use crate::cursor::{BatchCursor, NodeCounts, next_buffer};
use ipc_flatbuf::{IpcReadError, IpcWriteError};
use nest_array::window::Window;
use nest_memory::bitmap::immutable::Bitmap;
use std::alloc::{AllocError, Global};

fn keep_if_nulls(nulls: usize, bits: Bitmap) -> Option<Bitmap>
    ensures { result ≡ validity_if_nulls nulls bits }
{
    if nulls == 0 { None } else { Some(bits) }
}

#[tactic(auto, unfolding(crate::specs::Decoding::decoded_validity))]
pub(crate) fn read_validity(
    alloc: Global,
    counts: NodeCounts,
    bytes: &[u8],
) -> Result<Option<Bitmap>, IpcReadError>
    ensures read { ReturnsOrRunsOut (λ v. v) result (decoded_validity counts bytes.now) }
    ensures fits { IfOk result (λ v. ValidityFits v counts.slots) }
{
    if bytes.len() == 0 && counts.nulls == 0 {
        return Ok(None);
    }
    let bits = read_bits(alloc, counts.slots, bytes)?;
    if bits.unset_bits() != counts.nulls {
        return Err(IpcReadError::NullCount);
    }
    Ok(keep_if_nulls(counts.nulls, bits))
}

/// Reads the validity buffer of an array, and returns `None` if no slot is null.
///
/// # Errors
///
/// `IpcReadError::NullCount` if the buffer has another number of nulls than the field node, and those of the buffer.
#[tactic(auto, unfolding(crate::specs::Decoding::decoded_validity_buffer))]
pub(crate) fn read_validity_buffer<'a>(
    alloc: Global,
    counts: NodeCounts,
    body: &'a [u8],
    cursor: BatchCursor<'a>,
) -> Result<(Option<Bitmap>, BatchCursor<'a>), IpcReadError>
    ensures read { ReturnsOrRunsOut (λ x. (x.0, rest_of x.1)) result (decoded_validity_buffer counts body.now (rest_of cursor.entry)) }
    ensures fits { IfOk result (λ x. ValidityFits x.0 counts.slots) }
{
    let (bits, cursor) = next_buffer(body, cursor)?;
    let validity = read_validity(alloc, counts, bits)?;
    Ok((validity, cursor))
}

fn slice_bits(bits: &Bitmap, offset: usize, count: usize) -> Result<Option<Bitmap>, IpcWriteError>
    requires { offset + count ≤ length bits.now }
    ensures ok { IfOk result (λ v. v ≡ Some (sublist bits.now offset count)) }
    ensures err { IfErr result (λ error. error ≡ Memory) }
{
    match bits.clone() {
        Ok(bits) => Ok(Some(bits.sliced(offset, count))),
        Err(_) => Err(IpcWriteError::Memory),
    }
}

/// Returns the validity of the slots of a window.
pub(crate) fn slice_validity(window: &Window<'_>) -> Result<Option<Bitmap>, IpcWriteError>
    ensures ok { IfOk result (λ v. v ≡ sliced_validity (validity_of window.now.array) window.now.offset window.now.count) }
    ensures err { IfErr result (λ error. error ≡ Memory) }
{
    window.known();
    let array = window.array();
    array.known();
    match array.validity() {
        None => Ok(None),
        Some(bits) => slice_bits(bits, window.offset(), window.len()),
    }
}

/// Returns the size in bytes of a validity buffer, which is 0 if no slot is null.
pub(crate) fn validity_size(validity: Option<&Bitmap>) -> usize
    ensures { result ≡ length (normalized_validity_bytes (option_map (λ b. b.now) validity.entry)) }
{
    match validity {
        Some(bits) if bits.unset_bits() != 0 => bits.len().div_ceil(8),
        _ => 0,
    }
}

/// Appends a validity buffer, which is empty if no slot is null.
#[tactic(auto, unfolding(crate::specs::BodyBuffers::padded))]
pub(crate) fn write_validity(out: &mut Vec<u8>, validity: Option<&Bitmap>) -> Result<(), AllocError>
    ensures { OnOk result (out.new.items ≡ out.old.items ++ padded (normalized_validity_bytes (option_map (λ b. b.now) validity.entry))) }
{
    match validity {
        Some(bits) if bits.unset_bits() != 0 => write_bitmap(out, bits),
        _ => Ok(()),
    }
}

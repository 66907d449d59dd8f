//! UTF-8 arrays that are read. The bytes of valid slots must be UTF-8; those under nulls may be anything.
ghost use Rattle.std.specs.Prelude.{◌≡◌, ◌<◌, ◌≤◌, length, Some, None, IfOk, if◌then◌else◌};
ghost use Rattle.ipc_flatbuf.specs.ReadResults.{ReturnsOrRunsOut, Returns};
ghost use Rattle.nest_memory.specs.Physical.{physical_type, utf8_of_width};
ghost use Rattle.nest_memory.specs.Rising.{last_of};
ghost use Rattle.nest_memory.specs.Sublist.{sublist};
ghost use Rattle.nest_memory.specs.TypeOf.{type_of};
ghost use Rattle.nest_model.specs.Fits.{ValidityFits};
ghost use Rattle.nest_model.specs.Layout as layouts;
ghost use Rattle.nest_model.specs.Part.{begin, extent, count_rows};
ghost use Rattle.ipc_arrays.specs.Decoding.{rest_of, binary_parts, are_utf8, checked_string, string_of_slot, packed_slots, utf8_array, checked_utf8, decoded_utf8};

use crate::cursor::{BatchCursor, NodeCounts};
use crate::fixed_width::FixedWidthOffset;
use crate::packed::{PackedStrings, no_packed_strings, push_string, utf8_of_packed};
use crate::strings::read_strings;
use ipc_flatbuf::IpcReadError;
use nest_flat::utf8::Utf8Array;
use nest_flat::validity;
use nest_memory::bitmap::immutable::Bitmap;
use nest_memory::buffer::Buffer;
use nest_memory::datatypes::DataType;
use nest_memory::error::Error;
use nest_memory::offsets::OffsetsBuffer;
use std::alloc::Global;
use std::str;

/// Returns bytes that must be UTF-8.
pub(crate) fn check_string(bytes: &[u8]) -> Result<&[u8], IpcReadError>
    ensures { Returns (λ x. x.now) result (checked_string bytes.now) }
{
    match str::from_utf8(bytes) {
        Err(_) => Err(IpcReadError::Utf8),
        Ok(_) => Ok(bytes),
    }
}

fn slot_bytes<'a, O: FixedWidthOffset>(
    offsets: &OffsetsBuffer<O>,
    bytes: &'a Buffer<u8>,
    i: usize,
) -> &'a [u8]
    requires within { last_of offsets.now ≤ length bytes.now }
    requires slot { i < count_rows offsets.now }
    ensures { result.now ≡ sublist bytes.now (begin offsets.now i) (extent offsets.now i) }
{
    offsets.known();
    let (start, end) = offsets.start_end(i);
    &bytes.as_slice()[start..end]
}

// Returns the string of a slot, which must be UTF-8, and an empty string for a null.
fn valid_string<'a, O: FixedWidthOffset>(
    offsets: &OffsetsBuffer<O>,
    bytes: &'a Buffer<u8>,
    validity: &Option<Bitmap>,
    i: usize,
) -> Result<&'a [u8], IpcReadError>
    requires within { last_of offsets.now ≤ length bytes.now }
    requires fits { ValidityFits validity.now (count_rows offsets.now) }
    requires slot { i < count_rows offsets.now }
    ensures { Returns (λ x. x.now) result (string_of_slot (binary_parts offsets.now bytes.now validity.now) i) }
{
    if validity::is_valid(validity, i) {
        check_string(slot_bytes(offsets, bytes, i))
    } else {
        Ok(&[])
    }
}

fn pack_slots<O: FixedWidthOffset>(
    alloc: Global,
    offsets: &OffsetsBuffer<O>,
    bytes: &Buffer<u8>,
    validity: &Option<Bitmap>,
) -> Result<PackedStrings<O>, IpcReadError>
    requires within { last_of offsets.now ≤ length bytes.now }
    requires fits { ValidityFits validity.now (count_rows offsets.now) }
    ensures { ReturnsOrRunsOut (λ p. binary_parts p.offsets p.bytes.items validity.now) result (packed_slots (binary_parts offsets.now bytes.now validity.now)) }
{
    let slots = offsets.len_proxy();
    let mut packed = no_packed_strings(alloc, slots)?;
    for i in 0..slots {
        match valid_string(offsets, bytes, validity, i) {
            Err(error) => return Err(error),
            Ok(string) => {
                push_string(&mut packed, string)?;
            }
        }
    }
    Ok(packed)
}

// Returns the array of the strings of the slots, with empty ones for nulls.
fn pack_utf8<O: FixedWidthOffset>(
    alloc: Global,
    data_type: &DataType,
    offsets: &OffsetsBuffer<O>,
    bytes: &Buffer<u8>,
    validity: Option<Bitmap>,
) -> Result<Utf8Array<O>, IpcReadError>
    requires within { last_of offsets.now ≤ length bytes.now }
    requires fits { ValidityFits validity (count_rows offsets.now) }
    requires kind { physical_type (type_of data_type.now) ≡ utf8_of_width O.IS_LARGE }
    ensures { ReturnsOrRunsOut (λ a. a) result (utf8_array O.IS_LARGE (type_of data_type.now) (packed_slots (binary_parts offsets.now bytes.now validity))) }
{
    match pack_slots(alloc, offsets, bytes, &validity) {
        Err(error) => Err(error),
        Ok(packed) => utf8_of_packed(alloc, data_type, packed, validity),
    }
}

// Returns the array of these parts, if the bytes of every slot are UTF-8.
fn keep_utf8<O: FixedWidthOffset>(
    data_type: DataType,
    offsets: OffsetsBuffer<O>,
    bytes: Buffer<u8>,
    validity: Option<Bitmap>,
) -> Option<Utf8Array<O>>
    requires within { last_of offsets ≤ length bytes }
    requires fits { ValidityFits validity (count_rows offsets) }
    requires kind { physical_type (type_of data_type) ≡ utf8_of_width O.IS_LARGE }
    ensures { result ≡ (if are_utf8 offsets bytes then Some (layouts.utf8 O.IS_LARGE (type_of data_type) offsets bytes validity) else None) }
{
    match Utf8Array::try_new(data_type, offsets, bytes, validity) {
        Ok(array) => Some(array),
        Err(_) => None,
    }
}

// Returns the array of these parts, if the bytes of every slot are UTF-8. It shares their memory.
fn share_utf8<O: FixedWidthOffset>(
    alloc: Global,
    data_type: &DataType,
    offsets: &OffsetsBuffer<O>,
    bytes: &Buffer<u8>,
    validity: &Option<Bitmap>,
) -> Result<Option<Utf8Array<O>>, Error>
    requires within { last_of offsets.now ≤ length bytes.now }
    requires fits { ValidityFits validity.now (count_rows offsets.now) }
    requires kind { physical_type (type_of data_type.now) ≡ utf8_of_width O.IS_LARGE }
    ensures { IfOk result (λ a. a ≡ (if are_utf8 offsets.now bytes.now then Some (layouts.utf8 O.IS_LARGE (type_of data_type.now) offsets.now bytes.now validity.now) else None)) }
{
    let data_type = data_type.clone(alloc)?;
    let offsets = offsets.clone()?;
    let bytes = bytes.clone()?;
    let validity = validity::clone(validity)?;
    Ok(keep_utf8(data_type, offsets, bytes, validity))
}

fn utf8_of<O: FixedWidthOffset>(
    alloc: Global,
    data_type: &DataType,
    offsets: OffsetsBuffer<O>,
    bytes: Buffer<u8>,
    validity: Option<Bitmap>,
) -> Result<Utf8Array<O>, IpcReadError>
    requires within { last_of offsets ≤ length bytes }
    requires fits { ValidityFits validity (count_rows offsets) }
    requires kind { physical_type (type_of data_type.now) ≡ utf8_of_width O.IS_LARGE }
    ensures { ReturnsOrRunsOut (λ a. a) result (checked_utf8 O.IS_LARGE (type_of data_type.now) (binary_parts offsets bytes validity)) }
{
    match share_utf8(alloc, data_type, &offsets, &bytes, &validity) {
        Err(_) => Err(IpcReadError::Memory),
        Ok(kept) => match kept {
            Some(array) => Ok(array),
            None => pack_utf8(alloc, data_type, &offsets, &bytes, validity),
        },
    }
}

/// Reads the buffers of a UTF-8 array. If the bytes under some null are not UTF-8, all nulls become empty strings.
///
/// # Errors
///
/// Those of `read_binary`, and `IpcReadError::Utf8` if the bytes of a valid slot are not UTF-8.
#[tactic(auto, unfolding(crate::specs::Decoding::decoded_utf8))]
pub(crate) fn read_utf8<'a, O: FixedWidthOffset>(
    alloc: Global,
    data_type: &DataType,
    counts: NodeCounts,
    body: &'a [u8],
    cursor: BatchCursor<'a>,
) -> Result<(Utf8Array<O>, BatchCursor<'a>), IpcReadError>
    requires { physical_type (type_of data_type.now) ≡ utf8_of_width O.IS_LARGE }
    ensures { ReturnsOrRunsOut (λ x. (x.0, rest_of x.1)) result (decoded_utf8 O.IS_LARGE (type_of data_type.now) counts body.now (rest_of cursor.entry)) }
{
    let strings = read_strings::<O>(alloc, counts, body, cursor)?;
    let cursor = strings.cursor;
    let array = utf8_of(
        alloc,
        data_type,
        strings.offsets,
        strings.bytes,
        strings.validity,
    )?;
    Ok((array, cursor))
}

//! Binary and UTF-8 arrays (Arrow: "Variable-size Binary Layout").
ghost use Rattle.std.specs.Prelude.{◌≡◌, ◌<◌, ◌≤◌, ◌^◌, ◌+◌, ◌∷◌, ◌++◌, [], map, length, IfErr, IfOk, OnOk, Ok};
ghost use Rattle.std.specs.List.{AllByRecursion};
ghost use Rattle.std.specs.Option.{option_map};
ghost use Rattle.ipc_flatbuf.specs.ReadResults.{ReturnsOrRunsOut};
ghost use Rattle.nest_memory.specs.Native.{unsigned};
ghost use Rattle.nest_memory.specs.Physical.{physical_type, binary_of_width};
ghost use Rattle.nest_memory.specs.Rising.{last_of};
ghost use Rattle.nest_memory.specs.TypeOf.{type_of};
ghost use Rattle.nest_model.specs.Fits.{Fits, ValidityFits, covered};
ghost use Rattle.nest_model.specs.Layout as layouts;
ghost use Rattle.nest_model.specs.Part.{count_rows};
ghost use Rattle.ipc_arrays.specs.Decoding.{rest_of, checked_offsets, decoded_offsets, decoded_data, binary_parts, variable_size_head, decoded_variable_size_head, decoded_binary_parts, decoded_binary};
ghost use Rattle.ipc_arrays.specs.BodyBuffers.{padded, body_of};
ghost use Rattle.ipc_arrays.specs.FixedWidth.{offset_format};
ghost use Rattle.ipc_arrays.specs.FixedWidthLaws.{ValueRoundTrips};
ghost use Rattle.ipc_arrays.specs.Encoding.{rebased, offset_bytes, flat_buffers, AppendsBuffers, string_buffers, IsLayoutError};
ghost use Rattle.ipc_arrays.specs.EncodingLaws.{OffsetsRoundTrip, IsWritable};

use crate::bytes::{pad, read_bytes, write_bytes};
use crate::cursor::{BatchCursor, NodeCounts, next_buffer};
use crate::fixed_width::FixedWidthOffset;
use crate::layout::{BodyLayout, layout_buffers};
use crate::native::{read_values, values_size};
use crate::validity::{read_validity_buffer, validity_size, write_validity};
use ipc_flatbuf::{IpcReadError, IpcWriteError};
use nest_flat::binary::BinaryArray;
use nest_flat::utf8::Utf8Array;
use nest_memory::bitmap::immutable::Bitmap;
use nest_memory::buffer::Buffer;
use nest_memory::datatypes::DataType;
use nest_memory::error::{Error, SpecError};
use nest_memory::offsets::OffsetsBuffer;
use std::alloc::{AllocError, Global};

/// The parts of a binary or UTF-8 array without its data type, and the remaining nodes and buffers.
#[derive(Drop)]
pub(crate) struct BinaryParts<'a, O: FixedWidthOffset> {
    pub offsets: OffsetsBuffer<O>,
    pub bytes: Buffer<u8>,
    pub validity: Option<Bitmap>,
    pub cursor: BatchCursor<'a>,
}

fn offsets_of<O: FixedWidthOffset>(
    alloc: Global,
    offsets: Vec<O>,
) -> Result<OffsetsBuffer<O>, IpcReadError>
    ensures read { ReturnsOrRunsOut (λ b. b) result (checked_offsets (map O.numbers offsets.items)) }
    ensures slots { IfOk result (λ b. length b ≡ length offsets.items) }
{
    match OffsetsBuffer::try_new(alloc, offsets) {
        Ok(offsets) => Ok(offsets),
        Err(Error::OutOfSpec(_)) => Err(IpcReadError::Offsets),
        Err(_) => Err(IpcReadError::Memory),
    }
}

fn no_offset<O: FixedWidthOffset>(alloc: Global) -> Result<OffsetsBuffer<O>, IpcReadError>
    ensures { ReturnsOrRunsOut (λ b. b) result (Ok (0 ∷ [])) }
{
    match OffsetsBuffer::new(alloc) {
        Ok(offsets) => Ok(offsets),
        Err(_) => Err(IpcReadError::Memory),
    }
}

// Reads `slots + 1` offsets. The buffer of an array of length 0 is not read.
#[tactic(auto, unfolding(crate::specs::Decoding::decoded_offsets))]
fn read_offsets<O: FixedWidthOffset>(
    alloc: Global,
    slots: usize,
    bytes: &[u8],
) -> Result<OffsetsBuffer<O>, IpcReadError>
    ensures read { ReturnsOrRunsOut (λ b. b) result (decoded_offsets O.IS_LARGE slots bytes.now) }
    ensures slots { IfOk result (λ b. length b ≡ slots + 1) }
{
    if slots == 0 {
        return no_offset(alloc);
    }
    match slots.checked_add(1) {
        None => Err(IpcReadError::BufferTooShort),
        Some(count) => {
            let offsets = read_values::<O>(alloc, count, bytes)?;
            offsets_of(alloc, offsets)
        }
    }
}

// Reads the bytes up to the last offset.
fn read_covered(alloc: Global, last: usize, bytes: &[u8]) -> Result<Buffer<u8>, IpcReadError>
    ensures read { ReturnsOrRunsOut (λ b. b) result (decoded_data last bytes.now) }
    ensures size { IfOk result (λ b. length b ≡ last) }
{
    if last > bytes.len() {
        return Err(IpcReadError::OffsetPastChild);
    }
    read_bytes(alloc, last, bytes)
}

/// The validity and offsets that variable-size layouts begin with.
#[derive(Drop)]
pub(crate) struct VariableSizeHead<O: FixedWidthOffset> {
    pub offsets: OffsetsBuffer<O>,
    pub validity: Option<Bitmap>,
}

/// Reads the validity and the offsets of a variable-size array.
///
/// # Errors
///
/// `IpcReadError::Offsets` if an offset is negative or less than the one before it, and those of the buffers.
#[tactic(auto, unfolding(crate::specs::Decoding::decoded_variable_size_head))]
pub(crate) fn read_variable_size_head<'a, O: FixedWidthOffset>(
    alloc: Global,
    counts: NodeCounts,
    body: &'a [u8],
    cursor: BatchCursor<'a>,
) -> Result<(VariableSizeHead<O>, BatchCursor<'a>), IpcReadError>
    ensures read { ReturnsOrRunsOut (λ x. (variable_size_head x.0.offsets x.0.validity, rest_of x.1)) result (decoded_variable_size_head O.IS_LARGE counts body.now (rest_of cursor.entry)) }
    ensures slots { IfOk result (λ x. (count_rows x.0.offsets ≡ counts.slots) × (ValidityFits x.0.validity counts.slots)) }
{
    let (validity, cursor) = read_validity_buffer(alloc, counts, body, cursor)?;
    let (bytes, cursor) = next_buffer(body, cursor)?;
    let offsets = read_offsets::<O>(alloc, counts.slots, bytes)?;
    Ok((VariableSizeHead { offsets, validity }, cursor))
}

/// Reads the buffers of a binary or UTF-8 array.
///
/// # Errors
///
/// `IpcReadError::OffsetPastChild` if the last offset is greater than the length of the data, and those of the buffers.
#[tactic(auto, unfolding(crate::specs::Decoding::decoded_binary_parts))]
pub(crate) fn read_strings<'a, O: FixedWidthOffset>(
    alloc: Global,
    counts: NodeCounts,
    body: &'a [u8],
    cursor: BatchCursor<'a>,
) -> Result<BinaryParts<'a, O>, IpcReadError>
    ensures read { let decoded = decoded_binary_parts O.IS_LARGE counts body.now (rest_of cursor.entry) in
        ReturnsOrRunsOut (λ x. (binary_parts x.offsets x.bytes x.validity, rest_of x.cursor)) result decoded }
    ensures slots { IfOk result (λ x. (count_rows x.offsets ≡ counts.slots) × (ValidityFits x.validity counts.slots)) }
    ensures within { IfOk result (λ x. last_of x.offsets ≤ length x.bytes) }
{
    let (rows, cursor) = read_variable_size_head::<O>(alloc, counts, body, cursor)?;
    let (bytes, cursor) = next_buffer(body, cursor)?;
    let bytes = read_covered(alloc, rows.offsets.last(), bytes)?;
    Ok(BinaryParts {
        offsets: rows.offsets,
        bytes,
        validity: rows.validity,
        cursor,
    })
}

// Returns the binary array of these parts.
fn binary_array<O: FixedWidthOffset>(
    data_type: DataType,
    offsets: OffsetsBuffer<O>,
    bytes: Buffer<u8>,
    validity: Option<Bitmap>,
) -> BinaryArray<O>
    requires { Fits (layouts.binary O.IS_LARGE (type_of data_type) offsets bytes validity) }
    ensures { result ≡ layouts.binary O.IS_LARGE (type_of data_type) offsets bytes validity }
{
    match BinaryArray::try_new(data_type, offsets, bytes, validity) {
        Ok(array) => array,
        Err(_) => unreachable!(),
    }
}

fn binary_of<O: FixedWidthOffset>(
    alloc: Global,
    data_type: &DataType,
    offsets: OffsetsBuffer<O>,
    bytes: Buffer<u8>,
    validity: Option<Bitmap>,
) -> Result<BinaryArray<O>, IpcReadError>
    requires { Fits (layouts.binary O.IS_LARGE (type_of data_type.now) offsets bytes validity) }
    ensures { ReturnsOrRunsOut (λ a. a) result (Ok (layouts.binary O.IS_LARGE (type_of data_type.now) offsets bytes validity)) }
{
    match data_type.clone(alloc) {
        Err(_) => Err(IpcReadError::Memory),
        Ok(data_type) => Ok(binary_array(data_type, offsets, bytes, validity)),
    }
}

/// Reads the buffers of a binary array: validity, offsets and data.
///
/// # Errors
///
/// `IpcReadError::OffsetPastChild` if the last offset is greater than the length of the data, and those of the buffers.
#[tactic(auto, unfolding(crate::specs::Decoding::decoded_binary))]
pub(crate) fn read_binary<'a, O: FixedWidthOffset>(
    alloc: Global,
    data_type: &DataType,
    counts: NodeCounts,
    body: &'a [u8],
    cursor: BatchCursor<'a>,
) -> Result<(BinaryArray<O>, BatchCursor<'a>), IpcReadError>
    requires { physical_type (type_of data_type.now) ≡ binary_of_width O.IS_LARGE }
    ensures { ReturnsOrRunsOut (λ x. (x.0, rest_of x.1)) result (decoded_binary O.IS_LARGE (type_of data_type.now) counts body.now (rest_of cursor.entry)) }
{
    let strings = read_strings::<O>(alloc, counts, body, cursor)?;
    let cursor = strings.cursor;
    let array = binary_of(
        alloc,
        data_type,
        strings.offsets,
        strings.bytes,
        strings.validity,
    )?;
    Ok((array, cursor))
}

fn layout_strings<O: FixedWidthOffset>(
    layout: &mut BodyLayout,
    offsets: &OffsetsBuffer<O>,
    bytes: &Buffer<u8>,
    validity: Option<&Bitmap>,
) -> Result<(), IpcWriteError>
    requires small { layout.old.length < 2 ^ 63 }
    requires within { last_of offsets.now ≤ length bytes.now }
    ensures nodes { layout.new.nodes ≡ layout.old.nodes }
    ensures ok { OnOk result (AppendsBuffers layout.old layout.new (string_buffers O.IS_LARGE offsets.now bytes.now (option_map (λ b. b.now) validity.entry))) }
    ensures err { IfErr result (λ error. IsLayoutError error layout.old (string_buffers O.IS_LARGE offsets.now bytes.now (option_map (λ b. b.now) validity.entry))) }
{
    offsets.known();
    let _bytes = bytes.len();
    let size = values_size::<O>(offsets.len())?;
    let covered = offsets.last() - offsets.first();
    layout_buffers(layout, &[validity_size(validity), size, covered])
}

/// Lays out the buffers of a binary array.
pub(crate) fn layout_binary<O: FixedWidthOffset>(
    layout: &mut BodyLayout,
    array: &BinaryArray<O>,
) -> Result<(), IpcWriteError>
    requires { layout.old.length < 2 ^ 63 }
    ensures nodes { layout.new.nodes ≡ layout.old.nodes }
    ensures ok { OnOk result (AppendsBuffers layout.old layout.new (flat_buffers array.now)) }
    ensures err { IfErr result (λ error. IsLayoutError error layout.old (flat_buffers array.now)) }
{
    array.known();
    layout_strings(layout, array.offsets(), array.values(), array.validity())
}

/// Lays out the buffers of a UTF-8 array.
pub(crate) fn layout_utf8<O: FixedWidthOffset>(
    layout: &mut BodyLayout,
    array: &Utf8Array<O>,
) -> Result<(), IpcWriteError>
    requires { layout.old.length < 2 ^ 63 }
    ensures nodes { layout.new.nodes ≡ layout.old.nodes }
    ensures ok { OnOk result (AppendsBuffers layout.old layout.new (flat_buffers array.now)) }
    ensures err { IfErr result (λ error. IsLayoutError error layout.old (flat_buffers array.now)) }
{
    array.known();
    layout_strings(layout, array.offsets(), array.values(), array.validity())
}

fn write_offset<O: FixedWidthOffset>(out: &mut Vec<u8>, offset: usize) -> Result<(), AllocError>
    requires { offset ≤ O.largest }
    ensures ok { OnOk result (out.new.items ≡ out.old.items ++ (offset_format O.IS_LARGE).bytes (unsigned offset)) }
    ensures round_trips { OnOk result (ValueRoundTrips (offset_format O.IS_LARGE) (unsigned offset)) }
{
    match O::from_usize(offset) {
        Some(offset) => offset.put(out),
        None => unreachable!(),
    }
}

// Appends the offsets, rebased to start at 0.
fn write_each_offset<O: FixedWidthOffset>(
    out: &mut Vec<u8>,
    offsets: &OffsetsBuffer<O>,
) -> Result<(), AllocError>
    ensures ok { OnOk result (out.new.items ≡ out.old.items ++ offset_bytes O.IS_LARGE (rebased offsets.now)) }
    ensures round_trips { OnOk result (OffsetsRoundTrip O.IS_LARGE offsets.now) }
{
    offsets.known();
    let first = offsets.first();
    write_offset::<O>(out, 0)?;
    for i in 0..offsets.len_proxy() {
        let (_, end) = offsets.start_end(i);
        write_offset::<O>(out, end - first)?;
    }
    Ok(())
}

/// Appends offsets, rebased to start at 0, as a padded buffer.
#[tactic(auto, unfolding(crate::specs::BodyBuffers::padded))]
pub(crate) fn write_offsets<O: FixedWidthOffset>(
    out: &mut Vec<u8>,
    offsets: &OffsetsBuffer<O>,
) -> Result<(), AllocError>
    ensures ok { OnOk result (out.new.items ≡ out.old.items ++ padded (offset_bytes O.IS_LARGE (rebased offsets.now))) }
    ensures round_trips { OnOk result (OffsetsRoundTrip O.IS_LARGE offsets.now) }
{
    out.reserve(offsets.len().saturating_mul(O::size()))?;
    let start = out.len();
    write_each_offset(out, offsets)?;
    pad(out, start)
}

// Returns the bytes between the first and the last offset.
fn covered_bytes<'a, O: FixedWidthOffset>(
    offsets: &OffsetsBuffer<O>,
    bytes: &'a Buffer<u8>,
) -> &'a [u8]
    requires { last_of offsets.now ≤ length bytes.now }
    ensures { result.now ≡ covered offsets.now bytes.now }
{
    offsets.known();
    &bytes.as_slice()[offsets.first()..offsets.last()]
}

fn write_strings<O: FixedWidthOffset>(
    out: &mut Vec<u8>,
    offsets: &OffsetsBuffer<O>,
    bytes: &Buffer<u8>,
    validity: Option<&Bitmap>,
) -> Result<(), AllocError>
    requires { last_of offsets.now ≤ length bytes.now }
    ensures ok { OnOk result (out.new.items ≡ out.old.items ++ body_of (string_buffers O.IS_LARGE offsets.now bytes.now (option_map (λ b. b.now) validity.entry))) }
    ensures round_trips { OnOk result (OffsetsRoundTrip O.IS_LARGE offsets.now) }
{
    write_validity(out, validity)?;
    write_offsets(out, offsets)?;
    write_bytes(out, covered_bytes(offsets, bytes))
}

/// Appends the buffers of a binary array.
pub(crate) fn write_binary<O: FixedWidthOffset>(
    out: &mut Vec<u8>,
    array: &BinaryArray<O>,
) -> Result<(), AllocError>
    ensures ok { OnOk result (out.new.items ≡ out.old.items ++ body_of (flat_buffers array.now)) }
    ensures writable { OnOk result (IsWritable array.now) }
{
    array.known();
    write_strings(out, array.offsets(), array.values(), array.validity())
}

/// Appends the buffers of a UTF-8 array.
pub(crate) fn write_utf8<O: FixedWidthOffset>(
    out: &mut Vec<u8>,
    array: &Utf8Array<O>,
) -> Result<(), AllocError>
    ensures ok { OnOk result (out.new.items ≡ out.old.items ++ body_of (flat_buffers array.now)) }
    ensures writable { OnOk result (IsWritable array.now) }
{
    array.known();
    write_strings(out, array.offsets(), array.values(), array.validity())
}

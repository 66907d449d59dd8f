//! Primitive arrays: values of a fixed width.
ghost use Rattle.std.specs.Prelude.{◌≡◌, ◌<◌, ◌≤◌, ◌^◌, ◌+◌, ◌*◌, ◌++◌, length, map, IfOk, IfErr, OnOk, Ok};
ghost use Rattle.std.specs.List.{AllByRecursion};
ghost use Rattle.ipc_flatbuf.specs.ReadResults.{ReturnsOrRunsOut};
ghost use Rattle.ipc_flatbuf.specs.declared.error.IpcWriteError.TheVariants.{Size};
ghost use Rattle.nest_memory.specs.Physical.{physical_type};
ghost use Rattle.nest_memory.specs.TypeOf.{type_of};
ghost use Rattle.nest_memory.specs.declared.datatypes.physical_type.PhysicalType.TheVariants as physical;
ghost use Rattle.nest_model.specs.Accessors.{natives_of};
ghost use Rattle.nest_model.specs.Fits.{Fits};
ghost use Rattle.nest_model.specs.Layout as layouts;
ghost use Rattle.nest_model.specs.Meaning.{len};
ghost use Rattle.nest_flat.specs.AnyPrimitive.{primitive_layout};
ghost use Rattle.ipc_arrays.specs.Decoding.{rest_of, decoded_values, decoded_primitive, decoded_fixed_width};
ghost use Rattle.ipc_arrays.specs.BodyBuffers.{padded, body_of};
ghost use Rattle.ipc_arrays.specs.FixedWidth.{format_of, decoded_natives, values_bytes};
ghost use Rattle.ipc_arrays.specs.FixedWidthLaws.{ValueRoundTrips};
ghost use Rattle.ipc_arrays.specs.Encoding.{flat_buffers, AppendsBuffers, IsLayoutError};
ghost use Rattle.ipc_arrays.specs.EncodingLaws.{IsWritable};

use crate::bytes::{buffer_of, is_enough, pad};
use crate::cursor::{BatchCursor, NodeCounts, next_buffer};
use crate::fixed_width::FixedWidth;
use crate::layout::{BodyLayout, layout_buffers};
use crate::validity::{read_validity_buffer, validity_size, write_validity};
use ipc_flatbuf::{IpcReadError, IpcWriteError};
use nest_flat::any_primitive::AnyPrimitive;
use nest_flat::primitive::PrimitiveArray;
use nest_memory::bitmap::immutable::Bitmap;
use nest_memory::buffer::Buffer;
use nest_memory::datatypes::DataType;
use nest_memory::datatypes::physical_type::PrimitiveType;
use nest_memory::types::{days_ms, i256, months_days_ns};
use std::alloc::{AllocError, Global};

// Values are decoded from bytes, since a buffer may be unaligned.
fn copy_values<T: FixedWidth>(
    alloc: Global,
    slots: usize,
    bytes: &[u8],
) -> Result<Vec<T>, AllocError>
    requires { slots * T.format.size ≤ length bytes.now }
    ensures values { IfOk result (λ v. map T.numbers v.items ≡ decoded_natives T.format slots bytes.now) }
    ensures slots { IfOk result (λ v. length v.items ≡ slots) }
{
    let mut values = Vec::with_capacity(alloc, slots)?;
    let mut from = bytes;
    for i in 0..slots {
        let (_, next) = from.split_at(T::size());
        values.push_reserved(T::from_bytes(from));
        from = next;
    }
    Ok(values)
}

/// Reads `slots` values of a fixed width.
///
/// # Errors
///
/// `IpcReadError::BufferTooShort` if there are too few bytes, and `IpcReadError::Memory` if an allocation fails.
#[tactic(auto, unfolding(crate::specs::Decoding::decoded_values))]
pub(crate) fn read_values<T: FixedWidth>(
    alloc: Global,
    slots: usize,
    bytes: &[u8],
) -> Result<Vec<T>, IpcReadError>
    ensures read { ReturnsOrRunsOut (λ v. map T.numbers v.items) result (decoded_values T.format slots bytes.now) }
    ensures slots { IfOk result (λ v. length v.items ≡ slots) }
{
    if !is_enough(bytes.len(), slots, T::size()) {
        return Err(IpcReadError::BufferTooShort);
    }
    Ok(copy_values(alloc, slots, bytes)?)
}

/// Returns the primitive array of these parts.
pub(crate) fn primitive_array<T: FixedWidth>(
    data_type: DataType,
    values: Buffer<T>,
    validity: Option<Bitmap>,
) -> PrimitiveArray<T>
    requires { Fits (layouts.primitive T.PRIMITIVE (type_of data_type) (map T.numbers values) validity) }
    ensures { result ≡ layouts.primitive T.PRIMITIVE (type_of data_type) (map T.numbers values) validity }
{
    match PrimitiveArray::try_new(data_type, values, validity) {
        Ok(array) => array,
        Err(_) => unreachable!(),
    }
}

fn array_of<T: FixedWidth>(
    alloc: Global,
    data_type: &DataType,
    values: Buffer<T>,
    validity: Option<Bitmap>,
) -> Result<PrimitiveArray<T>, IpcReadError>
    requires { Fits (layouts.primitive T.PRIMITIVE (type_of data_type.now) (map T.numbers values) validity) }
    ensures { ReturnsOrRunsOut (λ a. a) result (Ok (layouts.primitive T.PRIMITIVE (type_of data_type.now) (map T.numbers values) validity)) }
{
    match data_type.clone(alloc) {
        Err(_) => Err(IpcReadError::Memory),
        Ok(data_type) => Ok(primitive_array(data_type, values, validity)),
    }
}

#[tactic(auto, unfolding(crate::specs::Decoding::decoded_primitive))]
fn read_native<'a, T: FixedWidth>(
    alloc: Global,
    data_type: &DataType,
    counts: NodeCounts,
    body: &'a [u8],
    cursor: BatchCursor<'a>,
) -> Result<(PrimitiveArray<T>, BatchCursor<'a>), IpcReadError>
    requires { physical_type (type_of data_type.now) ≡ physical.Primitive T.PRIMITIVE }
    ensures { ReturnsOrRunsOut (λ x. (x.0, rest_of x.1)) result (decoded_primitive T.format T.PRIMITIVE (type_of data_type.now) counts body.now (rest_of cursor.entry)) }
{
    let (validity, cursor) = read_validity_buffer(alloc, counts, body, cursor)?;
    let (bytes, cursor) = next_buffer(body, cursor)?;
    let values = read_values::<T>(alloc, counts.slots, bytes)?;
    let values = buffer_of(alloc, values)?;
    let array = array_of(alloc, data_type, values, validity)?;
    Ok((array, cursor))
}

// Reads a primitive array and wraps it in its variant.
macro_rules! read_as {
    ($variant:ident, $native:ty, $alloc:ident, $type:ident, $counts:ident, $body:ident, $cursor:ident) => {
        match read_native::<$native>($alloc, $type, $counts, $body, $cursor) {
            Err(error) => Err(error),
            Ok((array, cursor)) => Ok((AnyPrimitive::$variant(array), cursor)),
        }
    };
}

/// Reads the buffers of a primitive array: validity and values.
///
/// # Errors
///
/// `IpcReadError::UnsupportedType` if values of this type cannot be read, and those of the buffers.
pub(crate) fn read_primitive<'a>(
    alloc: Global,
    kind: PrimitiveType,
    data_type: &DataType,
    counts: NodeCounts,
    body: &'a [u8],
    cursor: BatchCursor<'a>,
) -> Result<(AnyPrimitive, BatchCursor<'a>), IpcReadError>
    requires { physical_type (type_of data_type.now) ≡ physical.Primitive kind }
    ensures { ReturnsOrRunsOut (λ x. (primitive_layout x.0, rest_of x.1)) result (decoded_fixed_width (format_of kind) kind (type_of data_type.now) counts body.now (rest_of cursor.entry)) }
{
    match kind {
        PrimitiveType::Int8 => read_as!(Int8, i8, alloc, data_type, counts, body, cursor),
        PrimitiveType::Int16 => read_as!(Int16, i16, alloc, data_type, counts, body, cursor),
        PrimitiveType::Int32 => read_as!(Int32, i32, alloc, data_type, counts, body, cursor),
        PrimitiveType::Int64 => read_as!(Int64, i64, alloc, data_type, counts, body, cursor),
        PrimitiveType::Int128 => read_as!(Int128, i128, alloc, data_type, counts, body, cursor),
        PrimitiveType::Int256 => read_as!(Int256, i256, alloc, data_type, counts, body, cursor),
        PrimitiveType::UInt8 => read_as!(UInt8, u8, alloc, data_type, counts, body, cursor),
        PrimitiveType::UInt16 => read_as!(UInt16, u16, alloc, data_type, counts, body, cursor),
        PrimitiveType::UInt32 => read_as!(UInt32, u32, alloc, data_type, counts, body, cursor),
        PrimitiveType::UInt64 => read_as!(UInt64, u64, alloc, data_type, counts, body, cursor),
        PrimitiveType::DaysMs => read_as!(DaysMs, days_ms, alloc, data_type, counts, body, cursor),
        PrimitiveType::MonthDayNano => {
            read_as!(
                MonthDayNano,
                months_days_ns,
                alloc,
                data_type,
                counts,
                body,
                cursor
            )
        }
        _ => Err(IpcReadError::UnsupportedType),
    }
}

/// Returns the size in bytes of `slots` values, or `IpcWriteError::Size` if it does not fit in a `usize`.
pub(crate) fn values_size<T: FixedWidth>(slots: usize) -> Result<usize, IpcWriteError>
    ensures ok { IfOk result (λ n. n ≡ slots * T.format.size) }
    ensures err { IfErr result (λ error. (error ≡ Size) × (2 ^ 63 ≤ slots * T.format.size)) }
{
    match slots.checked_mul(T::size()) {
        Some(size) => Ok(size),
        None => Err(IpcWriteError::Size),
    }
}

fn layout_native<T: FixedWidth>(
    layout: &mut BodyLayout,
    array: &PrimitiveArray<T>,
) -> Result<(), IpcWriteError>
    requires { layout.old.length < 2 ^ 63 }
    ensures nodes { layout.new.nodes ≡ layout.old.nodes }
    ensures ok { OnOk result (AppendsBuffers layout.old layout.new (flat_buffers array.now)) }
    ensures err { IfErr result (λ error. IsLayoutError error layout.old (flat_buffers array.now)) }
{
    array.known();
    let size = values_size::<T>(array.len())?;
    layout_buffers(layout, &[validity_size(array.validity()), size])
}

// Applies an expression to the array of every variant.
macro_rules! each_kind {
    ($any:expr, $array:ident => $body:expr) => {
        match $any {
            AnyPrimitive::Int8($array) => $body,
            AnyPrimitive::Int16($array) => $body,
            AnyPrimitive::Int32($array) => $body,
            AnyPrimitive::Int64($array) => $body,
            AnyPrimitive::Int128($array) => $body,
            AnyPrimitive::Int256($array) => $body,
            AnyPrimitive::UInt8($array) => $body,
            AnyPrimitive::UInt16($array) => $body,
            AnyPrimitive::UInt32($array) => $body,
            AnyPrimitive::UInt64($array) => $body,
            AnyPrimitive::DaysMs($array) => $body,
            AnyPrimitive::MonthDayNano($array) => $body,
        }
    };
}

/// Lays out the buffers of a primitive array.
pub(crate) fn layout_primitive(
    layout: &mut BodyLayout,
    array: &AnyPrimitive,
) -> Result<(), IpcWriteError>
    requires { layout.old.length < 2 ^ 63 }
    ensures nodes { layout.new.nodes ≡ layout.old.nodes }
    ensures ok { OnOk result (AppendsBuffers layout.old layout.new (flat_buffers (primitive_layout array.now))) }
    ensures err { IfErr result (λ error. IsLayoutError error layout.old (flat_buffers (primitive_layout array.now))) }
{
    each_kind!(array, array => layout_native(layout, array))
}

fn write_each<T: FixedWidth>(out: &mut Vec<u8>, values: &[T]) -> Result<(), AllocError>
    ensures ok { OnOk result (out.new.items ≡ out.old.items ++ values_bytes T.format (map T.numbers values.now)) }
    ensures round_trips { OnOk result (AllByRecursion (ValueRoundTrips T.format) (map T.numbers values.now)) }
{
    for value in values {
        value.put(out)?;
    }
    Ok(())
}

/// Appends values of a fixed width as a padded buffer.
#[tactic(auto, unfolding(crate::specs::BodyBuffers::padded))]
pub(crate) fn write_values<T: FixedWidth>(out: &mut Vec<u8>, values: &[T]) -> Result<(), AllocError>
    ensures ok { OnOk result (out.new.items ≡ out.old.items ++ padded (values_bytes T.format (map T.numbers values.now))) }
    ensures round_trips { OnOk result (AllByRecursion (ValueRoundTrips T.format) (map T.numbers values.now)) }
{
    out.reserve(values.len().saturating_mul(T::size()))?;
    let start = out.len();
    write_each(out, values)?;
    pad(out, start)
}

fn write_native<T: FixedWidth>(
    out: &mut Vec<u8>,
    array: &PrimitiveArray<T>,
) -> Result<(), AllocError>
    ensures ok { OnOk result (out.new.items ≡ out.old.items ++ body_of (flat_buffers array.now)) }
    ensures writable { OnOk result (IsWritable array.now) }
{
    array.known();
    write_validity(out, array.validity())?;
    write_values(out, array.values().as_slice())
}

/// Appends the buffers of a primitive array.
pub(crate) fn write_primitive(out: &mut Vec<u8>, array: &AnyPrimitive) -> Result<(), AllocError>
    ensures ok { OnOk result (out.new.items ≡ out.old.items ++ body_of (flat_buffers (primitive_layout array.now))) }
    ensures writable { OnOk result (IsWritable (primitive_layout array.now)) }
{
    each_kind!(array, array => write_native(out, array))
}

//! Dictionary-encoded arrays (Arrow: "Dictionary-encoded Layout").
//!
//! A record batch holds the keys, which the format calls indices. The values are in dictionary batches, and the caller passes them.
ghost use Rattle.std.specs.Prelude.{◌≡◌, ◌<◌, ◌^◌, ◌+◌, ◌++◌, length, map, IfErr, IfOk, IsSome, OnOk};
ghost use Rattle.std.specs.List.{AllByRecursion};
ghost use Rattle.std.specs.Option.{option_map};
ghost use Rattle.ipc_flatbuf.specs.ReadResults.{ReturnsOrRunsOut};
ghost use Rattle.nest_memory.specs.Physical.{physical_type, primitive_tree};
ghost use Rattle.nest_memory.specs.TypeOf.{type_of};
ghost use Rattle.nest_memory.specs.declared.datatypes.physical_type.PhysicalType.TheVariants as physical;
ghost use Rattle.nest_model.specs.Accessors.{key_kind};
ghost use Rattle.nest_model.specs.Fits.{ValidityFits};
ghost use Rattle.nest_model.specs.Layout as layouts;
ghost use Rattle.nest_array.specs.Seen.{layout_of};
ghost use Rattle.nest_array.specs.SeenKeys.{keys_layout};
ghost use Rattle.ipc_arrays.specs.Decoding.{rest_of, decoded_keys_as, decoded_keys, dictionary_over, decoded_dictionary};
ghost use Rattle.ipc_arrays.specs.DictionaryKeys.{key_or_zero, zero_at_nulls, AreKeysOf};
ghost use Rattle.ipc_arrays.specs.BodyBuffers.{body_of, padded};
ghost use Rattle.ipc_arrays.specs.FixedWidth.{values_bytes};
ghost use Rattle.ipc_arrays.specs.FixedWidthLaws.{ValueRoundTrips};
ghost use Rattle.ipc_arrays.specs.Encoding.{normalized_keys, key_buffers, flat_buffers, AppendsBuffers, IsLayoutError};
ghost use Rattle.ipc_arrays.specs.EncodingLaws.{IsWritable, KeysRoundTrip};

use crate::bytes::{buffer_of, pad};
use crate::cursor::{BatchCursor, NodeCounts, next_buffer, next_dictionary_values};
use crate::fixed_width::FixedWidth;
use crate::layout::{BodyLayout, layout_buffers};
use crate::native::{primitive_array, read_values, values_size};
use crate::validity::{read_validity_buffer, validity_size, write_validity};
use ipc_flatbuf::{IpcReadError, IpcWriteError};
use nest_array::any::AnyArray;
use nest_array::dictionary::DictionaryArray;
use nest_array::dictionary::keys::AnyKeys;
use nest_flat::primitive::PrimitiveArray;
use nest_memory::bitmap::immutable::Bitmap;
use nest_memory::buffer::Buffer;
use nest_memory::datatypes::{DataType, IntegerType};
use nest_memory::error::{Error, SpecError};
use std::alloc::{AllocError, Global};

// Returns the key of a slot, or 0 if the slot is null.
fn key_of<T: FixedWidth>(values: &[T], validity: Option<&Bitmap>, i: usize) -> T
    requires within { i < length values.now }
    requires fits { ValidityFits (option_map (λ b. b.now) validity) (length values.now) }
    requires keys { IsSome (key_kind T.PRIMITIVE) }
    ensures { T.numbers result ≡ key_or_zero (option_map (λ b. b.now) validity.entry) (map T.numbers values.now) i }
{
    match validity {
        Some(bits) if !bits.get_bit(i) => T::zero(),
        _ => values[i],
    }
}

// ---- reading

fn zero_each_null<T: FixedWidth>(
    alloc: Global,
    values: &[T],
    validity: Option<&Bitmap>,
) -> Result<Vec<T>, AllocError>
    requires fits { ValidityFits (option_map (λ b. b.now) validity) (length values.now) }
    requires keys { IsSome (key_kind T.PRIMITIVE) }
    ensures zero { IfOk result (λ v. map T.numbers v.items ≡ zero_at_nulls (option_map (λ b. b.now) validity.entry) (map T.numbers values.now)) }
    ensures slots { IfOk result (λ v. length v.items ≡ length values.now) }
{
    let mut keys = Vec::with_capacity(alloc, values.len())?;
    for i in 0..values.len() {
        keys.push_reserved(key_of(values, validity, i));
    }
    Ok(keys)
}

// Sets the key of each null slot to 0.
fn zero_nulls<T: FixedWidth>(
    alloc: Global,
    values: Vec<T>,
    validity: &Option<Bitmap>,
) -> Result<Vec<T>, AllocError>
    requires fits { ValidityFits validity.now (length values.items) }
    requires keys { IsSome (key_kind T.PRIMITIVE) }
    ensures zero { IfOk result (λ v. map T.numbers v.items ≡ zero_at_nulls validity.now (map T.numbers values.items)) }
    ensures slots { IfOk result (λ v. length v.items ≡ length values.items) }
{
    match validity {
        None => Ok(values),
        Some(bits) => zero_each_null(alloc, &values, Some(bits)),
    }
}

// Returns the primitive array of these keys.
fn keys_array<T: FixedWidth>(keys: Buffer<T>, validity: Option<Bitmap>) -> PrimitiveArray<T>
    requires { ValidityFits validity (length keys) }
    ensures { result ≡ layouts.primitive T.PRIMITIVE (primitive_tree T.PRIMITIVE) (map T.numbers keys) validity }
{
    primitive_array(DataType::from(T::PRIMITIVE), keys, validity)
}

#[tactic(auto, unfolding(crate::specs::Decoding::decoded_keys_as))]
fn read_keys_of<'a, T: FixedWidth>(
    alloc: Global,
    counts: NodeCounts,
    body: &'a [u8],
    cursor: BatchCursor<'a>,
) -> Result<(PrimitiveArray<T>, BatchCursor<'a>), IpcReadError>
    requires { IsSome (key_kind T.PRIMITIVE) }
    ensures { ReturnsOrRunsOut (λ x. (x.0, rest_of x.1)) result (decoded_keys_as T.format T.PRIMITIVE counts body.now (rest_of cursor.entry)) }
{
    let (validity, cursor) = read_validity_buffer(alloc, counts, body, cursor)?;
    let (bytes, cursor) = next_buffer(body, cursor)?;
    let values = read_values::<T>(alloc, counts.slots, bytes)?;
    let keys = zero_nulls(alloc, values, &validity)?;
    let keys = buffer_of(alloc, keys)?;
    Ok((keys_array(keys, validity), cursor))
}

// Reads keys and wraps them in the variant of their type.
macro_rules! keys_as {
    ($variant:ident, $key:ty, $alloc:ident, $counts:ident, $body:ident, $cursor:ident) => {
        match read_keys_of::<$key>($alloc, $counts, $body, $cursor) {
            Err(error) => Err(error),
            Ok((keys, cursor)) => Ok((AnyKeys::$variant(keys), cursor)),
        }
    };
}

fn read_keys<'a>(
    alloc: Global,
    kind: IntegerType,
    counts: NodeCounts,
    body: &'a [u8],
    cursor: BatchCursor<'a>,
) -> Result<(AnyKeys, BatchCursor<'a>), IpcReadError>
    ensures { ReturnsOrRunsOut (λ x. (keys_layout x.0, rest_of x.1)) result (decoded_keys kind counts body.now (rest_of cursor.entry)) }
{
    match kind {
        IntegerType::Int8 => keys_as!(Int8, i8, alloc, counts, body, cursor),
        IntegerType::Int16 => keys_as!(Int16, i16, alloc, counts, body, cursor),
        IntegerType::Int32 => keys_as!(Int32, i32, alloc, counts, body, cursor),
        IntegerType::Int64 => keys_as!(Int64, i64, alloc, counts, body, cursor),
        IntegerType::UInt8 => keys_as!(UInt8, u8, alloc, counts, body, cursor),
        IntegerType::UInt16 => keys_as!(UInt16, u16, alloc, counts, body, cursor),
        IntegerType::UInt32 => keys_as!(UInt32, u32, alloc, counts, body, cursor),
        IntegerType::UInt64 => keys_as!(UInt64, u64, alloc, counts, body, cursor),
    }
}

// Maps the error of the constructor to that of the format.
fn try_dictionary(
    alloc: Global,
    data_type: DataType,
    keys: AnyKeys,
    values: AnyArray,
) -> Result<DictionaryArray, IpcReadError>
    requires { AreKeysOf (type_of data_type) (keys_layout keys) }
    ensures { ReturnsOrRunsOut (λ a. a) result (dictionary_over (type_of data_type) (keys_layout keys) (layout_of values)) }
{
    keys.known();
    match DictionaryArray::try_new(alloc, data_type, keys, values) {
        Ok(array) => Ok(array),
        Err(Error::OutOfSpec(SpecError::ChildType)) => Err(IpcReadError::MissingDictionary),
        Err(Error::OutOfSpec(SpecError::KeyRange)) => Err(IpcReadError::KeyRange),
        Err(_) => Err(IpcReadError::Memory),
    }
}

// Returns the array of these keys over a shared copy of the values.
fn dictionary_of_keys(
    alloc: Global,
    data_type: &DataType,
    keys: AnyKeys,
    values: &AnyArray,
) -> Result<DictionaryArray, IpcReadError>
    requires { AreKeysOf (type_of data_type.now) (keys_layout keys) }
    ensures { ReturnsOrRunsOut (λ a. a) result (dictionary_over (type_of data_type.now) (keys_layout keys) (layout_of values.now)) }
{
    match values.clone(alloc) {
        Err(_) => {
            drop(keys);
            Err(IpcReadError::Memory)
        }
        Ok(values) => match data_type.clone(alloc) {
            Err(_) => {
                drop(values);
                drop(keys);
                Err(IpcReadError::Memory)
            }
            Ok(data_type) => try_dictionary(alloc, data_type, keys, values),
        },
    }
}

/// Reads the buffers of a dictionary-encoded array, validity and keys, and takes the next dictionary values.
///
/// # Errors
///
/// `IpcReadError::MissingDictionary` if the values are missing or have another type, `IpcReadError::KeyRange` if a valid key is not an
/// index of a value, and those of the buffers.
#[tactic(auto, unfolding(crate::specs::Decoding::decoded_dictionary))]
pub(crate) fn read_dictionary<'a>(
    alloc: Global,
    kind: IntegerType,
    data_type: &DataType,
    counts: NodeCounts,
    body: &'a [u8],
    cursor: BatchCursor<'a>,
) -> Result<(DictionaryArray, BatchCursor<'a>), IpcReadError>
    requires { physical_type (type_of data_type.now) ≡ physical.Dictionary kind }
    ensures { ReturnsOrRunsOut (λ x. (x.0, rest_of x.1)) result (decoded_dictionary kind (type_of data_type.now) counts body.now (rest_of cursor.entry)) }
{
    match read_keys(alloc, kind, counts, body, cursor) {
        Err(error) => Err(error),
        Ok((keys, cursor)) => match next_dictionary_values(cursor) {
            Err(error) => {
                drop(keys);
                Err(error)
            }
            Ok((values, cursor)) => match dictionary_of_keys(alloc, data_type, keys, values) {
                Err(error) => Err(error),
                Ok(array) => Ok((array, cursor)),
            },
        },
    }
}

// ---- writing

fn layout_keys<T: FixedWidth>(
    layout: &mut BodyLayout,
    keys: &PrimitiveArray<T>,
) -> Result<(), IpcWriteError>
    requires { layout.old.length < 2 ^ 63 }
    ensures nodes { layout.new.nodes ≡ layout.old.nodes }
    ensures ok { OnOk result (AppendsBuffers layout.old layout.new (key_buffers (normalized_keys keys.now))) }
    ensures err { IfErr result (λ error. IsLayoutError error layout.old (key_buffers (normalized_keys keys.now))) }
{
    keys.known();
    let size = values_size::<T>(keys.len())?;
    layout_buffers(layout, &[validity_size(keys.validity()), size])
}

// Applies an expression to the keys of every variant.
macro_rules! each_width {
    ($any:expr, $keys:ident => $body:expr) => {
        match $any {
            AnyKeys::Int8($keys) => $body,
            AnyKeys::Int16($keys) => $body,
            AnyKeys::Int32($keys) => $body,
            AnyKeys::Int64($keys) => $body,
            AnyKeys::UInt8($keys) => $body,
            AnyKeys::UInt16($keys) => $body,
            AnyKeys::UInt32($keys) => $body,
            AnyKeys::UInt64($keys) => $body,
        }
    };
}

fn layout_any_keys(layout: &mut BodyLayout, keys: &AnyKeys) -> Result<(), IpcWriteError>
    requires { layout.old.length < 2 ^ 63 }
    ensures nodes { layout.new.nodes ≡ layout.old.nodes }
    ensures ok { OnOk result (AppendsBuffers layout.old layout.new (key_buffers (normalized_keys (keys_layout keys.now)))) }
    ensures err { IfErr result (λ error. IsLayoutError error layout.old (key_buffers (normalized_keys (keys_layout keys.now)))) }
{
    each_width!(keys, keys => layout_keys(layout, keys))
}

/// Lays out the buffers of a dictionary-encoded array.
pub(crate) fn layout_dictionary(
    layout: &mut BodyLayout,
    array: &DictionaryArray,
) -> Result<(), IpcWriteError>
    requires { layout.old.length < 2 ^ 63 }
    ensures nodes { layout.new.nodes ≡ layout.old.nodes }
    ensures ok { OnOk result (AppendsBuffers layout.old layout.new (flat_buffers array.now)) }
    ensures err { IfErr result (λ error. IsLayoutError error layout.old (flat_buffers array.now)) }
{
    array.known();
    layout_any_keys(layout, array.keys())
}

fn write_each_key<T: FixedWidth>(
    out: &mut Vec<u8>,
    values: &[T],
    validity: Option<&Bitmap>,
) -> Result<(), AllocError>
    requires fits { ValidityFits (option_map (λ b. b.now) validity) (length values.now) }
    requires keys { IsSome (key_kind T.PRIMITIVE) }
    ensures ok { OnOk result (out.new.items ≡ out.old.items ++ values_bytes T.format (zero_at_nulls (option_map (λ b. b.now) validity.entry) (map T.numbers values.now))) }
    ensures round_trips { OnOk result (AllByRecursion (ValueRoundTrips T.format) (zero_at_nulls (option_map (λ b. b.now) validity.entry) (map T.numbers values.now))) }
{
    for i in 0..values.len() {
        key_of(values, validity, i).put(out)?;
    }
    Ok(())
}

#[tactic(auto, unfolding(crate::specs::BodyBuffers::padded))]
fn write_padded<T: FixedWidth>(
    out: &mut Vec<u8>,
    values: &[T],
    validity: Option<&Bitmap>,
) -> Result<(), AllocError>
    requires fits { ValidityFits (option_map (λ b. b.now) validity) (length values.now) }
    requires keys { IsSome (key_kind T.PRIMITIVE) }
    ensures ok { OnOk result (out.new.items ≡ out.old.items ++ padded (values_bytes T.format (zero_at_nulls (option_map (λ b. b.now) validity.entry) (map T.numbers values.now)))) }
    ensures round_trips { OnOk result (AllByRecursion (ValueRoundTrips T.format) (zero_at_nulls (option_map (λ b. b.now) validity.entry) (map T.numbers values.now))) }
{
    out.reserve(values.len().saturating_mul(T::size()))?;
    let start = out.len();
    write_each_key(out, values, validity)?;
    pad(out, start)
}

fn write_keys<T: FixedWidth>(out: &mut Vec<u8>, keys: &PrimitiveArray<T>) -> Result<(), AllocError>
    requires { IsSome (key_kind T.PRIMITIVE) }
    ensures ok { OnOk result (out.new.items ≡ out.old.items ++ body_of (key_buffers (normalized_keys keys.now))) }
    ensures round_trips { OnOk result (KeysRoundTrip keys.now) }
{
    keys.known();
    let validity = keys.validity();
    write_validity(out, validity)?;
    write_padded(out, keys.values().as_slice(), validity)
}

fn write_any_keys(out: &mut Vec<u8>, keys: &AnyKeys) -> Result<(), AllocError>
    ensures ok { OnOk result (out.new.items ≡ out.old.items ++ body_of (key_buffers (normalized_keys (keys_layout keys.now)))) }
    ensures round_trips { OnOk result (KeysRoundTrip (keys_layout keys.now)) }
{
    each_width!(keys, keys => write_keys(out, keys))
}

/// Appends the buffers of a dictionary-encoded array. The values belong to a dictionary batch.
pub(crate) fn write_dictionary(out: &mut Vec<u8>, array: &DictionaryArray) -> Result<(), AllocError>
    ensures ok { OnOk result (out.new.items ≡ out.old.items ++ body_of (flat_buffers array.now)) }
    ensures writable { OnOk result (IsWritable array.now) }
{
    array.known();
    write_any_keys(out, array.keys())
}

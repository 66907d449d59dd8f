//! Strings one after the other, from which UTF-8 arrays are made (Arrow: "Variable-size Binary Layout").
ghost use Rattle.std.specs.Prelude.{◌≡◌, ◌+◌, ◌∷◌, ◌++◌, [], length, IfOk, OnOk, Ok};
ghost use Rattle.ipc_flatbuf.specs.ReadResults.{ReturnsOrRunsOut};
ghost use Rattle.nest_memory.specs.Rising.{last_of};
ghost use Rattle.nest_memory.specs.TypeOf.{type_of};
ghost use Rattle.nest_model.specs.Fits.{Fits};
ghost use Rattle.nest_model.specs.Layout as layouts;
ghost use Rattle.ipc_arrays.specs.PackedStrings.{ArePacked};

use crate::bytes::buffer_of;
use ipc_flatbuf::IpcReadError;
use nest_flat::utf8::Utf8Array;
use nest_memory::bitmap::immutable::Bitmap;
use nest_memory::buffer::Buffer;
use nest_memory::datatypes::DataType;
use nest_memory::offset::Offset;
use nest_memory::offsets::{Offsets, OffsetsBuffer};
use std::alloc::{AllocError, Global};

/// The offsets and the bytes of strings, one after the other.
#[derive(Drop)]
pub(crate) struct PackedStrings<O: Offset> {
    pub offsets: Offsets<O>,
    pub bytes: Vec<u8>,
}

/// Returns no strings, with room for the offsets of `slots`.
pub(crate) fn no_packed_strings<O: Offset>(
    alloc: Global,
    slots: usize,
) -> Result<PackedStrings<O>, AllocError>
    ensures { IfOk result (λ p. ArePacked p.offsets p.bytes.items []) }
{
    match Offsets::with_capacity(alloc, slots) {
        Err(_) => Err(AllocError),
        Ok(offsets) => Ok(PackedStrings {
            offsets,
            bytes: Vec::new(alloc),
        }),
    }
}

/// Appends a string.
///
/// # Errors
///
/// `AllocError` if an allocation fails, or if the offset type cannot represent the end of the string.
pub(crate) fn push_string<O: Offset>(
    packed: &mut PackedStrings<O>,
    string: &[u8],
) -> Result<(), AllocError>
    ensures offsets { OnOk result (packed.new.offsets ≡ packed.old.offsets ++ (last_of packed.old.offsets + length string.now) ∷ []) }
    ensures bytes { OnOk result (packed.new.bytes.items ≡ packed.old.bytes.items ++ string.now) }
{
    packed.bytes.extend_from_slice(string)?;
    match packed.offsets.try_push_usize(string.len()) {
        Err(_) => Err(AllocError),
        Ok(()) => Ok(()),
    }
}

/// Returns the offsets and the bytes as shared buffers.
pub(crate) fn freeze_strings<O: Offset>(
    alloc: Global,
    packed: PackedStrings<O>,
) -> Result<(OffsetsBuffer<O>, Buffer<u8>), IpcReadError>
    ensures { ReturnsOrRunsOut (λ x. x) result (Ok (packed.offsets, packed.bytes.items)) }
{
    let PackedStrings { offsets, bytes } = packed;
    let mut offsets = offsets;
    match offsets.freeze() {
        Err(_) => Err(IpcReadError::Memory),
        Ok(offsets) => match buffer_of(alloc, bytes) {
            Err(error) => Err(error),
            Ok(bytes) => Ok((offsets, bytes)),
        },
    }
}

fn utf8_of_parts<O: Offset>(
    alloc: Global,
    data_type: &DataType,
    offsets: OffsetsBuffer<O>,
    bytes: Buffer<u8>,
    validity: Option<Bitmap>,
) -> Result<Utf8Array<O>, IpcReadError>
    requires { Fits (layouts.utf8 O.IS_LARGE (type_of data_type.now) offsets bytes validity) }
    ensures { ReturnsOrRunsOut (λ a. a) result (Ok (layouts.utf8 O.IS_LARGE (type_of data_type.now) offsets bytes validity)) }
{
    match data_type.clone(alloc) {
        Err(_) => Err(IpcReadError::Memory),
        Ok(data_type) => Ok(Utf8Array::new(data_type, offsets, bytes, validity)),
    }
}

/// Returns the UTF-8 array of packed strings.
pub(crate) fn utf8_of_packed<O: Offset>(
    alloc: Global,
    data_type: &DataType,
    packed: PackedStrings<O>,
    validity: Option<Bitmap>,
) -> Result<Utf8Array<O>, IpcReadError>
    requires { Fits (layouts.utf8 O.IS_LARGE (type_of data_type.now) packed.offsets packed.bytes.items validity) }
    ensures { ReturnsOrRunsOut (λ a. a) result (Ok (layouts.utf8 O.IS_LARGE (type_of data_type.now) packed.offsets packed.bytes.items validity)) }
{
    match freeze_strings(alloc, packed) {
        Err(error) => Err(error),
        Ok((offsets, bytes)) => utf8_of_parts(alloc, data_type, offsets, bytes, validity),
    }
}

//! The strings of a view array, one after the other (Arrow: "Variable-size Binary Layout").
ghost use Rattle.std.specs.Prelude.{◌≡◌, ◌+◌, ◌++◌, ◌∷◌, [], true, length, map, IfOk, OnOk};
ghost use Rattle.ipc_flatbuf.specs.ReadResults.{ReturnsOrRunsOut};
ghost use Rattle.nest_memory.specs.Native.{unsigned};
ghost use Rattle.nest_model.specs.Fits.{ValidityFits};
ghost use Rattle.ipc_arrays.specs.FixedWidth.{offset_format};
ghost use Rattle.ipc_arrays.specs.Views.{packed_strings, spec_packed_views};

use crate::bytes::is_enough;
use crate::fixed_width::FixedWidth;
use crate::stored::views::slot_string;
use ipc_flatbuf::IpcReadError;
use nest_memory::bitmap::immutable::Bitmap;
use std::alloc::{AllocError, Global};

/// The bytes of 64-bit offsets, and the data that they are offsets in.
#[derive(Drop)]
pub(crate) struct PackedViews {
    pub offsets: Vec<u8>,
    pub values: Vec<u8>,
}

// Returns no strings, with room for the offsets of `slots`.
fn no_strings(alloc: Global, slots: usize) -> Result<PackedViews, AllocError>
    ensures { IfOk result (λ p. (p.offsets.items, p.values.items) ≡ packed_strings []) }
{
    let mut offsets = Vec::with_capacity(alloc, slots.saturating_add(1).saturating_mul(8))?;
    0i64.put(&mut offsets)?;
    Ok(PackedViews {
        offsets,
        values: Vec::new(alloc),
    })
}

// Appends a string, and the offset of its end.
fn push_string(packed: &mut PackedViews, string: &[u8]) -> Result<(), AllocError>
    ensures offsets { OnOk result (packed.new.offsets.items ≡ packed.old.offsets.items ++ (offset_format true).bytes (unsigned (length packed.old.values.items + length string.now))) }
    ensures values { OnOk result (packed.new.values.items ≡ packed.old.values.items ++ string.now) }
{
    packed.values.extend_from_slice(string)?;
    let end = packed.values.len() as i64;
    end.put(&mut packed.offsets)
}

/// Returns the strings of the slots of a view array, one after the other.
///
/// # Errors
///
/// `IpcReadError::BufferTooShort` if there are fewer views than slots, and those of [`slot_string`].
#[tactic(auto, unfolding(crate::specs::Views::spec_packed_views, crate::specs::Views::viewed_strings))]
pub(crate) fn pack_views<'a>(
    alloc: Global,
    validity: &Option<Bitmap>,
    slots: usize,
    views: &'a [u8],
    variadic: &[&'a [u8]],
) -> Result<PackedViews, IpcReadError>
    requires { ValidityFits validity.now slots }
    ensures { ReturnsOrRunsOut (λ p. (p.offsets.items, p.values.items)) result (spec_packed_views validity.now slots views.now (map (λ b. b.now) variadic.now)) }
{
    if !is_enough(views.len(), slots, 16) {
        return Err(IpcReadError::BufferTooShort);
    }
    let mut packed = no_strings(alloc, slots)?;
    for i in 0..slots {
        match slot_string(validity, views, variadic, i) {
            Err(error) => return Err(error),
            Ok(string) => push_string(&mut packed, string)?,
        }
    }
    Ok(packed)
}

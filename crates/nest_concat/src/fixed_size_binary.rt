//! Concatenation of fixed-size binary arrays.
ghost use Rattle.std.specs.Prelude.{◌≡◌, IfOk, IsOkUnless, alloc_error};
ghost use Rattle.std.specs.List.{flat_map};
ghost use Rattle.nest_memory.specs.TypeTree.{size_of};
ghost use Rattle.nest_memory.specs.declared.datatypes.physical_type.PhysicalType.TheVariants as physical;
ghost use Rattle.nest_array.specs.Seen.{layout_of};
ghost use Rattle.nest_concat.specs.Words.{AreWithin, IsJoined, Memory, blocks_in, count_slots, layout_type, physical_type, laid, PassesLimits};

use crate::{bits, natives};
use nest_array::{AnyArray, FixedSizeBinaryArray, Window};
use nest_memory::buffer::Buffer;
use nest_memory::error::Error;
use std::alloc::Global;

/// Returns the bytes of windows over fixed-size binary arrays of the type of `array`.
fn bytes(
    alloc: Global,
    array: &FixedSizeBinaryArray,
    windows: &[Window<'_>],
    total: usize,
) -> Result<Buffer<u8>, Error>
    requires within { AreWithin (layout_type array.now) windows.now }
    ensures ok { IfOk result (λ b. b ≡ flat_map (blocks_in (size_of (layout_type array.now))) windows.now) }
    ensures err { IsOkUnless result (Memory alloc_error) }
{
    array.known();
    let size = array.size();
    let mut taken = Vec::with_capacity(alloc, total.saturating_mul(size))?;
    for window in windows {
        taken.extend_from_slice(blocks(window, size))?;
    }
    Buffer::from_vec(alloc, taken)
}

/// Returns the bytes of a window.
fn blocks<'a>(window: &Window<'a>, size: usize) -> &'a [u8]
    requires kind { physical_type (layout_type window.now.array) ≡ physical.FixedSizeBinary }
    requires size { size ≡ size_of (layout_type window.now.array) }
    ensures { result.now ≡ blocks_in size window.now }
{
    window.known();
    let Some(array) = window.array().as_fixed_size_binary() else {
        unreachable!()
    };
    array.known();
    let _len = array.values().len();
    natives::part(
        array.values().as_slice(),
        window.offset() * size,
        window.len() * size,
    )
}

/// Concatenates windows over fixed-size binary arrays, with the data type of `array`, one of them.
/// `total` is the number of slots.
#[inline(never)]
pub(crate) fn join(
    alloc: Global,
    array: &FixedSizeBinaryArray,
    windows: &[Window<'_>],
    total: usize,
) -> Result<AnyArray, Error>
    requires within { AreWithin (layout_type array.now) windows.now }
    requires total { total ≡ count_slots windows.now }
    ensures ok { IfOk result (λ a. IsJoined (layout_type array.now) windows.now (layout_of a)) }
    ensures laid { IfOk result (λ a. layout_of a ≡ laid array.now windows.now) }
    ensures room { IfOk result (λ a. PassesLimits array.now windows.now → ⊥) }
    ensures err { IsOkUnless result (Memory alloc_error) }
{
    array.known();
    let bytes = bytes(alloc, array, windows, total)?;
    let validity = bits::validity(alloc, windows, total)?;
    let data_type = array.data_type().clone(alloc)?;
    Ok(AnyArray::FixedSizeBinary(FixedSizeBinaryArray::new(data_type, bytes, validity)))
}

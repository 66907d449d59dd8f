//! Concatenation of Boolean arrays.
ghost use Rattle.std.specs.Prelude.{◌≡◌, ◌+◌, ◌<◌, ◌^◌, ◌++◌, IfOk, IsOkUnless, OnOk, alloc_error, length};
ghost use Rattle.std.specs.List.{flat_map};
ghost use Rattle.nest_memory.specs.declared.datatypes.physical_type.PhysicalType.TheVariants as physical;
ghost use Rattle.nest_array.specs.Seen.{layout_of};
ghost use Rattle.nest_concat.specs.Words.{AreOfKind, AreWithin, IsJoined, Memory, count_slots, layout_type, physical_type, booleans_in, laid, PassesLimits};

use crate::bits;
use nest_array::{AnyArray, Window};
use nest_flat::boolean::BooleanArray;
use nest_memory::bitmap::immutable::Bitmap;
use nest_memory::bitmap::mutable::MutableBitmap;
use nest_memory::error::Error;
use std::alloc::Global;

/// Appends the bits of a window.
fn push_booleans(taken: &mut MutableBitmap, window: &Window<'_>) -> Result<(), Error>
    requires kind { physical_type (layout_type window.now.array) ≡ physical.Boolean }
    requires room { length taken.old + window.now.count < 2 ^ 64 }
    ensures ok { OnOk result (taken.new ≡ taken.old ++ booleans_in window.now) }
    ensures count { OnOk result (length taken.new ≡ length taken.old + window.now.count) }
    ensures err { IsOkUnless result (Memory alloc_error) }
{
    window.known();
    let Some(array) = window.array().as_boolean() else {
        unreachable!()
    };
    array.known();
    bits::push_bits(taken, array.values(), window.offset(), window.len())
}

/// Returns the bits of windows. `total` is the number of slots.
fn booleans(alloc: Global, windows: &[Window<'_>], total: usize) -> Result<Bitmap, Error>
    requires kind { AreOfKind physical.Boolean windows.now }
    requires total { total ≡ count_slots windows.now }
    ensures ok { IfOk result (λ b. b ≡ flat_map booleans_in windows.now) }
    ensures err { IsOkUnless result (Memory alloc_error) }
{
    let mut taken = MutableBitmap::with_capacity(alloc, total)?;
    for window in windows {
        push_booleans(&mut taken, window)?;
    }
    taken.freeze()
}

/// Concatenates windows over Boolean arrays, with the data type of one of them. `total` is the number of slots.
#[inline(never)]
pub(crate) fn join(
    alloc: Global,
    array: &BooleanArray,
    windows: &[Window<'_>],
    total: usize,
) -> Result<AnyArray, Error>
    requires within { AreWithin (layout_type array.now) windows.now }
    requires total { total ≡ count_slots windows.now }
    ensures ok { IfOk result (λ a. IsJoined (layout_type array.now) windows.now (layout_of a)) }
    ensures laid { IfOk result (λ a. layout_of a ≡ laid array.now windows.now) }
    ensures room { IfOk result (λ a. PassesLimits array.now windows.now → ⊥) }
    ensures err { IsOkUnless result (Memory alloc_error) }
{
    array.known();
    let values = booleans(alloc, windows, total)?;
    let validity = bits::validity(alloc, windows, total)?;
    let data_type = array.data_type().clone(alloc)?;
    match BooleanArray::try_new(data_type, values, validity) {
        Ok(joined) => Ok(AnyArray::Boolean(joined)),
        Err(error) => Err(error),
    }
}

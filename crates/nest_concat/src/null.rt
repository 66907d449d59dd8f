//! Concatenation of null arrays.
ghost use Rattle.std.specs.Prelude.{◌≡◌, IfOk, IsOkUnless, alloc_error};
ghost use Rattle.nest_model.specs.Layout as layouts;
ghost use Rattle.nest_array.specs.Seen.{layout_of};
ghost use Rattle.nest_concat.specs.Words.{AreWithin, IsJoined, Memory, count_slots, layout_type, laid, PassesLimits};

use nest_array::{AnyArray, NullArray, Window};
use nest_memory::error::Error;
use std::alloc::Global;

/// Returns `len` nulls of the data type of `array`.
fn of_len(alloc: Global, array: &NullArray, len: usize) -> Result<AnyArray, Error>
    ensures ok { IfOk result (λ a. layout_of a ≡ layouts.null (layout_type array.now) len) }
    ensures err { IsOkUnless result (Memory alloc_error) }
{
    array.known();
    let data_type = array.data_type().clone(alloc)?;
    Ok(AnyArray::Null(NullArray::new(data_type, len)))
}

/// Concatenates windows over null arrays, with the data type of `array`, one of them. `total` is the number of slots.
#[inline(never)]
pub(crate) fn join(
    alloc: Global,
    array: &NullArray,
    windows: &[Window<'_>],
    total: usize,
) -> Result<AnyArray, Error>
    requires within { AreWithin (layout_type array.now) windows.now }
    requires total { total ≡ count_slots windows.now }
    ensures ok { IfOk result (λ a. IsJoined (layout_type array.now) windows.now (layout_of a)) }
    ensures laid { IfOk result (λ a. layout_of a ≡ laid array.now windows.now) }
    ensures room { IfOk result (λ a. PassesLimits array.now windows.now → ⊥) }
    ensures err { IsOkUnless result (Memory alloc_error) }
{
    let _ = windows;
    array.known();
    of_len(alloc, array, total)
}

//! Bits of windows: Boolean values and validity bitmaps.
ghost use Rattle.std.specs.Prelude.{◌≡◌, ◌+◌, ◌<◌, ◌≤◌, ◌^◌, ◌++◌, IfOk, IsOkUnless, OnOk, alloc_error, length};
ghost use Rattle.nest_concat.specs.Words.{AreArrays, Memory, bits_in, count_slots, sublist, have_bits, concatenated_validity};

use nest_array::Window;
use nest_memory::bitmap::immutable::Bitmap;
use nest_memory::bitmap::mutable::MutableBitmap;
use nest_memory::error::Error;
use std::alloc::Global;

/// Appends `n` bits from index `start`.
pub(crate) fn push_bits(
    taken: &mut MutableBitmap,
    bits: &Bitmap,
    start: usize,
    n: usize,
) -> Result<(), Error>
    requires within { start + n ≤ length bits.now }
    requires room { length taken.old + n < 2 ^ 64 }
    ensures ok { OnOk result (taken.new ≡ taken.old ++ sublist bits.now start n) }
    ensures err { IsOkUnless result (Memory alloc_error) }
{
    let _end = bits.len();
    for i in 0..n {
        taken.push(bits.get_bit(start + i))?;
    }
    Ok(())
}

/// Appends the validity bits of a window, all set where its array has no bitmap.
fn push_validity(taken: &mut MutableBitmap, window: &Window<'_>) -> Result<(), Error>
    requires room { length taken.old + window.now.count < 2 ^ 64 }
    ensures ok { OnOk result (taken.new ≡ taken.old ++ bits_in window.now) }
    ensures count { OnOk result (length taken.new ≡ length taken.old + window.now.count) }
    ensures err { IsOkUnless result (Memory alloc_error) }
{
    window.known();
    window.array().known();
    match window.array().validity() {
        None => taken.extend_constant(window.len(), true),
        Some(bits) => push_bits(taken, bits, window.offset(), window.len()),
    }
}

/// Returns whether some array has a validity bitmap.
fn have_validity(windows: &[Window<'_>]) -> bool
    ensures { result ≡ have_bits windows.now }
{
    for window in windows {
        if window.array().validity().is_some() {
            return true;
        }
    }
    false
}

/// Returns the validity bitmap of windows, `None` where no array has one. `total` is the number of slots.
pub(crate) fn validity(
    alloc: Global,
    windows: &[Window<'_>],
    total: usize,
) -> Result<Option<Bitmap>, Error>
    requires { total ≡ count_slots windows.now }
    ensures ok { IfOk result (λ v. v ≡ concatenated_validity windows.now) }
    ensures err { IsOkUnless result (Memory alloc_error) }
{
    if !have_validity(windows) {
        return Ok(None);
    }
    let mut taken = MutableBitmap::with_capacity(alloc, total)?;
    for window in windows {
        push_validity(&mut taken, window)?;
    }
    Ok(Some(taken.freeze()?))
}

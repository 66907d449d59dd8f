//! Windows over rows between offsets, shared by binary, UTF-8, list and map arrays.
ghost use Rattle.std.specs.Prelude.{◌≡◌, ◌+◌, ◌<◌, ◌≤◌, ◌^◌, ◌++◌, ◌∷◌, ℕ, pos, false, true, IfOk, IsOkUnless, MatchResult, OnOk, alloc_error, length, map, sum};
ghost use Rattle.std.specs.List.{flat_map, sum_by};
ghost use Rattle.nest_memory.specs.declared.datatypes.physical_type.PhysicalType.{PhysicalType};
ghost use Rattle.nest_memory.specs.declared.datatypes.physical_type.PhysicalType.TheVariants as physical;
ghost use Rattle.nest_array.specs.Seen.{layout_of};
ghost use Rattle.nest_concat.specs.Words.{AreArrays, AreOfKind, Memory, Overflow, PassesOffsets, TopFits, begin, bytes_in, bytes_of, child_of, window_item_count, count_rows, ends_from, extents, extents_in, first_item, items_in, last_of, layout_type, len, offsets_of, physical_type};

use nest_array::{AnyArray, Window};
use nest_memory::buffer::Buffer;
use nest_memory::error::Error;
use nest_memory::offset::Offset;
use nest_memory::offsets::OffsetsBuffer;
use std::alloc::Global;

/// An array type with offsets.
pub(crate) trait Spanned<O: Offset> {
    /// The physical type of these arrays.
    ghost kind: { PhysicalType };

    /// Returns the offsets of an array of this type.
    fn offsets(array: &AnyArray) -> &OffsetsBuffer<O>
        requires { physical_type (layout_type (layout_of array.now)) ≡ kind }
        ensures offsets { result.now ≡ offsets_of (layout_of array.now) }
        ensures rows { count_rows result.now ≡ len (layout_of array.now) };
}

/// An array type with offsets and bytes.
pub(crate) trait SpannedBytes<O: Offset>: Spanned<O> {
    /// Returns the bytes of an array of this type.
    fn bytes(array: &AnyArray) -> &[u8]
        requires { physical_type (layout_type (layout_of array.now)) ≡ Self.kind }
        ensures bytes { result.now ≡ bytes_of (layout_of array.now) }
        ensures within { last_of (offsets_of (layout_of array.now)) ≤ length result.now };
}

/// An array type with offsets and a child.
pub(crate) trait SpannedItems<O: Offset>: Spanned<O> {
    /// Returns the child of an array of this type.
    fn items(array: &AnyArray) -> &AnyArray
        requires { physical_type (layout_type (layout_of array.now)) ≡ Self.kind }
        ensures items { layout_of result.now ≡ child_of (layout_of array.now) }
        ensures within { last_of (offsets_of (layout_of array.now)) ≤ len (layout_of result.now) };
}

/// Returns the offset at index `i`.
fn offset_at<O: Offset>(offsets: &OffsetsBuffer<O>, i: usize) -> usize
    requires { i ≤ count_rows offsets.now }
    ensures offset { result ≡ begin offsets.now i }
    ensures within { result ≤ last_of offsets.now }
    ensures small { O.largest < 2 ^ 63 }
{
    offsets.known();
    if i < offsets.len_proxy() {
        offsets.start_end(i).0
    } else {
        offsets.last()
    }
}

/// Returns the index of the first item of a window, and the number of its items.
fn range<O: Offset, K: Spanned<O>>(window: &Window<'_>) -> (usize, usize)
    requires kind { physical_type (layout_type window.now.array) ≡ K.kind }
    ensures first { result.0 ≡ first_item window.now }
    ensures count { result.1 ≡ window_item_count window.now }
    ensures within { result.0 + result.1 ≤ last_of (offsets_of window.now.array) }
    ensures fits { last_of (offsets_of window.now.array) < 2 ^ 63 }
{
    window.known();
    window.array().known();
    let offsets = K::offsets(window.array());
    offsets.known();
    let _len = window.array().len();
    let start = window.offset();
    let first = offset_at(offsets, start);
    let end = offset_at(offsets, start + window.len());
    (first, end - first)
}

/// Returns the number of items of the windows.
///
/// # Errors
/// `Overflow` where it is more than the largest offset.
pub(crate) fn count<O: Offset, K: Spanned<O>>(windows: &[Window<'_>]) -> Result<usize, Error>
    requires kind { AreOfKind K.kind windows.now }
    ensures { MatchResult result
        (λ n. (n ≡ sum_by window_item_count windows.now) × (n ≤ O.largest))
        (λ e. (e ≡ Overflow) × PassesOffsets O.IS_LARGE windows.now) }
{
    let mut count: usize = 0;
    for window in windows {
        let Some(sum) = count.checked_add(range::<O, K>(window).1) else {
            return Err(Error::Overflow);
        };
        count = sum;
    }
    if O::from_usize(count).is_none() {
        return Err(Error::Overflow);
    }
    Ok(count)
}

/// Converts a number of items to an offset.
fn offset_of<O: Offset>(n: usize) -> O
    requires { n ≤ O.largest }
    ensures { O.value result ≡ pos n }
{
    match O::from_usize(n) {
        Some(offset) => offset,
        None => unreachable!(),
    }
}

// Each end is computed from the old offset and not from the end before it, so the iterations are independent.
/// Appends the ends of `n` rows from row `start`, the first of which begins at `base`.
fn push_rows<O: Offset>(
    ends: &mut Vec<O>,
    offsets: &OffsetsBuffer<O>,
    start: usize,
    n: usize,
    base: usize,
) -> Result<(), Error>
    requires within { start + n ≤ count_rows offsets.now }
    requires room { base + begin offsets.now (start + n) ≤ O.largest + begin offsets.now start }
    ensures ok { OnOk result (map O.value ends.new.items ≡ map O.value ends.old.items ++ map (λ n. pos n) (ends_from base (extents offsets.now start n))) }
    ensures err { IsOkUnless result (Memory alloc_error) }
{
    offsets.known();
    let first = offset_at(offsets, start);
    for i in 0..n {
        let (_, to) = offsets.start_end(start + i);
        ends.push(offset_of(base + (to - first)))?;
    }
    Ok(())
}

/// Appends the ends of the rows of a window, the first of which begins at `base`, and returns the last end.
fn push_window<O: Offset, K: Spanned<O>>(
    ends: &mut Vec<O>,
    window: &Window<'_>,
    base: usize,
) -> Result<usize, Error>
    requires kind { physical_type (layout_type window.now.array) ≡ K.kind }
    requires room { base + window_item_count window.now ≤ O.largest }
    ensures ok { OnOk result (map O.value ends.new.items ≡ map O.value ends.old.items ++ map (λ n. pos n) (ends_from base (extents_in window.now))) }
    ensures end { IfOk result (λ n. n ≡ base + window_item_count window.now) }
    ensures rows { IfOk result (λ n. n ≡ base + sum (extents_in window.now)) }
    ensures err { IsOkUnless result (Memory alloc_error) }
{
    window.known();
    let (_, count) = range::<O, K>(window);
    let offsets = K::offsets(window.array());
    offsets.known();
    push_rows(ends, offsets, window.offset(), window.len(), base)?;
    Ok(base + count)
}

/// Returns the offsets of the rows of windows, from 0. `total` is the number of rows.
pub(crate) fn offsets<O: Offset, K: Spanned<O>>(
    alloc: Global,
    windows: &[Window<'_>],
    total: usize,
) -> Result<OffsetsBuffer<O>, Error>
    requires kind { AreOfKind K.kind windows.now }
    requires room { sum_by window_item_count windows.now ≤ O.largest }
    ensures ok { IfOk result (λ b. b ≡ 0 ∷ ends_from 0 (flat_map extents_in windows.now)) }
    ensures err { IsOkUnless result (Memory alloc_error) }
{
    let mut ends = Vec::with_capacity(alloc, total.saturating_add(1))?;
    ends.push(offset_of(0))?;
    let mut base = 0;
    for window in windows {
        base = push_window::<O, K>(&mut ends, window, base)?;
    }
    OffsetsBuffer::try_new(alloc, ends)
}

/// Returns the bytes of a window.
fn bytes_of_window<'a, O: Offset, K: SpannedBytes<O>>(window: &Window<'a>) -> &'a [u8]
    requires kind { physical_type (layout_type window.now.array) ≡ K.kind }
    ensures { result.now ≡ bytes_in window.now }
{
    let (first, n) = range::<O, K>(window);
    let bytes = K::bytes(window.array());
    &bytes[first..first + n]
}

/// Returns the bytes of windows, `count` in all.
pub(crate) fn bytes<O: Offset, K: SpannedBytes<O>>(
    alloc: Global,
    windows: &[Window<'_>],
    count: usize,
) -> Result<Buffer<u8>, Error>
    requires kind { AreOfKind K.kind windows.now }
    ensures ok { IfOk result (λ b. b ≡ flat_map bytes_in windows.now) }
    ensures err { IsOkUnless result (Memory alloc_error) }
{
    let mut taken = Vec::with_capacity(alloc, count)?;
    for window in windows {
        taken.extend_from_slice(bytes_of_window::<O, K>(window))?;
    }
    Buffer::from_vec(alloc, taken)
}

/// Returns the window over the items of a window.
fn items_of_window<'a, O: Offset, K: SpannedItems<O>>(window: &Window<'a>) -> Window<'a>
    requires kind { physical_type (layout_type window.now.array) ≡ K.kind }
    ensures parts { result ≡ items_in window.now }
    ensures fits { TopFits result.array }
{
    let (first, n) = range::<O, K>(window);
    let items = K::items(window.array());
    items.known();
    Window::new(items, first, n)
}

/// Returns the windows over the items of windows.
pub(crate) fn items<'a, O: Offset, K: SpannedItems<O>>(
    alloc: Global,
    windows: &[Window<'a>],
) -> Result<Vec<Window<'a>>, Error>
    requires kind { AreOfKind K.kind windows.now }
    ensures ok { IfOk result (λ v. v.items ≡ map items_in windows.now) }
    ensures fit { IfOk result (λ v. AreArrays v.items) }
    ensures err { IsOkUnless result (Memory alloc_error) }
{
    let mut items = Vec::with_capacity(alloc, windows.len())?;
    for window in windows {
        items.push_reserved(items_of_window::<O, K>(window));
    }
    Ok(items)
}

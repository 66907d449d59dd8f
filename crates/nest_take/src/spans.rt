//! Rows between offsets, shared by binary, UTF-8, list and map arrays.
ghost use Rattle.std.specs.Prelude.{◌≡◌, ◌+◌, ◌<◌, ◌≤◌, ◌^◌, ◌⊎◌, ◌∷◌, [], IfOk, IfErr, IsOkUnless, MatchResult, alloc_error, length, map, option_map};
ghost use Rattle.std.specs.List.{sum_by};
ghost use Rattle.nest_flat.specs.FlatParts.{ValidityCovers};
ghost use Rattle.nest_take.specs.Words.{AreBelow, Memory, Overflow, PassesOffsets, ReachesBits, begin, count_at, ends_from, item_indices, items_at, last_of, count_rows, taken_validity};
ghost use Rattle.nest_take.specs.Indices.{IsItemCount};

use crate::indices;
use nest_memory::bitmap::immutable::Bitmap;
use nest_memory::buffer::Buffer;
use nest_memory::error::Error;
use nest_memory::offset::Offset;
use nest_memory::offsets::{Offsets, OffsetsBuffer};
use std::alloc::Global;

/// Returns the index of the first item of row `i`, and the number of its items, 0 for a null.
fn range<O: Offset>(
    offsets: &OffsetsBuffer<O>,
    validity: Option<&Bitmap>,
    i: usize,
) -> (usize, usize)
    requires within { i < count_rows offsets.now }
    requires bits { ValidityCovers (option_map (λ b. b.now) validity) (i + 1) }
    ensures start { result.0 ≡ begin offsets.now i }
    ensures count { result.1 ≡ count_at offsets.now (option_map (λ b. b.now) validity.entry) i }
    ensures within { result.0 + result.1 ≤ last_of offsets.now }
    ensures fits { last_of offsets.now < 2 ^ 63 }
{
    offsets.known();
    let (start, end) = offsets.start_end(i);
    if indices::is_valid(validity, i) {
        (start, end - start)
    } else {
        (start, 0)
    }
}

/// Returns the number of items of the rows at `indices`.
///
/// # Errors
/// `Overflow` where it is more than the largest offset.
pub(crate) fn count<O: Offset>(
    offsets: &OffsetsBuffer<O>,
    validity: Option<&Bitmap>,
    indices: &[usize],
) -> Result<usize, Error>
    requires within { AreBelow indices.now (count_rows offsets.now) }
    requires bits { ReachesBits (option_map (λ b. b.now) validity) indices.now }
    ensures { let va = option_map (λ b. b.now) validity.entry in MatchResult result
        (IsItemCount O.largest offsets.now va indices.now)
        (λ e. (e ≡ Overflow) × PassesOffsets O.IS_LARGE offsets.now va indices.now) }
{
    let mut count: usize = 0;
    for place in indices {
        let Some(sum) = count.checked_add(range(offsets, validity, *place).1) else {
            return Err(Error::Overflow);
        };
        count = sum;
    }
    if O::from_usize(count).is_none() {
        return Err(Error::Overflow);
    }
    Ok(count)
}

/// Returns the single offset 0, with capacity for `slots` rows.
fn room_for<O: Offset>(alloc: Global, slots: usize) -> Result<Offsets<O>, Error>
    ensures ok { IfOk result (λ b. b ≡ 0 ∷ []) }
    ensures err { IsOkUnless result (Memory alloc_error) }
{
    let mut ends = Offsets::new(alloc)?;
    ends.reserve(slots)?;
    Ok(ends)
}

/// Returns the offsets of the rows at `indices`, from 0.
fn offsets_at<O: Offset>(
    alloc: Global,
    offsets: &OffsetsBuffer<O>,
    validity: Option<&Bitmap>,
    indices: &[usize],
) -> Result<OffsetsBuffer<O>, Error>
    requires within { AreBelow indices.now (count_rows offsets.now) }
    requires bits { ReachesBits (option_map (λ b. b.now) validity) indices.now }
    requires room { sum_by (count_at offsets.now (option_map (λ b. b.now) validity)) indices.now ≤ O.largest }
    ensures ok { IfOk result (λ b. b ≡ 0 ∷ ends_from 0 (map (count_at offsets.now (option_map (λ b. b.now) validity.entry)) indices.now)) }
    ensures err { IsOkUnless result (Memory alloc_error) }
{
    let mut ends = room_for(alloc, indices.len())?;
    for place in indices {
        ends.try_push_usize(range(offsets, validity, *place).1)?;
    }
    ends.freeze()
}

/// Returns the indices of the items of the rows at `indices`, `count` in all.
pub(crate) fn items<O: Offset>(
    alloc: Global,
    offsets: &OffsetsBuffer<O>,
    validity: Option<&Bitmap>,
    indices: &[usize],
    count: usize,
) -> Result<Vec<usize>, Error>
    requires within { AreBelow indices.now (count_rows offsets.now) }
    requires bits { ReachesBits (option_map (λ b. b.now) validity) indices.now }
    ensures ok { IfOk result (λ v. v.items ≡ item_indices offsets.now (option_map (λ b. b.now) validity.entry) indices.now) }
    ensures err { IsOkUnless result (Memory alloc_error) }
{
    let mut items = Vec::with_capacity(alloc, count)?;
    for place in indices {
        let (start, n) = range(offsets, validity, *place);
        indices::push_range(&mut items, start, n)?;
    }
    Ok(items)
}

/// Returns the offsets of the rows at `indices`, from 0, and their bytes, `count` in all.
fn bytes_at<O: Offset>(
    alloc: Global,
    offsets: &OffsetsBuffer<O>,
    validity: Option<&Bitmap>,
    bytes: &[u8],
    indices: &[usize],
    count: usize,
) -> Result<(OffsetsBuffer<O>, Buffer<u8>), Error>
    requires within { AreBelow indices.now (count_rows offsets.now) }
    requires bits { ReachesBits (option_map (λ b. b.now) validity) indices.now }
    requires fits { last_of offsets.now ≤ length bytes.now }
    requires room { sum_by (count_at offsets.now (option_map (λ b. b.now) validity)) indices.now ≤ O.largest }
    ensures offsets { IfOk result (λ p. p.0 ≡ 0 ∷ ends_from 0 (map (count_at offsets.now (option_map (λ b. b.now) validity.entry)) indices.now)) }
    ensures bytes { IfOk result (λ p. p.1 ≡ items_at bytes.now offsets.now (option_map (λ b. b.now) validity.entry) indices.now) }
    ensures err { IsOkUnless result (Memory alloc_error) }
{
    let mut ends = room_for(alloc, indices.len())?;
    let mut taken = Vec::with_capacity(alloc, count)?;
    for place in indices {
        let (start, n) = range(offsets, validity, *place);
        ends.try_push_usize(n)?;
        taken.extend_from_slice(&bytes[start..start + n])?;
    }
    Ok((ends.freeze()?, Buffer::from_vec(alloc, taken)?))
}

/// Offsets, the bytes between them, and a validity bitmap.
#[derive(Drop)]
pub(crate) struct Spans<O: Offset> {
    pub(crate) offsets: OffsetsBuffer<O>,
    pub(crate) bytes: Buffer<u8>,
    pub(crate) validity: Option<Bitmap>,
}

/// Takes the rows of bytes at `indices`.
pub(crate) fn take<O: Offset>(
    alloc: Global,
    offsets: &OffsetsBuffer<O>,
    validity: Option<&Bitmap>,
    bytes: &[u8],
    indices: &[usize],
) -> Result<Spans<O>, Error>
    requires within { AreBelow indices.now (count_rows offsets.now) }
    requires bits { ReachesBits (option_map (λ b. b.now) validity) indices.now }
    requires fits { last_of offsets.now ≤ length bytes.now }
    ensures offsets { IfOk result (λ s. s.offsets ≡ 0 ∷ ends_from 0 (map (count_at offsets.now (option_map (λ b. b.now) validity.entry)) indices.now)) }
    ensures bytes { IfOk result (λ s. s.bytes ≡ items_at bytes.now offsets.now (option_map (λ b. b.now) validity.entry) indices.now) }
    ensures validity { IfOk result (λ s. s.validity ≡ taken_validity (option_map (λ b. b.now) validity.entry) indices.now) }
    ensures err { IfErr result (λ e. (e ≡ Memory alloc_error) ⊎ ((e ≡ Overflow) × PassesOffsets O.IS_LARGE offsets.now (option_map (λ b. b.now) validity.entry) indices.now)) }
{
    let count = count(offsets, validity, indices)?;
    let (offsets, bytes) = bytes_at(alloc, offsets, validity, bytes, indices, count)?;
    Ok(Spans {
        offsets,
        bytes,
        validity: indices::validity_at(alloc, validity, indices)?,
    })
}

/// Offsets, the indices of the items between them, and a validity bitmap.
#[derive(Drop)]
pub(crate) struct Rows<O: Offset> {
    pub(crate) offsets: OffsetsBuffer<O>,
    pub(crate) items: Vec<usize>,
    pub(crate) validity: Option<Bitmap>,
}

/// Takes the rows at `indices`, whose items are in another array.
pub(crate) fn take_rows<O: Offset>(
    alloc: Global,
    offsets: &OffsetsBuffer<O>,
    validity: Option<&Bitmap>,
    indices: &[usize],
) -> Result<Rows<O>, Error>
    requires within { AreBelow indices.now (count_rows offsets.now) }
    requires bits { ReachesBits (option_map (λ b. b.now) validity) indices.now }
    ensures offsets { IfOk result (λ s. s.offsets ≡ 0 ∷ ends_from 0 (map (count_at offsets.now (option_map (λ b. b.now) validity.entry)) indices.now)) }
    ensures items { IfOk result (λ s. s.items.items ≡ item_indices offsets.now (option_map (λ b. b.now) validity.entry) indices.now) }
    ensures validity { IfOk result (λ s. s.validity ≡ taken_validity (option_map (λ b. b.now) validity.entry) indices.now) }
    ensures err { IfErr result (λ e. (e ≡ Memory alloc_error) ⊎ ((e ≡ Overflow) × PassesOffsets O.IS_LARGE offsets.now (option_map (λ b. b.now) validity.entry) indices.now)) }
{
    let count = count(offsets, validity, indices)?;
    Ok(Rows {
        offsets: offsets_at(alloc, offsets, validity, indices)?,
        items: items(alloc, offsets, validity, indices, count)?,
        validity: indices::validity_at(alloc, validity, indices)?,
    })
}

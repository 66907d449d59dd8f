//! Values, bits and item indices of the rows at given indices.
ghost use Rattle.std.specs.Prelude.{◌≡◌, ◌+◌, ◌*◌, ◌<◌, ◌^◌, ◌++◌, IfOk, IsOkUnless, MatchResult, OnOk, alloc_error, length, option_map};
ghost use Rattle.std.specs.List.{All, range_with_len};
ghost use Rattle.nest_flat.specs.FlatParts.{ValidityCovers};
ghost use Rattle.nest_take.specs.Words.{AreAt, AreBelow, Memory, Overflow, PassesLength, ReachesBits, block_indices, taken_validity, valid_at};

use nest_memory::bitmap::immutable::Bitmap;
use nest_memory::bitmap::mutable::MutableBitmap;
use nest_memory::buffer::Buffer;
use nest_memory::error::Error;
use std::alloc::Global;

/// Returns the values at `indices`.
pub(crate) fn values_at<T: Copy>(
    alloc: Global,
    values: &[T],
    indices: &[usize],
) -> Result<Buffer<T>, Error>
    requires { AreBelow indices.now (length values.now) }
    ensures ok { IfOk result (λ b. AreAt values.now indices.now b) }
    ensures err { IsOkUnless result (Memory alloc_error) }
{
    let mut taken = Vec::with_capacity(alloc, indices.len())?;
    for place in indices {
        taken.push_reserved(values[*place]);
    }
    Buffer::from_vec(alloc, taken)
}

/// Returns the bits at `indices`.
pub(crate) fn bits_at(alloc: Global, bits: &Bitmap, indices: &[usize]) -> Result<Bitmap, Error>
    requires { AreBelow indices.now (length bits.now) }
    ensures ok { IfOk result (λ b. AreAt bits.now indices.now b) }
    ensures err { IsOkUnless result (Memory alloc_error) }
{
    let mut taken = MutableBitmap::with_capacity(alloc, indices.len())?;
    for place in indices {
        taken.push(bits.get_bit(*place))?;
    }
    taken.freeze()
}

/// Returns the validity bitmap of the rows at `indices`.
pub(crate) fn validity_at(
    alloc: Global,
    validity: Option<&Bitmap>,
    indices: &[usize],
) -> Result<Option<Bitmap>, Error>
    requires { ReachesBits (option_map (λ b. b.now) validity) indices.now }
    ensures ok { IfOk result (λ v. v ≡ taken_validity (option_map (λ b. b.now) validity.entry) indices.now) }
    ensures err { IsOkUnless result (Memory alloc_error) }
{
    match validity {
        None => Ok(None),
        Some(bits) => Ok(Some(bits_at(alloc, bits, indices)?)),
    }
}

/// Returns whether row `i` is valid.
pub(crate) fn is_valid(validity: Option<&Bitmap>, i: usize) -> bool
    requires { ValidityCovers (option_map (λ b. b.now) validity) (i + 1) }
    ensures { result ≡ valid_at (option_map (λ b. b.now) validity.entry) i }
{
    match validity {
        None => true,
        Some(bits) => bits.get_bit(i),
    }
}

/// Appends the `n` numbers from `start`.
#[tactic(auto, using(crate::proofs::Pieces::range_more))]
pub(crate) fn push_range(numbers: &mut Vec<usize>, start: usize, n: usize) -> Result<(), Error>
    requires { start + n < 2 ^ 64 }
    ensures ok { OnOk result (numbers.new.items ≡ numbers.old.items ++ range_with_len start n) }
    ensures err { IsOkUnless result (Memory alloc_error) }
{
    for i in 0..n {
        numbers.push(start + i)?;
    }
    Ok(())
}

/// Returns the indices of the items of the rows at `indices`, of `n` items each.
pub(crate) fn blocks(alloc: Global, n: usize, indices: &[usize]) -> Result<Vec<usize>, Error>
    requires { All (λ i. i * n + n < 2 ^ 64) indices.now }
    ensures ok { IfOk result (λ v. v.items ≡ block_indices n indices.now) }
    ensures err { IsOkUnless result (Memory alloc_error) }
{
    let mut items = Vec::with_capacity(alloc, indices.len().saturating_mul(n))?;
    for place in indices {
        push_range(&mut items, *place * n, n)?;
    }
    Ok(items)
}

/// Returns the number of items of the rows at `indices`, of `n` items each.
///
/// # Errors
/// `Overflow` where it is 2^64 or more.
pub(crate) fn count_blocks(n: usize, indices: &[usize]) -> Result<usize, Error>
    ensures { MatchResult result (λ m. m ≡ length indices.now * n) (λ e. (e ≡ Overflow) × PassesLength n indices.now) }
{
    indices.len().checked_mul(n).ok_or(Error::Overflow)
}

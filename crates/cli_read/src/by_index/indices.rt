//! Sorted indices: those in a record batch, and the positions of others among them.
ghost use Rattle.std.specs.Prelude.{◌≤◌, ◌<◌, ◌^◌, ℕ, IfOk, get_or, length};
ghost use Rattle.std.specs.List.{Contains};
ghost use Rattle.std.specs.List.Sorted.{IsNonDecreasing, IsPermutation};
ghost use Rattle.cli_read.specs.Indices.{HaveRanks, AreIndicesInBatch, IsElementAt, AreSortedFrom, AreElementsOf};

use std::alloc::{AllocError, Global};

/// Returns indices sorted from the least to the greatest.
pub(crate) fn sort_indices(alloc: Global, indices: &[usize]) -> Result<Vec<usize>, AllocError>
    ensures same { IfOk result (λ v. IsPermutation indices.now v.items) }
    ensures rise { IfOk result (λ v. IsNonDecreasing v.items) }
{
    let mut sorted = Vec::new(alloc);
    sorted.extend_from_slice(indices)?;
    sorted.sort_unstable();
    Ok(sorted)
}

/// Returns the leading sorted indices that are in a record batch of `rows` rows after `passed` rows, as indices in the batch.
pub(crate) fn indices_in_batch(
    alloc: Global,
    indices: &[usize],
    passed: usize,
    rows: usize,
) -> Result<Vec<usize>, AllocError>
    ensures fits { (i : ℕ) → get_or indices.now i 0 < 2 ^ 64 }
    ensures count { IfOk result (λ v. length v.items ≤ length indices.now) }
    ensures within { IfOk result (λ v. AreSortedFrom passed indices.now → AreIndicesInBatch indices.now passed rows v.items) }
{
    let mut found = Vec::new(alloc);
    for index in indices {
        let k = index.saturating_sub(passed);
        if k >= rows {
            return Ok(found);
        }
        found.push(k)?;
    }
    Ok(found)
}

/// Returns the position of an index among sorted indices.
fn position(sorted_indices: &[usize], index: usize) -> usize
    ensures { IsNonDecreasing sorted_indices.now → Contains sorted_indices.now index → IsElementAt sorted_indices.now result index }
{
    match sorted_indices.binary_search(&index) {
        Ok(k) => k,
        Err(k) => k,
    }
}

/// Returns the position of each index among sorted indices.
pub(crate) fn positions(
    alloc: Global,
    sorted_indices: &[usize],
    indices: &[usize],
) -> Result<Vec<usize>, AllocError>
    ensures { IfOk result (λ v. IsNonDecreasing sorted_indices.now → AreElementsOf sorted_indices.now indices.now → HaveRanks sorted_indices.now indices.now v.items) }
{
    let mut positions = Vec::new(alloc);
    for index in indices {
        positions.push(position(sorted_indices, *index))?;
    }
    Ok(positions)
}

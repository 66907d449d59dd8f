//! Builders of lists and of fixed-size lists, over a builder of their values.
ghost use Rattle.std.specs.Prelude.{◌≡◌, ◌⊎◌, IfErr, IfOk, alloc_error};
ghost use Rattle.nest_build.specs.Words.{InvalidArgumentError, ItemSize};
ghost use Rattle.guide.specs.Words.{Memory, empty_pair_builder, four_lists, last_two_lists, slots_of, three_pairs};

use std::alloc::Global;
use tiekvorn::error::Error;
use tiekvorn::{
    FixedSizeListArray, ListArray, MutableArray, MutableFixedSizeListArray, MutableListArray,
    MutablePrimitiveArray,
};

/// A builder of lists of 64-bit integers with 32-bit offsets.
type ListBuilder = MutableListArray<i32, MutablePrimitiveArray<i64>>;

/// Builds the list array `[[1, 2], null, [], [3, null]]`.
pub fn lists(alloc: Global) -> Result<ListArray, Error>
    ensures { IfOk result (λ a. slots_of a ≡ four_lists) }
{
    let mut builder: ListBuilder = MutableListArray::new(alloc, MutablePrimitiveArray::new(alloc))?;
    builder.try_push_slice(Some(&[Some(1), Some(2)]))?;
    builder.try_push_slice(None)?;
    builder.try_push_slice(Some(&[]))?;
    builder.try_push_slice(Some(&[Some(3), None]))?;
    builder.freeze()
}

/// Builds the list array `[[], [3, null]]`.
pub fn two_lists(alloc: Global) -> Result<ListArray, Error>
    ensures { IfOk result (λ a. slots_of a ≡ last_two_lists) }
{
    let mut builder: ListBuilder = MutableListArray::new(alloc, MutablePrimitiveArray::new(alloc))?;
    builder.try_push_slice(Some(&[]))?;
    builder.try_push_slice(Some(&[Some(3), None]))?;
    builder.freeze()
}

/// A builder of lists of two integers each.
pub type PairBuilder = MutableFixedSizeListArray<MutablePrimitiveArray<i64>>;

/// Returns an empty builder of pairs.
pub fn new_pair_builder(alloc: Global) -> Result<PairBuilder, Error>
    ensures { IfOk result (λ b. ⟦<PairBuilder as MutableArray>⟧.model b ≡ empty_pair_builder) }
{
    MutableFixedSizeListArray::new(alloc, MutablePrimitiveArray::new(alloc), 2)
}

/// Builds the fixed-size list array `[[1, null], null, [3, 4]]`. The null has two null values under it.
pub fn fixed_size_lists(alloc: Global) -> Result<FixedSizeListArray, Error>
    ensures { IfOk result (λ a. slots_of a ≡ three_pairs) }
{
    let mut builder = new_pair_builder(alloc)?;
    builder.try_push_slice(Some(&[Some(1), None]))?;
    builder.try_push_slice(None)?;
    builder.try_push_slice(Some(&[Some(3), Some(4)]))?;
    builder.freeze()
}

/// Pushes three values to a builder of pairs, which refuses them and changes neither the lists nor their values.
pub fn push_three(pairs: &mut PairBuilder) -> Result<(), Error>
    requires { ⟦<PairBuilder as MutableArray>⟧.model pairs.old ≡ empty_pair_builder }
    ensures refused { IfOk result (λ _. ⊥) }
    ensures cause { IfErr result (λ e. (e ≡ Memory alloc_error) ⊎ (e ≡ InvalidArgumentError ItemSize)) }
    ensures same { ⟦<PairBuilder as MutableArray>⟧.model pairs.new ≡ ⟦<PairBuilder as MutableArray>⟧.model pairs.old }
{
    pairs.try_push_slice(Some(&[Some(1), Some(2), Some(3)]))
}

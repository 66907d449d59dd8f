//! `concatenate` and `interleave`: the slots of several arrays, one array after another or by array and index.
ghost use Rattle.std.specs.Prelude.{◌≡◌, ◌∷◌, ◌++◌, ◌<◌, ◌≤◌, ◌-◌, ◌↔◌, ℕ, List, [], IfErr, IfOk, IsErrOf, false, length, map, true};
ghost use Rattle.nest_array.specs.Seen.{layout_of};
ghost use Rattle.nest_concat.specs.Interleaved.{AreIndicesOf, IsInterleaved, RefusesInterleave};
ghost use Rattle.nest_concat.specs.Joined.{AreOfOneType, IsConcatenated};
ghost use Rattle.nest_concat.specs.Laid.{joined_layout, joins_past};
ghost use Rattle.nest_memory.specs.declared.error.ArgumentError.TheVariants.{ItemType};
ghost use Rattle.nest_memory.specs.declared.error.Error.TheVariants.{InvalidArgumentError, Overflow};
ghost use Rattle.nest_model.specs.Layout.{Layout};
ghost use Rattle.nest_model.specs.Meaning.{len};
ghost use Rattle.nest_model.specs.SameArray.{IsSameArray};
ghost use Rattle.nest_model.specs.Slice.{slice_layout};

use nest_array::AnyArray;
use nest_memory::error::Error;
use std::alloc::Global;

/// Returns the array whose parts are those of the arrays, one after another. No limit of the layout is exceeded, and `Overflow` is
/// returned only where one is.
pub fn concatenated_layout(alloc: Global, parts: &[AnyArray]) -> Result<AnyArray, Error>
    ensures parts { IfOk result (λ a. layout_of a ≡ joined_layout (map layout_of parts.now)) }
    ensures limit { IfOk result (λ a. joins_past (map layout_of parts.now) ≡ false) }
    ensures overflow { IsErrOf result Overflow → joins_past (map layout_of parts.now) ≡ true }
{
    nest_concat::concatenate(alloc, parts)
}

/// Returns slots of several arrays, each named by its array and its index there.
pub fn interleave_slots(
    alloc: Global,
    arrays: &[AnyArray],
    indices: &[(usize, usize)],
) -> Result<AnyArray, Error>
    requires { AreIndicesOf (map layout_of arrays.now) indices.now }
    ensures ok { IfOk result (λ a. IsInterleaved (map layout_of arrays.now) indices.now (layout_of a)) }
    ensures types { IsErrOf result (InvalidArgumentError ItemType) ↔ (AreOfOneType (map layout_of arrays.now) → ⊥) }
    ensures err { IfErr result (λ e. RefusesInterleave e (map layout_of arrays.now) indices.now) }
{
    nest_concat::interleave(alloc, arrays, indices)
}

/// Concatenating one array returns an equal array.
pub fn one_array()
    ensures { (a b : Layout) → IsConcatenated (a ∷ []) b → IsSameArray b a }
{
    nest_concat::laws::one_array();
}

/// Concatenating the two slices of an array at an index returns an equal array.
pub fn slices_of_an_array()
    ensures { (a b : Layout) (k : ℕ) → k ≤ len a → IsConcatenated (slice_layout a 0 k ∷ slice_layout a k (len a - k) ∷ []) b → IsSameArray b a }
{
    nest_concat::laws::slices_of_one_array();
}

/// A concatenated array may itself be concatenated, before or after other arrays.
pub fn concatenation_is_associative()
    ensures first { (bs cs : List Layout) (a d : Layout) → 0 < length bs → IsConcatenated bs a → IsConcatenated (a ∷ cs) d → IsConcatenated (bs ++ cs) d }
    ensures last { (bs cs : List Layout) (a d : Layout) → 0 < length bs → IsConcatenated cs a → IsConcatenated (bs ++ a ∷ []) d → IsConcatenated (bs ++ cs) d }
{
    nest_concat::laws::of_concatenated();
}

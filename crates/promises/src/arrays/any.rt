//! Every array represents the list of slots that its parts encode. Its parts are its layout; `slots_of` the layout is the list.
//!
//! The functions of this module hold for every `A: Array`: each kind of array and `AnyArray`. Constructors are in
//! [`crate::arrays::constructors`], the values of each nested kind in [`crate::arrays::values`].
ghost use Rattle.std.specs.Prelude.{◌≡◌, ◌+◌, ◌≤◌, ◌<◌, ◌↔◌, false, IsTrue, IfOk, IsOkUnless, MatchOption, not, alloc_error};
ghost use Rattle.nest_array.specs.Downcasts.{HasKind, IsDowncast};
ghost use Rattle.nest_array.specs.Seen.{layout_of};
ghost use Rattle.nest_memory.specs.Sublist.{sublist};
ghost use Rattle.nest_memory.specs.TypeOf.{type_of};
ghost use Rattle.nest_memory.specs.declared.datatypes.physical_type.PhysicalType.TheVariants as physical;
ghost use Rattle.nest_memory.specs.declared.error.Error.TheVariants.{Memory};
ghost use Rattle.nest_model.specs.Array.{TopFits};
ghost use Rattle.nest_model.specs.Layout.{layout_type};
ghost use Rattle.nest_model.specs.Meaning.{len, slot, slots_of};
ghost use Rattle.nest_model.specs.Nullness.{has_keys, is_null_at, null_count};
ghost use Rattle.nest_model.specs.Slice.{slice_layout};
ghost use Rattle.nest_model.specs.Slot as slots;
ghost use Rattle.promises.specs.Validities.{IsUnderValidity, SetsValidity};

use nest_array::{AnyArray, Array};
use nest_flat::any_primitive::NativeArray;
use nest_memory::bitmap::immutable::Bitmap;
use nest_memory::datatypes::DataType;
use nest_memory::error::Error;
use std::alloc::Global;

/// Returns the number of slots.
pub fn slot_count<A: Array>(array: &A) -> usize
    ensures { result ≡ len (A.layout array.now) }
{
    array.len()
}

/// Returns the data type of the array.
pub fn data_type_of<A: Array>(array: &A) -> &DataType
    ensures { type_of result.now ≡ layout_type (A.layout array.now) }
{
    array.data_type()
}

/// Returns whether the slot at an index is null by the validity; each slot of a null array is.
/// A valid key of a dictionary may name a null value; in every other kind this is whether the slot is null.
pub fn is_null<A: Array>(array: &A, i: usize) -> bool
    requires { i < len (A.layout array.now) }
    ensures slot { has_keys (A.layout array.now) ≡ false → (IsTrue result ↔ (slot (A.layout array.now) i ≡ slots.null)) }
    ensures index { result ≡ is_null_at (A.layout array.now) i }
{
    array.is_null(i)
}

/// Returns whether the slot at an index is not null by the validity.
pub fn is_valid<A: Array>(array: &A, i: usize) -> bool
    requires { i < len (A.layout array.now) }
    ensures { result ≡ not (is_null_at (A.layout array.now) i) }
{
    array.is_valid(i)
}

/// Returns the number of slots that are null by the validity.
pub fn null_count_of<A: Array>(array: &A) -> usize
    ensures { result ≡ null_count (A.layout array.now) }
{
    array.null_count()
}

/// Returns a slice that shares the array's memory: the slice of the list, of the same data type.
pub fn slice_shared<A: Array>(
    array: &A,
    alloc: Global,
    o: usize,
    n: usize,
) -> Result<AnyArray, Error>
    requires { o + n ≤ len (A.layout array.now) }
    ensures slots { IfOk result (λ a. slots_of (layout_of a) ≡ sublist (slots_of (A.layout array.now)) o n) }
    ensures data_type { IfOk result (λ a. layout_type (layout_of a) ≡ layout_type (A.layout array.now)) }
    ensures err { IsOkUnless result (Memory alloc_error) }
{
    array.sliced(alloc, o, n)
}

/// Returns a copy as `AnyArray`, with the same parts.
pub fn to_boxed<A: Array>(array: &A, alloc: Global) -> Result<AnyArray, Error>
    ensures ok { IfOk result (λ a. layout_of a ≡ A.layout array.now) }
    ensures err { IsOkUnless result (Memory alloc_error) }
{
    array.to_boxed(alloc)
}

/// Returns the array under a new validity, which replaces the old one and nothing else. Fails exactly where the validity has an
/// error, or when an allocation fails.
pub fn with_new_validity<A: Array>(
    array: &A,
    alloc: Global,
    validity: Option<Bitmap>,
) -> Result<AnyArray, Error>
    ensures { IsUnderValidity (A.layout array.now) validity result }
{
    array.with_validity(alloc, validity)
}

/// Sets a new validity; a validity with an error changes nothing.
pub fn set_new_validity(array: &mut AnyArray, validity: Option<Bitmap>) -> Result<(), Error>
    ensures { SetsValidity (layout_of array.old) validity (layout_of array.new) result }
{
    array.set_validity(validity)
}

/// Returns a slice of an array that is passed by value.
pub fn slice_any(array: AnyArray, o: usize, n: usize) -> AnyArray
    requires { o + n ≤ len (layout_of array) }
    ensures parts { layout_of result ≡ slice_layout (layout_of array) o n }
    ensures slots { slots_of (layout_of result) ≡ sublist (slots_of (layout_of array)) o n }
    ensures data_type { layout_type (layout_of result) ≡ layout_type (layout_of array) }
{
    array.sliced(o, n)
}

/// Returns a copy of an array of any kind, with the same parts.
pub fn clone_any(array: &AnyArray, alloc: Global) -> Result<AnyArray, Error>
    ensures ok { IfOk result (λ a. layout_of a ≡ layout_of array.now) }
    ensures err { IsOkUnless result (Memory alloc_error) }
{
    array.clone(alloc)
}

/// Returns the primitive array of a native type, exactly where the array is of that kind.
pub fn as_primitive<T: NativeArray>(array: &AnyArray) -> Option<&T::Array>
    ensures { MatchOption result
        (HasKind (physical.Primitive T.PRIMITIVE) (layout_of array.now) → ⊥)
        (λ a. IsDowncast (physical.Primitive T.PRIMITIVE) (layout_of array.now) (T.layout_of_array a.now)) }
{
    array.as_primitive::<T>()
}

/// Every array satisfies what its constructor checked at the top level. [`crate::arrays::levels`] has every level.
pub fn array_fits(array: &AnyArray)
    ensures { TopFits (layout_of array.now) }
{
    array.known();
}

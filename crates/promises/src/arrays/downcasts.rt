//! Conversion of `AnyArray` to the array of its kind, by reference or by value, and back. By value an array of another kind is
//! returned unchanged. List, primitive and dictionary arrays represent the conversions of the other kinds here.
ghost use Rattle.std.specs.Prelude.{◌≡◌, IfOk, IsOkUnless, MatchOption, MatchResult, alloc_error};
ghost use Rattle.nest_array.specs.Downcasts.{HasKind, IsAnyPrimitive, IsDowncast, IsNotPrimitive, IsOtherKind};
ghost use Rattle.nest_array.specs.Kinds.{IsKeyed};
ghost use Rattle.nest_array.specs.Seen.{layout_of};
ghost use Rattle.nest_flat.specs.AnyPrimitive.{primitive_layout};
ghost use Rattle.nest_memory.specs.Physical.{physical_type};
ghost use Rattle.nest_memory.specs.declared.datatypes.physical_type.PhysicalType.TheVariants as physical;
ghost use Rattle.nest_memory.specs.declared.error.Error.TheVariants.{Memory};
ghost use Rattle.nest_model.specs.Layout.{layout_type};

use nest_array::array::ArrayVariant;
use nest_array::{AnyArray, Boxed, DictionaryArray, ListArray};
use nest_flat::any_primitive::AnyPrimitive;
use nest_memory::error::Error;
use std::alloc::Global;
use std::rc::Rc;

/// Returns the list array by reference, exactly where the array is of that kind.
pub fn as_list(array: &AnyArray) -> Option<&ListArray>
    ensures { MatchOption result
        (¬ HasKind physical.List (layout_of array.now))
        (λ a. IsDowncast physical.List (layout_of array.now) a.now) }
{
    array.as_list()
}

/// Returns the list array by value, or the array where it is of another kind.
pub fn into_list(array: AnyArray) -> Result<ListArray, AnyArray>
    ensures { MatchResult result
        (λ a. IsDowncast physical.List (layout_of array) a)
        (λ a. IsOtherKind physical.List (layout_of array) (layout_of a)) }
{
    array.into_list()
}

/// Returns the primitive array by value, or the array where it is of another kind.
pub fn into_primitive(array: AnyArray) -> Result<AnyPrimitive, AnyArray>
    ensures { MatchResult result
        (λ a. IsAnyPrimitive (layout_of array) (primitive_layout a))
        (λ a. IsNotPrimitive (layout_of array) (layout_of a)) }
{
    array.into_any_primitive()
}

/// Returns the dictionary array by value, or the array where it is of another kind.
pub fn into_dictionary(array: AnyArray) -> Result<DictionaryArray, AnyArray>
    ensures { let kind = physical_type (layout_type (layout_of array)) in MatchResult result
        (λ a. IsKeyed kind × (a ≡ layout_of array))
        (λ a. ¬ IsKeyed kind × (layout_of a ≡ layout_of array)) }
{
    array.into_dictionary()
}

/// Returns an array of one kind as `AnyArray`.
pub fn to_any<A: ArrayVariant>(array: A) -> AnyArray
    ensures { layout_of result ≡ A.parts array }
{
    Boxed::boxed(array)
}

/// Returns an array of one kind as `AnyArray` in an `Rc`.
pub fn to_shared_any<A: ArrayVariant>(alloc: Global, array: A) -> Result<Rc<AnyArray>, Error>
    ensures ok { IfOk result (λ r. layout_of r.value ≡ A.parts array) }
    ensures err { IsOkUnless result (Memory alloc_error) }
{
    Boxed::arced(array, alloc)
}

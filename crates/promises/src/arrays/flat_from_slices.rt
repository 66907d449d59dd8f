//! Flat arrays made of the values, or the optional values, of a slice.
//!
//! The array has the slots of the slice in order and the default data type of such values. It has a validity exactly where
//! an item is `None`.
ghost use Rattle.std.specs.Option.{option_copied, unwrap_or};
ghost use Rattle.std.specs.Prelude.{◌≡◌, ◌≤◌, ◌<◌, ◌⊎◌, false, IfErr, IfOk, IsOkUnless, None, OnOk, map, option_map, alloc_error};
ghost use Rattle.nest_flat.specs.BytesGrowth.{binary_tree, text_tree};
ghost use Rattle.nest_flat.specs.FlatParts.{optional};
ghost use Rattle.nest_flat.specs.Growth.{zeros};
ghost use Rattle.nest_flat.specs.Slices.{option_bits};
ghost use Rattle.nest_memory.specs.Physical.{primitive_tree};
ghost use Rattle.nest_memory.specs.TypeTree as types;
ghost use Rattle.nest_memory.specs.declared.error.Error.TheVariants.{Memory, Overflow};
ghost use Rattle.nest_model.specs.Accessors.{validity_of};
ghost use Rattle.nest_model.specs.BuilderItem.{bytes_held};
ghost use Rattle.nest_model.specs.Layout as layouts;
ghost use Rattle.nest_model.specs.Layout.{layout_type};
ghost use Rattle.nest_model.specs.Meaning.{slots_of};
ghost use Rattle.nest_model.specs.Slot as slots;

use nest_flat::binary::BinaryArray;
use nest_flat::boolean::BooleanArray;
use nest_flat::primitive::PrimitiveArray;
use nest_flat::utf8::Utf8Array;
use nest_memory::error::Error;
use nest_memory::offset::Offset;
use nest_memory::types::NativeType;
use std::alloc::Global;

/// Returns a primitive array of values without nulls.
pub fn primitive_from_slice<T: NativeType>(
    alloc: Global,
    values: &[T],
) -> Result<PrimitiveArray<T>, Error>
    ensures parts { IfOk result (λ a. a ≡ layouts.primitive T.PRIMITIVE (primitive_tree T.PRIMITIVE) (map T.numbers values.now) None) }
    ensures slots { IfOk result (λ a. slots_of a ≡ map (λ x. slots.number (T.numbers x)) values.now) }
    ensures memory { IsOkUnless result (Memory alloc_error) }
{
    PrimitiveArray::from_slice(alloc, values)
}

/// Returns a primitive array of values and nulls; the value under a null is zero.
pub fn primitive_from_options<T: NativeType>(
    alloc: Global,
    items: &[Option<T>],
) -> Result<PrimitiveArray<T>, Error>
    ensures parts { let p = T.PRIMITIVE in IfOk result (λ a. a ≡ layouts.primitive p (primitive_tree p)
        (map (λ x. unwrap_or (option_map T.numbers x) (zeros p)) items.now) (option_bits items.now)) }
    ensures slots { IfOk result (λ a. slots_of a ≡ map (optional (λ x. slots.number (T.numbers x))) items.now) }
    ensures memory { IsOkUnless result (Memory alloc_error) }
{
    PrimitiveArray::from_options(alloc, items)
}

/// Returns a boolean array of values without nulls.
pub fn boolean_from_slice(alloc: Global, values: &[bool]) -> Result<BooleanArray, Error>
    ensures parts { IfOk result (λ a. a ≡ layouts.boolean types.boolean values.now None) }
    ensures slots { IfOk result (λ a. slots_of a ≡ map slots.boolean values.now) }
    ensures memory { IsOkUnless result (Memory alloc_error) }
{
    BooleanArray::from_slice(alloc, values)
}

/// Returns a boolean array of values and nulls; the bit under a null is unset.
pub fn boolean_from_options(alloc: Global, items: &[Option<bool>]) -> Result<BooleanArray, Error>
    ensures parts { IfOk result (λ a. a ≡ layouts.boolean types.boolean (map (λ x. unwrap_or x false) items.now) (option_bits items.now)) }
    ensures slots { IfOk result (λ a. slots_of a ≡ map (optional slots.boolean) items.now) }
    ensures memory { IsOkUnless result (Memory alloc_error) }
{
    BooleanArray::from_options(alloc, items)
}

/// Returns a UTF-8 array of strings without nulls. Fails with `Overflow` exactly where an offset would exceed its type.
pub fn utf8_from_slice<O: Offset>(alloc: Global, strings: &[&str]) -> Result<Utf8Array<O>, Error>
    ensures slots { IfOk result (λ a. slots_of a ≡ map (λ x. slots.utf8 x.now) strings.now) }
    ensures data_type { IfOk result (λ a. layout_type a ≡ text_tree O.IS_LARGE) }
    ensures valid { IfOk result (λ a. validity_of a ≡ None) }
    ensures limit { OnOk result (bytes_held (map (λ x. slots.utf8 x.now) strings.now) ≤ O.largest) }
    ensures errors { IfErr result (λ e. ((e ≡ Overflow) × (O.largest < bytes_held (map (λ x. slots.utf8 x.now) strings.now))) ⊎ (e ≡ Memory alloc_error)) }
{
    Utf8Array::from_slice(alloc, strings)
}

/// Returns a UTF-8 array of strings and nulls.
pub fn utf8_from_options<O: Offset>(
    alloc: Global,
    items: &[Option<&str>],
) -> Result<Utf8Array<O>, Error>
    ensures slots { IfOk result (λ a. slots_of a ≡ map (λ x. optional slots.utf8 (option_copied x)) items.now) }
    ensures data_type { IfOk result (λ a. layout_type a ≡ text_tree O.IS_LARGE) }
    ensures valid { IfOk result (λ a. validity_of a ≡ option_bits items.now) }
    ensures limit { OnOk result (bytes_held (map (λ x. optional slots.utf8 (option_copied x)) items.now) ≤ O.largest) }
    ensures errors { IfErr result (λ e. ((e ≡ Overflow) × (O.largest < bytes_held (map (λ x. optional slots.utf8 (option_copied x)) items.now))) ⊎ (e ≡ Memory alloc_error)) }
{
    Utf8Array::from_options(alloc, items)
}

/// Returns a binary array of byte strings without nulls.
pub fn binary_from_slice<O: Offset>(
    alloc: Global,
    strings: &[&[u8]],
) -> Result<BinaryArray<O>, Error>
    ensures slots { IfOk result (λ a. slots_of a ≡ map (λ x. slots.bytes x.now) strings.now) }
    ensures data_type { IfOk result (λ a. layout_type a ≡ binary_tree O.IS_LARGE) }
    ensures valid { IfOk result (λ a. validity_of a ≡ None) }
    ensures limit { OnOk result (bytes_held (map (λ x. slots.bytes x.now) strings.now) ≤ O.largest) }
    ensures errors { IfErr result (λ e. ((e ≡ Overflow) × (O.largest < bytes_held (map (λ x. slots.bytes x.now) strings.now))) ⊎ (e ≡ Memory alloc_error)) }
{
    BinaryArray::from_slice(alloc, strings)
}

/// Returns a binary array of byte strings and nulls.
pub fn binary_from_options<O: Offset>(
    alloc: Global,
    items: &[Option<&[u8]>],
) -> Result<BinaryArray<O>, Error>
    ensures slots { IfOk result (λ a. slots_of a ≡ map (λ x. optional slots.bytes (option_copied x)) items.now) }
    ensures data_type { IfOk result (λ a. layout_type a ≡ binary_tree O.IS_LARGE) }
    ensures valid { IfOk result (λ a. validity_of a ≡ option_bits items.now) }
    ensures limit { OnOk result (bytes_held (map (λ x. optional slots.bytes (option_copied x)) items.now) ≤ O.largest) }
    ensures errors { IfErr result (λ e. ((e ≡ Overflow) × (O.largest < bytes_held (map (λ x. optional slots.bytes (option_copied x)) items.now))) ⊎ (e ≡ Memory alloc_error)) }
{
    BinaryArray::from_options(alloc, items)
}

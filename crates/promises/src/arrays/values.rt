//! The values of fixed-size binary and nested arrays, windows and scalars.
ghost use Rattle.std.specs.Prelude.{◌≡◌, ◌+◌, ◌*◌, ◌≤◌, ◌<◌, ◌^◌, ◌↔◌, ◌⊎◌, false, Some, IsTrue, IfOk, IfErr, IsErrOf, IsOkUnless, get_or, length, map, pos, alloc_error};
ghost use Rattle.nest_array.specs.ScalarParts.{IsPickOf, scalar_parts};
ghost use Rattle.nest_array.specs.Seen.{layout_of, layouts_of};
ghost use Rattle.nest_array.specs.SeenScalar.{slot_of_value};
ghost use Rattle.nest_array.specs.WindowParts.{window_parts, window_slots};
ghost use Rattle.nest_flat.specs.FlatParts.{optional};
ghost use Rattle.nest_memory.specs.Sublist.{sublist};
ghost use Rattle.nest_memory.specs.Rising.{below_zero};
ghost use Rattle.nest_memory.specs.TypeOf.{field_list_of};
ghost use Rattle.nest_memory.specs.TypeTree.{fields_of, ids_of};
ghost use Rattle.nest_memory.specs.declared.error.Error.TheVariants.{Memory, Overflow};
ghost use Rattle.nest_model.specs.Accessors.{child_at, child_of, children_of, key_at, keys_of, offsets_of, start_of, types_of, union_offsets_of, validity_of};
ghost use Rattle.nest_model.specs.Slice.{slice_layout};
ghost use Rattle.nest_model.specs.Fits.{Names};
ghost use Rattle.nest_model.specs.Layout.{layout_type};
ghost use Rattle.nest_model.specs.Meaning.{len, slot, slots_of, union_index, where_valid};
ghost use Rattle.nest_model.specs.Part.{begin, extent, field_named, to_index};
ghost use Rattle.nest_model.specs.Slot as slots;
ghost use Rattle.nest_model.specs.Slot.{seal};
ghost use Rattle.promises.specs.Validities.{SetsValidity};

use nest_array::{
    AnyArray, AnyScalar, DictionaryArray, FixedSizeBinaryArray, FixedSizeListArray, LargeListArray,
    ListArray, MapArray, ScalarValue, StructArray, UnionArray, Window, new_scalar,
};
use nest_memory::bitmap::immutable::Bitmap;
use nest_memory::datatypes::Field;
use nest_memory::error::Error;
use std::alloc::Global;

/// Returns the bytes of a slot, or `None` where the slot is null.
pub fn fixed_size_binary_at(array: &FixedSizeBinaryArray, i: usize) -> Option<&[u8]>
    requires { i < len array.now }
    ensures { optional (λ x. slots.bytes x.now) result ≡ slot array.now i }
{
    array.get(i)
}

/// Returns a fixed-size binary array of the byte strings of a slice.
pub fn fixed_size_binary_from_slice<const N: usize>(
    alloc: Global,
    rows: &[[u8; N]],
) -> Result<FixedSizeBinaryArray, Error>
    requires { 0 < N }
    ensures slots { IfOk result (λ a. slots_of a ≡ map (λ row. slots.bytes row) rows.now) }
    ensures overflow { IsErrOf result Overflow ↔ (2 ^ 64 ≤ length rows.now * N) }
    ensures errors { IfErr result (λ e. (e ≡ Overflow) ⊎ (e ≡ Memory alloc_error)) }
{
    FixedSizeBinaryArray::from_slice(alloc, rows)
}

/// Returns the items of a list, a slice of the child. The slot is the list of these items, or null.
pub fn list_at(lists: &ListArray, alloc: Global, i: usize) -> Result<AnyArray, Error>
    requires { i < len lists.now }
    ensures parts { IfOk result (λ a. layout_of a ≡ slice_layout (child_of lists.now) (begin (offsets_of lists.now) i) (extent (offsets_of lists.now) i)) }
    ensures items { IfOk result (λ a. slot lists.now i ≡ where_valid (validity_of lists.now) i (slots.list (seal (slots_of (layout_of a))))) }
    ensures err { IsOkUnless result (Memory alloc_error) }
{
    lists.value(alloc, i)
}

/// Returns a window over the items of a list, without allocation.
pub fn list_window_at(lists: &ListArray, i: usize) -> Window<'_>
    requires { i < len lists.now }
    ensures parts { result ≡ window_parts (child_of lists.now) (begin (offsets_of lists.now) i) (extent (offsets_of lists.now) i) }
    ensures items { slot lists.now i ≡ where_valid (validity_of lists.now) i (slots.list (seal (window_slots result))) }
{
    lists.window(i)
}

/// Returns the items of a list with 64-bit offsets.
pub fn large_list_at(
    large_lists: &LargeListArray,
    alloc: Global,
    i: usize,
) -> Result<AnyArray, Error>
    requires { i < len large_lists.now }
    ensures items { IfOk result (λ a. slot large_lists.now i ≡ where_valid (validity_of large_lists.now) i (slots.list (seal (slots_of (layout_of a))))) }
    ensures err { IsOkUnless result (Memory alloc_error) }
{
    large_lists.value(alloc, i)
}

/// Returns the items of a fixed-size list, or `None` where the slot is null.
pub fn fixed_size_list_at(
    lists: &FixedSizeListArray,
    alloc: Global,
    i: usize,
) -> Result<Option<AnyArray>, Error>
    requires { i < len lists.now }
    ensures ok { IfOk result (λ items. optional (λ a. slots.list (seal (slots_of (layout_of a)))) items ≡ slot lists.now i) }
    ensures err { IsOkUnless result (Memory alloc_error) }
{
    lists.get(alloc, i)
}

/// Returns the entries of a map, a slice of all entries. The slot is the list of these entries, or null.
pub fn map_at(maps: &MapArray, alloc: Global, i: usize) -> Result<AnyArray, Error>
    requires { i < len maps.now }
    ensures parts { IfOk result (λ a. layout_of a ≡ slice_layout (child_of maps.now) (begin (offsets_of maps.now) i) (extent (offsets_of maps.now) i)) }
    ensures entries { IfOk result (λ a. slot maps.now i ≡ where_valid (validity_of maps.now) i (slots.list (seal (slots_of (layout_of a))))) }
    ensures err { IsOkUnless result (Memory alloc_error) }
{
    maps.value(alloc, i)
}

/// Returns a window over the entries of a map, without allocation.
pub fn map_window_at(maps: &MapArray, i: usize) -> Window<'_>
    requires { i < len maps.now }
    ensures { slot maps.now i ≡ where_valid (validity_of maps.now) i (slots.list (seal (window_slots result))) }
{
    maps.window(i)
}

/// Returns the children of a struct array, one per field, sliced as the array is.
pub fn struct_children(array: &StructArray) -> &[AnyArray]
    ensures { layouts_of result.now ≡ children_of array.now }
{
    array.values()
}

/// Returns the field that a slot of a union picks and the index in that field's child.
pub fn union_index_at(unions: &UnionArray, i: usize) -> (usize, usize)
    requires { i < len unions.now }
    ensures field { field_named (ids_of (layout_type unions.now)) (get_or (types_of unions.now) i (pos 0)) ≡ Some result.0 }
    ensures index { result.1 ≡ union_index (union_offsets_of unions.now) (start_of unions.now) i }
    ensures slot { slot unions.now i ≡ slots.pick result.0 (layout_type (child_at (children_of unions.now) result.0)) (slot (child_at (children_of unions.now) result.0) result.1) }
{
    unions.index(i)
}

/// Returns the scalar that a slot of a union picks.
pub fn union_scalar_at(unions: &UnionArray, alloc: Global, i: usize) -> Result<AnyScalar, Error>
    requires { i < len unions.now }
    ensures ok { IfOk result (λ s. IsPickOf (slot unions.now i) s) }
    ensures err { IsOkUnless result (Memory alloc_error) }
{
    unions.value(alloc, i)
}

/// Returns the children of a union array; slicing keeps them whole.
pub fn union_children(unions: &UnionArray) -> &[AnyArray]
    ensures { layouts_of result.now ≡ children_of unions.now }
{
    unions.fields()
}

/// Returns the fields, children and validity of a struct array.
pub fn struct_into_parts(array: StructArray) -> (Vec<Field>, Vec<AnyArray>, Option<Bitmap>)
    ensures fields { field_list_of result.0.items ≡ fields_of (layout_type array) }
    ensures children { layouts_of result.1.items ≡ children_of array }
    ensures validity { result.2 ≡ validity_of array }
{
    array.into_data()
}

/// Returns whether a raw key names a value. A key under a null need not.
pub fn key_in_range(dictionary: &DictionaryArray, i: usize) -> bool
    requires { i < len dictionary.now }
    ensures { IsTrue result ↔ Names (key_at (keys_of dictionary.now) i) (len (child_of dictionary.now)) }
{
    dictionary.in_range(i)
}

/// Returns the key of a slot. The slot is the value at that key, or null where the key is.
pub fn dictionary_key_at(dictionary: &DictionaryArray, i: usize) -> usize
    requires within { i < len dictionary.now }
    requires not_negative { below_zero (key_at (keys_of dictionary.now) i) ≡ false }
    ensures key { pos result ≡ key_at (keys_of dictionary.now) i }
    ensures slot { slot dictionary.now i ≡ where_valid (validity_of dictionary.now) i (slot (child_of dictionary.now) result) }
{
    dictionary.key_value(i)
}

/// Returns the value that a raw key names as a scalar of the values' data type.
pub fn dictionary_scalar_at(
    alloc: Global,
    dictionary: &DictionaryArray,
    i: usize,
) -> Result<AnyScalar, Error>
    requires within { i < len dictionary.now }
    requires in_range { Names (key_at (keys_of dictionary.now) i) (len (child_of dictionary.now)) }
    ensures ok { IfOk result (λ s. s ≡ scalar_parts (layout_type (child_of dictionary.now)) (slot (child_of dictionary.now) (to_index (key_at (keys_of dictionary.now) i)))) }
    ensures slot { IfOk result (λ s. slot dictionary.now i ≡ where_valid (validity_of dictionary.now) i s.slot) }
    ensures err { IsOkUnless result (Memory alloc_error) }
{
    dictionary.value(alloc, i)
}

/// Sets a new validity of a dictionary array. Fails for its length, or where it makes a key valid that names no value.
pub fn set_dictionary_validity(
    dictionary: &mut DictionaryArray,
    validity: Option<Bitmap>,
) -> Result<(), Error>
    ensures { SetsValidity dictionary.old validity dictionary.new result }
{
    dictionary.set_validity(validity)
}

/// Returns a window over an array: the slice of its slots, without allocation.
pub fn window_over(array: &AnyArray, o: usize, n: usize) -> Window<'_>
    requires { o + n ≤ len (layout_of array.now) }
    ensures parts { result ≡ window_parts (layout_of array.now) o n }
    ensures slots { window_slots result ≡ sublist (slots_of (layout_of array.now)) o n }
{
    Window::new(array, o, n)
}

/// Returns a slice of a window.
pub fn slice_of_window<'a>(window: &Window<'a>, o: usize, n: usize) -> Window<'a>
    requires { o + n ≤ window.now.count }
    ensures { window_slots result ≡ sublist (window_slots window.now) o n }
{
    window.cut(o, n)
}

/// Returns a slot as a scalar of the array's data type.
pub fn scalar_at(array: &AnyArray, alloc: Global, i: usize) -> Result<AnyScalar, Error>
    requires { i < len (layout_of array.now) }
    ensures ok { IfOk result (λ s. s ≡ scalar_parts (layout_type (layout_of array.now)) (slot (layout_of array.now) i)) }
    ensures err { IsOkUnless result (Memory alloc_error) }
{
    new_scalar(alloc, array, i)
}

/// Returns the value of a scalar, which encodes its slot.
pub fn scalar_value(scalar: &AnyScalar) -> &ScalarValue
    ensures { slot_of_value result.now ≡ scalar.now.slot }
{
    scalar.value()
}

/// Returns whether the slot of a scalar is not null.
pub fn is_valid_scalar(scalar: &AnyScalar) -> bool
    ensures { IsTrue result ↔ (scalar.now.slot ≡ slots.null → ⊥) }
{
    scalar.is_valid()
}

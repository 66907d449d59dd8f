//! Iterators over nested arrays.
//!
//! One iterator type covers every array. Its state is the array, the index of the first remaining slot and the number of
//! remaining slots. A kind of array says only what the item of a slot is.
ghost use Rattle.std.specs.Prelude.{◌≡◌, ◌+◌, ◌-◌, ◌*◌, ◌<◌, pos, Some, MatchOption, MatchResult};
ghost use Rattle.nest_array.specs.ScalarParts.{IsPickOf, child_types, scalar_parts, slots_in, types_in};
ghost use Rattle.nest_array.specs.Seen.{layout_of};
ghost use Rattle.nest_memory.specs.Sublist.{sublist};
ghost use Rattle.nest_memory.specs.TypeTree.{size_of};
ghost use Rattle.nest_model.specs.Accessors.{bytes_of, child_of, children_of, key_at, keys_of, offsets_of, raw_keys, validity_of};
ghost use Rattle.nest_model.specs.Slice.{slice_layout};
ghost use Rattle.nest_model.specs.Fits.{EachNames};
ghost use Rattle.nest_model.specs.Layout.{layout_type};
ghost use Rattle.nest_model.specs.Meaning.{each, len, slot, slots_of, where_valid};
ghost use Rattle.nest_model.specs.Nullness.{null_count};
ghost use Rattle.nest_model.specs.Part.{begin, extent, to_index};
ghost use Rattle.nest_model.specs.Slot as slots;
ghost use Rattle.nest_model.specs.Slot.{seal};
ghost use Rattle.nest_scan.specs.Items.{AreTexts};
ghost use Rattle.nest_scan.specs.Elements.{ReturnsFirst, ReturnsLast, all_elements, elements};
ghost use Rattle.promises.specs.Items.{HasOtherValues, IsItemOrError, IsNoneOrValue, last_index};

use nest_array::{
    AnyArray, AnyScalar, DictionaryArray, FixedSizeBinaryArray, FixedSizeListArray, LargeListArray,
    ListArray, MapArray, StructArray, UnionArray,
};
use nest_memory::error::Error;
use nest_scan::{
    DictionaryIter, DictionaryIterTyped, DictionaryValuesIter, DictionaryValuesIterTyped,
    DoubleEnded, Elements, ElementsIter, FixedSizeBinaryIter, FixedSizeBinaryValuesIter,
    FixedSizeListValuesIter, KeysIter, KeysValuesIter, ListIter, ListValuesIter, MapValuesIter,
    NullableElements, OptionalItems, Scan, ScanKeys, ScanValues, StructIter, StructValueIter,
    TextOffset, Tried, TryElements, UnionIter,
};
use std::alloc::Global;

/// Returns the item of the first remaining slot and advances. Where none remains, returns `None` and stays as it is.
pub fn next_item<S: Elements>(items: &mut ElementsIter<S>) -> Option<S::Item>
    ensures { ReturnsFirst S.IsItem items.old result items.new }
{
    items.next()
}

/// Returns the item of the last remaining slot and drops it.
pub fn next_item_back<S: Elements + DoubleEnded>(items: &mut ElementsIter<S>) -> Option<S::Item>
    ensures { ReturnsLast S.IsItem items.old result items.new }
{
    items.next_back()
}

/// Returns the number of remaining items.
pub fn remaining_items<S: Elements>(items: &ElementsIter<S>) -> usize
    ensures { result ≡ items.now.count }
{
    items.len()
}

/// Returns the number of remaining items as size hint.
pub fn size_hint<S: Elements>(items: &ElementsIter<S>) -> (usize, Option<usize>)
    ensures { result ≡ (items.now.count, Some items.now.count) }
{
    items.size_hint()
}

/// Advances by one slot also when an allocation fails for its item, which is one `Err`.
pub fn next_item_or_error<A: TryElements>(
    items: &mut ElementsIter<Tried<A>>,
) -> Option<Result<A::Item, Error>>
    requires { 0 < items.old.count }
    ensures advanced { items.new ≡ elements items.old.array (items.old.front + 1) (items.old.count - 1) }
    ensures item { IsItemOrError result (A.IsItem items.old.array items.old.front) }
{
    items.next()
}

/// Returns an iterator over slots: `None` exactly where a slot is null, else its item.
pub fn iterate<A: NullableElements>(
    array: A,
    alloc: Global,
) -> ElementsIter<Tried<OptionalItems<A>>>
    ensures { result ≡ all_elements (A.array array) }
{
    array.iter(alloc)
}

/// Returns the next slot of such an iterator.
pub fn next_or_null<A: NullableElements>(
    items: &mut ElementsIter<Tried<OptionalItems<A>>>,
) -> Option<Result<Option<A::Item>, Error>>
    requires { 0 < items.old.count }
    ensures null { let a = items.old.array in
        let i = items.old.front in
        IsItemOrError result (λ item. IsNoneOrValue a i item (A.IsItem a i)) }
{
    items.next()
}

/// Returns an iterator over all values, also of null slots.
pub fn iterate_values<A: NullableElements>(array: A, alloc: Global) -> ElementsIter<Tried<A>>
    ensures { result ≡ all_elements (A.array array) }
{
    array.values_iter(alloc)
}

/// Returns an iterator over the lists of an array, also of null slots.
pub fn iterate_list_values(lists: &ListArray, alloc: Global) -> ListValuesIter<'_, i32>
    ensures { result ≡ all_elements lists.now }
{
    lists.values_iter(alloc)
}

/// Returns an iterator over the slots of a list array.
pub fn iterate_lists(lists: &ListArray, alloc: Global) -> ListIter<'_, i32>
    ensures { result ≡ all_elements lists.now }
{
    lists.iter(alloc)
}

/// Returns the next list: the items from its offset to the next offset.
pub fn next_list_value(lists: &mut ListValuesIter<'_, i32>) -> Option<Result<AnyArray, Error>>
    requires { 0 < lists.old.count }
    ensures parts { let a = lists.old.array in
        let i = lists.old.front in
        IsItemOrError result (λ b. layout_of b ≡ slice_layout (child_of a) (begin (offsets_of a) i) (extent (offsets_of a) i)) }
    ensures slot { let a = lists.old.array in
        let i = lists.old.front in
        IsItemOrError result (λ b. slot a i ≡ where_valid (validity_of a) i (slots.list (seal (slots_of (layout_of b))))) }
{
    lists.next()
}

/// Returns an iterator over the lists of an array with 64-bit offsets, by the iterator's constructor.
pub fn iterate_large_list_values(lists: &LargeListArray, alloc: Global) -> ListValuesIter<'_, i64>
    ensures { result ≡ all_elements lists.now }
{
    ListValuesIter::<'_, i64>::new(alloc, lists)
}

/// Returns an iterator over the lists of a fixed-size list array.
pub fn iterate_fixed_size_list_values(
    lists: &FixedSizeListArray,
    alloc: Global,
) -> FixedSizeListValuesIter<'_>
    ensures { result ≡ all_elements lists.now }
{
    FixedSizeListValuesIter::new(alloc, lists)
}

/// Returns the last list of a fixed-size list array: as many items as the size.
pub fn last_fixed_size_list_value(
    lists: &mut FixedSizeListValuesIter<'_>,
) -> Option<Result<AnyArray, Error>>
    requires { 0 < lists.old.count }
    ensures parts { let a = lists.old.array in
        let size = size_of (layout_type a) in
        IsItemOrError result (λ b. layout_of b ≡ slice_layout (child_of a) (last_index lists.old * size) size) }
    ensures slot { let a = lists.old.array in
        let i = last_index lists.old in
        IsItemOrError result (λ b. slot a i ≡ where_valid (validity_of a) i (slots.list (seal (slots_of (layout_of b))))) }
{
    lists.next_back()
}

/// Returns an iterator over the maps of an array.
pub fn iterate_map_values(maps: &MapArray, alloc: Global) -> MapValuesIter<'_>
    ensures { result ≡ all_elements maps.now }
{
    MapValuesIter::new(alloc, maps)
}

/// Returns an iterator over the structs of an array, also of null slots.
pub fn iterate_struct_values(structs: &StructArray, alloc: Global) -> StructValueIter<'_>
    ensures { result ≡ all_elements structs.now }
{
    StructValueIter::new(alloc, structs)
}

/// Returns the next struct: a scalar per child, of the child's data type and its slot at that index.
pub fn next_struct_value(structs: &mut StructValueIter<'_>) -> Option<Result<Vec<AnyScalar>, Error>>
    requires { 0 < structs.old.count }
    ensures fields { let a = structs.old.array in
        let i = structs.old.front in
        IsItemOrError result (λ v. (slots_in v.items ≡ each (children_of a) i) × (types_in v.items ≡ child_types (children_of a))) }
    ensures slot { let a = structs.old.array in
        let i = structs.old.front in
        IsItemOrError result (λ v. slot a i ≡ where_valid (validity_of a) i (slots.record_of (slots_in v.items))) }
{
    structs.next()
}

/// Returns an iterator over structs, `None` where a slot is null.
pub fn iterate_structs(structs: &StructArray, alloc: Global) -> StructIter<'_>
    ensures { result ≡ all_elements structs.now }
{
    structs.iter(alloc)
}

/// Returns an iterator over the slots of a union array.
pub fn iterate_unions(unions: &UnionArray, alloc: Global) -> UnionIter<'_>
    ensures { result ≡ all_elements unions.now }
{
    unions.iter(alloc)
}

/// Returns the scalar that the next slot of a union array picks.
pub fn next_union_scalar(unions: &mut UnionIter<'_>) -> Option<Result<AnyScalar, Error>>
    requires { 0 < unions.old.count }
    ensures { IsItemOrError result (λ s. IsPickOf (slot unions.old.array unions.old.front) s) }
{
    unions.next()
}

/// Returns an iterator over the values of a fixed-size binary array, also of null slots. It does not allocate.
pub fn iterate_fixed_size_binary_values(
    array: &FixedSizeBinaryArray,
    alloc: Global,
) -> FixedSizeBinaryValuesIter<'_>
    ensures { result ≡ all_elements array.now }
{
    array.values_iter(alloc)
}

/// Returns the next value of a fixed-size binary array.
pub fn next_fixed_size_binary_value<'a>(
    items: &mut FixedSizeBinaryValuesIter<'a>,
) -> Option<&'a [u8]>
    requires { 0 < items.old.count }
    ensures value { let a = items.old.array in
        let i = items.old.front in
        MatchOption result ⊥ (λ x. x.now ≡ sublist (bytes_of a) (i * size_of (layout_type a)) (size_of (layout_type a))) }
    ensures slot { let a = items.old.array in
        let i = items.old.front in
        MatchOption result ⊥ (λ x. slot a i ≡ where_valid (validity_of a) i (slots.bytes x.now)) }
{
    items.next()
}

/// Returns an iterator over the slots of a fixed-size binary array.
pub fn iterate_fixed_size_binary(
    array: &FixedSizeBinaryArray,
    alloc: Global,
) -> FixedSizeBinaryIter<'_>
    ensures { result ≡ all_elements array.now }
{
    array.iter(alloc)
}

/// Returns the next slot of a fixed-size binary array: `None` exactly where it is null, else its bytes.
pub fn next_fixed_size_binary<'a>(items: &mut FixedSizeBinaryIter<'a>) -> Option<Option<&'a [u8]>>
    requires { 0 < items.old.count }
    ensures { let a = items.old.array in
        let i = items.old.front in
        MatchOption result ⊥ (λ item. IsNoneOrValue a i item (λ x. slot a i ≡ where_valid (validity_of a) i (slots.bytes x.now))) }
{
    items.next()
}

/// Returns an iterator over the values that the raw keys of a dictionary array name, also under nulls.
pub fn iterate_dictionary_values(
    dictionary: &DictionaryArray,
    alloc: Global,
) -> DictionaryValuesIter<'_>
    requires { EachNames (raw_keys (keys_of dictionary.now)) (len (child_of dictionary.now)) }
    ensures { result ≡ all_elements dictionary.now }
{
    dictionary.values_iter(alloc)
}

/// Returns the next value: that at the raw key, of the values' data type.
pub fn next_dictionary_value(
    values: &mut DictionaryValuesIter<'_>,
) -> Option<Result<AnyScalar, Error>>
    requires { 0 < values.old.count }
    ensures { let a = values.old.array in
        let i = values.old.front in
        IsItemOrError result (λ s. s ≡ scalar_parts (layout_type (child_of a)) (slot (child_of a) (to_index (key_at (keys_of a) i)))) }
{
    values.next()
}

/// Returns an iterator over the slots of a dictionary array. It reads no key under a null.
pub fn iterate_dictionary(dictionary: &DictionaryArray, alloc: Global) -> DictionaryIter<'_>
    ensures { result ≡ all_elements dictionary.now }
{
    dictionary.iter(alloc)
}

/// Returns the next slot of a dictionary array: `None` exactly where the key is null.
pub fn next_dictionary_slot(
    items: &mut DictionaryIter<'_>,
) -> Option<Result<Option<AnyScalar>, Error>>
    requires { 0 < items.old.count }
    ensures { let a = items.old.array in
        let i = items.old.front in
        IsItemOrError result (λ item. IsNoneOrValue a i item (λ s. slot a i ≡ where_valid (validity_of a) i s.slot)) }
{
    items.next()
}

/// Returns an iterator over the keys of a dictionary array, as indices of values.
pub fn iterate_keys(dictionary: &DictionaryArray) -> KeysIter<'_>
    ensures { result ≡ all_elements dictionary.now }
{
    dictionary.keys_iter()
}

/// Returns the next key, `None` exactly where it is null.
pub fn next_key(keys: &mut KeysIter<'_>) -> Option<Option<usize>>
    requires { 0 < keys.old.count }
    ensures { let a = keys.old.array in
        let i = keys.old.front in
        MatchOption result ⊥ (λ item. IsNoneOrValue a i item (λ k. pos k ≡ key_at (keys_of a) i)) }
{
    keys.next()
}

/// Returns an iterator over the raw keys of a dictionary array, also under nulls.
pub fn iterate_raw_keys(dictionary: &DictionaryArray) -> KeysValuesIter<'_>
    requires { EachNames (raw_keys (keys_of dictionary.now)) (len (child_of dictionary.now)) }
    ensures { result ≡ all_elements dictionary.now }
{
    dictionary.keys_values_iter()
}

/// Returns an iterator over the strings of a dictionary array, exactly where its values are UTF-8 with such offsets.
pub fn iterate_strings<O: TextOffset>(
    dictionary: &DictionaryArray,
) -> Result<DictionaryIterTyped<'_, O>, Error>
    requires { null_count (child_of dictionary.now) ≡ 0 }
    ensures { MatchResult result
        (λ it. AreTexts O.IS_LARGE (child_of dictionary.now) × (it ≡ all_elements dictionary.now))
        (λ e. HasOtherValues O.IS_LARGE dictionary.now e) }
{
    dictionary.iter_typed::<O>()
}

/// Returns the next string: `None` exactly where the key is null.
pub fn next_string<'a, O: TextOffset>(
    strings: &mut DictionaryIterTyped<'a, O>,
) -> Option<Option<&'a str>>
    requires { 0 < strings.old.count }
    ensures { let a = strings.old.array in
        let i = strings.old.front in
        MatchOption result ⊥ (λ item. IsNoneOrValue a i item (λ x. slot a i ≡ slots.utf8 x.now)) }
{
    strings.next()
}

/// Returns an iterator over the strings of a dictionary array without nulls.
pub fn iterate_string_values<O: TextOffset>(
    dictionary: &DictionaryArray,
) -> Result<DictionaryValuesIterTyped<'_, O>, Error>
    requires keys { null_count dictionary.now ≡ 0 }
    requires values { null_count (child_of dictionary.now) ≡ 0 }
    ensures { MatchResult result
        (λ it. AreTexts O.IS_LARGE (child_of dictionary.now) × (it ≡ all_elements dictionary.now))
        (λ e. HasOtherValues O.IS_LARGE dictionary.now e) }
{
    dictionary.values_iter_typed::<O>()
}

//! Worked examples of nested and dictionary-encoded columns that are written, stated as contracts.
ghost use Rattle.std.specs.Prelude.{◌≡◌, [], ◌∷◌, true, false};
ghost use Rattle.ipc_arrays.specs.NoDictionaries.{are_dictionary_free};
ghost use Rattle.ipc_arrays.specs.WriteExamples.{IsWrittenAs, IsDictionaryWrittenAs, sliced_list, sliced_nested_list, sliced_map, fixed_size_lists, struct_column, sliced_sparse_union, empty_sparse_union, sliced_dense_union, dictionary_words, sliced_words, date_key_words, listed_words, structs_with_dictionary, structs_without_dictionary, ExtendedWordsMatch};

/// Of a sliced list, only the items between its offsets are written, with offsets from 0 on, and no validity if no slot is null.
pub fn sliced_list_is_written()
    ensures { IsWrittenAs sliced_list }
{}

/// The same holds for a list of lists: each array is written before its child.
pub fn sliced_nested_list_is_written()
    ensures { IsWrittenAs sliced_nested_list }
{}

/// Of a sliced map, only the entries between its offsets are written.
pub fn sliced_map_is_written()
    ensures { IsWrittenAs sliced_map }
{}

/// The items of a null slot of a fixed-size list are written.
pub fn fixed_size_list_is_written()
    ensures { IsWrittenAs fixed_size_lists }
{}

/// A struct is written before its children.
pub fn struct_is_written()
    ensures { IsWrittenAs struct_column }
{}

/// Of a sliced sparse union, the same slots of each child are written.
pub fn sliced_sparse_union_is_written()
    ensures { IsWrittenAs sliced_sparse_union }
{}

/// Of an empty sparse union, no slots of its children are written.
pub fn empty_sparse_union_is_written()
    ensures { IsWrittenAs empty_sparse_union }
{}

/// Of a sliced dense union, whole children are written, and its offsets unchanged.
pub fn sliced_dense_union_is_written()
    ensures { IsWrittenAs sliced_dense_union }
{}

/// Of a dictionary-encoded array, the keys are written, 0 for a null slot. It round-trips over its values.
pub fn dictionary_is_written()
    ensures { IsDictionaryWrittenAs dictionary_words }
{}

/// Of a sliced one, the keys of its slots are written. Its values are unchanged.
pub fn sliced_dictionary_is_written()
    ensures { IsDictionaryWrittenAs sliced_words }
{}

/// Keys whose array has a date type round-trip as keys of the integer type.
pub fn date_typed_keys_are_written()
    ensures { IsDictionaryWrittenAs date_key_words }
{}

/// Of one in a sliced list, the keys of its items are written.
pub fn dictionary_in_sliced_list_is_written()
    ensures { IsDictionaryWrittenAs listed_words }
{}

/// A list of dictionary-encoded words matches the same list over an equal or an extended dictionary, but not over a shorter or a
/// reordered one.
pub fn dictionary_values_may_be_extended()
    ensures { ExtendedWordsMatch }
{}

/// A dictionary-encoded field of structs in a list is found.
pub fn nested_dictionary_is_found()
    ensures found { are_dictionary_free (structs_with_dictionary ∷ []) ≡ false }
    ensures absent { are_dictionary_free (structs_without_dictionary ∷ []) ≡ true }
{}

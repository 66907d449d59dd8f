//! Worked examples of columns that are read or rejected, stated as contracts.
ghost use Rattle.std.specs.Prelude.{pos, negsuc, [], ◌∷◌};
ghost use Rattle.ipc_flatbuf.specs.declared.error.IpcReadError.TheVariants.{BufferCount, BufferRange, BufferTooShort, ChildLength, KeyRange, MissingDictionary, NodeCount, NodeRange, NullCount, OffsetPastChild, Offsets, RowCount, TypeRange, UnionOffset, UnionType};
ghost use Rattle.ipc_arrays.specs.FlatErrorExamples.{binary_column, int_column};
ghost use Rattle.ipc_arrays.specs.ReadExamples.{at, node, IsRead, IsRejected, lists, lists_read, short_lists, bare_lists, no_lists, no_lists_read, large_lists, large_lists_read, sized_list, sized_list_read, long_sized_list, no_sized_list, structs, structs_read, first_long, second_long, no_structs, maps, maps_read, short_maps, no_maps, sparse_union, sparse_union_read, short_sparse_union, odd_sparse_union, unnamed_sparse_union, negative_sparse_union, dense_union, dense_union_read, past_dense_union, other_dense_union, negative_dense_union, odd_dense_union, bare_dense_union, dictionary_column, dictionary_read, wide_dictionary, wide_dictionary_read, null_dictionary, null_dictionary_read, both_dictionary, both_dictionary_read, past_dictionary, negative_dictionary, missing_dictionary, bare_dictionary, unlike_dictionary, short_dictionary};

/// A list is read whose items come before its offsets, which begin at 1 and leave the last item unused. It is rejected if an item
/// is missing, or the field node of the items.
pub fn list_is_read()
    ensures read { IsRead lists lists_read }
    ensures short { IsRejected short_lists OffsetPastChild }
    ensures bare { IsRejected bare_lists NodeCount }
{}

/// An empty list array with an empty offsets buffer is read, and an array of a null and a list with 64-bit offsets.
pub fn large_list_is_read()
    ensures none { IsRead no_lists no_lists_read }
    ensures some { IsRead large_lists large_lists_read }
{}

/// A fixed-size list is read. It is rejected with an item too many, and if the size is 0.
pub fn fixed_size_list_is_read()
    ensures read { IsRead sized_list sized_list_read }
    ensures long { IsRejected long_sized_list ChildLength }
    ensures zero { IsRejected no_sized_list TypeRange }
{}

/// A struct of a boolean and a number is read. It is rejected if a child has another length, and without fields.
pub fn struct_is_read()
    ensures read { IsRead structs structs_read }
    ensures first { IsRejected first_long ChildLength }
    ensures second { IsRejected second_long ChildLength }
    ensures bare { IsRejected no_structs TypeRange }
{}

/// A map array is read. It is rejected if an entry is missing, and if the entries are not structs of a key and a value.
pub fn map_is_read()
    ensures read { IsRead maps maps_read }
    ensures short { IsRejected short_maps OffsetPastChild }
    ensures unlike { IsRejected no_maps TypeRange }
{}

/// A sparse union is read whose ids are out of order and of which one child is longer. It is rejected if a child is too short, if a
/// type is a field's index but not an id, if there are too few ids, and if an id is negative.
pub fn sparse_union_is_read()
    ensures read { IsRead sparse_union sparse_union_read }
    ensures short { IsRejected short_sparse_union ChildLength }
    ensures odd { IsRejected odd_sparse_union UnionType }
    ensures unnamed { IsRejected unnamed_sparse_union TypeRange }
    ensures negative { IsRejected negative_sparse_union TypeRange }
{}

/// A dense union is read whose offsets are not increasing. It is rejected if an offset is past the end of its child, even if within
/// another child, if one is negative, if a type has no field, and without offsets.
pub fn dense_union_is_read()
    ensures read { IsRead dense_union dense_union_read }
    ensures past { IsRejected past_dense_union UnionOffset }
    ensures other { IsRejected other_dense_union UnionOffset }
    ensures negative { IsRejected negative_dense_union UnionOffset }
    ensures odd { IsRejected odd_dense_union UnionType }
    ensures bare { IsRejected bare_dense_union BufferCount }
{}

/// A dictionary-encoded UTF-8 array is read, and the key of its null slot becomes 0. So are keys of another width over an extension
/// type, nulls over no values, and a struct of two dictionaries, each with its own values.
pub fn dictionary_is_read()
    ensures read { IsRead dictionary_column dictionary_read }
    ensures wide { IsRead wide_dictionary wide_dictionary_read }
    ensures null { IsRead null_dictionary null_dictionary_read }
    ensures both { IsRead both_dictionary both_dictionary_read }
{}

/// A dictionary-encoded array is rejected if a valid key is out of range or negative, and if the values are missing or of another type.
/// A short buffer is reported before missing values, and a wrong type before the keys.
pub fn invalid_dictionary_is_rejected()
    ensures past { IsRejected past_dictionary KeyRange }
    ensures negative { IsRejected negative_dictionary KeyRange }
    ensures missing { IsRejected missing_dictionary MissingDictionary }
    ensures bare { IsRejected bare_dictionary MissingDictionary }
    ensures unlike { IsRejected unlike_dictionary MissingDictionary }
    ensures short { IsRejected short_dictionary BufferTooShort }
{}

/// The first error of a column without children, where all that is read after it is wrong or absent too: the field node, the number of rows,
/// the validity buffer, the buffer of values or of offsets, and the data.
pub fn invalid_flat_columns_fail()
    ensures negative_slots { IsRejected (int_column (record { length = negsuc 0; null_count = pos 0 }) []) NodeRange }
    ensures more_nulls { IsRejected (int_column (node 3 4) []) NodeRange }
    ensures other_rows { IsRejected (int_column (node 3 0) []) RowCount }
    ensures no_validity { IsRejected (int_column (node 2 0) []) BufferCount }
    ensures validity_outside { IsRejected (int_column (node 2 1) (at 0 17 ∷ [])) BufferRange }
    ensures other_nulls { IsRejected (int_column (node 2 1) (at 0 1 ∷ [])) NullCount }
    ensures no_values { IsRejected (int_column (node 2 0) (at 0 0 ∷ [])) BufferCount }
    ensures short_values { IsRejected (int_column (node 2 0) (at 0 0 ∷ at 8 7 ∷ [])) BufferTooShort }
    ensures negative_offset { IsRejected (binary_column 255 (at 0 0 ∷ at 0 12 ∷ [])) Offsets }
    ensures falling_offset { IsRejected (binary_column 0 (at 0 0 ∷ at 4 12 ∷ [])) Offsets }
    ensures data_outside { IsRejected (binary_column 0 (at 0 0 ∷ at 0 12 ∷ at 12 3 ∷ [])) OffsetPastChild }
{}

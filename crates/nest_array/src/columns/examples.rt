//! Worked examples: the arrays of two columns, and the error of each check. Texts of data types are those that pyarrow prints.
ghost use Rattle.std.specs.Prelude.{◌≡◌, [], ◌∷◌, None, alloc_error, codes};
ghost use Rattle.nest_memory.specs.TypeText.{text_of_type};
ghost use Rattle.nest_memory.specs.declared.error.Error.TheVariants.{Memory, OutOfSpec};
ghost use Rattle.nest_memory.specs.declared.error.SpecError.TheVariants as spec;
ghost use Rattle.nest_model.specs.Accessors.{validity_of};
ghost use Rattle.nest_model.specs.Examples.{both, ints, list_slot, number, record_slot, three_ints, two_texts};
ghost use Rattle.nest_model.specs.Layout.{layout_type, no_layouts};
ghost use Rattle.nest_model.specs.Meaning.{slots_of};
ghost use Rattle.nest_model.specs.Slot as slots;
ghost use Rattle.nest_array.specs.Columns.{ColumnsError, ColumnsFit, RefusesColumns};
ghost use Rattle.nest_array.specs.Entries.{EntriesError, EntriesFit, RefusesEntries};
ghost use Rattle.nest_array.specs.ColumnExamples.{ages, name_and_age, people};

/// A struct array of the columns "name" and "age".
pub fn columns()
    ensures type_text { text_of_type (layout_type people) ≡ codes "struct<name: string, age: int32>" }
    ensures slots { slots_of people ≡ record_slot (slots.utf8 (97 ∷ []) ∷ number 1 ∷ []) ∷ record_slot (slots.utf8 (98 ∷ []) ∷ number 2 ∷ []) ∷ [] }
    ensures validity { validity_of people ≡ None }
    ensures taken { ColumnsFit name_and_age (both two_texts (ints (1 ∷ 2 ∷ []))) }
{}

/// Each check of the columns fails with all later ones.
pub fn refused_columns()
    ensures names_first { ColumnsError (OutOfSpec spec.FieldCount) name_and_age no_layouts }
    ensures fewer_names { ColumnsError (OutOfSpec spec.FieldCount) [] (both two_texts three_ints) }
    ensures then_columns { ColumnsError (OutOfSpec spec.NoFields) [] no_layouts }
    ensures then_lengths { ColumnsError (OutOfSpec spec.ChildLength) name_and_age (both two_texts three_ints) }
    ensures memory { RefusesColumns (Memory alloc_error) name_and_age (both two_texts (ints (1 ∷ 2 ∷ []))) }
{}

/// Maps of strings to numbers: two entries, and none.
pub fn entries()
    ensures type_text { text_of_type (layout_type (ages (0 ∷ 2 ∷ 2 ∷ []))) ≡ codes "map<string, int32>" }
    ensures first { slots_of (ages (0 ∷ 1 ∷ 1 ∷ [])) ≡ list_slot (record_slot (slots.utf8 (97 ∷ []) ∷ number 1 ∷ []) ∷ []) ∷ list_slot [] ∷ [] }
    ensures second { slots_of (ages (1 ∷ 2 ∷ [])) ≡ list_slot (record_slot (slots.utf8 (98 ∷ []) ∷ number 2 ∷ []) ∷ []) ∷ [] }
    ensures validity { validity_of (ages (0 ∷ 2 ∷ [])) ≡ None }
    ensures taken { EntriesFit (0 ∷ 2 ∷ []) two_texts (ints (1 ∷ 2 ∷ [])) }
{}

/// Each check of the entries fails with all later ones.
pub fn refused_entries()
    ensures values_first { EntriesError (OutOfSpec spec.ChildLength) (0 ∷ 3 ∷ []) two_texts three_ints }
    ensures then_offsets { EntriesError (OutOfSpec spec.OffsetPastChild) (0 ∷ 3 ∷ []) two_texts (ints (1 ∷ 2 ∷ [])) }
    ensures memory { RefusesEntries (Memory alloc_error) (0 ∷ 2 ∷ []) two_texts (ints (1 ∷ 2 ∷ [])) }
{}

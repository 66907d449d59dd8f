//! Laws and worked examples of record batches of named columns. Each function has an empty body: its contract is the law.
ghost use Rattle.std.specs.Prelude.{◌≡◌, ◌↔◌, ◌<◌, [], ◌∷◌, List, alloc_error, codes, map, true};
ghost use Rattle.nest_memory.specs.TypeTree as types;
ghost use Rattle.nest_memory.specs.TypeTree.{Letters, field, field_type};
ghost use Rattle.nest_memory.specs.declared.error.Error.{Error};
ghost use Rattle.nest_memory.specs.declared.error.Error.TheVariants.{Memory, OutOfSpec};
ghost use Rattle.nest_memory.specs.declared.error.SpecError.TheVariants as spec;
ghost use Rattle.nest_model.specs.Examples.{both, ints, three_ints, two_texts};
ghost use Rattle.nest_model.specs.Layout.{Layouts, count_layouts, no_layouts};
ghost use Rattle.nest_array.specs.Columns.{ColumnsError, ColumnsFit};
ghost use Rattle.nest_array.specs.ColumnExamples.{name_and_age};
ghost use Rattle.ipc.specs.EncodedStreams.{spec_are_columns};
ghost use Rattle.ipc.specs.NamedColumns.{BatchError, BatchFits, RefusesBatch, columns_batch, columns_schema};

/// The batch has the columns of its schema, as writers require.
pub fn batch_has_the_columns_of_its_schema()
    ensures { (ns : List Letters) (cs : Layouts) → BatchFits ns cs → spec_are_columns (map field_type (columns_schema ns cs).fields) (columns_batch cs).rows (columns_batch cs).columns ≡ true }
{}

/// Where there are columns, the checks and their errors are those of `struct_of_columns`.
pub fn checks_of_batches()
    ensures fit { (ns : List Letters) (cs : Layouts) → 0 < count_layouts cs → (BatchFits ns cs ↔ ColumnsFit ns cs) }
    ensures error { (e : Error) (ns : List Letters) (cs : Layouts) → 0 < count_layouts cs → BatchError e ns cs → ColumnsError e ns cs }
{}

/// Two columns of two rows, and no column.
pub fn batches_of_columns()
    ensures schema { (columns_schema name_and_age (both two_texts (ints (1 ∷ 2 ∷ [])))).fields ≡ field (codes "name") types.utf8 true [] ∷ field (codes "age") types.int32 true [] ∷ [] }
    ensures batch { columns_batch (both two_texts (ints (1 ∷ 2 ∷ []))) ≡ record { rows = 2; columns = two_texts ∷ ints (1 ∷ 2 ∷ []) ∷ [] } }
    ensures taken { BatchFits name_and_age (both two_texts (ints (1 ∷ 2 ∷ []))) }
    ensures no_columns { BatchFits [] no_layouts × (columns_batch no_layouts ≡ record { rows = 0; columns = [] }) }
{}

/// Each check of the columns fails with all later ones.
pub fn refused_batches()
    ensures names_first { BatchError (OutOfSpec spec.FieldCount) [] (both two_texts three_ints) }
    ensures more_names { BatchError (OutOfSpec spec.FieldCount) name_and_age no_layouts }
    ensures then_lengths { BatchError (OutOfSpec spec.ChildLength) name_and_age (both two_texts three_ints) }
    ensures memory { RefusesBatch (Memory alloc_error) name_and_age (both two_texts (ints (1 ∷ 2 ∷ []))) }
{}

//! The checks of columns and of entries are those of the constructors of struct and map arrays.
ghost use Rattle.std.specs.Prelude.{◌≡◌, ◌↔◌, ◌⊎◌, ℕ, List, length};
ghost use Rattle.nest_memory.specs.TypeTree.{Letters};
ghost use Rattle.nest_memory.specs.declared.error.Error.{Error};
ghost use Rattle.nest_model.specs.Fits.{FirstError, Fits};
ghost use Rattle.nest_model.specs.Layout.{Layout, Layouts, count_layouts};
ghost use Rattle.nest_array.specs.Columns.{ColumnsError, ColumnsFit, columns_struct};
ghost use Rattle.nest_array.specs.Entries.{EntriesError, EntriesFit, entries_map, entries_struct};

/// With one name for each column, the checks and their errors are those of `StructArray::try_new` on the result's parts.
pub fn checks_of_columns()
    ensures fit { (ns : List Letters) (cs : Layouts) → length ns ≡ count_layouts cs → (ColumnsFit ns cs ↔ Fits (columns_struct ns cs)) }
    ensures error { (e : Error) (ns : List Letters) (cs : Layouts) → length ns ≡ count_layouts cs → ColumnsError e ns cs → FirstError e (columns_struct ns cs) }
{}

/// The checks and their errors are those of `StructArray::try_new` on the entries, then those of `MapArray::try_new`.
pub fn checks_of_entries()
    ensures fit { (os : List ℕ) (ks vs : Layout) → EntriesFit os ks vs ↔ (Fits (entries_struct ks vs) × Fits (entries_map os ks vs)) }
    ensures error { (e : Error) (os : List ℕ) (ks vs : Layout) → EntriesError e os ks vs
        → FirstError e (entries_struct ks vs) ⊎ (Fits (entries_struct ks vs) × FirstError e (entries_map os ks vs)) }
{}

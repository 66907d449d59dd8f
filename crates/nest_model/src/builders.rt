//! Laws of builders.

ghost use Rattle.std.specs.Prelude.{◌≡◌, ◌↔◌, ◌⊎◌, ℕ, ◌+◌, ◌≤◌, ℤ, Bool, true, false, List, [], ◌∷◌, ◌++◌, length, map, replicate, Option, Some};
ghost use Rattle.nest_memory.specs.TypeTree.{TypeTree, size_of};
ghost use Rattle.nest_memory.specs.declared.datatypes.IntegerType.{IntegerType};
ghost use Rattle.nest_memory.specs.declared.datatypes.physical_type.PhysicalType.TheVariants as physical;
ghost use Rattle.nest_memory.specs.declared.datatypes.physical_type.PrimitiveType.{PrimitiveType};
ghost use Rattle.nest_memory.specs.Physical.{physical_type};
ghost use Rattle.nest_model.specs.Slot.{Slot};
ghost use Rattle.nest_model.specs.BuilderRow.{Row};
ghost use Rattle.nest_model.specs.BuilderTree as builders;
ghost use Rattle.nest_model.specs.BuilderTree.{BuilderTree, BuilderTrees, builder_len, builder_type};
ghost use Rattle.nest_model.specs.BuilderLevels.{own_slots, levels, levels_below, rows_needed, truncate_levels};
ghost use Rattle.nest_model.specs.BuilderComplete.{IsComplete, truncate_builder, emptied, ValuesDiffer};
ghost use Rattle.nest_model.specs.BuilderItem as items;
ghost use Rattle.nest_model.specs.BuilderItem.{PlainValue, Item, takes, IsValueAt, position_of};
ghost use Rattle.nest_model.specs.BuilderAddRow.{with_row, IsReady, RowAdded};
ghost use Rattle.nest_model.specs.BuilderAppend.{appended, nulls_appended, all_appended, Accepted, AcceptedAll};
ghost use Rattle.nest_model.specs.BuilderJoin.{CanJoin, joined_builder, Joined};
ghost use Rattle.nest_model.specs.LawStatements.{RowsOfLengthsAreAdded, NullStructAddsNulls, KnownValueAddsKey, NewValueIsAppended, IsBinary};

/// A builder has as many own slots as rows.
pub fn own_count()
    ensures { (t : BuilderTree) → length (own_slots t) ≡ builder_len t }
{}

/// Each level of a complete builder has exactly the length that the rows need.
pub fn levels_of_complete()
    ensures { (t : BuilderTree) → IsComplete t → map length (levels t) ≡ rows_needed t (builder_len t) }
{}

/// Each level of a truncated builder is that level truncated to the length that the rows need.
pub fn levels_of_truncate()
    ensures { (t : BuilderTree) (n : ℕ) → IsComplete t → n ≤ builder_len t → levels (truncate_builder t n) ≡ truncate_levels (rows_needed t n) (levels t) }
{}

/// A truncated complete builder is complete, and has the same data type and the given length.
/// The values of its dictionaries stay distinct.
pub fn truncate_stays_complete()
    ensures complete { (t : BuilderTree) (n : ℕ) → IsComplete t → n ≤ builder_len t → IsComplete (truncate_builder t n) }
    ensures len { (t : BuilderTree) (n : ℕ) → n ≤ builder_len t → builder_len (truncate_builder t n) ≡ n }
    ensures data_type { (t : BuilderTree) (n : ℕ) → builder_type (truncate_builder t n) ≡ builder_type t }
    ensures differ { (t : BuilderTree) (n : ℕ) → IsComplete t → n ≤ builder_len t → ValuesDiffer t → ValuesDiffer (truncate_builder t n) }
{}

/// Truncating twice is truncating to the smaller length. Truncation to the full length changes nothing.
pub fn truncate_of_truncate()
    ensures shorter { (t : BuilderTree) (m n : ℕ) → IsComplete t → m ≤ n → truncate_builder (truncate_builder t n) m ≡ truncate_builder t m }
    ensures complete { (t : BuilderTree) → IsComplete t → truncate_builder t (builder_len t) ≡ t }
{}

/// An emptied builder has no slot at any level: it equals truncation to no rows. It is complete, of the same data type.
pub fn emptied_builder()
    ensures truncated { (t : BuilderTree) → emptied t ≡ truncate_builder t 0 }
    ensures own { (t : BuilderTree) → own_slots (emptied t) ≡ [] }
    ensures lengths { (t : BuilderTree) → map length (levels (emptied t)) ≡ rows_needed (emptied t) 0 }
    ensures data_type { (t : BuilderTree) → builder_type (emptied t) ≡ builder_type t }
    ensures complete { (t : BuilderTree) → IsComplete t → IsComplete (emptied t) }
    ensures differ { (t : BuilderTree) → ValuesDiffer (emptied t) }
{}

/// Items that are accepted one at a time are accepted together.
pub fn accepted_in_order()
    ensures none { (t : BuilderTree) → IsComplete t → AcceptedAll [] t t }
    ensures more { (xs : List Item) (x : Item) (a b c : BuilderTree) → AcceptedAll xs a b → Accepted x b c → AcceptedAll (xs ++ x ∷ []) a c }
    ensures both { (xs ys : List Item) (a b c : BuilderTree) → AcceptedAll xs a b → AcceptedAll ys b c → AcceptedAll (xs ++ ys) a c }
{}

/// A complete builder accepts a null.
pub fn accepted_null()
    ensures { (t : BuilderTree) → IsComplete t → Accepted items.null t (appended items.null t) }
{}

/// Appending does not change a builder's data type.
pub fn appending_keeps_type()
    ensures { (x : Item) (t : BuilderTree) → builder_type (appended x t) ≡ builder_type t }
{}

/// Nulls appended after nulls equal all of them appended at once.
pub fn nulls_in_order()
    ensures { (t : BuilderTree) (m n : ℕ) → nulls_appended n (nulls_appended m t) ≡ nulls_appended (m + n) t }
{}

/// A row added over pending items that make a row adds its slot and does not change the levels below.
pub fn rows_added()
    ensures row { (valid : Bool) (t : BuilderTree) → IsReady t → RowAdded valid t (with_row valid t) }
    ensures lengths { RowsOfLengthsAreAdded }
{}

/// A null list and a null key add nothing below. A null row of a fixed-size list adds as many nulls as its size,
/// and a null struct adds one to each child.
pub fn nulls_below()
    ensures list { (large : Bool) (k : TypeTree) (rows : List Row) (c : BuilderTree) → levels_below (appended items.null (builders.list large k rows c)) ≡ levels c }
    ensures fixed_size_list { (k : TypeTree) (bits : List Bool) (c : BuilderTree)
        → levels_below (appended items.null (builders.fixed_size_list k bits c)) ≡ levels (all_appended (replicate (size_of k) items.null) c) }
    ensures dictionary { (i : IntegerType) (k : TypeTree) (keys : List (Option ℕ)) (c : BuilderTree) → levels_below (appended items.null (builders.dictionary i k keys c)) ≡ levels c }
    ensures record { NullStructAddsNulls }
{}

/// A dictionary adds a value only if none of its values equals it; the new key is the number of values before.
pub fn values_below()
    ensures known { KnownValueAddsKey }
    ensures there { (c : BuilderTree) (v : PlainValue) (place : ℕ) → takes c v ≡ true → position_of v (own_slots c) ≡ Some place → IsValueAt c v place }
    ensures another { NewValueIsAppended }
{}

/// Pushes and truncation do not change the kinds that a builder accepts. No builder accepts two native kinds.
pub fn kinds_taken()
    ensures appended { (x : Item) (t : BuilderTree) (v : PlainValue) → takes (appended x t) v ≡ takes t v }
    ensures truncated { (t : BuilderTree) (n : ℕ) (v : PlainValue) → takes (truncate_builder t n) v ≡ takes t v }
    ensures one_kind { (t : BuilderTree) (p q : PrimitiveType) (zs ws : List ℤ) → takes t (items.native p zs) ≡ true → takes t (items.native q ws) ≡ true → p ≡ q }
{}

/// A flat builder accepts exactly the values that arrays of its physical type hold.
pub fn flat_kinds_taken()
    ensures booleans { (t : TypeTree) (xs : List Slot) (b : Bool) → takes (builders.flat t xs) (items.boolean b) ≡ true ↔ physical_type t ≡ physical.Boolean }
    ensures natives { (t : TypeTree) (xs : List Slot) (p : PrimitiveType) (zs : List ℤ) → takes (builders.flat t xs) (items.native p zs) ≡ true ↔ physical_type t ≡ physical.Primitive p }
    ensures texts { (t : TypeTree) (xs : List Slot) (bs : List ℕ) → takes (builders.flat t xs) (items.utf8 bs) ≡ true ↔ (physical_type t ≡ physical.Utf8) ⊎ (physical_type t ≡ physical.LargeUtf8) }
    ensures bytes { (t : TypeTree) (xs : List Slot) (bs : List ℕ) → takes (builders.flat t xs) (items.bytes bs) ≡ true ↔ IsBinary (physical_type t) }
{}

/// A dictionary accepts the values that its child accepts. Lists and structs accept no plain value.
pub fn nested_kinds_taken()
    ensures dictionary { (k : IntegerType) (t : TypeTree) (keys : List (Option ℕ)) (c : BuilderTree) (v : PlainValue) → takes (builders.dictionary k t keys c) v ≡ takes c v }
    ensures list { (large : Bool) (t : TypeTree) (rows : List Row) (c : BuilderTree) (v : PlainValue) → takes (builders.list large t rows c) v ≡ false }
    ensures fixed_size_list { (t : TypeTree) (bits : List Bool) (c : BuilderTree) (v : PlainValue) → takes (builders.fixed_size_list t bits c) v ≡ false }
    ensures record { (t : TypeTree) (bits : List Bool) (cs : BuilderTrees) (v : PlainValue) → takes (builders.struct t bits cs) v ≡ false }
{}

/// Two complete builders of the same kinds are joined level by level.
pub fn joined_rows()
    ensures { (t other : BuilderTree) → CanJoin t other → IsComplete t → IsComplete other → Joined other t (joined_builder t other) }
{}

//! Laws of dictionaries that are written. Each function has an empty body: its contract is the law.
ghost use Rattle.std.specs.Prelude.{◌≡◌, ◌≤◌, List, ℕ, ◌∷◌, ◌++◌, [], map, true, Ok, suc};
ghost use Rattle.std.specs.List.{AllByRecursion};
ghost use Rattle.nest_memory.specs.TypeTree.{FieldTree, field_type};
ghost use Rattle.nest_model.specs.Array.{IsArray};
ghost use Rattle.nest_model.specs.Layout.{Layout, layout_type};
ghost use Rattle.nest_model.specs.Meaning.{len, slots_of};
ghost use Rattle.ipc_schema.specs.WriteChecks.{check_fields};
ghost use Rattle.ipc_schema.specs.OutermostIds.{ValueTypes};
ghost use Rattle.ipc_arrays.specs.ReplacedValues.{RoundTripOverExtensions};
ghost use Rattle.ipc.specs.DictionaryEntries.{DictionaryEntries, own_entries};
ghost use Rattle.ipc.specs.DistinctIdLaws.{AreDistinct};
ghost use Rattle.ipc.specs.RoundTripLaws.{PendingBecomesKnown};
ghost use Rattle.ipc.specs.PendingDictionaries.{pending, with_entries};
ghost use Rattle.ipc.specs.KnownDictionaries.{Covers, CoversColumns};
ghost use Rattle.ipc.specs.SchemaIds.{AreNamed, IsNamed};
ghost use Rattle.ipc.specs.FileDictionaries.{spec_delta_values, spec_begins_with, spec_dictionary_batches};
ghost use Rattle.ipc.specs.RoundTrips.{ColumnsRoundTrip, ValuesRoundTrip};

/// Columns round-trip over known dictionaries that begin with their values: the data types and the slots are the same.
pub fn columns_round_trip_over_known_dictionaries()
    ensures { (known : DictionaryEntries) (columns : List Layout) → RoundTripOverExtensions columns → CoversColumns known columns → ColumnsRoundTrip known columns }
{}

/// The values of a dictionary round-trip over the known dictionaries nested in them: the slots are the same.
pub fn values_round_trip_over_known_dictionaries()
    ensures { (known : DictionaryEntries) (id : ℕ) (c : Layout) → RoundTripOverExtensions (c ∷ []) → AllByRecursion (Covers known) (own_entries (suc id) c) → ValuesRoundTrip known id c }
{}

/// A reader that knows the emitted dictionaries knows all that columns name after their pending dictionaries. The dictionaries nested in
/// a dictionary come before it.
pub fn pending_dictionaries_become_known()
    ensures { PendingBecomesKnown }
{}

/// The ids of the columns of a written schema name their values in it.
pub fn ids_name_the_values_of_the_schema()
    ensures { (fields : List FieldTree) (columns : List Layout) → check_fields fields ≡ Ok tt → map field_type fields ≡ map layout_type columns → AllByRecursion IsArray columns → AreNamed fields columns }
{}

/// Before one record batch each id is emitted at most once.
pub fn each_id_is_pending_at_most_once()
    ensures { (emitted : DictionaryEntries) (columns : List Layout) → AreDistinct (pending emitted columns) }
{}

/// After the pending dictionaries of columns are emitted, no dictionary of theirs is pending.
pub fn nothing_is_pending_after_emission()
    ensures { (emitted : DictionaryEntries) (columns : List Layout) → pending (with_entries emitted (pending emitted columns)) columns ≡ [] }
{}

/// Values that extend others have the slots of these, then those of the delta. The delta is an array of the same data type.
pub fn delta_extends_values()
    ensures slots { (d c : Layout) → spec_begins_with d c ≡ true → slots_of c ≡ slots_of d ++ slots_of (spec_delta_values c (len d)) }
    ensures typed { (c : Layout) (n : ℕ) → layout_type (spec_delta_values c n) ≡ layout_type c }
    ensures fit { (c : Layout) (n : ℕ) → IsArray c → n ≤ len c → IsArray (spec_delta_values c n) }
{}

/// The dictionary batches of values that an id names are named by it too.
pub fn dictionary_batches_name_their_ids()
    ensures { (named : ValueTypes) (emitted es : DictionaryEntries) → AllByRecursion (IsNamed named) es → AllByRecursion (λ p. IsNamed named p.1) (spec_dictionary_batches emitted es) }
{}

/// The pending values of arrays are arrays.
pub fn pending_values_are_arrays()
    ensures { (emitted : DictionaryEntries) (columns : List Layout) → AllByRecursion IsArray columns → AllByRecursion (λ e. IsArray e.1) (pending emitted columns) }
{}

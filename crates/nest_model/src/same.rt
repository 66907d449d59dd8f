//! Laws of array equality: equal data types and equal lists of slots.

ghost use Rattle.std.specs.Prelude.{◌≡◌, ℕ, ◌+◌, ◌≤◌, ◌<◌};
ghost use Rattle.std.specs.Bool.{Decides};
ghost use Rattle.nest_model.specs.Layout.{Layout, layout_type};
ghost use Rattle.nest_model.specs.Meaning.{len, slot};
ghost use Rattle.nest_model.specs.Slice.{slice_layout};
ghost use Rattle.nest_model.specs.SameArray.{IsSameArray, same_array};
ghost use Rattle.nest_model.specs.LawStatements.{NullKeysAreNullValues};

/// Equality of arrays is an equivalence, and the test decides it.
pub fn equivalence()
    ensures reflexive { (a : Layout) → IsSameArray a a }
    ensures symmetric { (a b : Layout) → IsSameArray a b → IsSameArray b a }
    ensures transitive { (a b c : Layout) → IsSameArray a b → IsSameArray b c → IsSameArray a c }
    ensures decided { (a b : Layout) → Decides (same_array a b) (IsSameArray a b) }
{}

/// Equal arrays have the same length and the same slot at each index.
/// Conversely, such arrays of the same data type are equal.
pub fn by_indices()
    ensures length { (a b : Layout) → IsSameArray a b → len a ≡ len b }
    ensures places { (a b : Layout) (i : ℕ) → IsSameArray a b → i < len a → slot a i ≡ slot b i }
    ensures back { (a b : Layout) → layout_type a ≡ layout_type b → len a ≡ len b → ((i : ℕ) → i < len a → slot a i ≡ slot b i) → IsSameArray a b }
{}

/// Slices of equal arrays at the same offset and length are equal.
pub fn same_slices()
    ensures { (a b : Layout) (o n : ℕ) → IsSameArray a b → o + n ≤ len a → IsSameArray (slice_layout a o n) (slice_layout b o n) }
{}

/// Dictionaries of the same type and length are equal if one has null keys and the other keys of null values.
pub fn null_keys()
    ensures { NullKeysAreNullValues }
{}

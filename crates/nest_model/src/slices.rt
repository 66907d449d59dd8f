//! Laws of slices.

ghost use Rattle.std.specs.Prelude.{◌≡◌, ℕ, ◌+◌, ◌≤◌, length};
ghost use Rattle.nest_model.specs.Layout.{Layout, layout_type};
ghost use Rattle.nest_model.specs.Meaning.{len, slots_of};
ghost use Rattle.nest_model.specs.Slice.{slice_layout, IsSlice};
ghost use Rattle.nest_memory.specs.Sublist.{sublist};
ghost use Rattle.nest_model.specs.Array.{PartsHold, TopFits, IsArray};
ghost use Rattle.nest_model.specs.Fits.{Fits};

/// A slice represents the sublist of the slots.
pub fn slice_slots()
    ensures { (a : Layout) (o n : ℕ) → o + n ≤ len a → slots_of (slice_layout a o n) ≡ sublist (slots_of a) o n }
{}

/// The number of slots of an array is its length.
pub fn slots_count()
    ensures { (a : Layout) → length (slots_of a) ≡ len a }
{}

/// A slice has the requested length.
pub fn slice_len()
    ensures { (a : Layout) (o n : ℕ) → o + n ≤ len a → len (slice_layout a o n) ≡ n }
{}

/// A slice has the data type of its array.
pub fn truncate_keeps_type()
    ensures { (a : Layout) (o n : ℕ) → layout_type (slice_layout a o n) ≡ layout_type a }
{}

/// A slice of parts that pass every check passes them too. A slice of an array satisfies the array invariant.
pub fn slice_fits()
    ensures fits { (a : Layout) (o n : ℕ) → PartsHold a → Fits a → o + n ≤ len a → Fits (slice_layout a o n) }
    ensures keeps { (a : Layout) (o n : ℕ) → TopFits a → o + n ≤ len a → TopFits (slice_layout a o n) }
{}

/// A slice of an array is an array.
pub fn slice_is_array()
    ensures { (a : Layout) (o n : ℕ) → IsArray a → o + n ≤ len a → IsArray (slice_layout a o n) }
{}

/// A slice of a slice is a slice of the array.
pub fn slice_of_slice()
    ensures { (a : Layout) (o n p m : ℕ) → p + m ≤ n → slice_layout (slice_layout a o n) p m ≡ slice_layout a (o + p) m }
{}

/// An array with the parts of a slice is that slice: its slots and its data type follow.
pub fn slice_is_one()
    ensures { (a b : Layout) (o n : ℕ) → o + n ≤ len a → b ≡ slice_layout a o n → IsSlice a o n b }
{}

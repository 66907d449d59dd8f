//! Laws of validities: an array with a new validity, null indices and their number.

ghost use Rattle.std.specs.Prelude.{◌≡◌, ℕ, ◌+◌, ◌≤◌, ◌<◌, Bool, true, false, not, List, length, Some, None};
ghost use Rattle.std.specs.List.{count_by};
ghost use Rattle.nest_memory.specs.Sublist.{sublist};
ghost use Rattle.nest_memory.specs.declared.error.Error.{Error};
ghost use Rattle.nest_model.specs.Slice.{IsSlice};
ghost use Rattle.nest_model.specs.Fits.{HasValidity, RefusesValidity, validity_checks, ValidityError};
ghost use Rattle.nest_model.specs.Part.{Validity, valid_at};
ghost use Rattle.nest_model.specs.Slot as slots;
ghost use Rattle.nest_model.specs.Layout.{Layout, layout_type};
ghost use Rattle.nest_model.specs.Accessors.{validity_of, with_validity};
ghost use Rattle.nest_model.specs.Meaning.{len, slot, slots_of};
ghost use Rattle.nest_model.specs.Checks.{Pass};
ghost use Rattle.nest_model.specs.Array.{PartsHold, TopFits, IsArray};
ghost use Rattle.nest_model.specs.Nullness.{is_null_at, null_count, has_keys};

/// An array with a validity that passes the checks is an array of the same length and type, with that validity.
pub fn new_validity()
    ensures length { (a : Layout) (va : Validity) → len (with_validity a va) ≡ len a }
    ensures data_type { (a : Layout) (va : Validity) → layout_type (with_validity a va) ≡ layout_type a }
    ensures validity { (a : Layout) (va : Validity) → PartsHold a → Pass (validity_checks a va) → validity_of (with_validity a va) ≡ va }
    ensures fits { (a : Layout) (va : Validity) → TopFits a → Pass (validity_checks a va) → TopFits (with_validity a va) }
    ensures array { (a : Layout) (va : Validity) → IsArray a → Pass (validity_checks a va) → IsArray (with_validity a va) }
{}

/// Consequences of the contracts of slicing and of setting a validity.
/// If setting a validity fails, the array is unchanged.
pub fn slices_and_validities()
    ensures slice_length { (a b : Layout) (o n : ℕ) → IsSlice a o n b → o + n ≤ len a → len b ≡ n }
    ensures slice_slots { (a b : Layout) (o n : ℕ) → IsSlice a o n b → slots_of b ≡ sublist (slots_of a) o n }
    ensures slice_type { (a b : Layout) (o n : ℕ) → IsSlice a o n b → layout_type b ≡ layout_type a }
    ensures bits { (a b : Layout) (bits : List Bool) → HasValidity a (Some bits) b → length bits ≡ len b }
    ensures under_it { (a b : Layout) (va : Validity) → HasValidity a va b → b ≡ with_validity a va }
    ensures unchanged { (e : Error) (a b : Layout) (va : Validity) → RefusesValidity e a va b → b ≡ a }
    ensures cause { (e : Error) (a b : Layout) (va : Validity) → RefusesValidity e a va b → ValidityError e a va }
{}

/// A slot is `Null` where the new validity bit is unset. It is unchanged where the old and new bits are set.
pub fn new_slots()
    ensures nulls { (a : Layout) (va : Validity) (i : ℕ) → PartsHold a → Pass (validity_checks a va) → valid_at va i ≡ false
        → slot (with_validity a va) i ≡ slots.null }
    ensures others { (a : Layout) (va : Validity) (i : ℕ) → PartsHold a → Pass (validity_checks a va) → valid_at va i ≡ true
        → valid_at (validity_of a) i ≡ true → slot (with_validity a va) i ≡ slot a i }
{}

/// The slot at a null index is `Null`. Conversely, an index whose slot is `Null` is null, except in a dictionary,
/// where a key may name a null value.
pub fn null_indices()
    ensures null_there { (a : Layout) (i : ℕ) → is_null_at a i ≡ true → slot a i ≡ slots.null }
    ensures back { (a : Layout) (i : ℕ) → TopFits a → i < len a → has_keys a ≡ false → slot a i ≡ slots.null → is_null_at a i ≡ true }
{}

/// The null count is the number of unset bits. Without a validity it is 0, or the length of a null array.
pub fn null_counts()
    ensures of_bits { (a : Layout) (bits : List Bool) → validity_of a ≡ Some bits → length bits ≡ len a → null_count a ≡ count_by not bits }
    ensures of_none { (a : Layout) → is_null_at a 0 ≡ false → validity_of a ≡ None → null_count a ≡ 0 }
    ensures of_nulls { (a : Layout) → is_null_at a 0 ≡ true → validity_of a ≡ None → null_count a ≡ len a }
{}

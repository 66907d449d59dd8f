//! `take` and `filter`: the slots at indices, in their order, of the array's data type.
//!
//! They fail only when an allocation fails, or where the result would have more items, bytes or child slots than its layout
//! allows.
ghost use Rattle.std.specs.List.{range_with_len};
ghost use Rattle.std.specs.Prelude.{ℕ, List, length};
ghost use Rattle.nest_model.specs.Layout.{Layout};
ghost use Rattle.nest_model.specs.Meaning.{len};
ghost use Rattle.nest_model.specs.SameArray.{IsSameArray};
ghost use Rattle.nest_take.specs.Indices.{AreBelow};
ghost use Rattle.nest_take.specs.Taken.{IsTaken};
ghost use Rattle.nest_take.specs.TakenLaws.{indices_at};

/// Taking all indices in order returns an equal array.
pub fn all_indices()
    ensures { (a b : Layout) → IsTaken a (range_with_len 0 (len a)) b → IsSameArray b a }
{
    nest_take::laws::all_indices();
}

/// Taking twice is taking once at the indices that the second call's indices select.
pub fn indices_of_indices()
    ensures { (a b c : Layout) (is js : List ℕ) → AreBelow js (length is) → IsTaken a is b → IsTaken b js c → IsTaken a (indices_at is js) c }
{
    nest_take::laws::taken_indices();
}

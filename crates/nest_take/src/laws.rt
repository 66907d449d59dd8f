//! Theorems about `take`.
ghost use Rattle.std.specs.Prelude.{ℕ, List, length};
ghost use Rattle.std.specs.List.{range_with_len};
ghost use Rattle.nest_model.specs.SameArray.{IsSameArray};
ghost use Rattle.nest_take.specs.TakenLaws.{indices_at};
ghost use Rattle.nest_take.specs.Words.{AreBelow, IsTaken, Layout, len};

/// Taking all indices in order returns an equal array.
pub fn all_indices()
    ensures { (a b : Layout) → IsTaken a (range_with_len 0 (len a)) b → IsSameArray b a }
{}

/// Two successive `take`s are one `take`, at the indices that the second selects from the first.
pub fn taken_indices()
    ensures { (a b c : Layout) (is js : List ℕ) → AreBelow js (length is) → IsTaken a is b → IsTaken b js c → IsTaken a (indices_at is js) c }
{}

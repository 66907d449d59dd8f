//! Laws of selected slots and of the indices that a mask selects.

ghost use Rattle.std.specs.Prelude.{◌≡◌, ◌↔◌, ℕ, ◌+◌, ◌≤◌, ◌<◌, true, List, ◌++◌, length, replicate};
ghost use Rattle.std.specs.List.{AllPairs, Contains, range_with_len};
ghost use Rattle.nest_memory.specs.Sublist.{sublist};
ghost use Rattle.nest_model.specs.Slot as slots;
ghost use Rattle.nest_model.specs.Slot.{Slot};
ghost use Rattle.nest_model.specs.Selected.{selected, mask_indices, IsTrueAt};

/// There are as many selected slots as indices. All indices select the list, consecutive ones a sublist.
pub fn choices()
    ensures count { (ss : List Slot) (is : List ℕ) → length (selected ss is) ≡ length is }
    ensures joined { (ss : List Slot) (is js : List ℕ) → selected ss (is ++ js) ≡ selected ss is ++ selected ss js }
    ensures of_range { (ss : List Slot) (o n : ℕ) → o + n ≤ length ss → selected ss (range_with_len o n) ≡ sublist ss o n }
    ensures of_all { (ss : List Slot) → selected ss (range_with_len 0 (length ss)) ≡ ss }
{}

/// A mask selects exactly the indices where it is true, in ascending order.
pub fn masks()
    ensures selected { (ss : List Slot) (p : ℕ) → Contains (mask_indices ss) p ↔ IsTrueAt ss p }
    ensures rising { (ss : List Slot) → AllPairs (λ p q. p < q) (mask_indices ss) }
    ensures of_all { (n : ℕ) → mask_indices (replicate n (slots.boolean true)) ≡ range_with_len 0 n }
{}

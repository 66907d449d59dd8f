//! Worked examples of iterators over a few slots.
ghost use Rattle.std.specs.Prelude.{◌≡◌, ℕ, Some, None, Ok, Err};
ghost use Rattle.nest_memory.specs.declared.error.Error.TheVariants.{Overflow};
ghost use Rattle.nest_model.specs.Layout.{Layout};
ghost use Rattle.nest_scan.specs.Examples.{IsElement, second_null};
ghost use Rattle.nest_scan.specs.Elements.{ReturnsFirst, ReturnsLast, IsItemOrMemory, IsItemOrNull, ElementsLeft, all_elements, elements};

/// Three items, from the front, the back and the front, and then `None` from both ends.
pub fn both_ends()
    ensures all { all_elements second_null ≡ elements second_null 0 2 }
    ensures first { (a : Layout) (t : ElementsLeft) (x : ℕ) → ReturnsFirst IsElement (elements a 0 3) (Some x) t → (x ≡ 0) × (t ≡ elements a 1 2) }
    ensures last { (a : Layout) (t : ElementsLeft) (x : ℕ) → ReturnsLast IsElement (elements a 1 2) (Some x) t → (x ≡ 2) × (t ≡ elements a 1 1) }
    ensures only { (a : Layout) (t : ElementsLeft) (x : ℕ) → ReturnsFirst IsElement (elements a 1 1) (Some x) t → (x ≡ 1) × (t ≡ elements a 2 0) }
    ensures one_is_first { (a : Layout) (t : ElementsLeft) → ReturnsFirst IsElement (elements a 1 1) None t → ⊥ }
    ensures one_is_last { (a : Layout) (t : ElementsLeft) → ReturnsLast IsElement (elements a 1 1) None t → ⊥ }
    ensures none_first { (a : Layout) (t : ElementsLeft) (x : ℕ) → ReturnsFirst IsElement (elements a 2 0) (Some x) t → ⊥ }
    ensures none_last { (a : Layout) (t : ElementsLeft) (x : ℕ) → ReturnsLast IsElement (elements a 2 0) (Some x) t → ⊥ }
    ensures ended_first { (a : Layout) (t : ElementsLeft) → ReturnsFirst IsElement (elements a 2 0) None t → t ≡ elements a 2 0 }
    ensures ended_last { (a : Layout) (t : ElementsLeft) → ReturnsLast IsElement (elements a 2 0) None t → t ≡ elements a 2 0 }
{}

/// Items that are absent: `None` for a null, `Memory` where an allocation fails.
pub fn wanting()
    ensures null { IsItemOrNull IsElement second_null 1 None }
    ensures no_null { IsItemOrNull IsElement second_null 0 None → ⊥ }
    ensures valid { (x : ℕ) → IsItemOrNull IsElement second_null 0 (Some x) → x ≡ 0 }
    ensures under_null { (x : ℕ) → IsItemOrNull IsElement second_null 1 (Some x) → ⊥ }
    ensures item { (a : Layout) (x : ℕ) → IsItemOrMemory IsElement a 4 (Ok x) → x ≡ 4 }
    ensures no_memory { (a : Layout) → IsItemOrMemory IsElement a 4 (Err Overflow) → ⊥ }
{}

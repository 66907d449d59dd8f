//! Equality: true exactly for equal data types and equal lists of slots, after at most one comparison per value of the left list.
ghost use Rattle.std.specs.Prelude.{◌≡◌, ◌+◌, ◌≤◌, ◌↔◌, IsTrue};
ghost use Rattle.nest_array.specs.Seen.{layout_of};
ghost use Rattle.nest_model.specs.Layout.{layout_type};
ghost use Rattle.nest_model.specs.Meaning.{len, slots_of};
ghost use Rattle.nest_model.specs.SameArray.{IsSameArray};
ghost use Rattle.nest_model.specs.Slot.{node_counts};

use nest_array::equal::{equal, equal_counted};
use nest_array::{AnyArray, Steps};

/// Returns whether two arrays of any kind are equal, at any nesting.
pub fn are_equal(a: &AnyArray, b: &AnyArray) -> bool
    ensures { IsTrue result ↔ IsSameArray (layout_of a.now) (layout_of b.now) }
{
    equal(a, b)
}

/// Returns whether two arrays are equal, and counts comparisons: at most one per value of the left operand, exactly that many
/// where the arrays are equal, and none where data types or lengths differ.
pub fn are_equal_counted(a: &AnyArray, b: &AnyArray, steps: &mut Steps) -> bool
    ensures same { IsTrue result ↔ IsSameArray (layout_of a.now) (layout_of b.now) }
    ensures most { steps.new ≤ steps.old + node_counts (slots_of (layout_of a.now)) }
    ensures all { IsTrue result → steps.new ≡ steps.old + node_counts (slots_of (layout_of a.now)) }
    ensures none_for_other_types { (layout_type (layout_of a.now) ≡ layout_type (layout_of b.now) → ⊥) → steps.new ≡ steps.old }
    ensures none_for_other_lengths { (len (layout_of a.now) ≡ len (layout_of b.now) → ⊥) → steps.new ≡ steps.old }
{
    equal_counted(a, b, steps)
}

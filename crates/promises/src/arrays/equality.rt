//! Equality: true exactly for equal data types and equal lists of slots.
//!
//! Values under nulls, the offset of a slice and the first offset of a list do not count. No call allocates, and each returns a
//! `bool`.
ghost use Rattle.std.specs.Prelude.{◌≡◌, ◌+◌, ◌≤◌, ◌↔◌, IsTrue, IfOk, IsOkUnless, alloc_error};
ghost use Rattle.nest_array.specs.Seen.{layout_of};
ghost use Rattle.nest_array.specs.WindowParts.{window_slots};
ghost use Rattle.nest_memory.specs.declared.error.Error.TheVariants.{Memory};
ghost use Rattle.nest_model.specs.Layout.{layout_type};
ghost use Rattle.nest_model.specs.Meaning.{len, run, slot};
ghost use Rattle.nest_model.specs.SameArray.{IsSameArray};

use nest_array::equal::{equal, equal_windows};
use nest_array::{
    AnyArray, AnyScalar, DictionaryArray, ListArray, MapArray, Steps, StructArray, UnionArray,
    Window,
};
use nest_flat::flat_array::{FlatArray, same_arrays, same_run};
use nest_memory::error::Error;
use std::alloc::Global;

/// Returns what a counter holds after `n` comparisons, up to 2^64 - 1.
pub fn counted_steps(n: u64) -> u64
    ensures { result ≡ n }
{
    let mut steps = Steps::new();
    steps.add(n);
    steps.count()
}

/// Returns whether two arrays are equal by `==`.
pub fn are_equal_by_operator(a: &AnyArray, b: &AnyArray) -> bool
    ensures { IsTrue result ↔ IsSameArray (layout_of a.now) (layout_of b.now) }
{
    *a == *b
}

/// Returns whether two windows have equal data types and equal slots.
pub fn are_equal_windows(x: &Window, y: &Window) -> bool
    ensures { IsTrue result
        ↔ (layout_type x.now.array ≡ layout_type y.now.array) × (window_slots x.now ≡ window_slots y.now) }
{
    equal_windows(x, y)
}

/// Returns whether two flat arrays of one kind are equal.
pub fn are_equal_flat<A: FlatArray>(a: A, b: A) -> bool
    ensures { IsTrue result ↔ IsSameArray (A.layout a) (A.layout b) }
{
    same_arrays(a, b)
}

/// Returns whether two ranges of slots of flat arrays are equal.
pub fn are_equal_ranges<A: FlatArray>(a: A, o: usize, b: A, p: usize, n: usize) -> bool
    requires within { o + n ≤ len (A.layout a) }
    requires other_within { p + n ≤ len (A.layout b) }
    ensures { IsTrue result ↔ (run (slot (A.layout a)) o n ≡ run (slot (A.layout b)) p n) }
{
    same_run(a, o, b, p, n)
}

/// Returns whether two list arrays are equal by `==`.
pub fn are_equal_lists(a: &ListArray, b: &ListArray) -> bool
    ensures { IsTrue result ↔ IsSameArray a.now b.now }
{
    *a == *b
}

/// Returns whether two struct arrays are equal by `==`.
pub fn are_equal_structs(a: &StructArray, b: &StructArray) -> bool
    ensures { IsTrue result ↔ IsSameArray a.now b.now }
{
    *a == *b
}

/// Returns whether two map arrays are equal by `==`.
pub fn are_equal_maps(a: &MapArray, b: &MapArray) -> bool
    ensures { IsTrue result ↔ IsSameArray a.now b.now }
{
    *a == *b
}

/// Returns whether two dictionary arrays are equal by `==`: by the values that the keys name, whatever the keys are.
pub fn are_equal_dictionaries(a: &DictionaryArray, b: &DictionaryArray) -> bool
    ensures { IsTrue result ↔ IsSameArray a.now b.now }
{
    *a == *b
}

/// Returns whether two union arrays are equal by `==`: slots that pick different fields differ.
pub fn are_equal_unions(a: &UnionArray, b: &UnionArray) -> bool
    ensures { IsTrue result ↔ IsSameArray a.now b.now }
{
    *a == *b
}

/// Returns whether two scalars have equal data types and equal slots.
pub fn are_equal_scalars(a: &AnyScalar, b: &AnyScalar) -> bool
    ensures { IsTrue result ↔ (a.now.data_type ≡ b.now.data_type) × (a.now.slot ≡ b.now.slot) }
{
    *a == *b
}

/// Returns whether a copy is equal to its original, which it is.
pub fn clones_are_equal(array: &AnyArray, alloc: Global) -> Result<bool, Error>
    ensures ok { IfOk result (λ same. IsTrue same) }
    ensures err { IsOkUnless result (Memory alloc_error) }
{
    let copy = array.clone(alloc)?;
    let same = equal(&copy, array);
    drop(copy);
    Ok(same)
}

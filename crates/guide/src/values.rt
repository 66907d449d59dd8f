//! Single slots, and iteration.
ghost use Rattle.std.specs.Prelude.{◌≡◌, ◌<◌, IfOk, IfSome, IsOkUnless, alloc_error};
ghost use Rattle.nest_model.specs.Slot as slots;
ghost use Rattle.guide.specs.Words.{Memory, layout_of, layout_type, len, max_list_length, optional, scalar_parts, seal, slot, slots_of, total, validity_of, where_valid, window_slots};

use std::alloc::Global;
use tiekvorn::error::Error;
use tiekvorn::{
    AnyArray, AnyScalar, ListArray, PrimitiveArray, Scan, Utf8Array, Window, new_scalar,
};

/// Returns the string at `i`, or `None` where it is null.
pub fn string_at(strings: &Utf8Array<i32>, i: usize) -> Option<&str>
    requires { i < len strings.now }
    ensures { optional (λ x. slots.utf8 x.now) result ≡ slot strings.now i }
{
    strings.get(i)
}

/// Returns the values of the list at `i`, as an array on the same buffers.
pub fn list_at(alloc: Global, lists: &ListArray, i: usize) -> Result<AnyArray, Error>
    requires { i < len lists.now }
    ensures values { IfOk result (λ a. slot lists.now i ≡ where_valid (validity_of lists.now) i (slots.list (seal (slots_of (layout_of a))))) }
    ensures memory { IsOkUnless result (Memory alloc_error) }
{
    lists.value(alloc, i)
}

/// Returns the values of the list at `i`, borrowed. It allocates nothing.
pub fn list_window(lists: &ListArray, i: usize) -> Window<'_>
    requires { i < len lists.now }
    ensures { slot lists.now i ≡ where_valid (validity_of lists.now) i (slots.list (seal (window_slots result))) }
{
    lists.window(i)
}

/// Returns the slot at `i` of an array of any kind, as a scalar.
pub fn scalar_at(alloc: Global, column: &AnyArray, i: usize) -> Result<AnyScalar, Error>
    requires { i < len (layout_of column.now) }
    ensures { IfOk result (λ s. s ≡ scalar_parts (layout_type (layout_of column.now)) (slot (layout_of column.now) i)) }
{
    new_scalar(alloc, column, i)
}

/// Downcasts an array to one of 64-bit integers.
pub fn as_numbers(column: &AnyArray) -> Option<&PrimitiveArray<i64>>
    ensures { IfSome result (λ a. a.now ≡ layout_of column.now) }
{
    column.as_primitive::<i64>()
}

/// Returns the sum of the values that are not null.
pub fn sum(numbers: &PrimitiveArray<i64>) -> i128
    ensures { result ≡ total (slots_of numbers.now) }
{
    let _count = numbers.len();
    let mut sum = 0i128;
    for number in numbers.iter() {
        if let Some(number) = number {
            sum += i128::from(number);
        }
    }
    sum
}

/// Returns the length of the longest list. A null has length 0.
pub fn longest_list(alloc: Global, lists: &ListArray) -> Result<usize, Error>
    ensures { IfOk result (λ n. n ≡ max_list_length (slots_of lists.now)) }
{
    let mut longest = 0usize;
    for row in lists.iter(alloc) {
        match row {
            Ok(Some(items)) => {
                longest = longest.max(items.len());
                drop(items);
            }
            Ok(None) => {}
            Err(error) => return Err(error),
        }
    }
    Ok(longest)
}

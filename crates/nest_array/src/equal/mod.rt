//! Equality of arrays of any kind: equal data types and equal slots.
//!
//! Comparisons are counted in [`Steps`], and nothing is allocated.
mod flat;
mod keyed;
pub(crate) mod kinds;
mod picks;
mod records;
pub(crate) mod rows;
pub(crate) mod whole;

ghost use Rattle.std.specs.Prelude.{◌≡◌, ◌↔◌, ◌+◌, ◌≤◌, ◌<◌, IsTrue};
ghost use Rattle.nest_array.specs.Kinds.{has_leaves};
ghost use Rattle.nest_array.specs.RowSlots.{IsWithin, row_slot};
ghost use Rattle.nest_array.specs.SeenLists.{lists_layout};
ghost use Rattle.nest_array.specs.Words.{Alike, EachValid, IsSameArray, CountsComparisons, layout_of, layout_type, len, node_count, node_counts, physical_type, run, slot, slots_of, type_of, validity_of, window_slots};

use crate::any::AnyArray;
use crate::array::ArrayParts;
use crate::null::NullArray;
use crate::steps::Steps;
use crate::window::Window;
use flat::{each_same_slot, same_primitives};
use keyed::same_keyed;
use kinds::kind;
use nest_memory::datatypes::DataType;
use picks::same_picks;
use records::same_records;
use rows::{Lists, Rows, same_counts};

/// Returns whether two arrays have the same data type and the same slots.
pub fn equal(a: &AnyArray, b: &AnyArray) -> bool
    ensures { IsTrue result ↔ IsSameArray (layout_of a.now) (layout_of b.now) }
{
    let mut steps = Steps::new();
    equal_counted(a, b, &mut steps)
}

/// Returns whether two arrays have the same data type and the same slots, and counts comparisons in `steps`.
///
/// Makes at most one comparison per value of `a`, at any depth, and exactly that many when the arrays are equal.
/// A block of native values counts all its values. Different data types or lengths count none.
pub fn equal_counted(a: &AnyArray, b: &AnyArray, steps: &mut Steps) -> bool
    ensures same { IsTrue result ↔ IsSameArray (layout_of a.now) (layout_of b.now) }
    ensures comparisons { CountsComparisons result steps.old steps.new (node_counts (slots_of (layout_of a.now))) }
    ensures none { (layout_type (layout_of a.now) ≡ layout_type (layout_of b.now) → len (layout_of a.now) ≡ len (layout_of b.now) → ⊥)
        → steps.new ≡ steps.old }
{
    whole::same_arrays_counted(a, b, steps)
}

/// Returns whether two windows have the same data type and the same slots.
pub fn equal_windows(x: &Window, y: &Window) -> bool
    ensures { IsTrue result
        ↔ (layout_type x.now.array ≡ layout_type y.now.array) × (window_slots x.now ≡ window_slots y.now) }
{
    x.known();
    y.known();
    let (a, b) = (x.array(), y.array());
    if !same_shape(a.data_type(), x.len(), b.data_type(), y.len()) {
        return false;
    }
    let mut steps = Steps::new();
    same_run(a, x.offset(), b, y.offset(), x.len(), &mut steps)
}

/// Returns whether two data types are equal and two lengths are equal.
pub(crate) fn same_shape(t: &DataType, m: usize, u: &DataType, n: usize) -> bool
    ensures { IsTrue result ↔ (type_of t.now ≡ type_of u.now) × (m ≡ n) }
{
    m == n && *t == *u
}

/// Returns whether the validity has no null among the `n` slots from index `o`.
pub(crate) fn is_full<A: ArrayParts>(a: &A, o: usize, n: usize) -> bool
    requires { o + n ≤ len (A.parts a.now) }
    ensures { IsTrue result ↔ EachValid (validity_of (A.parts a.now)) o n }
{
    if a.validity().is_none() {
        return true;
    }
    let _end = a.len();
    for k in 0..n {
        if a.is_null(o + k) {
            return false;
        }
    }
    true
}

/// Returns whether the `n` slots of `a` from index `o` equal those of `b` from index `p`. The kind is matched once.
#[cycle(equal)]
pub(crate) fn same_run(
    a: &AnyArray,
    o: usize,
    b: &AnyArray,
    p: usize,
    n: usize,
    steps: &mut Steps,
) -> bool
    requires alike { Alike (layout_of a.now) (layout_of b.now) }
    requires within { o + n ≤ len (layout_of a.now) }
    requires other_within { p + n ≤ len (layout_of b.now) }
    ensures same { IsTrue result ↔ (run (slot (layout_of a.now)) o n ≡ run (slot (layout_of b.now)) p n) }
    ensures comparisons { CountsComparisons result steps.old steps.new (node_counts (run (slot (layout_of a.now)) o n)) }
{
    kinds::same_kind(a, b);
    kind(a);
    match a {
        AnyArray::FixedSizeList(x) => {
            x.known();
            let y = kinds::as_fixed_size_list(b);
            same_rows(
                &Lists::FixedSizeList(x),
                o,
                &Lists::FixedSizeList(y),
                p,
                n,
                steps,
            )
        }
        AnyArray::List(x) => {
            x.known();
            let y = kinds::as_list(b);
            same_rows(&Lists::List(x), o, &Lists::List(y), p, n, steps)
        }
        AnyArray::LargeList(x) => {
            x.known();
            let y = kinds::as_large_list(b);
            same_rows(&Lists::LargeList(x), o, &Lists::LargeList(y), p, n, steps)
        }
        AnyArray::Struct(x) => same_records(x, o, kinds::as_struct(b), p, n, steps),
        AnyArray::Map(x) => {
            x.known();
            let y = kinds::as_map(b);
            same_rows(&Lists::Map(x), o, &Lists::Map(y), p, n, steps)
        }
        AnyArray::Union(x) => same_picks(x, o, kinds::as_union(b), p, n, steps),
        AnyArray::Dictionary(x) => same_keyed(x, o, kinds::as_dictionary(b), p, n, steps),
        _ => same_leaves(a, o, b, p, n, steps),
    }
}

/// Returns whether the `n` slots of `a` from index `o` equal those of `b` from index `p`, where `a` has no children.
fn same_leaves(a: &AnyArray, o: usize, b: &AnyArray, p: usize, n: usize, steps: &mut Steps) -> bool
    requires flat { IsTrue (has_leaves a.now) }
    requires same_kind { physical_type (layout_type (layout_of a.now)) ≡ physical_type (layout_type (layout_of b.now)) }
    requires within { o + n ≤ len (layout_of a.now) }
    requires other_within { p + n ≤ len (layout_of b.now) }
    ensures same { IsTrue result ↔ (run (slot (layout_of a.now)) o n ≡ run (slot (layout_of b.now)) p n) }
    ensures comparisons { CountsComparisons result steps.old steps.new (node_counts (run (slot (layout_of a.now)) o n)) }
{
    a.known();
    kind(a);
    same_flat(a, o, b, p, n, steps)
}

fn same_flat(a: &AnyArray, o: usize, b: &AnyArray, p: usize, n: usize, steps: &mut Steps) -> bool
    requires flat { IsTrue (has_leaves a.now) }
    requires same_kind { physical_type (layout_type (layout_of a.now)) ≡ physical_type (layout_type (layout_of b.now)) }
    requires within { o + n ≤ len (layout_of a.now) }
    requires other_within { p + n ≤ len (layout_of b.now) }
    ensures same { IsTrue result ↔ (run (slot (layout_of a.now)) o n ≡ run (slot (layout_of b.now)) p n) }
    ensures comparisons { CountsComparisons result steps.old steps.new n }
{
    kind(a);
    match a {
        AnyArray::Null(x) => same_nulls(x, o, kinds::as_null(b), p, n, steps),
        AnyArray::Boolean(x) => each_same_slot(x, o, kinds::as_boolean(b), p, n, steps),
        AnyArray::Primitive(x) => same_primitives(x, o, kinds::as_primitive(b), p, n, steps),
        AnyArray::Binary(x) => each_same_slot(x, o, kinds::as_binary(b), p, n, steps),
        AnyArray::LargeBinary(x) => each_same_slot(x, o, kinds::as_large_binary(b), p, n, steps),
        AnyArray::Utf8(x) => each_same_slot(x, o, kinds::as_utf8(b), p, n, steps),
        AnyArray::LargeUtf8(x) => each_same_slot(x, o, kinds::as_large_utf8(b), p, n, steps),
        AnyArray::FixedSizeBinary(x) => {
            each_same_slot(x, o, kinds::as_fixed_size_binary(b), p, n, steps)
        }
        _ => unreachable!(),
    }
}

/// Returns true and counts `n` comparisons: slots of null arrays are always equal.
fn same_nulls(x: &NullArray, o: usize, y: &NullArray, p: usize, n: usize, steps: &mut Steps) -> bool
    ensures same { IsTrue result ↔ (run (slot x.now) o n ≡ run (slot y.now) p n) }
    ensures comparisons { CountsComparisons result steps.old steps.new n }
{
    x.known();
    y.known();
    steps.add(n as u64);
    true
}

/// Returns whether the `n` lists of `xs` from index `o` equal those of `ys` from index `p`.
///
/// Without nulls it compares all lengths, then all items as one slice.
#[cycle(equal)]
pub(crate) fn same_rows(
    xs: &Lists,
    o: usize,
    ys: &Lists,
    p: usize,
    n: usize,
    steps: &mut Steps,
) -> bool
    requires alike { Alike (lists_layout xs.now) (lists_layout ys.now) }
    requires within { o + n ≤ len (lists_layout xs.now) }
    requires other_within { p + n ≤ len (lists_layout ys.now) }
    ensures same { IsTrue result ↔ (run (slot (lists_layout xs.now)) o n ≡ run (slot (lists_layout ys.now)) p n) }
    ensures comparisons { CountsComparisons result steps.old steps.new (node_counts (run (slot (lists_layout xs.now)) o n)) }
{
    if n == 0 {
        return true;
    }
    if !xs.are_full(o, n) || !ys.are_full(p, n) {
        return each_same_row(xs, o, ys, p, n, steps);
    }
    xs.known_rows();
    ys.known_rows();
    let Some(total) = same_counts(xs, o, ys, p, n, steps) else {
        return false;
    };
    let (start, _) = xs.span(o);
    let (other_start, _) = ys.span(p);
    let (items, other_items) = (xs.items(), ys.items());
    same_run(items, start, other_items, other_start, total, steps)
}

#[cycle(equal)]
fn each_same_row(xs: &Lists, o: usize, ys: &Lists, p: usize, n: usize, steps: &mut Steps) -> bool
    requires alike { Alike (lists_layout xs.now) (lists_layout ys.now) }
    requires within { o + n ≤ len (lists_layout xs.now) }
    requires other_within { p + n ≤ len (lists_layout ys.now) }
    ensures same { IsTrue result ↔ (run (slot (lists_layout xs.now)) o n ≡ run (slot (lists_layout ys.now)) p n) }
    ensures comparisons { CountsComparisons result steps.old steps.new (node_counts (run (slot (lists_layout xs.now)) o n)) }
{
    let _ends = (xs.count(), ys.count());
    let (items, other_items) = (xs.items(), ys.items());
    for k in 0..n {
        if !same_row(items, xs.row(o + k), other_items, ys.row(p + k), steps) {
            return false;
        }
    }
    true
}

/// Returns whether two rows are the same list: both are null, or both have the same items.
#[cycle(equal)]
fn same_row(
    items: &AnyArray,
    row: Option<(usize, usize)>,
    other_items: &AnyArray,
    other_row: Option<(usize, usize)>,
    steps: &mut Steps,
) -> bool
    requires alike { Alike (layout_of items.now) (layout_of other_items.now) }
    requires within { IsWithin row (len (layout_of items.now)) }
    requires other_within { IsWithin other_row (len (layout_of other_items.now)) }
    ensures same { IsTrue result ↔ (row_slot (layout_of items.now) row ≡ row_slot (layout_of other_items.now) other_row) }
    ensures comparisons { CountsComparisons result steps.old steps.new (node_count (row_slot (layout_of items.now) row)) }
{
    steps.add(1);
    let Some((start, count)) = row else {
        return other_row.is_none();
    };
    let Some((other_start, other_count)) = other_row else {
        return false;
    };
    if count != other_count {
        return false;
    }
    same_run(items, start, other_items, other_start, count, steps)
}

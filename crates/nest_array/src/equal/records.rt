//! Equality of slices of struct arrays.
ghost use Rattle.std.specs.Prelude.{◌≡◌, ◌↔◌, ◌+◌, ◌≤◌, ◌<◌, IsTrue};
ghost use Rattle.nest_model.specs.Fits.{EachCovers};
ghost use Rattle.nest_array.specs.RowSlots.{SameTypes, SameChildren, children_nodes};
ghost use Rattle.nest_array.specs.Words.{Alike, CountsComparisons, layouts_of, len, node_count, node_counts, run, slot};

use crate::any::AnyArray;
use crate::equal::{is_full, same_run};
use crate::steps::Steps;
use crate::struct_::StructArray;

/// Returns whether the `n` slots of `x` from index `o` equal those of `y` from index `p`.
///
/// Without nulls it compares child by child, otherwise slot by slot.
#[cycle(equal)]
pub(crate) fn same_records(
    x: &StructArray,
    o: usize,
    y: &StructArray,
    p: usize,
    n: usize,
    steps: &mut Steps,
) -> bool
    requires alike { Alike x.now y.now }
    requires within { o + n ≤ len x.now }
    requires other_within { p + n ≤ len y.now }
    ensures same { IsTrue result ↔ (run (slot x.now) o n ≡ run (slot y.now) p n) }
    ensures comparisons { CountsComparisons result steps.old steps.new (node_counts (run (slot x.now) o n)) }
{
    if is_full(x, o, n) && is_full(y, p, n) {
        x.known();
        y.known();
        steps.add(n as u64);
        return same_children(x.values(), o, y.values(), p, n, steps);
    }
    each_same_record(x, o, y, p, n, steps)
}

#[cycle(equal)]
fn each_same_record(
    x: &StructArray,
    o: usize,
    y: &StructArray,
    p: usize,
    n: usize,
    steps: &mut Steps,
) -> bool
    requires alike { Alike x.now y.now }
    requires within { o + n ≤ len x.now }
    requires other_within { p + n ≤ len y.now }
    ensures same { IsTrue result ↔ (run (slot x.now) o n ≡ run (slot y.now) p n) }
    ensures comparisons { CountsComparisons result steps.old steps.new (node_counts (run (slot x.now) o n)) }
{
    let _ends = (x.len(), y.len());
    for k in 0..n {
        if !is_same_record(x, o + k, y, p + k, steps) {
            return false;
        }
    }
    true
}

/// Returns whether slot `i` of `x` equals slot `j` of `y`: both are null, or their children are equal there.
#[cycle(equal)]
fn is_same_record(x: &StructArray, i: usize, y: &StructArray, j: usize, steps: &mut Steps) -> bool
    requires alike { Alike x.now y.now }
    requires within { i < len x.now }
    requires other_within { j < len y.now }
    ensures same { IsTrue result ↔ (slot x.now i ≡ slot y.now j) }
    ensures comparisons { CountsComparisons result steps.old steps.new (node_count (slot x.now i)) }
{
    steps.add(1);
    let null = x.is_null(i);
    if y.is_null(j) {
        return null;
    }
    if null {
        return false;
    }
    x.known();
    y.known();
    same_children(x.values(), i, y.values(), j, 1, steps)
}

/// Returns whether the `n` slots of each child `xs` from index `o` equal those of the same child `ys` from index `p`.
#[cycle(equal)]
fn same_children(
    xs: &[AnyArray],
    o: usize,
    ys: &[AnyArray],
    p: usize,
    n: usize,
    steps: &mut Steps,
) -> bool
    requires same_types { SameTypes (layouts_of xs.now) (layouts_of ys.now) }
    requires within { EachCovers (layouts_of xs.now) (o + n) }
    requires other_within { EachCovers (layouts_of ys.now) (p + n) }
    ensures same { IsTrue result ↔ SameChildren (layouts_of xs.now) o (layouts_of ys.now) p n }
    ensures comparisons { CountsComparisons result steps.old steps.new (children_nodes (layouts_of xs.now) o n) }
{
    for (x, y) in xs.iter().zip(ys) {
        if !same_run(x, o, y, p, n, steps) {
            return false;
        }
    }
    true
}

//! Equality of slices of dictionary arrays, by their values. Looking up a key counts no comparison.
ghost use Rattle.std.specs.Prelude.{◌≡◌, ◌↔◌, ◌+◌, ◌≤◌, ◌<◌, IsTrue};
ghost use Rattle.nest_model.specs.Slot as slots;
ghost use Rattle.nest_array.specs.Words.{Alike, CountsComparisons, layout_of, len, node_count, node_counts, run, slot};

use crate::any::AnyArray;
use crate::dictionary::DictionaryArray;
use crate::equal::same_run;
use crate::steps::Steps;

/// Returns whether the `n` slots of `x` from index `o` equal those of `y` from index `p`, one by one.
#[cycle(equal)]
pub(crate) fn same_keyed(
    x: &DictionaryArray,
    o: usize,
    y: &DictionaryArray,
    p: usize,
    n: usize,
    steps: &mut Steps,
) -> bool
    requires alike { Alike x.now y.now }
    requires within { o + n ≤ len x.now }
    requires other_within { p + n ≤ len y.now }
    ensures same { IsTrue result ↔ (run (slot x.now) o n ≡ run (slot y.now) p n) }
    ensures comparisons { CountsComparisons result steps.old steps.new (node_counts (run (slot x.now) o n)) }
{
    let _ends = (x.len(), y.len());
    for k in 0..n {
        if !is_same_keyed(x, o + k, y, p + k, steps) {
            return false;
        }
    }
    true
}

/// Returns whether slot `i` of `x` equals slot `j` of `y`. A null key equals a valid key of a null value.
#[cycle(equal)]
fn is_same_keyed(
    x: &DictionaryArray,
    i: usize,
    y: &DictionaryArray,
    j: usize,
    steps: &mut Steps,
) -> bool
    requires alike { Alike x.now y.now }
    requires within { i < len x.now }
    requires other_within { j < len y.now }
    ensures same { IsTrue result ↔ (slot x.now i ≡ slot y.now j) }
    ensures comparisons { CountsComparisons result steps.old steps.new (node_count (slot x.now i)) }
{
    x.known();
    y.known();
    if x.is_null(i) || y.is_null(j) {
        steps.add(1);
        return is_null_value(x, i) && is_null_value(y, j);
    }
    let (values, other_values) = (x.values(), y.values());
    same_run(values, x.place(i), other_values, y.place(j), 1, steps)
}

/// Returns whether slot `i` is null: its key, or the value at its key.
#[cycle(null)]
fn is_null_value(x: &DictionaryArray, i: usize) -> bool
    requires { i < len x.now }
    ensures { IsTrue result ↔ (slot x.now i ≡ slots.null) }
{
    x.known();
    if x.is_null(i) {
        return true;
    }
    is_null_slot(x.values(), x.place(i))
}

/// Returns whether slot `i` is null; in a dictionary array also where its key indexes a null value.
#[cycle(null)]
fn is_null_slot(a: &AnyArray, i: usize) -> bool
    requires { i < len (layout_of a.now) }
    ensures { IsTrue result ↔ (slot (layout_of a.now) i ≡ slots.null) }
{
    match a {
        AnyArray::Null(x) => x.is_null(i),
        AnyArray::Boolean(x) => x.is_null(i),
        AnyArray::Primitive(x) => x.is_null(i),
        AnyArray::Binary(x) => x.is_null(i),
        AnyArray::LargeBinary(x) => x.is_null(i),
        AnyArray::Utf8(x) => x.is_null(i),
        AnyArray::LargeUtf8(x) => x.is_null(i),
        AnyArray::FixedSizeBinary(x) => x.is_null(i),
        AnyArray::FixedSizeList(x) => x.is_null(i),
        AnyArray::List(x) => x.is_null(i),
        AnyArray::LargeList(x) => x.is_null(i),
        AnyArray::Struct(x) => x.is_null(i),
        AnyArray::Map(x) => x.is_null(i),
        AnyArray::Union(x) => x.is_null(i),
        AnyArray::Dictionary(x) => is_null_value(x, i),
    }
}

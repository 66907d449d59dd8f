//! Equality of slices of union arrays.
ghost use Rattle.std.specs.Prelude.{◌≡◌, ◌↔◌, ◌+◌, ◌≤◌, ◌<◌, IsTrue};
ghost use Rattle.nest_array.specs.Words.{Alike, CountsComparisons, len, node_count, node_counts, run, slot};

use crate::equal::same_run;
use crate::steps::Steps;
use crate::union::UnionArray;

/// Returns whether the `n` picks of `x` from index `o` equal those of `y` from index `p`, one by one.
#[cycle(equal)]
pub(crate) fn same_picks(
    x: &UnionArray,
    o: usize,
    y: &UnionArray,
    p: usize,
    n: usize,
    steps: &mut Steps,
) -> bool
    requires alike { Alike x.now y.now }
    requires within { o + n ≤ len x.now }
    requires other_within { p + n ≤ len y.now }
    ensures same { IsTrue result ↔ (run (slot x.now) o n ≡ run (slot y.now) p n) }
    ensures comparisons { CountsComparisons result steps.old steps.new (node_counts (run (slot x.now) o n)) }
{
    let _ends = (x.len(), y.len());
    for k in 0..n {
        if !is_same_pick(x, o + k, y, p + k, steps) {
            return false;
        }
    }
    true
}

/// Returns whether pick `i` of `x` equals pick `j` of `y`: the same field index and the same slot.
#[cycle(equal)]
fn is_same_pick(x: &UnionArray, i: usize, y: &UnionArray, j: usize, steps: &mut Steps) -> bool
    requires alike { Alike x.now y.now }
    requires within { i < len x.now }
    requires other_within { j < len y.now }
    ensures same { IsTrue result ↔ (slot x.now i ≡ slot y.now j) }
    ensures comparisons { CountsComparisons result steps.old steps.new (node_count (slot x.now i)) }
{
    steps.add(1);
    x.known();
    y.known();
    let (field, place) = x.index(i);
    let (other_field, other_place) = y.index(j);
    if field != other_field {
        return false;
    }
    same_run(
        x.field_at(field),
        place,
        y.field_at(other_field),
        other_place,
        1,
        steps,
    )
}

//! Arrays whose slots are lists of the items of one child.
ghost use Rattle.std.specs.Prelude.{◌≡◌, ◌↔◌, ◌+◌, ◌≤◌, ◌<◌, suc, IsTrue, Some, MatchOption};
ghost use Rattle.nest_array.specs.RowSlots.{AreRows, IsWithin, SameBounds, bound_of, row_slot};
ghost use Rattle.nest_array.specs.Words.{EachValid, Layout, child_of, item_type, layout_of, layout_type, len, slot, validity_of};

use crate::any::AnyArray;
use crate::equal::is_full;
use crate::fixed_size_list::FixedSizeListArray;
use crate::list::ListArray;
use crate::list::large::LargeListArray;
use crate::map::MapArray;
use crate::steps::Steps;

/// An array of lists, as comparisons need it.
pub(crate) trait Rows {
    ghost layout: { Self → Layout };

    /// Returns the number of lists.
    fn count(&self) -> usize
        ensures { result ≡ len (layout self.now) };

    /// Returns the items of all lists.
    fn items(&self) -> &AnyArray
        ensures shown { layout_of result.now ≡ child_of (layout self.now) }
        ensures typed { item_type (layout_type (layout self.now)) ≡ Some (layout_type (layout_of result.now)) };

    /// Returns the index of the first item of list `i` and the number of its items, `None` if the list is null.
    fn row(&self, i: usize) -> Option<(usize, usize)>
        requires { i < len (layout self.now) }
        ensures within { IsWithin result (len (child_of (layout self.now))) }
        ensures slot { row_slot (child_of (layout self.now)) result ≡ slot (layout self.now) i };

    /// Shows the prover the invariant of the array. Does nothing at run time.
    fn known_rows(&self)
        ensures { AreRows (layout self.now) };

    /// Returns whether none of the `n` lists from index `o` is null.
    fn are_full(&self, o: usize, n: usize) -> bool
        requires { o + n ≤ len (layout self.now) }
        ensures { IsTrue result ↔ EachValid (validity_of (layout self.now)) o n };

    /// Returns the index of the first item of list `i` and the number of its items, also if the list is null.
    fn span(&self, i: usize) -> (usize, usize)
        requires { i < len (layout self.now) }
        ensures start { result.0 ≡ bound_of (layout self.now) i }
        ensures end { result.0 + result.1 ≡ bound_of (layout self.now) (suc i) }
        ensures within { result.0 + result.1 ≤ len (child_of (layout self.now)) };
}

impl Rows for ListArray {
    ghost layout = { λ x. x };

    fn count(&self) -> usize {
        self.len()
    }

    fn items(&self) -> &AnyArray {
        self.known();
        self.values()
    }

    fn row(&self, i: usize) -> Option<(usize, usize)> {
        self.known();
        if self.is_null(i) {
            return None;
        }
        Some(self.range(i))
    }

    fn known_rows(&self) {
        self.known();
    }

    fn are_full(&self, o: usize, n: usize) -> bool {
        is_full(self, o, n)
    }

    fn span(&self, i: usize) -> (usize, usize) {
        self.known();
        self.range(i)
    }
}

impl Rows for LargeListArray {
    ghost layout = { λ x. x };

    fn count(&self) -> usize {
        self.len()
    }

    fn items(&self) -> &AnyArray {
        self.known();
        self.values()
    }

    fn row(&self, i: usize) -> Option<(usize, usize)> {
        self.known();
        if self.is_null(i) {
            return None;
        }
        Some(self.range(i))
    }

    fn known_rows(&self) {
        self.known();
    }

    fn are_full(&self, o: usize, n: usize) -> bool {
        is_full(self, o, n)
    }

    fn span(&self, i: usize) -> (usize, usize) {
        self.known();
        self.range(i)
    }
}

impl Rows for FixedSizeListArray {
    ghost layout = { λ x. x };

    fn count(&self) -> usize {
        self.len()
    }

    fn items(&self) -> &AnyArray {
        self.known();
        self.values()
    }

    fn row(&self, i: usize) -> Option<(usize, usize)> {
        self.known();
        if self.is_null(i) {
            return None;
        }
        Some((self.start(i), self.size()))
    }

    fn known_rows(&self) {
        self.known();
    }

    fn are_full(&self, o: usize, n: usize) -> bool {
        is_full(self, o, n)
    }

    fn span(&self, i: usize) -> (usize, usize) {
        self.known();
        (self.start(i), self.size())
    }
}

impl Rows for MapArray {
    ghost layout = { λ x. x };

    fn count(&self) -> usize {
        self.len()
    }

    fn items(&self) -> &AnyArray {
        self.known();
        self.field()
    }

    fn row(&self, i: usize) -> Option<(usize, usize)> {
        self.known();
        if self.is_null(i) {
            return None;
        }
        Some(self.range(i))
    }

    fn known_rows(&self) {
        self.known();
    }

    fn are_full(&self, o: usize, n: usize) -> bool {
        is_full(self, o, n)
    }

    fn span(&self, i: usize) -> (usize, usize) {
        self.known();
        self.range(i)
    }
}

/// An array of lists of any kind.
#[derive(Clone, Copy)]
pub(crate) enum Lists<'a> {
    List(&'a ListArray),
    LargeList(&'a LargeListArray),
    FixedSizeList(&'a FixedSizeListArray),
    Map(&'a MapArray),
}

impl<'a> Rows for Lists<'a> {
    ghost use Rattle.nest_array.specs.SeenLists.{lists_layout};

    ghost layout = { lists_layout };

    fn count(&self) -> usize {
        match self {
            Lists::List(lists) => lists.count(),
            Lists::LargeList(lists) => lists.count(),
            Lists::FixedSizeList(lists) => lists.count(),
            Lists::Map(lists) => lists.count(),
        }
    }

    fn items(&self) -> &AnyArray {
        match self {
            Lists::List(lists) => lists.items(),
            Lists::LargeList(lists) => lists.items(),
            Lists::FixedSizeList(lists) => lists.items(),
            Lists::Map(lists) => lists.items(),
        }
    }

    fn row(&self, i: usize) -> Option<(usize, usize)> {
        match self {
            Lists::List(lists) => lists.row(i),
            Lists::LargeList(lists) => lists.row(i),
            Lists::FixedSizeList(lists) => lists.row(i),
            Lists::Map(lists) => lists.row(i),
        }
    }

    fn known_rows(&self) {
        match self {
            Lists::List(lists) => lists.known_rows(),
            Lists::LargeList(lists) => lists.known_rows(),
            Lists::FixedSizeList(lists) => lists.known_rows(),
            Lists::Map(lists) => lists.known_rows(),
        }
    }

    fn are_full(&self, o: usize, n: usize) -> bool {
        match self {
            Lists::List(lists) => lists.are_full(o, n),
            Lists::LargeList(lists) => lists.are_full(o, n),
            Lists::FixedSizeList(lists) => lists.are_full(o, n),
            Lists::Map(lists) => lists.are_full(o, n),
        }
    }

    fn span(&self, i: usize) -> (usize, usize) {
        match self {
            Lists::List(lists) => lists.span(i),
            Lists::LargeList(lists) => lists.span(i),
            Lists::FixedSizeList(lists) => lists.span(i),
            Lists::Map(lists) => lists.span(i),
        }
    }
}

/// Returns the number of items in the `n` lists of `xs` from index `o`.
///
/// Returns `None` if a list of `ys` from index `p` has another length. Each pair of lists counts one comparison.
pub(crate) fn same_counts<R: Rows, S: Rows>(
    xs: &R,
    o: usize,
    ys: &S,
    p: usize,
    n: usize,
    steps: &mut Steps,
) -> Option<usize>
    requires within { o + n ≤ len (R.layout xs.now) }
    requires other_within { p + n ≤ len (S.layout ys.now) }
    ensures same { let a = R.layout xs.now in let b = S.layout ys.now in MatchOption result (SameBounds a o b p n → ⊥)
        (λ m. SameBounds a o b p n × (bound_of a o + m ≡ bound_of a (o + n))) }
    ensures comparisons { MatchOption result (steps.new ≤ steps.old + n) (λ m. steps.new ≡ steps.old + n) }
{
    xs.known_rows();
    let _ends = (xs.count(), ys.count());
    let items = xs.items();
    let _items = items.len();
    let mut total = 0;
    for k in 0..n {
        let (_, count) = xs.span(o + k);
        let (_, other_count) = ys.span(p + k);
        if count != other_count {
            steps.add(k as u64 + 1);
            return None;
        }
        total += count;
    }
    steps.add(n as u64);
    Some(total)
}

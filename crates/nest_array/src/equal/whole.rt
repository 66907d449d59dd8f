//! Equality of entire arrays: of any kind, and of each kind.
ghost use Rattle.std.specs.Prelude.{◌≡◌, ◌↔◌, ◌+◌, ◌≤◌, IsTrue};
ghost use Rattle.nest_array.specs.Words.{Alike, IsSameArray, CountsComparisons, layout_of, layout_type, len, node_counts, run, same_array, slot, slots_of};

use crate::any::AnyArray;
use crate::array::Array;
use crate::dictionary::DictionaryArray;
use crate::equal::flat::each_same_slot;
use crate::equal::keyed::same_keyed;
use crate::equal::picks::same_picks;
use crate::equal::records::same_records;
use crate::equal::rows::Lists;
use crate::equal::{same_nulls, same_rows, same_run, same_shape};
use crate::fixed_size_binary::FixedSizeBinaryArray;
use crate::fixed_size_list::FixedSizeListArray;
use crate::list::ListArray;
use crate::list::large::LargeListArray;
use crate::map::MapArray;
use crate::null::NullArray;
use crate::steps::Steps;
use crate::struct_::StructArray;
use crate::union::UnionArray;

/// An array whose slices can be compared.
pub(crate) trait SlotRuns: Array {
    /// Returns whether the `n` slots from index `o` equal those of `other` from index `p`.
    fn is_same_run(&self, o: usize, other: &Self, p: usize, n: usize, steps: &mut Steps) -> bool
        requires alike { Alike (Self.layout self.now) (Self.layout other.now) }
        requires within { o + n ≤ len (Self.layout self.now) }
        requires other_within { p + n ≤ len (Self.layout other.now) }
        ensures same { IsTrue result ↔ (run (slot (Self.layout self.now)) o n ≡ run (slot (Self.layout other.now)) p n) }
        ensures comparisons { CountsComparisons result steps.old steps.new (node_counts (run (slot (Self.layout self.now)) o n)) };
}

/// Returns whether two arrays of one kind have the same data type and the same slots.
pub(crate) fn same_arrays<A: SlotRuns>(x: &A, y: &A) -> bool
    ensures computes { result ≡ same_array (A.layout x.now) (A.layout y.now) }
    ensures decides { IsTrue result ↔ IsSameArray (A.layout x.now) (A.layout y.now) }
{
    let mut steps = Steps::new();
    same_arrays_counted(x, y, &mut steps)
}

/// The same as `same_arrays`, with a count of comparisons.
pub(crate) fn same_arrays_counted<A: SlotRuns>(x: &A, y: &A, steps: &mut Steps) -> bool
    ensures same { IsTrue result ↔ IsSameArray (A.layout x.now) (A.layout y.now) }
    ensures comparisons { CountsComparisons result steps.old steps.new (node_counts (slots_of (A.layout x.now))) }
    ensures none { (layout_type (A.layout x.now) ≡ layout_type (A.layout y.now) → len (A.layout x.now) ≡ len (A.layout y.now) → ⊥)
        → steps.new ≡ steps.old }
{
    if !same_shape(x.data_type(), x.len(), y.data_type(), y.len()) {
        return false;
    }
    x.is_same_run(0, y, 0, x.len(), steps)
}

impl SlotRuns for AnyArray {
    fn is_same_run(
        &self,
        o: usize,
        other: &AnyArray,
        p: usize,
        n: usize,
        steps: &mut Steps,
    ) -> bool {
        same_run(self, o, other, p, n, steps)
    }
}

impl PartialEq for AnyArray {
    ghost use Rattle.std.specs.Cmp.{on_equiv, partial_equiv_from_equiv};
    ghost use Rattle.nest_model.specs.SameArray.{same_array};
    ghost use Rattle.nest_array.specs.Seen.{layout_of};
    ghost use Rattle.nest_flat.specs.SameFlat.{same_array-equiv};

    ghost eq = { λ a b. same_array (layout_of a) (layout_of b) };

    ghost laws = { partial_equiv_from_equiv (on_equiv layout_of same_array-equiv) };

    fn eq(&self, other: &AnyArray) -> bool
        ensures computes { result ≡ same_array (layout_of self.now) (layout_of other.now) }
        ensures decides { IsTrue result ↔ IsSameArray (layout_of self.now) (layout_of other.now) }
    {
        same_arrays(self, other)
    }
}

impl Eq for AnyArray {
    ghost use Rattle.std.specs.Cmp.{on_equiv};
    ghost use Rattle.nest_array.specs.Seen.{layout_of};
    ghost use Rattle.nest_flat.specs.SameFlat.{same_array-equiv};

    ghost laws = { on_equiv layout_of same_array-equiv };
}

impl SlotRuns for ListArray {
    fn is_same_run(
        &self,
        o: usize,
        other: &ListArray,
        p: usize,
        n: usize,
        steps: &mut Steps,
    ) -> bool {
        same_rows(&Lists::List(self), o, &Lists::List(other), p, n, steps)
    }
}

impl PartialEq for ListArray {
    ghost use Rattle.std.specs.Cmp.{partial_equiv_from_equiv};
    ghost use Rattle.nest_model.specs.SameArray.{same_array};
    ghost use Rattle.nest_flat.specs.SameFlat.{same_array-equiv};

    ghost eq = { same_array };

    ghost laws = { partial_equiv_from_equiv same_array-equiv };

    fn eq(&self, other: &ListArray) -> bool
        ensures computes { result ≡ same_array self.now other.now }
        ensures decides { IsTrue result ↔ IsSameArray self.now other.now }
    {
        same_arrays(self, other)
    }
}

impl Eq for ListArray {
    ghost use Rattle.nest_flat.specs.SameFlat.{same_array-equiv};

    ghost laws = { same_array-equiv };
}

impl SlotRuns for LargeListArray {
    fn is_same_run(
        &self,
        o: usize,
        other: &LargeListArray,
        p: usize,
        n: usize,
        steps: &mut Steps,
    ) -> bool {
        same_rows(
            &Lists::LargeList(self),
            o,
            &Lists::LargeList(other),
            p,
            n,
            steps,
        )
    }
}

impl PartialEq for LargeListArray {
    ghost use Rattle.std.specs.Cmp.{partial_equiv_from_equiv};
    ghost use Rattle.nest_model.specs.SameArray.{same_array};
    ghost use Rattle.nest_flat.specs.SameFlat.{same_array-equiv};

    ghost eq = { same_array };

    ghost laws = { partial_equiv_from_equiv same_array-equiv };

    fn eq(&self, other: &LargeListArray) -> bool
        ensures computes { result ≡ same_array self.now other.now }
        ensures decides { IsTrue result ↔ IsSameArray self.now other.now }
    {
        same_arrays(self, other)
    }
}

impl Eq for LargeListArray {
    ghost use Rattle.nest_flat.specs.SameFlat.{same_array-equiv};

    ghost laws = { same_array-equiv };
}

impl SlotRuns for FixedSizeListArray {
    fn is_same_run(
        &self,
        o: usize,
        other: &FixedSizeListArray,
        p: usize,
        n: usize,
        steps: &mut Steps,
    ) -> bool {
        same_rows(
            &Lists::FixedSizeList(self),
            o,
            &Lists::FixedSizeList(other),
            p,
            n,
            steps,
        )
    }
}

impl PartialEq for FixedSizeListArray {
    ghost use Rattle.std.specs.Cmp.{partial_equiv_from_equiv};
    ghost use Rattle.nest_model.specs.SameArray.{same_array};
    ghost use Rattle.nest_flat.specs.SameFlat.{same_array-equiv};

    ghost eq = { same_array };

    ghost laws = { partial_equiv_from_equiv same_array-equiv };

    fn eq(&self, other: &FixedSizeListArray) -> bool
        ensures computes { result ≡ same_array self.now other.now }
        ensures decides { IsTrue result ↔ IsSameArray self.now other.now }
    {
        same_arrays(self, other)
    }
}

impl Eq for FixedSizeListArray {
    ghost use Rattle.nest_flat.specs.SameFlat.{same_array-equiv};

    ghost laws = { same_array-equiv };
}

impl SlotRuns for StructArray {
    fn is_same_run(
        &self,
        o: usize,
        other: &StructArray,
        p: usize,
        n: usize,
        steps: &mut Steps,
    ) -> bool {
        same_records(self, o, other, p, n, steps)
    }
}

impl PartialEq for StructArray {
    ghost use Rattle.std.specs.Cmp.{partial_equiv_from_equiv};
    ghost use Rattle.nest_model.specs.SameArray.{same_array};
    ghost use Rattle.nest_flat.specs.SameFlat.{same_array-equiv};

    ghost eq = { same_array };

    ghost laws = { partial_equiv_from_equiv same_array-equiv };

    fn eq(&self, other: &StructArray) -> bool
        ensures computes { result ≡ same_array self.now other.now }
        ensures decides { IsTrue result ↔ IsSameArray self.now other.now }
    {
        same_arrays(self, other)
    }
}

impl Eq for StructArray {
    ghost use Rattle.nest_flat.specs.SameFlat.{same_array-equiv};

    ghost laws = { same_array-equiv };
}

impl SlotRuns for NullArray {
    fn is_same_run(
        &self,
        o: usize,
        other: &NullArray,
        p: usize,
        n: usize,
        steps: &mut Steps,
    ) -> bool {
        self.known();
        same_nulls(self, o, other, p, n, steps)
    }
}

impl PartialEq for NullArray {
    ghost use Rattle.std.specs.Cmp.{partial_equiv_from_equiv};
    ghost use Rattle.nest_model.specs.SameArray.{same_array};
    ghost use Rattle.nest_flat.specs.SameFlat.{same_array-equiv};

    ghost eq = { same_array };

    ghost laws = { partial_equiv_from_equiv same_array-equiv };

    fn eq(&self, other: &NullArray) -> bool
        ensures computes { result ≡ same_array self.now other.now }
        ensures decides { IsTrue result ↔ IsSameArray self.now other.now }
    {
        same_arrays(self, other)
    }
}

impl Eq for NullArray {
    ghost use Rattle.nest_flat.specs.SameFlat.{same_array-equiv};

    ghost laws = { same_array-equiv };
}

impl SlotRuns for FixedSizeBinaryArray {
    fn is_same_run(
        &self,
        o: usize,
        other: &FixedSizeBinaryArray,
        p: usize,
        n: usize,
        steps: &mut Steps,
    ) -> bool {
        self.known();
        each_same_slot(self, o, other, p, n, steps)
    }
}

impl PartialEq for FixedSizeBinaryArray {
    ghost use Rattle.std.specs.Cmp.{partial_equiv_from_equiv};
    ghost use Rattle.nest_model.specs.SameArray.{same_array};
    ghost use Rattle.nest_flat.specs.SameFlat.{same_array-equiv};

    ghost eq = { same_array };

    ghost laws = { partial_equiv_from_equiv same_array-equiv };

    fn eq(&self, other: &FixedSizeBinaryArray) -> bool
        ensures computes { result ≡ same_array self.now other.now }
        ensures decides { IsTrue result ↔ IsSameArray self.now other.now }
    {
        same_arrays(self, other)
    }
}

impl Eq for FixedSizeBinaryArray {
    ghost use Rattle.nest_flat.specs.SameFlat.{same_array-equiv};

    ghost laws = { same_array-equiv };
}

impl SlotRuns for MapArray {
    fn is_same_run(
        &self,
        o: usize,
        other: &MapArray,
        p: usize,
        n: usize,
        steps: &mut Steps,
    ) -> bool {
        same_rows(&Lists::Map(self), o, &Lists::Map(other), p, n, steps)
    }
}

impl PartialEq for MapArray {
    ghost use Rattle.std.specs.Cmp.{partial_equiv_from_equiv};
    ghost use Rattle.nest_model.specs.SameArray.{same_array};
    ghost use Rattle.nest_flat.specs.SameFlat.{same_array-equiv};

    ghost eq = { same_array };

    ghost laws = { partial_equiv_from_equiv same_array-equiv };

    fn eq(&self, other: &MapArray) -> bool
        ensures computes { result ≡ same_array self.now other.now }
        ensures decides { IsTrue result ↔ IsSameArray self.now other.now }
    {
        same_arrays(self, other)
    }
}

impl Eq for MapArray {
    ghost use Rattle.nest_flat.specs.SameFlat.{same_array-equiv};

    ghost laws = { same_array-equiv };
}

impl SlotRuns for UnionArray {
    fn is_same_run(
        &self,
        o: usize,
        other: &UnionArray,
        p: usize,
        n: usize,
        steps: &mut Steps,
    ) -> bool {
        same_picks(self, o, other, p, n, steps)
    }
}

impl PartialEq for UnionArray {
    ghost use Rattle.std.specs.Cmp.{partial_equiv_from_equiv};
    ghost use Rattle.nest_model.specs.SameArray.{same_array};
    ghost use Rattle.nest_flat.specs.SameFlat.{same_array-equiv};

    ghost eq = { same_array };

    ghost laws = { partial_equiv_from_equiv same_array-equiv };

    fn eq(&self, other: &UnionArray) -> bool
        ensures computes { result ≡ same_array self.now other.now }
        ensures decides { IsTrue result ↔ IsSameArray self.now other.now }
    {
        same_arrays(self, other)
    }
}

impl Eq for UnionArray {
    ghost use Rattle.nest_flat.specs.SameFlat.{same_array-equiv};

    ghost laws = { same_array-equiv };
}

impl SlotRuns for DictionaryArray {
    fn is_same_run(
        &self,
        o: usize,
        other: &DictionaryArray,
        p: usize,
        n: usize,
        steps: &mut Steps,
    ) -> bool {
        same_keyed(self, o, other, p, n, steps)
    }
}

impl PartialEq for DictionaryArray {
    ghost use Rattle.std.specs.Cmp.{partial_equiv_from_equiv};
    ghost use Rattle.nest_model.specs.SameArray.{same_array};
    ghost use Rattle.nest_flat.specs.SameFlat.{same_array-equiv};

    ghost eq = { same_array };

    ghost laws = { partial_equiv_from_equiv same_array-equiv };

    fn eq(&self, other: &DictionaryArray) -> bool
        ensures computes { result ≡ same_array self.now other.now }
        ensures decides { IsTrue result ↔ IsSameArray self.now other.now }
    {
        same_arrays(self, other)
    }
}

impl Eq for DictionaryArray {
    ghost use Rattle.nest_flat.specs.SameFlat.{same_array-equiv};

    ghost laws = { same_array-equiv };
}

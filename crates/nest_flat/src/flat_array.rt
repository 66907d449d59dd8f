//! A common interface of the flat arrays: a raw value and a validity bit per slot.
ghost use Rattle.std.specs.Prelude.{◌≡◌, ◌↔◌, ◌+◌, ◌<◌, ◌≤◌, IsTrue, IsSome, None};
ghost use Rattle.nest_model.specs.Slot as slots;
ghost use Rattle.nest_flat.specs.Words.{IsSameArray, Layout, Slot, is_null_at, layout_type, len, null_count, optional, run, slot, slots_of, type_of, validity_of, with_validity};

use crate::iterator::SlotItems;
use nest_memory::datatypes::DataType;

/// A reference to a flat array.
pub trait FlatArray: Copy {
    /// The type of raw values.
    type Value;

    /// The layout of the array.
    ghost layout: { Self → Layout };

    /// The slot that a value represents.
    ghost slot_of_value: { Self.Value → Slot };

    /// Returns the data type.
    fn type_of_slots(&self) -> &DataType
        ensures { type_of result.now ≡ layout_type (layout self.now) };

    /// Returns the number of slots.
    fn count(&self) -> usize
        ensures { result ≡ len (layout self.now) };

    /// Returns the number of null slots.
    fn nulls(&self) -> usize
        ensures { result ≡ null_count (layout self.now) };

    /// Returns whether slot `i` is null.
    fn is_null_slot(&self, i: usize) -> bool
        requires { i < len (layout self.now) }
        ensures slot { IsTrue result ↔ (slot (layout self.now) i ≡ slots.null) }
        ensures bit { result ≡ is_null_at (layout self.now) i };

    /// Returns the raw value of slot `i`.
    fn value_at(&self, i: usize) -> Self::Value
        requires { i < len (layout self.now) }
        ensures { slot_of_value result ≡ slot (with_validity (layout self.now) None) i };

    /// Returns whether the array has a validity.
    fn has_validity(&self) -> bool
        ensures { IsTrue result ↔ IsSome (validity_of (layout self.now)) };

    /// Returns whether slot `i` has the same raw value as slot `j` of the other array.
    fn is_same_value(&self, i: usize, other: &Self, j: usize) -> bool
        requires within { i < len (layout self.now) }
        requires other_within { j < len (layout other.now) }
        ensures { IsTrue result
            ↔ (slot (with_validity (layout self.now) None) i ≡ slot (with_validity (layout other.now) None) j) };

    /// Returns whether raw values `o..o + n` equal raw values `p..p + n` of the other array.
    fn same_values(&self, o: usize, other: &Self, p: usize, n: usize) -> bool
        requires within { o + n ≤ len (layout self.now) }
        requires other_within { p + n ≤ len (layout other.now) }
        ensures { IsTrue result
            ↔ (run (slot (with_validity (layout self.now) None)) o n ≡ run (slot (with_validity (layout other.now) None)) p n) }
    {
        let _ends = (self.count(), other.count());
        for k in 0..n {
            if !self.is_same_value(o + k, other, p + k) {
                return false;
            }
        }
        true
    }

    /// Returns whether slot `i` equals slot `j` of the other array.
    fn is_same_slot(&self, i: usize, other: &Self, j: usize) -> bool
        requires within { i < len (layout self.now) }
        requires other_within { j < len (layout other.now) }
        ensures { IsTrue result ↔ (slot (layout self.now) i ≡ slot (layout other.now) j) }
    {
        let null = self.is_null_slot(i);
        if other.is_null_slot(j) {
            return null;
        }
        if null {
            return false;
        }
        self.is_same_value(i, other, j)
    }

    /// Returns whether slots `o..o + n` equal slots `p..p + n` of the other array, compared one by one.
    fn each_same_slot(&self, o: usize, other: &Self, p: usize, n: usize) -> bool
        requires within { o + n ≤ len (layout self.now) }
        requires other_within { p + n ≤ len (layout other.now) }
        ensures { IsTrue result ↔ (run (slot (layout self.now)) o n ≡ run (slot (layout other.now)) p n) }
    {
        let _ends = (self.count(), other.count());
        for k in 0..n {
            if !self.is_same_slot(o + k, other, p + k) {
                return false;
            }
        }
        true
    }
}

/// The slots of an array, `None` for nulls.
#[derive(Clone, Copy)]
pub struct Slots<A: FlatArray>(pub A);

impl<A: FlatArray> SlotItems for Slots<A> {
    type Item = Option<A::Value>;

    ghost array = { λ s. A.layout s.0 };

    ghost slot_of_item = { optional A.slot_of_value };

    fn count(&self) -> usize {
        self.0.count()
    }

    fn item(&self, i: usize) -> Option<A::Value> {
        if self.0.is_null_slot(i) {
            return None;
        }
        Some(self.0.value_at(i))
    }
}

/// Iterator over the raw values of an array, including those of null slots.
#[derive(Clone, Copy)]
pub struct Values<A: FlatArray>(pub A);

#[tactic(auto, using(crate::specs::BareSlots::len_bare))]
impl<A: FlatArray> SlotItems for Values<A> {
    type Item = A::Value;

    ghost use Rattle.nest_model.specs.Accessors.{with_validity};
    ghost use Rattle.std.specs.Prelude.{None};

    ghost array = { λ s. with_validity (A.layout s.0) None };

    ghost slot_of_item = { A.slot_of_value };

    fn count(&self) -> usize {
        self.0.count()
    }

    fn item(&self, i: usize) -> A::Value {
        self.0.value_at(i)
    }
}

/// Returns whether slots `o..o + n` of `a` equal slots `p..p + n` of `b`. Without validities only raw values are
/// compared.
pub fn same_run<A: FlatArray>(a: A, o: usize, b: A, p: usize, n: usize) -> bool
    requires within { o + n ≤ len (A.layout a) }
    requires other_within { p + n ≤ len (A.layout b) }
    ensures { IsTrue result ↔ (run (slot (A.layout a)) o n ≡ run (slot (A.layout b)) p n) }
{
    if a.has_validity() || b.has_validity() {
        return a.each_same_slot(o, &b, p, n);
    }
    a.same_values(o, &b, p, n)
}

/// Returns whether arrays of one length have the same slots. Without nulls only raw values are compared.
pub(crate) fn same_slots<A: FlatArray>(a: A, b: A) -> bool
    requires { len (A.layout a) ≡ len (A.layout b) }
    ensures { IsTrue result ↔ (slots_of (A.layout a) ≡ slots_of (A.layout b)) }
{
    let n = a.count();
    if a.nulls() == 0 && b.nulls() == 0 {
        return a.same_values(0, &b, 0, n);
    }
    a.each_same_slot(0, &b, 0, n)
}

/// Returns whether two arrays have the same data type and the same slots.
pub fn same_arrays<A: FlatArray>(a: A, b: A) -> bool
    ensures { IsTrue result ↔ IsSameArray (A.layout a) (A.layout b) }
{
    let same_type = *a.type_of_slots() == *b.type_of_slots();
    if !same_type {
        return false;
    }
    if a.count() != b.count() {
        return false;
    }
    same_slots(a, b)
}

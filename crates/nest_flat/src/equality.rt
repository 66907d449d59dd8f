//! Equality of flat arrays (data type and slots), and of ranges of slots.
ghost use Rattle.std.specs.Prelude.{◌≡◌, ◌↔◌, ◌+◌, ◌≤◌, IsTrue, None};
ghost use Rattle.nest_flat.specs.Words.{IsSameArray, sublist, len, natives_of, run, same_array, slot, with_validity};

use crate::binary::BinaryArray;
use crate::boolean::BooleanArray;
use crate::flat_array;
use crate::primitive::PrimitiveArray;
use crate::utf8::Utf8Array;
use nest_memory::offset::Offset;
use nest_memory::types::NativeType;

impl BooleanArray {
    /// Returns whether slots `o..o + n` equal slots `p..p + n` of the other array. Without validities only raw values
    /// are compared.
    pub fn same_run(&self, o: usize, other: &BooleanArray, p: usize, n: usize) -> bool
        requires within { o + n ≤ len self.now }
        requires other_within { p + n ≤ len other.now }
        ensures { IsTrue result ↔ (run (slot self.now) o n ≡ run (slot other.now) p n) }
    {
        flat_array::same_run(self, o, other, p, n)
    }
}

impl PartialEq for BooleanArray {
    ghost use Rattle.std.specs.Cmp.{partial_equiv_from_equiv};
    ghost use Rattle.nest_model.specs.SameArray.{same_array};
    ghost use Rattle.nest_flat.specs.SameFlat.{same_array-equiv};

    ghost eq = { same_array };

    ghost laws = { partial_equiv_from_equiv same_array-equiv };

    fn eq(&self, other: &BooleanArray) -> bool
        ensures computes { result ≡ same_array self.now other.now }
        ensures decides { IsTrue result ↔ IsSameArray self.now other.now }
    {
        flat_array::same_arrays(self, other)
    }
}

impl Eq for BooleanArray {
    ghost use Rattle.nest_flat.specs.SameFlat.{same_array-equiv};

    ghost laws = { same_array-equiv };
}

impl<T: NativeType> PrimitiveArray<T> {
    /// Returns whether slots `o..o + n` equal slots `p..p + n` of the other array. Without validities only raw values
    /// are compared.
    pub fn same_run(&self, o: usize, other: &PrimitiveArray<T>, p: usize, n: usize) -> bool
        requires within { o + n ≤ len self.now }
        requires other_within { p + n ≤ len other.now }
        ensures { IsTrue result ↔ (run (slot self.now) o n ≡ run (slot other.now) p n) }
    {
        flat_array::same_run(self, o, other, p, n)
    }

    /// Returns whether raw values `o..o + n` equal raw values `p..p + n` of the other array, including those of
    /// nulls.
    pub fn equal_block(&self, o: usize, other: &PrimitiveArray<T>, p: usize, n: usize) -> bool
        requires within { o + n ≤ len self.now }
        requires other_within { p + n ≤ len other.now }
        ensures raw { IsTrue result ↔ (sublist (natives_of self.now) o n ≡ sublist (natives_of other.now) p n) }
        ensures unmasked { IsTrue result
            ↔ (run (slot (with_validity self.now None)) o n ≡ run (slot (with_validity other.now None)) p n) }
    {
        self.values_from(o, n) == other.values_from(p, n)
    }
}

impl<T: NativeType> PartialEq for PrimitiveArray<T> {
    ghost use Rattle.std.specs.Cmp.{partial_equiv_from_equiv};
    ghost use Rattle.nest_model.specs.SameArray.{same_array};
    ghost use Rattle.nest_flat.specs.SameFlat.{same_array-equiv};

    ghost eq = { same_array };

    ghost laws = { partial_equiv_from_equiv same_array-equiv };

    fn eq(&self, other: &PrimitiveArray<T>) -> bool
        ensures computes { result ≡ same_array self.now other.now }
        ensures decides { IsTrue result ↔ IsSameArray self.now other.now }
    {
        flat_array::same_arrays(self, other)
    }
}

impl<T: NativeType> Eq for PrimitiveArray<T> {
    ghost use Rattle.nest_flat.specs.SameFlat.{same_array-equiv};

    ghost laws = { same_array-equiv };
}

impl<O: Offset> BinaryArray<O> {
    /// Returns whether slots `o..o + n` equal slots `p..p + n` of the other array. Without validities only raw values
    /// are compared.
    pub fn same_run(&self, o: usize, other: &BinaryArray<O>, p: usize, n: usize) -> bool
        requires within { o + n ≤ len self.now }
        requires other_within { p + n ≤ len other.now }
        ensures { IsTrue result ↔ (run (slot self.now) o n ≡ run (slot other.now) p n) }
    {
        flat_array::same_run(self, o, other, p, n)
    }
}

impl<O: Offset> PartialEq for BinaryArray<O> {
    ghost use Rattle.std.specs.Cmp.{partial_equiv_from_equiv};
    ghost use Rattle.nest_model.specs.SameArray.{same_array};
    ghost use Rattle.nest_flat.specs.SameFlat.{same_array-equiv};

    ghost eq = { same_array };

    ghost laws = { partial_equiv_from_equiv same_array-equiv };

    fn eq(&self, other: &BinaryArray<O>) -> bool
        ensures computes { result ≡ same_array self.now other.now }
        ensures decides { IsTrue result ↔ IsSameArray self.now other.now }
    {
        flat_array::same_arrays(self, other)
    }
}

impl<O: Offset> Eq for BinaryArray<O> {
    ghost use Rattle.nest_flat.specs.SameFlat.{same_array-equiv};

    ghost laws = { same_array-equiv };
}

impl<O: Offset> Utf8Array<O> {
    /// Returns whether slots `o..o + n` equal slots `p..p + n` of the other array. Without validities only raw values
    /// are compared.
    pub fn same_run(&self, o: usize, other: &Utf8Array<O>, p: usize, n: usize) -> bool
        requires within { o + n ≤ len self.now }
        requires other_within { p + n ≤ len other.now }
        ensures { IsTrue result ↔ (run (slot self.now) o n ≡ run (slot other.now) p n) }
    {
        flat_array::same_run(self, o, other, p, n)
    }
}

impl<O: Offset> PartialEq for Utf8Array<O> {
    ghost use Rattle.std.specs.Cmp.{partial_equiv_from_equiv};
    ghost use Rattle.nest_model.specs.SameArray.{same_array};
    ghost use Rattle.nest_flat.specs.SameFlat.{same_array-equiv};

    ghost eq = { same_array };

    ghost laws = { partial_equiv_from_equiv same_array-equiv };

    fn eq(&self, other: &Utf8Array<O>) -> bool
        ensures computes { result ≡ same_array self.now other.now }
        ensures decides { IsTrue result ↔ IsSameArray self.now other.now }
    {
        flat_array::same_arrays(self, other)
    }
}

impl<O: Offset> Eq for Utf8Array<O> {
    ghost use Rattle.nest_flat.specs.SameFlat.{same_array-equiv};

    ghost laws = { same_array-equiv };
}

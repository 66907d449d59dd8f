//! `iter` and `values_iter` for references to arrays.
ghost use Rattle.std.specs.Prelude.{◌≡◌};
ghost use Rattle.nest_scan.specs.Elements.{all_elements};

use crate::elements::ElementsIter;
use crate::tried::{NullableElements, OptionalItems, Tried};
use std::alloc::Global;

/// A reference to an array whose slots can be iterated.
pub trait Scan: Copy {
    type Iter;

    /// Whether an iterator has all slots left.
    ghost Scans: { Self → Self.Iter → Type 0 };

    /// Returns an iterator over the items, `None` for a null. This call does not allocate; the iterator may.
    fn iter(self, alloc: Global) -> Self::Iter
        ensures { Scans self result };
}

/// A reference to an array whose values can be iterated, also those under nulls.
pub trait ScanValues: Copy {
    type ValuesIter;

    /// The condition under which each value can be read.
    ghost CanScanValues: { Self → Type 0 } = { λ _. Unit {0} };

    /// Whether an iterator has all values left.
    ghost ScansValues: { Self → Self.ValuesIter → Type 0 };

    /// Returns an iterator over the values, also those under nulls. This call does not allocate; the iterator may.
    fn values_iter(self, alloc: Global) -> Self::ValuesIter
        requires { CanScanValues self }
        ensures { ScansValues self result };
}

impl<A: NullableElements> Scan for A {
    type Iter = ElementsIter<Tried<OptionalItems<A>>>;

    ghost Scans = { λ a it. it ≡ all_elements (A.array a) };

    fn iter(self, alloc: Global) -> ElementsIter<Tried<OptionalItems<A>>> {
        ElementsIter::new(alloc, OptionalItems(self))
    }
}

impl<A: NullableElements> ScanValues for A {
    type ValuesIter = ElementsIter<Tried<A>>;

    ghost ScansValues = { λ a it. it ≡ all_elements (A.array a) };

    fn values_iter(self, alloc: Global) -> ElementsIter<Tried<A>> {
        ElementsIter::new(alloc, self)
    }
}

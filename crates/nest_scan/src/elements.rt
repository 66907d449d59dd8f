//! Iterators over the items of an array.
ghost use Rattle.std.specs.Prelude.{◌≡◌, ℕ, ◌<◌, IfSome, Some};
ghost use Rattle.std.specs.Iterator.{at_most, UpTo};
ghost use Rattle.std.specs.Iterator.SizeHint.{IsWithinCount};
ghost use Rattle.nest_model.specs.Layout.{Layout};
ghost use Rattle.nest_model.specs.Meaning.{len};
ghost use Rattle.nest_scan.specs.Elements.{all_elements};

use crate::tried::{Tried, TryElements};
use std::alloc::{AllocError, Global};
use std::marker::Model;

/// A source of one item for each slot of an array.
pub trait Elements: Copy {
    type Item;

    /// The array.
    ghost array: { Self → Layout };

    /// The condition on the array under which each slot has an item.
    ghost Asks: { Layout → Type 0 } = { λ _. Unit {0} };

    /// Whether a value is the item of a slot.
    ghost IsItem: { Layout → ℕ → Self.Item → Type 0 };

    /// Returns the number of slots.
    fn count(&self) -> usize
        ensures { result ≡ len (array self.now) };

    /// Returns the item of slot `i`.
    fn item(&self, i: usize) -> Self::Item
        requires asked { Asks (array self.now) }
        requires within { i < len (array self.now) }
        ensures { IsItem (array self.now) i result };
}

/// A marker for sources that can be iterated from the back.
pub trait DoubleEnded {}

/// An iterator over the remaining items of a source.
#[derive(Drop)]
pub struct ElementsIter<S: Elements> {
    source: S,
    front: usize,
    back: usize,
}

impl<S: Elements> Model for ElementsIter<S> {
    ghost use Rattle.std.specs.Prelude.{◌-◌, ◌≤◌};
    ghost use Rattle.nest_model.specs.Meaning.{len};
    ghost use Rattle.nest_scan.specs.Elements.{ElementsLeft, coded_elements, elements};

    ghost Value = { ElementsLeft };

    ghost coded = { coded_elements };

    ghost view = { λ s. elements (S.array s.source) s.front (s.back - s.front) };

    ghost invariant = { λ s. (s.front ≤ s.back) × (s.back ≤ len (S.array s.source)) × S.Asks (S.array s.source) };
}

impl<S: Elements> ElementsIter<S> {
    /// Returns an iterator over all items.
    pub fn of(source: S) -> ElementsIter<S>
        requires { S.Asks (S.array source) }
        ensures { result ≡ all_elements (S.array source) }
    {
        let back = source.count();
        ElementsIter {
            source,
            front: 0,
            back,
        }
    }
}

impl<A: TryElements> ElementsIter<Tried<A>> {
    /// Returns an iterator over all items of an array. This call does not allocate; each item may.
    pub fn new(alloc: Global, array: A) -> ElementsIter<Tried<A>>
        requires { A.Asks (A.array array) }
        ensures { result ≡ all_elements (A.array array) }
    {
        ElementsIter::of(Tried::new(alloc, array))
    }
}

/// Clones the iterator without allocation.
impl<S: Elements> Clone for ElementsIter<S> {
    ghost use Rattle.std.specs.Prelude.{◌≡◌, ⊤};

    ghost is_clone = { λ s t. t ≡ s };

    ghost is_infallible = { λ _. ⊤ };

    fn clone(&self) -> Result<ElementsIter<S>, AllocError> {
        Ok(ElementsIter {
            source: self.source,
            front: self.front,
            back: self.back,
        })
    }
}

impl<S: Elements> Iterator for ElementsIter<S> {
    type Item = S::Item;

    ghost use Rattle.std.specs.Iterator.{at_most};
    ghost use Rattle.nest_scan.specs.Elements.{ReturnsFirst};

    ghost next_gives = { ReturnsFirst S.IsItem };

    ghost remaining = { λ s. at_most s.count };

    fn next(&mut self) -> Option<S::Item> {
        if self.front == self.back {
            return None;
        }
        let item = self.source.item(self.front);
        self.front += 1;
        Some(item)
    }

    fn size_hint(&self) -> (usize, Option<usize>)
        ensures lower { IsWithinCount result.0 (at_most self.now.count) }
        ensures upper { IfSome result.1 (UpTo (at_most self.now.count)) }
        ensures exact { result ≡ (self.now.count, Some self.now.count) }
    {
        let left = self.back - self.front;
        (left, Some(left))
    }
}

impl<S: Elements + DoubleEnded> DoubleEndedIterator for ElementsIter<S> {
    ghost use Rattle.nest_scan.specs.Elements.{ReturnsLast};

    ghost next_back_gives = { ReturnsLast S.IsItem };

    fn next_back(&mut self) -> Option<S::Item> {
        if self.front == self.back {
            return None;
        }
        let item = self.source.item(self.back - 1);
        self.back -= 1;
        Some(item)
    }
}

impl<S: Elements> ExactSizeIterator for ElementsIter<S> {
    fn len(&self) -> usize {
        self.back - self.front
    }
}

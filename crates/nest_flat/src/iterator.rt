//! Double-ended iterators over the slots of flat arrays.
ghost use Rattle.std.specs.Prelude.{◌≡◌, ◌<◌, length, Some, IfSome};
ghost use Rattle.std.specs.Iterator.{at_most, UpTo};
ghost use Rattle.std.specs.Iterator.SizeHint.{IsWithinCount};
ghost use Rattle.nest_flat.specs.Words.{Layout, Slot, len, slot, slots_of};

use std::marker::Model;

/// A source of one item per slot of an array.
pub trait SlotItems: Copy {
    type Item;

    /// The layout of the array.
    ghost array: { Self → Layout };

    /// The slot that an item represents.
    ghost slot_of_item: { Self.Item → Slot };

    /// Returns the number of slots.
    fn count(&self) -> usize
        ensures { result ≡ len (array self.now) };

    /// Returns the item of slot `i`.
    fn item(&self, i: usize) -> Self::Item
        requires { i < len (array self.now) }
        ensures { slot_of_item result ≡ slot (array self.now) i };

    /// Returns the same source, optimized for access to slot `i` and its neighbours.
    fn prepared(self, i: usize) -> Self
        requires { i < len (array self) }
        ensures { array result ≡ array self }
    {
        let _ = i;
        self
    }
}

/// A double-ended iterator over the items of a source. Its model is the list of the slots not yet returned.
#[derive(Drop)]
pub struct SlotsIter<S: SlotItems> {
    source: S,
    front: usize,
    back: usize,
}

impl<S: SlotItems> Model for SlotsIter<S> {
    ghost use Rattle.std.specs.Prelude.{List, ◌-◌, ◌≤◌};
    ghost use Rattle.std.specs.Coded.{coded_list};
    ghost use Rattle.nest_model.specs.Slot.{Slot};
    ghost use Rattle.nest_model.specs.SlotCode.{coded_slot};

    ghost Value = { List Slot };

    ghost coded = { coded_list coded_slot };

    ghost use Rattle.nest_model.specs.Meaning.{run, len, slot};

    ghost view = { λ s. run (slot (S.array s.source)) s.front (s.back - s.front) };

    ghost invariant = { λ s. (s.front ≤ s.back) × (s.back ≤ len (S.array s.source)) };
}

impl<S: SlotItems> SlotsIter<S> {
    /// Returns an iterator over all slots.
    pub fn new(source: S) -> SlotsIter<S>
        ensures { result ≡ slots_of (S.array source) }
    {
        let back = source.count();
        SlotsIter {
            source,
            front: 0,
            back,
        }
    }
}

#[tactic(auto, using(crate::proofs::SlotRuns::run_length))]
impl<S: SlotItems> Iterator for SlotsIter<S> {
    type Item = S::Item;

    ghost use Rattle.std.specs.Iterator.{YieldsFirstBy, item_count};

    ghost next_gives = { YieldsFirstBy S.slot_of_item (λ s. s) };

    ghost remaining = { item_count (λ s. s) };

    fn next(&mut self) -> Option<S::Item> {
        if self.front == self.back {
            return None;
        }
        self.source = self.source.prepared(self.front);
        let item = self.source.item(self.front);
        self.front += 1;
        Some(item)
    }

    fn size_hint(&self) -> (usize, Option<usize>)
        ensures lower { IsWithinCount result.0 (at_most (length self.now)) }
        ensures upper { IfSome result.1 (UpTo (at_most (length self.now))) }
        ensures exact { result ≡ (length self.now, Some (length self.now)) }
    {
        let left = self.back - self.front;
        (left, Some(left))
    }
}

#[tactic(auto, using(crate::proofs::SlotRuns::run_length))]
impl<S: SlotItems> DoubleEndedIterator for SlotsIter<S> {
    ghost use Rattle.std.specs.Iterator.{YieldsLastBy};

    ghost next_back_gives = { YieldsLastBy S.slot_of_item (λ s. s) };

    fn next_back(&mut self) -> Option<S::Item> {
        if self.front == self.back {
            return None;
        }
        self.source = self.source.prepared(self.back - 1);
        let item = self.source.item(self.back - 1);
        self.back -= 1;
        Some(item)
    }
}

#[tactic(auto, using(crate::proofs::SlotRuns::run_length))]
impl<S: SlotItems> ExactSizeIterator for SlotsIter<S> {
    fn len(&self) -> usize {
        self.back - self.front
    }
}

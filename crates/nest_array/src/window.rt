//! Borrowed slices of arrays.
ghost use Rattle.std.specs.Prelude.{◌≡◌, ◌+◌, ◌≤◌, ◌<◌, ◌↔◌, false, IsTrue};
ghost use Rattle.nest_model.specs.Slot as slots;
ghost use Rattle.nest_array.specs.Words.{sublist, has_keys, is_null_at, layout_of, len, slot, slots_of, window_parts, window_slots};

use crate::any::AnyArray;
use std::marker::Model;

/// A borrowed slice: an array, an offset and a length. No method allocates.
#[derive(Drop)]
pub struct Window<'a> {
    array: &'a AnyArray,
    offset: usize,
    count: usize,
}

impl<'a> Model for Window<'a> {
    ghost use Rattle.nest_array.specs.WindowParts.{WindowParts, coded_window};

    ghost Value = { WindowParts };

    ghost coded = { coded_window };

    ghost use Rattle.std.specs.Prelude.{◌+◌, ◌≤◌};
    ghost use Rattle.nest_model.specs.Meaning.{len};
    ghost use Rattle.nest_array.specs.Seen.{layout_of};
    ghost use Rattle.nest_array.specs.WindowParts.{window_parts};

    ghost view = { λ w. window_parts (layout_of w.array.now) w.offset w.count };

    ghost invariant = { λ w. w.offset + w.count ≤ len (layout_of w.array.now) };
}

impl<'a> Window<'a> {
    /// Returns the window over `n` slots of an array from index `o`.
    pub fn new(array: &'a AnyArray, o: usize, n: usize) -> Window<'a>
        requires { o + n ≤ len (layout_of array.now) }
        ensures parts { result ≡ window_parts (layout_of array.now) o n }
        ensures slots { window_slots result ≡ sublist (slots_of (layout_of array.now)) o n }
    {
        Window {
            array,
            offset: o,
            count: n,
        }
    }

    /// Returns the window over all slots of an array.
    pub fn of(array: &'a AnyArray) -> Window<'a>
        ensures parts { result ≡ window_parts (layout_of array.now) 0 (len (layout_of array.now)) }
        ensures slots { window_slots result ≡ slots_of (layout_of array.now) }
    {
        Window {
            array,
            offset: 0,
            count: array.len(),
        }
    }

    /// States the invariant of every window: it is within its array. It does nothing at run time.
    pub fn known(&self)
        ensures { self.now.offset + self.now.count ≤ len self.now.array }
    {
        let _ = &self.array;
    }

    /// Returns the array that this is a window over.
    pub fn array(&self) -> &'a AnyArray
        ensures { layout_of result.now ≡ self.now.array }
    {
        self.array
    }

    /// Returns the index of the first slot in the array.
    pub fn offset(&self) -> usize
        ensures { result ≡ self.now.offset }
    {
        self.offset
    }

    /// Returns the number of slots.
    pub fn len(&self) -> usize
        ensures { result ≡ self.now.count }
    {
        self.count
    }

    /// Returns whether there are no slots.
    pub fn is_empty(&self) -> bool
        ensures { IsTrue result ↔ (self.now.count ≡ 0) }
    {
        self.count == 0
    }

    /// Returns whether slot `i` is null; in a dictionary array, whether its key is null.
    pub fn is_null(&self, i: usize) -> bool
        requires { i < self.now.count }
        ensures slot { has_keys self.now.array ≡ false → (IsTrue result ↔ (slot self.now.array (self.now.offset + i) ≡ slots.null)) }
        ensures place { result ≡ is_null_at self.now.array (self.now.offset + i) }
    {
        let _end = self.array.len();
        self.array.is_null(self.offset + i)
    }

    /// Returns the window over `n` slots from index `o`.
    pub fn cut(&self, o: usize, n: usize) -> Window<'a>
        requires { o + n ≤ self.now.count }
        ensures parts { result ≡ window_parts self.now.array (self.now.offset + o) n }
        ensures slots { window_slots result ≡ sublist (window_slots self.now) o n }
    {
        let _end = self.array.len();
        Window {
            array: self.array,
            offset: self.offset + o,
            count: n,
        }
    }
}

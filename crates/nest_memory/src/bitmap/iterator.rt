//! Iterators over the bits of a bitmap, from both ends.
ghost use Rattle.std.specs.Prelude.{◌≡◌, ◌+◌, ◌*◌, ◌^◌, ◌<◌, ◌≤◌, length};
ghost use Rattle.std.specs.Prelude.{Some, IfSome};
ghost use Rattle.std.specs.Iterator.{at_most, UpTo};
ghost use Rattle.std.specs.Iterator.SizeHint.{IsWithinCount};
ghost use Rattle.nest_memory.specs.Bits.{bits_from};

use crate::bitmap::bits;
use std::marker::Model;

/// An iterator over the bits of a bitmap; arrow2's `BitmapIter`. It is fused, and `len` is exact.
#[derive(Drop)]
pub struct BitmapIter<'a> {
    bytes: &'a [u8],
    front: usize,
    back: usize,
}

impl<'a> Model for BitmapIter<'a> {
    ghost use Rattle.std.specs.Prelude.{List, Bool, ◌-◌, ◌*◌, ◌≤◌, length};
    ghost use Rattle.nest_memory.specs.Bits.{bits_from};

    ghost Value = { List Bool };

    ghost view = { λ s. bits_from s.bytes.now s.front (s.back - s.front) };

    ghost invariant = { λ s. (s.front ≤ s.back) × (s.back ≤ 8 * length s.bytes.now) };
}

impl<'a> BitmapIter<'a> {
    /// Returns an iterator over the `len` bits of `bytes` from index `offset`.
    pub fn new(bytes: &'a [u8], offset: usize, len: usize) -> BitmapIter<'a>
        requires fits { offset + len < 2 ^ 64 }
        requires within { offset + len ≤ 8 * length bytes.now }
        ensures { result ≡ bits_from bytes.now offset len }
    {
        BitmapIter {
            bytes,
            front: offset,
            back: offset + len,
        }
    }
}

#[tactic(auto, using(crate::proofs::BitLists::bit_lists))]
impl<'a> Iterator for BitmapIter<'a> {
    type Item = bool;

    ghost use Rattle.std.specs.Iterator.{YieldsFirst, item_count};

    ghost next_gives = { YieldsFirst (λ s. s) };

    ghost remaining = { item_count (λ s. s) };

    fn next(&mut self) -> Option<bool> {
        if self.front == self.back {
            return None;
        }
        let bit = bits::get_bit(self.bytes, self.front);
        self.front += 1;
        Some(bit)
    }

    fn size_hint(&self) -> (usize, Option<usize>)
        ensures lower { IsWithinCount result.0 (at_most (length self.now)) }
        ensures upper { IfSome result.1 (UpTo (at_most (length self.now))) }
        ensures exact { result ≡ (length self.now, Some (length self.now)) }
    {
        let len = self.back - self.front;
        (len, Some(len))
    }
}

#[tactic(auto, using(crate::proofs::BitLists::bit_lists))]
impl<'a> DoubleEndedIterator for BitmapIter<'a> {
    ghost use Rattle.std.specs.Iterator.{YieldsLast};

    ghost next_back_gives = { YieldsLast (λ s. s) };

    fn next_back(&mut self) -> Option<bool> {
        if self.front == self.back {
            return None;
        }
        let bit = bits::get_bit(self.bytes, self.back - 1);
        self.back -= 1;
        Some(bit)
    }
}

#[tactic(auto, using(crate::proofs::BitLists::bit_lists))]
impl<'a> ExactSizeIterator for BitmapIter<'a> {
    fn len(&self) -> usize {
        self.back - self.front
    }
}

//! A shared slice of bits.
ghost use Rattle.std.specs.Prelude.{◌≡◌, ℕ, ◌+◌, ◌*◌, ◌<◌, ◌≤◌, ◌↔◌, ◌⊎◌, List, [], IfOk, IfErr, IfSome, IsErrOf, IsOkUnless, IsTrue, length, slice_get, Some, count_by, not, false, replicate, vec_len, alloc_error};
ghost use Rattle.nest_memory.specs.Bits.{bits_from};
ghost use Rattle.nest_memory.specs.Sublist.{sublist};
ghost use Rattle.nest_memory.specs.declared.error.Error.TheVariants.{OutOfSpec, Memory};
ghost use Rattle.nest_memory.specs.declared.error.SpecError.TheVariants.{ValidityLength};

use crate::bitmap::bits;
use crate::bitmap::iterator::BitmapIter;
use crate::bitmap::mutable::MutableBitmap;
use crate::error::{Error, SpecError};
use std::alloc::Global;
use std::marker::Model;
use std::rc::Rc;

/// An immutable bitmap, whose clones and slices share memory; arrow2's `Bitmap`.
///
/// Bit i is bit i % 8 of byte i / 8, the least significant first ("Validity bitmaps" of the Arrow columnar format).
#[derive(Drop)]
pub struct Bitmap {
    bytes: Rc<Vec<u8>>,
    offset: usize,
    len: usize,
    // The number of bits that are 0, if it is known.
    unset: Option<usize>,
}

impl Model for Bitmap {
    ghost use Rattle.std.specs.Prelude.{◌≡◌, List, Bool, ◌+◌, ◌*◌, ◌^◌, ◌<◌, ◌≤◌, length, count_by, not, IfSome};
    ghost use Rattle.nest_memory.specs.Bits.{bits_from};

    ghost Value = { List Bool };

    ghost view = { λ b. bits_from b.bytes.value.items b.offset b.len };

    ghost invariant = { λ b. (b.offset + b.len ≤ 8 * length b.bytes.value.items) × ((b.offset + b.len < 2 ^ 64) × IfSome b.unset (λ n. n ≡ count_by not (bits_from b.bytes.value.items b.offset b.len))) };
}

// A slice that drops at most this many bits counts them, so that its number of unset bits stays known.
const FEW: usize = 64;

#[tactic(auto, using(crate::proofs::BitLists::bit_lists))]
impl Bitmap {
    /// Returns the first `length` bits of `bytes`. The bits that are 0 are counted once; clones keep the count.
    ///
    /// # Errors
    /// [`SpecError::ValidityLength`] where the bytes have fewer bits, and [`Error::Memory`] where an allocation fails.
    pub fn try_new(alloc: Global, bytes: Vec<u8>, length: usize) -> Result<Bitmap, Error>
        ensures ok { IfOk result (λ b. b ≡ bits_from bytes.items 0 length) }
        ensures short { IsErrOf result (OutOfSpec ValidityLength) ↔ (8 * vec_len bytes < length) }
        ensures errors { IfErr result (λ e. (e ≡ OutOfSpec ValidityLength) ⊎ (e ≡ Memory alloc_error)) }
    {
        if bytes.len().saturating_mul(8) < length {
            return Err(Error::OutOfSpec(SpecError::ValidityLength));
        }
        let unset = bits::unset_bits(bytes.as_slice(), 0, length);
        let bytes = Rc::new(alloc, bytes)?;
        Ok(Bitmap {
            bytes,
            offset: 0,
            len: length,
            unset: Some(unset),
        })
    }

    /// Returns a bitmap of one bit for each Boolean, or [`Error::Memory`] where an allocation fails.
    pub fn from_bools(alloc: Global, bools: &[bool]) -> Result<Bitmap, Error>
        ensures ok { IfOk result (λ b. b ≡ bools.now) }
        ensures err { IsOkUnless result (Memory alloc_error) }
    {
        let mut bitmap = MutableBitmap::with_capacity(alloc, bools.len())?;
        for bit in bools {
            bitmap.push(*bit)?;
        }
        bitmap.freeze()
    }

    /// Returns a bitmap of `length` bits that are 0, or [`Error::Memory`] where an allocation fails.
    pub fn new_zeroed(alloc: Global, length: usize) -> Result<Bitmap, Error>
        ensures ok { IfOk result (λ b. b ≡ replicate length false) }
        ensures err { IsOkUnless result (Memory alloc_error) }
    {
        let mut bitmap = MutableBitmap::with_capacity(alloc, length)?;
        bitmap.extend_constant(length, false)?;
        bitmap.freeze()
    }

    /// Returns the number of bits.
    pub fn len(&self) -> usize
        ensures { result ≡ length self.now }
    {
        self.len
    }

    /// Returns whether there are no bits.
    pub fn is_empty(&self) -> bool
        ensures { IsTrue result ↔ (self.now ≡ []) }
    {
        self.len == 0
    }

    /// Returns bit `i`.
    pub fn get_bit(&self, i: usize) -> bool
        requires { i < length self.now }
        ensures { slice_get self.now i ≡ Some result }
    {
        bits::get_bit(self.bytes.as_slice(), self.offset + i)
    }

    /// Returns the number of bits that are 0.
    ///
    /// The number is stored for a bitmap that was never sliced, for a slice of one without zeros, and for a slice that
    /// drops at most 64 bits. Otherwise each call counts it, a byte at a time.
    pub fn unset_bits(&self) -> usize
        ensures { result ≡ count_by not self.now }
    {
        match self.unset {
            Some(unset) => unset,
            None => bits::unset_bits(self.bytes.as_slice(), self.offset, self.len),
        }
    }

    // Returns the number of bits of a slice that are 0, if it is known without a full count.
    fn unset_of_part(&self, offset: usize, len: usize) -> Option<usize>
        requires { offset + len ≤ length self.now }
        ensures { IfSome result (λ n. n ≡ count_by not (sublist self.now offset len)) }
    {
        let unset = self.unset?;
        if unset == 0 || len == self.len {
            return Some(unset);
        }
        if self.len - len > FEW {
            return None;
        }
        let bytes = self.bytes.as_slice();
        let before = bits::unset_bits(bytes, self.offset, offset);
        let behind = offset + len;
        let after = bits::unset_bits(bytes, self.offset + behind, self.len - behind);
        Some(unset - before - after)
    }

    /// Slices the bitmap to `len` bits from index `offset`, without copying. At most 64 dropped bits are counted.
    pub fn slice(&mut self, offset: usize, len: usize)
        requires { offset + len ≤ length self.old }
        ensures { self.new ≡ sublist self.old offset len }
    {
        self.unset = self.unset_of_part(offset, len);
        self.offset += offset;
        self.len = len;
    }

    /// Returns the slice of `len` bits from index `offset`, without copying.
    pub fn sliced(self, offset: usize, len: usize) -> Bitmap
        requires { offset + len ≤ length self }
        ensures { result ≡ sublist self offset len }
    {
        let mut cut = self;
        cut.slice(offset, len);
        cut
    }

    /// Returns an iterator over the bits, from both ends.
    pub fn iter(&self) -> BitmapIter<'_>
        ensures { result ≡ self.now }
    {
        BitmapIter::new(self.bytes.as_slice(), self.offset, self.len)
    }

    /// Returns a bitmap that shares the bits, or [`Error::Memory`] where the reference count would overflow.
    pub fn clone(&self) -> Result<Bitmap, Error>
        ensures ok { IfOk result (λ b. b ≡ self.now) }
        ensures err { IsOkUnless result (Memory alloc_error) }
    {
        Ok(Bitmap {
            bytes: self.bytes.clone()?,
            offset: self.offset,
            len: self.len,
            unset: self.unset,
        })
    }
}

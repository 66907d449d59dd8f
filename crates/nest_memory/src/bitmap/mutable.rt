//! A growable bitmap.
ghost use Rattle.std.specs.Prelude.{◌≡◌, ℕ, ◌+◌, ◌^◌, ◌<◌, ◌≤◌, ◌↔◌, ◌⊎◌, List, [], ◌∷◌, ◌++◌, IfOk, IfErr, OnOk, OnErr, IsErrOf, IsOkUnless, IsTrue, length, slice_get, slice_set, Some, take, replicate, count_by, not, alloc_error};
ghost use Rattle.nest_memory.specs.Bits.{bits_from};
ghost use Rattle.nest_memory.specs.declared.error.Error.TheVariants.{Overflow, Memory};

use crate::bitmap::bits;
use crate::bitmap::immutable::Bitmap;
use crate::bitmap::iterator::BitmapIter;
use crate::error::Error;
use std::alloc::Global;
use std::marker::Model;
use std::mem;

/// A growable bitmap, which freezes into a [`Bitmap`]; arrow2's `MutableBitmap`.
///
/// Bit i is bit i % 8 of byte i / 8, the least significant first. A call that returns `Err` changes no bit, except that
/// `freeze` always empties the bitmap. Each `Result` is [`Error::Memory`] where an allocation fails.
#[derive(Drop)]
pub struct MutableBitmap {
    bytes: Vec<u8>,
    len: usize,
}

impl Model for MutableBitmap {
    ghost use Rattle.std.specs.Prelude.{List, Bool, ◌*◌, ◌≤◌, length};
    ghost use Rattle.nest_memory.specs.Bits.{bits_from};

    ghost Value = { List Bool };

    ghost view = { λ b. bits_from b.bytes.items 0 b.len };

    ghost invariant = { λ b. b.len ≤ 8 * length b.bytes.items };
}

#[tactic(auto, using(crate::proofs::BitLists::bit_lists))]
impl MutableBitmap {
    /// Returns an empty bitmap, without allocation.
    pub fn new(alloc: Global) -> MutableBitmap
        ensures { result ≡ [] }
    {
        MutableBitmap {
            bytes: Vec::new(alloc),
            len: 0,
        }
    }

    /// Returns an empty bitmap with room for `capacity` bits.
    pub fn with_capacity(alloc: Global, capacity: usize) -> Result<MutableBitmap, Error>
        ensures ok { IfOk result (λ b. b ≡ []) }
        ensures err { IsOkUnless result (Memory alloc_error) }
    {
        let bytes = Vec::with_capacity(alloc, bits::byte_count(capacity))?;
        Ok(MutableBitmap { bytes, len: 0 })
    }

    /// Returns the number of bits.
    pub fn len(&self) -> usize
        ensures { result ≡ length self.now }
    {
        self.len
    }

    /// Returns whether there are no bits.
    pub fn is_empty(&self) -> bool
        ensures { IsTrue result ↔ (self.now ≡ []) }
    {
        self.len == 0
    }

    /// Returns bit `i`.
    pub fn get(&self, i: usize) -> bool
        requires { i < length self.now }
        ensures { slice_get self.now i ≡ Some result }
    {
        bits::get_bit(self.bytes.as_slice(), i)
    }

    /// Sets bit `i` to `value`.
    pub fn set(&mut self, i: usize, value: bool)
        requires { i < length self.old }
        ensures { self.new ≡ slice_set self.old i value }
    {
        bits::set_bit(&mut self.bytes, i, value);
    }

    /// Appends a bit.
    ///
    /// # Errors
    /// [`Error::Overflow`] where the length would exceed `usize`.
    pub fn push(&mut self, value: bool) -> Result<(), Error>
        ensures ok { OnOk result (self.new ≡ self.old ++ value ∷ []) }
        ensures err { OnErr result (self.new ≡ self.old) }
        ensures overflow { IsErrOf result Overflow ↔ (2 ^ 64 ≤ length self.old + 1) }
        ensures errors { IfErr result (λ e. (e ≡ Overflow) ⊎ (e ≡ Memory alloc_error)) }
    {
        if self.len == usize::MAX {
            return Err(Error::Overflow);
        }
        bits::make_room(&mut self.bytes, self.len)?;
        bits::set_bit(&mut self.bytes, self.len, value);
        self.len += 1;
        Ok(())
    }

    /// Appends `additional` bits of one value, a byte at a time.
    ///
    /// # Errors
    /// [`Error::Overflow`] where the length would exceed `usize`.
    pub fn extend_constant(&mut self, additional: usize, value: bool) -> Result<(), Error>
        ensures ok { OnOk result (self.new ≡ self.old ++ replicate additional value) }
        ensures err { OnErr result (self.new ≡ self.old) }
        ensures overflow { IsErrOf result Overflow ↔ (2 ^ 64 ≤ length self.old + additional) }
        ensures errors { IfErr result (λ e. (e ≡ Overflow) ⊎ (e ≡ Memory alloc_error)) }
    {
        let Some(len) = self.len.checked_add(additional) else {
            return Err(Error::Overflow);
        };
        bits::extend_constant(&mut self.bytes, self.len, additional, value)?;
        self.len = len;
        Ok(())
    }

    /// Returns the number of bits that are 0, counted a byte at a time.
    pub fn unset_bits(&self) -> usize
        ensures { result ≡ count_by not self.now }
    {
        bits::unset_bits(self.bytes.as_slice(), 0, self.len)
    }

    /// Keeps the first `len` bits.
    pub fn truncate(&mut self, len: usize)
        requires { len ≤ length self.old }
        ensures { self.new ≡ take len self.old }
    {
        self.len = len;
    }

    /// Reserves room for `additional` more bits.
    pub fn reserve(&mut self, additional: usize) -> Result<(), Error>
        ensures same { self.new ≡ self.old }
        ensures err { IsOkUnless result (Memory alloc_error) }
    {
        self.bytes.reserve(bits::byte_count(additional))?;
        Ok(())
    }

    /// Frees unused capacity, if a smaller block can be allocated.
    pub fn shrink_to_fit(&mut self)
        ensures { self.new ≡ self.old }
    {
        self.bytes.truncate(bits::byte_count(self.len));
        self.bytes.shrink_to_fit();
    }

    /// Returns an iterator over the bits, from both ends.
    pub fn iter(&self) -> BitmapIter<'_>
        ensures { result ≡ self.now }
    {
        BitmapIter::new(self.bytes.as_slice(), 0, self.len)
    }

    /// Moves the bits into a [`Bitmap`] without copying them. The bitmap is empty afterwards, also after an error.
    pub fn freeze(&mut self) -> Result<Bitmap, Error>
        ensures ok { IfOk result (λ b. b ≡ self.old) }
        ensures emptied { self.new ≡ [] }
        ensures err { IsOkUnless result (Memory alloc_error) }
    {
        let alloc = *self.bytes.allocator();
        let bytes = mem::replace(&mut self.bytes, Vec::new(alloc));
        let len = self.len;
        self.len = 0;
        Bitmap::try_new(alloc, bytes, len)
    }
}

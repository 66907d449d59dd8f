//! Growable offsets and shared offsets.
ghost use Rattle.std.specs.Prelude.{◌≡◌, ◌↔◌, ◌⊎◌, ℕ, ◌+◌, ◌-◌, ◌<◌, ◌≤◌, ◌^◌, List, [], ◌∷◌, ◌++◌, true, false, IfOk, IfErr, OnOk, OnErr, IsErrOf, IsOkUnless, IsTrue, length, slice_get, slice_index, Some, take, drop, map, sum, replicate, alloc_error};
ghost use Rattle.nest_memory.specs.Rising.{numbers, are_offsets, are_offsets_from_zero, last_of, ends_from, joined, IsNondecreasing};
ghost use Rattle.nest_memory.specs.Sublist.{sublist};
ghost use Rattle.nest_memory.specs.declared.error.Error.TheVariants.{OutOfSpec, Overflow, Memory};
ghost use Rattle.nest_memory.specs.declared.error.SpecError.TheVariants.{Offsets as WrongOffsets};

use crate::buffer::Buffer;
use crate::error::{Error, SpecError};
use crate::offset::Offset;
use std::alloc::Global;
use std::marker::Model;
use std::mem;

// Returns whether there is an offset, none is negative, and they never decrease.
#[tactic(auto, using(crate::proofs::Rises::rising))]
fn are_rising<O: Offset>(offsets: &[O]) -> bool
    ensures { result ≡ are_offsets (map O.value offsets.now) }
{
    if offsets.len() == 0 {
        return false;
    }
    let mut low = 0;
    for x in offsets {
        if x.is_negative() {
            return false;
        }
        let n = x.to_usize();
        if n < low {
            return false;
        }
        low = n;
    }
    true
}

// Returns whether they are offsets whose first is 0.
fn are_rising_from_zero<O: Offset>(offsets: &[O]) -> bool
    ensures { result ≡ are_offsets_from_zero (map O.value offsets.now) }
{
    if !are_rising(offsets) {
        return false;
    }
    offsets[0].to_usize() == 0
}

// Returns the first offset.
fn first_of<O: Offset>(offsets: &[O]) -> usize
    requires { are_offsets (map O.value offsets.now) ≡ true }
    ensures { slice_get (numbers O.value offsets.now) 0 ≡ Some result }
{
    offsets[0].to_usize()
}

#[tactic(auto, using(crate::proofs::Rises::rising))]
fn last_number<O: Offset>(offsets: &[O]) -> usize
    requires { are_offsets (map O.value offsets.now) ≡ true }
    ensures value { result ≡ last_of (numbers O.value offsets.now) }
    ensures fits { result ≤ O.largest }
{
    offsets[offsets.len() - 1].to_usize()
}

// Returns the start and the end of slot `i`.
fn pair_at<O: Offset>(offsets: &[O], i: usize) -> (usize, usize)
    requires offsets { are_offsets (map O.value offsets.now) ≡ true }
    requires in_bounds { i + 1 < length offsets.now }
    ensures first { slice_get (numbers O.value offsets.now) i ≡ Some result.0 }
    ensures second { slice_get (numbers O.value offsets.now) (i + 1) ≡ Some result.1 }
    ensures ordered { result.0 ≤ result.1 }
{
    let len = offsets.len();
    prove!(i < len);
    (offsets[i].to_usize(), offsets[i + 1].to_usize())
}

// Returns whether the offset type can represent the end of items of these lengths from `start` on.
fn end_fits<O: Offset>(start: usize, lengths: &[usize]) -> bool
    ensures { IsTrue result ↔ (start + sum lengths.now ≤ O.largest) }
{
    let mut end = start;
    for length in lengths {
        let Some(next) = end.checked_add(*length) else {
            return false;
        };
        end = next;
    }
    O::from_usize(end).is_some()
}

/// Immutable offsets, whose clones and slices share memory; arrow2's `OffsetsBuffer`.
///
/// There is at least one, none is negative, and they never decrease. Slot i has the items from offset i up to
/// offset i + 1 ("Variable-size List Layout" of the Arrow columnar format), so there is one slot fewer than offsets.
#[derive(Drop)]
pub struct OffsetsBuffer<O: Offset> {
    buffer: Buffer<O>,
}

impl<O: Offset> Model for OffsetsBuffer<O> {
    ghost use Rattle.std.specs.Prelude.{List, ℕ, ◌≡◌, true, map};
    ghost use Rattle.nest_memory.specs.Rising.{numbers, are_offsets};

    ghost Value = { List ℕ };

    ghost view = { λ b. numbers O.value b.buffer };

    ghost invariant = { λ b. are_offsets (map O.value b.buffer) ≡ true };
}

#[tactic(auto, using(crate::proofs::Rises::rising))]
impl<O: Offset> OffsetsBuffer<O> {
    /// Returns a buffer of these offsets.
    ///
    /// # Errors
    /// [`SpecError::Offsets`] where there is none, one is negative or offsets decrease, and [`Error::Memory`].
    pub fn try_new(alloc: Global, offsets: Vec<O>) -> Result<OffsetsBuffer<O>, Error>
        ensures ok { IfOk result (λ b. b ≡ numbers O.value offsets.items) }
        ensures wrong { IsErrOf result (OutOfSpec WrongOffsets) ↔ (are_offsets (map O.value offsets.items) ≡ false) }
        ensures errors { IfErr result (λ e. (e ≡ OutOfSpec WrongOffsets) ⊎ (e ≡ Memory alloc_error)) }
    {
        if !are_rising(offsets.as_slice()) {
            return Err(Error::OutOfSpec(SpecError::Offsets));
        }
        let buffer = Buffer::from_vec(alloc, offsets)?;
        Ok(OffsetsBuffer { buffer })
    }

    /// Returns the single offset 0, without slots.
    pub fn new(alloc: Global) -> Result<OffsetsBuffer<O>, Error>
        ensures ok { IfOk result (λ b. b ≡ 0 ∷ []) }
        ensures err { IsOkUnless result (Memory alloc_error) }
    {
        let mut offsets = Offsets::new(alloc)?;
        offsets.freeze()
    }

    /// Returns the number of offsets.
    pub fn len(&self) -> usize
        ensures { result ≡ length self.now }
    {
        self.buffer.len()
    }

    /// Returns the number of slots, one fewer than the offsets.
    pub fn len_proxy(&self) -> usize
        ensures { result + 1 ≡ length self.now }
    {
        self.buffer.len() - 1
    }

    /// Returns the offsets as a slice.
    pub fn as_slice(&self) -> &[O]
        ensures shown { numbers O.value result.now ≡ self.now }
        ensures offsets { are_offsets (map O.value result.now) ≡ true }
    {
        self.buffer.as_slice()
    }

    /// Returns the first offset.
    pub fn first(&self) -> usize
        ensures { slice_get self.now 0 ≡ Some result }
    {
        first_of(self.buffer.as_slice())
    }

    /// Returns the last offset.
    pub fn last(&self) -> usize
        ensures { result ≡ last_of self.now }
    {
        last_number(self.buffer.as_slice())
    }

    /// Returns the start and the end of slot `i`.
    pub fn start_end(&self, i: usize) -> (usize, usize)
        requires { i + 1 < length self.now }
        ensures first { slice_get self.now i ≡ Some result.0 }
        ensures second { slice_get self.now (i + 1) ≡ Some result.1 }
        ensures ordered { result.0 ≤ result.1 }
    {
        pair_at(self.buffer.as_slice(), i)
    }

    /// Slices to `len` offsets from index `offset`, which are `len - 1` slots, without copying.
    pub fn slice(&mut self, offset: usize, len: usize)
        requires in_bounds { offset + len ≤ length self.old }
        requires some { 1 ≤ len }
        ensures { self.new ≡ sublist self.old offset len }
    {
        self.buffer.slice(offset, len);
    }

    /// Returns the slice of `len` offsets from index `offset`, without copying.
    pub fn sliced(self, offset: usize, len: usize) -> OffsetsBuffer<O>
        requires in_bounds { offset + len ≤ length self }
        requires some { 1 ≤ len }
        ensures { result ≡ sublist self offset len }
    {
        let mut cut = self;
        cut.slice(offset, len);
        cut
    }

    /// Returns offsets that share the memory, or [`Error::Memory`] where the reference count would overflow.
    pub fn clone(&self) -> Result<OffsetsBuffer<O>, Error>
        ensures ok { IfOk result (λ b. b ≡ self.now) }
        ensures err { IsOkUnless result (Memory alloc_error) }
    {
        Ok(OffsetsBuffer {
            buffer: self.buffer.clone()?,
        })
    }

    /// States the invariant: there is an offset, they never decrease, and none exceeds the largest.
    pub fn known(&self)
        ensures some { 0 < length self.now }
        ensures rising { IsNondecreasing self.now }
        ensures room { length self.now < 2 ^ 64 }
        ensures fits { last_of self.now ≤ O.largest }
    {
        let _len = self.buffer.len();
        let _last = last_number(self.buffer.as_slice());
    }
}

/// Growable offsets, which freeze into an [`OffsetsBuffer`]; arrow2's `Offsets`.
///
/// The first is 0, and they never decrease. A call that returns `Err` changes no offset, except that `freeze` always
/// leaves the single offset 0. Each `Result` is [`Error::Memory`] where an allocation fails.
#[derive(Drop)]
pub struct Offsets<O: Offset> {
    offsets: Vec<O>,
}

impl<O: Offset> Model for Offsets<O> {
    ghost use Rattle.std.specs.Prelude.{List, ℕ, ◌≡◌, true, map, slice_index};
    ghost use Rattle.nest_memory.specs.Rising.{numbers, are_offsets};

    ghost Value = { List ℕ };

    ghost view = { λ b. numbers O.value b.offsets.items };

    ghost invariant = { λ b. (are_offsets (map O.value b.offsets.items) ≡ true) × (slice_index (numbers O.value b.offsets.items) 0 ≡ 0) };
}

#[tactic(auto, using(crate::proofs::Rises::rising))]
impl<O: Offset> Offsets<O> {
    /// Returns the single offset 0, without slots.
    pub fn new(alloc: Global) -> Result<Offsets<O>, Error>
        ensures ok { IfOk result (λ b. b ≡ 0 ∷ []) }
        ensures err { IsOkUnless result (Memory alloc_error) }
    {
        Offsets::with_room(alloc, 1)
    }

    /// Returns the single offset 0, with room for `capacity` slots.
    ///
    /// # Errors
    /// [`Error::Overflow`] where `capacity + 1` would exceed `usize`.
    pub fn with_capacity(alloc: Global, capacity: usize) -> Result<Offsets<O>, Error>
        ensures ok { IfOk result (λ b. b ≡ 0 ∷ []) }
        ensures overflow { IsErrOf result Overflow ↔ (2 ^ 64 ≤ capacity + 1) }
        ensures errors { IfErr result (λ e. (e ≡ Overflow) ⊎ (e ≡ Memory alloc_error)) }
    {
        let Some(room) = capacity.checked_add(1) else {
            return Err(Error::Overflow);
        };
        Offsets::with_room(alloc, room)
    }

    // Returns the single offset 0, with room for `room` offsets.
    fn with_room(alloc: Global, room: usize) -> Result<Offsets<O>, Error>
        ensures ok { IfOk result (λ b. b ≡ 0 ∷ []) }
        ensures err { IsOkUnless result (Memory alloc_error) }
    {
        let Some(zero) = O::from_usize(0) else {
            unreachable!()
        };
        let mut offsets = Vec::with_capacity(alloc, room)?;
        offsets.push(zero)?;
        Ok(Offsets { offsets })
    }

    /// Returns `length` empty slots, which are `length + 1` offsets of 0.
    pub fn new_zeroed(alloc: Global, length: usize) -> Result<Offsets<O>, Error>
        requires { length + 1 < 2 ^ 64 }
        ensures ok { IfOk result (λ b. b ≡ replicate (length + 1) 0) }
        ensures err { IsOkUnless result (Memory alloc_error) }
    {
        let mut offsets = Offsets::with_room(alloc, length + 1)?;
        offsets.extend_constant(length)?;
        Ok(offsets)
    }

    /// Returns these offsets.
    ///
    /// # Errors
    /// [`SpecError::Offsets`] where the first is not 0 or offsets decrease.
    pub fn try_new(offsets: Vec<O>) -> Result<Offsets<O>, Error>
        ensures ok { IfOk result (λ b. b ≡ numbers O.value offsets.items) }
        ensures wrong { IsErrOf result (OutOfSpec WrongOffsets) ↔ (are_offsets_from_zero (map O.value offsets.items) ≡ false) }
        ensures err { IsOkUnless result (OutOfSpec WrongOffsets) }
    {
        if !are_rising_from_zero(offsets.as_slice()) {
            return Err(Error::OutOfSpec(SpecError::Offsets));
        }
        Ok(Offsets { offsets })
    }

    /// Returns the number of slots, one fewer than the offsets.
    pub fn len_proxy(&self) -> usize
        ensures { result + 1 ≡ length self.now }
    {
        self.offsets.len() - 1
    }

    /// Returns the number of offsets that fit without reallocation.
    pub fn capacity(&self) -> usize
        ensures { length self.now ≤ result }
    {
        self.offsets.capacity()
    }

    /// Returns the last offset.
    pub fn last(&self) -> usize
        ensures { result ≡ last_of self.now }
    {
        last_number(self.offsets.as_slice())
    }

    /// Returns the start and the end of slot `i`.
    pub fn start_end(&self, i: usize) -> (usize, usize)
        requires { i + 1 < length self.now }
        ensures first { slice_get self.now i ≡ Some result.0 }
        ensures second { slice_get self.now (i + 1) ≡ Some result.1 }
        ensures ordered { result.0 ≤ result.1 }
    {
        pair_at(self.offsets.as_slice(), i)
    }

    /// Appends a slot of `length` items.
    ///
    /// # Errors
    /// [`Error::Overflow`] where the offset type cannot represent its end.
    pub fn try_push_usize(&mut self, length: usize) -> Result<(), Error>
        ensures ok { OnOk result (self.new ≡ self.old ++ (last_of self.old + length) ∷ []) }
        ensures err { OnErr result (self.new ≡ self.old) }
        ensures overflow { IsErrOf result Overflow ↔ (O.largest < last_of self.old + length) }
        ensures errors { IfErr result (λ e. (e ≡ Overflow) ⊎ (e ≡ Memory alloc_error)) }
    {
        let last = self.last();
        let Some(next) = last.checked_add(length) else {
            return Err(Error::Overflow);
        };
        let Some(offset) = O::from_usize(next) else {
            return Err(Error::Overflow);
        };
        self.offsets.push(offset)?;
        Ok(())
    }

    /// Appends `additional` empty slots.
    ///
    /// # Errors
    /// [`Error::Overflow`] where the number of offsets would exceed `usize`.
    pub fn extend_constant(&mut self, additional: usize) -> Result<(), Error>
        ensures ok { OnOk result (self.new ≡ self.old ++ replicate additional (last_of self.old)) }
        ensures err { OnErr result (self.new ≡ self.old) }
        ensures overflow { IsErrOf result Overflow ↔ (2 ^ 64 ≤ length self.old + additional) }
        ensures errors { IfErr result (λ e. (e ≡ Overflow) ⊎ (e ≡ Memory alloc_error)) }
    {
        let len = self.offsets.len();
        let Some(room) = len.checked_add(additional) else {
            return Err(Error::Overflow);
        };
        let last = self.offsets[len - 1];
        self.offsets.resize(room, last)?;
        Ok(())
    }

    /// Appends a slot for each length.
    ///
    /// # Errors
    /// [`Error::Overflow`] where the offset type cannot represent the last end.
    pub fn try_extend_from_lengths(&mut self, lengths: &[usize]) -> Result<(), Error>
        ensures ok { OnOk result (self.new ≡ self.old ++ ends_from (last_of self.old) lengths.now) }
        ensures err { OnErr result (self.new ≡ self.old) }
        ensures overflow { IsErrOf result Overflow ↔ (O.largest < last_of self.old + sum lengths.now) }
        ensures errors { IfErr result (λ e. (e ≡ Overflow) ⊎ (e ≡ Memory alloc_error)) }
    {
        if !end_fits::<O>(self.last(), lengths) {
            return Err(Error::Overflow);
        }
        let before = self.len_proxy();
        for length in lengths {
            if let Err(e) = self.try_push_usize(*length) {
                self.truncate(before);
                return Err(e);
            }
        }
        Ok(())
    }

    /// Appends the slots of `other`.
    ///
    /// # Errors
    /// [`Error::Overflow`] where the offset type cannot represent the last end.
    pub fn try_extend_from_self(&mut self, other: &Offsets<O>) -> Result<(), Error>
        ensures ok { OnOk result (self.new ≡ joined self.old other.now) }
        ensures err { OnErr result (self.new ≡ self.old) }
        ensures overflow { IsErrOf result Overflow ↔ (O.largest < last_of self.old + last_of other.now) }
        ensures errors { IfErr result (λ e. (e ≡ Overflow) ⊎ (e ≡ Memory alloc_error)) }
    {
        other.known();
        if !end_fits::<O>(self.last(), &[other.last()]) {
            return Err(Error::Overflow);
        }
        let before = self.len_proxy();
        for i in 0..other.len_proxy() {
            let (start, end) = other.start_end(i);
            if let Err(e) = self.try_push_usize(end - start) {
                self.truncate(before);
                return Err(e);
            }
        }
        Ok(())
    }

    /// Keeps the first `n` slots, which are `n + 1` offsets.
    pub fn truncate(&mut self, n: usize)
        requires { n < length self.old }
        ensures { self.new ≡ take (n + 1) self.old }
    {
        self.offsets.truncate(n + 1);
    }

    /// Reserves room for `additional` more slots.
    pub fn reserve(&mut self, additional: usize) -> Result<(), Error>
        ensures same { self.new ≡ self.old }
        ensures err { IsOkUnless result (Memory alloc_error) }
    {
        self.offsets.reserve(additional)?;
        Ok(())
    }

    /// Frees unused capacity, if a smaller block can be allocated.
    pub fn shrink_to_fit(&mut self)
        ensures { self.new ≡ self.old }
    {
        self.offsets.shrink_to_fit();
    }

    fn clear(&mut self)
        ensures { self.new ≡ 0 ∷ [] }
    {
        self.offsets.truncate(1);
    }

    /// Moves the offsets into an [`OffsetsBuffer`] without copying them. The offset 0 remains, also after an error.
    pub fn freeze(&mut self) -> Result<OffsetsBuffer<O>, Error>
        ensures ok { IfOk result (λ b. b ≡ self.old) }
        ensures err { IsOkUnless result (Memory alloc_error) }
        ensures emptied { self.new ≡ 0 ∷ [] }
    {
        let alloc = *self.offsets.allocator();
        match Offsets::new(alloc) {
            Ok(empty) => {
                let Offsets { offsets } = mem::replace(self, empty);
                let buffer = Buffer::from_vec(alloc, offsets)?;
                Ok(OffsetsBuffer { buffer })
            }
            Err(e) => {
                self.clear();
                Err(e)
            }
        }
    }

    /// States the invariant: the first offset is 0, they never decrease, and none exceeds the largest.
    pub fn known(&self)
        ensures some { 0 < length self.now }
        ensures first { slice_index self.now 0 ≡ 0 }
        ensures rising { IsNondecreasing self.now }
        ensures room { length self.now < 2 ^ 64 }
        ensures fits { last_of self.now ≤ O.largest }
    {
        let _len = self.offsets.len();
        let _last = last_number(self.offsets.as_slice());
    }
}

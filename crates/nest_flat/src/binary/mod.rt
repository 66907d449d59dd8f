//! Binary arrays.
pub mod iterator;
pub mod mutable;
mod nulls;

ghost use Rattle.std.specs.Prelude.{◌≡◌, ◌+◌, ◌≤◌, ◌<◌, ◌↔◌, IsTrue, IfOk, IsOkUnless, MatchResult, MatchOption, None, option_map, alloc_error};
ghost use Rattle.nest_model.specs.Layout as layouts;
ghost use Rattle.nest_model.specs.Slot as slots;
ghost use Rattle.nest_flat.specs.Words.{FirstError, Fits, HasValidity, IsSlice, Memory, RefusesValidity, TopFits, begin, binary_of_width, bytes_of, sublist, slice_layout, extent, is_null_at, layout_type, len, null_count, offsets_of, optional, slot, type_of, valid_at, validity_of, where_valid, with_validity};

use crate::{spans, validity};
use nest_memory::bitmap::immutable::Bitmap;
use nest_memory::buffer::Buffer;
use nest_memory::datatypes::DataType;
use nest_memory::datatypes::physical_type::PhysicalType;
use nest_memory::error::{Error, SpecError};
use nest_memory::offset::Offset;
use nest_memory::offsets::OffsetsBuffer;
use std::alloc::Global;
use std::marker::Model;

/// An array of byte strings (Variable-size Binary Layout).
#[derive(Drop)]
pub struct BinaryArray<O: Offset> {
    data_type: DataType,
    offsets: OffsetsBuffer<O>,
    values: Buffer<u8>,
    validity: Option<Bitmap>,
}

impl<O: Offset> Model for BinaryArray<O> {
    ghost use Rattle.nest_model.specs.Layout as layouts;
    ghost use Rattle.nest_model.specs.Layout.{Layout};
    ghost use Rattle.nest_model.specs.LayoutCode.{coded_layout};

    ghost Value = { Layout };

    ghost coded = { coded_layout };

    ghost use Rattle.nest_memory.specs.TypeOf.{type_of};
    ghost use Rattle.nest_model.specs.Array.{TopFits};

    ghost view = { λ a. layouts.binary O.IS_LARGE (type_of a.data_type) a.offsets a.values a.validity };

    ghost invariant = { λ a. TopFits (layouts.binary O.IS_LARGE (type_of a.data_type) a.offsets a.values a.validity) };
}

// Returns the error of the first failing check.
fn first_error<O: Offset>(
    data_type: &DataType,
    offsets: &OffsetsBuffer<O>,
    values: &Buffer<u8>,
    validity: &Option<Bitmap>,
) -> Option<Error>
    ensures { let parts = layouts.binary O.IS_LARGE (type_of data_type.now) offsets.now values.now validity.now in
        MatchOption result (TopFits parts) (λ e. FirstError e parts) }
{
    if spans::last(offsets) > values.len() {
        return Some(Error::OutOfSpec(SpecError::OffsetPastChild));
    }
    validity::first_error(validity, offsets.len_proxy(), data_type, physical::<O>())
}

// Returns the physical type for the width of the offsets.
fn physical<O: Offset>() -> PhysicalType
    ensures { result ≡ binary_of_width O.IS_LARGE }
{
    if O::IS_LARGE {
        PhysicalType::LargeBinary
    } else {
        PhysicalType::Binary
    }
}

impl<O: Offset> BinaryArray<O> {
    /// Returns the array of these parts.
    ///
    /// # Errors
    /// In this order:
    /// - `OffsetPastChild` if an offset is past the end of the bytes,
    /// - `ValidityLength` if the validity does not have one bit per slot,
    /// - `WrongType` if the data type is not binary with offsets of this width.
    pub fn try_new(
        data_type: DataType,
        offsets: OffsetsBuffer<O>,
        values: Buffer<u8>,
        validity: Option<Bitmap>,
    ) -> Result<BinaryArray<O>, Error>
        ensures { let parts = layouts.binary O.IS_LARGE (type_of data_type) offsets values validity in
            MatchResult result (λ a. Fits parts × (a ≡ parts)) (λ e. FirstError e parts) }
    {
        if let Some(e) = first_error(&data_type, &offsets, &values, &validity) {
            drop(validity);
            drop(values);
            drop(offsets);
            drop(data_type);
            return Err(e);
        }
        Ok(BinaryArray {
            data_type,
            offsets,
            values,
            validity,
        })
    }

    /// States the invariant of the array. Does nothing at run time.
    pub fn known(&self)
        ensures fits { TopFits self.now }
        ensures kind { self.now ≡ layouts.binary O.IS_LARGE (layout_type self.now) (offsets_of self.now) (bytes_of self.now) (validity_of self.now) }
    {
        let _ = &self.data_type;
    }

    /// Returns the number of slots.
    pub fn len(&self) -> usize
        ensures { result ≡ len self.now }
    {
        self.offsets.len_proxy()
    }

    /// Returns whether the array has no slots.
    pub fn is_empty(&self) -> bool
        ensures { IsTrue result ↔ (len self.now ≡ 0) }
    {
        self.len() == 0
    }

    /// Returns the data type.
    pub fn data_type(&self) -> &DataType
        ensures { type_of result.now ≡ layout_type self.now }
    {
        &self.data_type
    }

    /// Returns the validity bitmap: one bit per slot, 1 if valid. `None` means that every slot is valid.
    pub fn validity(&self) -> Option<&Bitmap>
        ensures { option_map (λ b. b.now) result ≡ validity_of self.now }
    {
        self.validity.as_ref()
    }

    /// Returns the offsets: slot `i` has the bytes from offset `i` to offset `i + 1`.
    pub fn offsets(&self) -> &OffsetsBuffer<O>
        ensures { result.now ≡ offsets_of self.now }
    {
        &self.offsets
    }

    /// Returns the bytes, including those outside every slot.
    pub fn values(&self) -> &Buffer<u8>
        ensures { result.now ≡ bytes_of self.now }
    {
        &self.values
    }

    /// Returns whether slot `i` is valid.
    pub fn is_valid(&self, i: usize) -> bool
        requires { i < len self.now }
        ensures { result ≡ valid_at (validity_of self.now) i }
    {
        validity::is_valid(&self.validity, i)
    }

    /// Returns whether slot `i` is null.
    pub fn is_null(&self, i: usize) -> bool
        requires { i < len self.now }
        ensures slot { IsTrue result ↔ (slot self.now i ≡ slots.null) }
        ensures place { result ≡ is_null_at self.now i }
    {
        !validity::is_valid(&self.validity, i)
    }

    /// Returns the number of null slots.
    pub fn null_count(&self) -> usize
        ensures { result ≡ null_count self.now }
    {
        validity::null_count(&self.validity)
    }

    /// Returns the raw value of slot `i`; unspecified where the slot is null.
    pub fn value(&self, i: usize) -> &[u8]
        requires { i < len self.now }
        ensures raw { result.now ≡ sublist (bytes_of self.now) (begin (offsets_of self.now) i) (extent (offsets_of self.now) i) }
        ensures slot { slot self.now i ≡ where_valid (validity_of self.now) i (slots.bytes result.now) }
        ensures unmasked { slot (with_validity self.now None) i ≡ slots.bytes result.now }
    {
        spans::span(&self.offsets, &self.values, i)
    }

    /// Returns the value of slot `i`, or `None` if it is null.
    pub fn get(&self, i: usize) -> Option<&[u8]>
        requires { i < len self.now }
        ensures { optional (λ x. slots.bytes x.now) result ≡ slot self.now i }
    {
        if self.is_valid(i) {
            Some(self.value(i))
        } else {
            None
        }
    }

    /// Slices the array in place to slots `o..o + n`.
    pub fn slice(&mut self, o: usize, n: usize)
        requires { o + n ≤ len self.old }
        ensures { IsSlice self.old o n self.new }
    {
        self.cut(o, n);
    }

    fn cut(&mut self, o: usize, n: usize)
        requires { o + n ≤ len self.old }
        ensures { self.new ≡ slice_layout self.old o n }
    {
        self.offsets.known();
        self.offsets.slice(o, n + 1);
        validity::slice(&mut self.validity, o, n);
    }

    /// Returns the slice of slots `o..o + n`.
    pub fn sliced(self, o: usize, n: usize) -> BinaryArray<O>
        requires { o + n ≤ len self }
        ensures { IsSlice self o n result }
    {
        let mut cut = self;
        cut.slice(o, n);
        cut
    }

    /// Replaces the validity.
    ///
    /// # Errors
    /// `ValidityLength` if it does not have one bit per slot; the array is unchanged then.
    pub fn set_validity(&mut self, validity: Option<Bitmap>) -> Result<(), Error>
        ensures { MatchResult result
            (λ _. HasValidity self.old validity self.new)
            (λ e. RefusesValidity e self.old validity self.new) }
    {
        let count = self.len();
        validity::replace(&mut self.validity, validity, count)
    }

    /// Returns the array with another validity.
    ///
    /// # Errors
    /// The unchanged array and `ValidityLength`, if the validity does not have one bit per slot.
    pub fn with_validity(
        self,
        validity: Option<Bitmap>,
    ) -> Result<BinaryArray<O>, (BinaryArray<O>, Error)>
        ensures { MatchResult result
            (λ a. HasValidity self validity a)
            (λ r. RefusesValidity r.1 self validity r.0) }
    {
        let mut array = self;
        match array.set_validity(validity) {
            Ok(()) => Ok(array),
            Err(e) => Err((array, e)),
        }
    }

    /// Returns a copy that shares the buffers.
    ///
    /// # Errors
    /// `Memory` if an allocation fails.
    pub fn clone(&self, alloc: Global) -> Result<BinaryArray<O>, Error>
        ensures ok { IfOk result (λ a. a ≡ self.now) }
        ensures err { IsOkUnless result (Memory alloc_error) }
    {
        Ok(BinaryArray {
            data_type: self.data_type.clone(alloc)?,
            offsets: self.offsets.clone()?,
            values: self.values.clone()?,
            validity: validity::clone(&self.validity)?,
        })
    }
}

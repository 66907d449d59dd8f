//! UTF-8 arrays.
pub mod iterator;
pub mod mutable;
mod nulls;

ghost use Rattle.std.specs.Prelude.{◌≡◌, ◌+◌, ◌≤◌, ◌<◌, ◌↔◌, IsTrue, IfOk, IsOkUnless, MatchResult, MatchOption, None, option_map, alloc_error};
ghost use Rattle.nest_model.specs.Layout as layouts;
ghost use Rattle.nest_model.specs.Slot as slots;
ghost use Rattle.nest_flat.specs.Texts.{IsTextOf};
ghost use Rattle.nest_flat.specs.Words.{FirstError, Fits, HasValidity, IsSlice, Memory, RefusesValidity, TopFits, begin, bytes_of, sublist, slice_layout, extent, is_null_at, layout_type, len, null_count, offsets_of, optional, slot, utf8_of_width, type_of, valid_at, validity_of, where_valid, with_validity};

use crate::{spans, validity};
use nest_memory::bitmap::immutable::Bitmap;
use nest_memory::buffer::Buffer;
use nest_memory::datatypes::DataType;
use nest_memory::datatypes::physical_type::PhysicalType;
use nest_memory::error::{Error, SpecError};
use nest_memory::offset::Offset;
use nest_memory::offsets::OffsetsBuffer;
use std::alloc::Global;
use std::marker::Model;

/// An array of UTF-8 strings (Variable-size Binary Layout).
#[derive(Drop)]
pub struct Utf8Array<O: Offset> {
    data_type: DataType,
    offsets: OffsetsBuffer<O>,
    values: Buffer<u8>,
    validity: Option<Bitmap>,
}

impl<O: Offset> Model for Utf8Array<O> {
    ghost use Rattle.nest_model.specs.Layout as layouts;
    ghost use Rattle.nest_model.specs.Layout.{Layout};
    ghost use Rattle.nest_model.specs.LayoutCode.{coded_layout};

    ghost Value = { Layout };

    ghost coded = { coded_layout };

    ghost use Rattle.nest_memory.specs.TypeOf.{type_of};
    ghost use Rattle.nest_model.specs.Array.{TopFits};

    ghost view = { λ a. layouts.utf8 O.IS_LARGE (type_of a.data_type) a.offsets a.values a.validity };

    ghost invariant = { λ a. TopFits (layouts.utf8 O.IS_LARGE (type_of a.data_type) a.offsets a.values a.validity) };
}

// Returns the error of the first failing check.
fn first_error<O: Offset>(
    data_type: &DataType,
    offsets: &OffsetsBuffer<O>,
    values: &Buffer<u8>,
    validity: &Option<Bitmap>,
) -> Option<Error>
    ensures { let parts = layouts.utf8 O.IS_LARGE (type_of data_type.now) offsets.now values.now validity.now in
        MatchOption result (TopFits parts) (λ e. FirstError e parts) }
{
    if spans::last(offsets) > values.len() {
        return Some(Error::OutOfSpec(SpecError::OffsetPastChild));
    }
    if !spans::are_texts(offsets, values) {
        return Some(Error::OutOfSpec(SpecError::Utf8));
    }
    validity::first_error(validity, offsets.len_proxy(), data_type, physical::<O>())
}

// Returns the physical type for the width of the offsets.
fn physical<O: Offset>() -> PhysicalType
    ensures { result ≡ utf8_of_width O.IS_LARGE }
{
    if O::IS_LARGE {
        PhysicalType::LargeUtf8
    } else {
        PhysicalType::Utf8
    }
}

impl<O: Offset> Utf8Array<O> {
    /// Returns the array of these parts.
    ///
    /// # Errors
    /// In this order:
    /// - `OffsetPastChild` if an offset is past the end of the bytes,
    /// - `Text` if the bytes of a slot are not UTF-8,
    /// - `ValidityLength` if the validity does not have one bit per slot,
    /// - `WrongType` if the data type is not UTF-8 with offsets of this width.
    pub fn try_new(
        data_type: DataType,
        offsets: OffsetsBuffer<O>,
        values: Buffer<u8>,
        validity: Option<Bitmap>,
    ) -> Result<Utf8Array<O>, Error>
        ensures { let parts = layouts.utf8 O.IS_LARGE (type_of data_type) offsets values validity in
            MatchResult result (λ a. Fits parts × (a ≡ parts)) (λ e. FirstError e parts) }
    {
        if let Some(e) = first_error(&data_type, &offsets, &values, &validity) {
            drop(validity);
            drop(values);
            drop(offsets);
            drop(data_type);
            return Err(e);
        }
        Ok(Utf8Array {
            data_type,
            offsets,
            values,
            validity,
        })
    }

    /// Returns the array of valid parts, without validating UTF-8 again.
    pub fn new(
        data_type: DataType,
        offsets: OffsetsBuffer<O>,
        values: Buffer<u8>,
        validity: Option<Bitmap>,
    ) -> Utf8Array<O>
        requires { Fits (layouts.utf8 O.IS_LARGE (type_of data_type) offsets values validity) }
        ensures { result ≡ layouts.utf8 O.IS_LARGE (type_of data_type) offsets values validity }
    {
        offsets.known();
        Utf8Array {
            data_type,
            offsets,
            values,
            validity,
        }
    }

    /// States the invariant of the array. Does nothing at run time.
    pub fn known(&self)
        ensures fits { TopFits self.now }
        ensures kind { self.now ≡ layouts.utf8 O.IS_LARGE (layout_type self.now) (offsets_of self.now) (bytes_of self.now) (validity_of self.now) }
    {
        let _ = &self.data_type;
    }

    /// Returns the number of slots.
    pub fn len(&self) -> usize
        ensures { result ≡ len self.now }
    {
        self.offsets.len_proxy()
    }

    /// Returns whether the array has no slots.
    pub fn is_empty(&self) -> bool
        ensures { IsTrue result ↔ (len self.now ≡ 0) }
    {
        self.len() == 0
    }

    /// Returns the data type.
    pub fn data_type(&self) -> &DataType
        ensures { type_of result.now ≡ layout_type self.now }
    {
        &self.data_type
    }

    /// Returns the validity bitmap: one bit per slot, 1 if valid. `None` means that every slot is valid.
    pub fn validity(&self) -> Option<&Bitmap>
        ensures { option_map (λ b. b.now) result ≡ validity_of self.now }
    {
        self.validity.as_ref()
    }

    /// Returns the offsets: slot `i` has the bytes from offset `i` to offset `i + 1`.
    pub fn offsets(&self) -> &OffsetsBuffer<O>
        ensures { result.now ≡ offsets_of self.now }
    {
        &self.offsets
    }

    /// Returns the bytes, including those outside every slot.
    pub fn values(&self) -> &Buffer<u8>
        ensures { result.now ≡ bytes_of self.now }
    {
        &self.values
    }

    /// Returns whether slot `i` is valid.
    pub fn is_valid(&self, i: usize) -> bool
        requires { i < len self.now }
        ensures { result ≡ valid_at (validity_of self.now) i }
    {
        validity::is_valid(&self.validity, i)
    }

    /// Returns whether slot `i` is null.
    pub fn is_null(&self, i: usize) -> bool
        requires { i < len self.now }
        ensures slot { IsTrue result ↔ (slot self.now i ≡ slots.null) }
        ensures place { result ≡ is_null_at self.now i }
    {
        !validity::is_valid(&self.validity, i)
    }

    /// Returns the number of null slots.
    pub fn null_count(&self) -> usize
        ensures { result ≡ null_count self.now }
    {
        validity::null_count(&self.validity)
    }

    /// Returns the raw value of slot `i`; unspecified where the slot is null.
    pub fn value(&self, i: usize) -> &str
        requires { i < len self.now }
        ensures raw { result.now ≡ sublist (bytes_of self.now) (begin (offsets_of self.now) i) (extent (offsets_of self.now) i) }
        ensures slot { slot self.now i ≡ where_valid (validity_of self.now) i (slots.utf8 result.now) }
        ensures unmasked { slot (with_validity self.now None) i ≡ slots.utf8 result.now }
    {
        spans::text_of(spans::span(&self.offsets, &self.values, i))
    }

    // Returns the string of slots `first..end`, validated as one.
    pub(crate) fn text_between(&self, first: usize, end: usize) -> &str
        requires some { first < end }
        requires within { end ≤ len self.now }
        ensures { IsTextOf self.now first end result.now }
    {
        let (start, _) = self.offsets.start_end(first);
        let (_, stop) = self.offsets.start_end(end - 1);
        self.offsets.known();
        spans::long_text_of(&self.values.as_slice()[start..stop])
    }

    // Returns the raw value of slot `i`, as a part of `text`, the string of slots `first..end`.
    pub(crate) fn value_in<'a>(&self, text: &'a str, first: usize, end: usize, i: usize) -> &'a str
        requires block { IsTextOf self.now first end text.now }
        requires first { first ≤ i }
        requires end { i < end }
        ensures { slot (with_validity self.now None) i ≡ slots.utf8 result.now }
    {
        let (start, _) = self.offsets.start_end(first);
        let (from, to) = self.offsets.start_end(i);
        self.offsets.known();
        &text[from - start..to - start]
    }

    // Returns the bytes of slot `i`.
    pub(crate) fn bytes_at(&self, i: usize) -> &[u8]
        requires { i < len self.now }
        ensures { slot (with_validity self.now None) i ≡ slots.utf8 result.now }
    {
        spans::span(&self.offsets, &self.values, i)
    }

    /// Returns the value of slot `i`, or `None` if it is null.
    pub fn get(&self, i: usize) -> Option<&str>
        requires { i < len self.now }
        ensures { optional (λ x. slots.utf8 x.now) result ≡ slot self.now i }
    {
        if self.is_valid(i) {
            Some(self.value(i))
        } else {
            None
        }
    }

    /// Slices the array in place to slots `o..o + n`.
    pub fn slice(&mut self, o: usize, n: usize)
        requires { o + n ≤ len self.old }
        ensures { IsSlice self.old o n self.new }
    {
        self.cut(o, n);
    }

    fn cut(&mut self, o: usize, n: usize)
        requires { o + n ≤ len self.old }
        ensures { self.new ≡ slice_layout self.old o n }
    {
        self.offsets.known();
        self.offsets.slice(o, n + 1);
        validity::slice(&mut self.validity, o, n);
    }

    /// Returns the slice of slots `o..o + n`.
    pub fn sliced(self, o: usize, n: usize) -> Utf8Array<O>
        requires { o + n ≤ len self }
        ensures { IsSlice self o n result }
    {
        let mut cut = self;
        cut.slice(o, n);
        cut
    }

    /// Replaces the validity.
    ///
    /// # Errors
    /// `ValidityLength` if it does not have one bit per slot; the array is unchanged then.
    pub fn set_validity(&mut self, validity: Option<Bitmap>) -> Result<(), Error>
        ensures { MatchResult result
            (λ _. HasValidity self.old validity self.new)
            (λ e. RefusesValidity e self.old validity self.new) }
    {
        let count = self.len();
        validity::replace(&mut self.validity, validity, count)
    }

    /// Returns the array with another validity.
    ///
    /// # Errors
    /// The unchanged array and `ValidityLength`, if the validity does not have one bit per slot.
    pub fn with_validity(
        self,
        validity: Option<Bitmap>,
    ) -> Result<Utf8Array<O>, (Utf8Array<O>, Error)>
        ensures { MatchResult result
            (λ a. HasValidity self validity a)
            (λ r. RefusesValidity r.1 self validity r.0) }
    {
        let mut array = self;
        match array.set_validity(validity) {
            Ok(()) => Ok(array),
            Err(e) => Err((array, e)),
        }
    }

    /// Returns a copy that shares the buffers.
    ///
    /// # Errors
    /// `Memory` if an allocation fails.
    pub fn clone(&self, alloc: Global) -> Result<Utf8Array<O>, Error>
        ensures ok { IfOk result (λ a. a ≡ self.now) }
        ensures err { IsOkUnless result (Memory alloc_error) }
    {
        Ok(Utf8Array {
            data_type: self.data_type.clone(alloc)?,
            offsets: self.offsets.clone()?,
            values: self.values.clone()?,
            validity: validity::clone(&self.validity)?,
        })
    }
}

//! Primitive arrays.
pub mod iterator;
pub mod mutable;
mod nulls;

ghost use Rattle.std.specs.Prelude.{◌≡◌, ◌+◌, ◌≤◌, ◌<◌, ◌↔◌, IsTrue, IfOk, IsOkUnless, MatchResult, None, Some, slice_get, option_map, map, alloc_error};
ghost use Rattle.nest_model.specs.Layout as layouts;
ghost use Rattle.nest_model.specs.Slot as slots;
ghost use Rattle.nest_flat.specs.Words.{FirstError, Fits, HasValidity, IsSlice, Memory, RefusesValidity, TopFits, slice_layout, is_null_at, layout_type, len, natives_of, null_count, optional, slot, type_of, valid_at, validity_of, where_valid, with_validity};

use crate::validity;
use nest_memory::bitmap::immutable::Bitmap;
use nest_memory::buffer::Buffer;
use nest_memory::datatypes::DataType;
use nest_memory::datatypes::physical_type::PhysicalType;
use nest_memory::error::Error;
use nest_memory::types::NativeType;
use std::alloc::Global;
use std::marker::Model;

/// An array of values of one native type (Fixed-Size Primitive Layout).
#[derive(Drop)]
pub struct PrimitiveArray<T: NativeType> {
    data_type: DataType,
    values: Buffer<T>,
    validity: Option<Bitmap>,
}

impl<T: NativeType> Model for PrimitiveArray<T> {
    ghost use Rattle.std.specs.Prelude.{map};
    ghost use Rattle.nest_model.specs.Layout as layouts;
    ghost use Rattle.nest_model.specs.Layout.{Layout};
    ghost use Rattle.nest_model.specs.LayoutCode.{coded_layout};

    ghost Value = { Layout };

    ghost coded = { coded_layout };

    ghost use Rattle.nest_memory.specs.TypeOf.{type_of};
    ghost use Rattle.nest_model.specs.Array.{TopFits};

    ghost view = { λ a. layouts.primitive T.PRIMITIVE (type_of a.data_type) (map T.numbers a.values) a.validity };

    ghost invariant = { λ a. TopFits (layouts.primitive T.PRIMITIVE (type_of a.data_type) (map T.numbers a.values) a.validity) };
}

impl<T: NativeType> PrimitiveArray<T> {
    /// Returns the array of these parts.
    ///
    /// # Errors
    /// In this order: `ValidityLength` if the validity does not have one bit per slot, `WrongType` if the data type
    /// is not stored as `T`.
    pub fn try_new(
        data_type: DataType,
        values: Buffer<T>,
        validity: Option<Bitmap>,
    ) -> Result<PrimitiveArray<T>, Error>
        ensures { let parts = layouts.primitive T.PRIMITIVE (type_of data_type) (map T.numbers values) validity in
            MatchResult result (λ a. Fits parts × (a ≡ parts)) (λ e. FirstError e parts) }
    {
        let physical = PhysicalType::Primitive(T::PRIMITIVE);
        if let Some(e) = validity::first_error(&validity, values.len(), &data_type, physical) {
            drop(validity);
            drop(values);
            drop(data_type);
            return Err(e);
        }
        Ok(PrimitiveArray {
            data_type,
            values,
            validity,
        })
    }

    /// States the invariant of the array. Does nothing at run time.
    pub fn known(&self)
        ensures fits { TopFits self.now }
        ensures kind { self.now ≡ layouts.primitive T.PRIMITIVE (layout_type self.now) (natives_of self.now) (validity_of self.now) }
    {
        let _ = &self.data_type;
    }

    /// Returns the number of slots.
    pub fn len(&self) -> usize
        ensures { result ≡ len self.now }
    {
        self.values.len()
    }

    /// Returns whether the array has no slots.
    pub fn is_empty(&self) -> bool
        ensures { IsTrue result ↔ (len self.now ≡ 0) }
    {
        self.len() == 0
    }

    /// Returns the data type.
    pub fn data_type(&self) -> &DataType
        ensures { type_of result.now ≡ layout_type self.now }
    {
        &self.data_type
    }

    /// Returns the validity bitmap: one bit per slot, 1 if valid. `None` means that every slot is valid.
    pub fn validity(&self) -> Option<&Bitmap>
        ensures { option_map (λ b. b.now) result ≡ validity_of self.now }
    {
        self.validity.as_ref()
    }

    /// Returns the raw values, including those of null slots.
    pub fn values(&self) -> &Buffer<T>
        ensures { map T.numbers result.now ≡ natives_of self.now }
    {
        &self.values
    }

    /// Returns whether slot `i` is valid.
    pub fn is_valid(&self, i: usize) -> bool
        requires { i < len self.now }
        ensures { result ≡ valid_at (validity_of self.now) i }
    {
        validity::is_valid(&self.validity, i)
    }

    /// Returns whether slot `i` is null.
    pub fn is_null(&self, i: usize) -> bool
        requires { i < len self.now }
        ensures slot { IsTrue result ↔ (slot self.now i ≡ slots.null) }
        ensures place { result ≡ is_null_at self.now i }
    {
        !validity::is_valid(&self.validity, i)
    }

    /// Returns the number of null slots.
    pub fn null_count(&self) -> usize
        ensures { result ≡ null_count self.now }
    {
        validity::null_count(&self.validity)
    }

    /// Returns the raw value of slot `i`; unspecified where the slot is null.
    pub fn value(&self, i: usize) -> T
        requires { i < len self.now }
        ensures raw { slice_get (natives_of self.now) i ≡ Some (T.numbers result) }
        ensures slot { slot self.now i ≡ where_valid (validity_of self.now) i (slots.number (T.numbers result)) }
        ensures unmasked { slot (with_validity self.now None) i ≡ slots.number (T.numbers result) }
    {
        self.values.get(i)
    }

    /// Returns the value of slot `i`, or `None` if it is null.
    pub fn get(&self, i: usize) -> Option<T>
        requires { i < len self.now }
        ensures { optional (λ x. slots.number (T.numbers x)) result ≡ slot self.now i }
    {
        if self.is_valid(i) {
            Some(self.value(i))
        } else {
            None
        }
    }

    /// Slices the array in place to slots `o..o + n`.
    pub fn slice(&mut self, o: usize, n: usize)
        requires { o + n ≤ len self.old }
        ensures { IsSlice self.old o n self.new }
    {
        self.cut(o, n);
    }

    fn cut(&mut self, o: usize, n: usize)
        requires { o + n ≤ len self.old }
        ensures { self.new ≡ slice_layout self.old o n }
    {
        self.values.slice(o, n);
        validity::slice(&mut self.validity, o, n);
    }

    /// Returns the slice of slots `o..o + n`.
    pub fn sliced(self, o: usize, n: usize) -> PrimitiveArray<T>
        requires { o + n ≤ len self }
        ensures { IsSlice self o n result }
    {
        let mut cut = self;
        cut.slice(o, n);
        cut
    }

    /// Replaces the validity.
    ///
    /// # Errors
    /// `ValidityLength` if it does not have one bit per slot; the array is unchanged then.
    pub fn set_validity(&mut self, validity: Option<Bitmap>) -> Result<(), Error>
        ensures { MatchResult result
            (λ _. HasValidity self.old validity self.new)
            (λ e. RefusesValidity e self.old validity self.new) }
    {
        let count = self.len();
        validity::replace(&mut self.validity, validity, count)
    }

    /// Returns the array with another validity.
    ///
    /// # Errors
    /// The unchanged array and `ValidityLength`, if the validity does not have one bit per slot.
    pub fn with_validity(
        self,
        validity: Option<Bitmap>,
    ) -> Result<PrimitiveArray<T>, (PrimitiveArray<T>, Error)>
        ensures { MatchResult result
            (λ a. HasValidity self validity a)
            (λ r. RefusesValidity r.1 self validity r.0) }
    {
        let mut array = self;
        match array.set_validity(validity) {
            Ok(()) => Ok(array),
            Err(e) => Err((array, e)),
        }
    }

    /// Returns the slice of slots `o..o + n`, which shares the buffers.
    ///
    /// # Errors
    /// `Memory` if an allocation fails.
    // Slices before wrapping, and is inlined, so that the result is written directly into its variant.
    #[inline(always)]
    pub fn part(&self, alloc: Global, o: usize, n: usize) -> Result<PrimitiveArray<T>, Error>
        requires { o + n ≤ len self.now }
        ensures ok { IfOk result (λ a. IsSlice self.now o n a) }
        ensures err { IsOkUnless result (Memory alloc_error) }
    {
        let mut values = self.values.clone()?;
        values.slice(o, n);
        let mut validity = validity::clone(&self.validity)?;
        validity::slice(&mut validity, o, n);
        Ok(PrimitiveArray {
            data_type: self.data_type.clone(alloc)?,
            values,
            validity,
        })
    }

    /// Returns a copy that shares the buffers.
    ///
    /// # Errors
    /// `Memory` if an allocation fails.
    // Inlined, so that the caller writes the copy directly into its variant.
    #[inline(always)]
    pub fn clone(&self, alloc: Global) -> Result<PrimitiveArray<T>, Error>
        ensures ok { IfOk result (λ a. a ≡ self.now) }
        ensures err { IsOkUnless result (Memory alloc_error) }
    {
        Ok(PrimitiveArray {
            data_type: self.data_type.clone(alloc)?,
            values: self.values.clone()?,
            validity: validity::clone(&self.validity)?,
        })
    }
}

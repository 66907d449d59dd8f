//! Boolean arrays.
pub mod iterator;
pub mod mutable;
mod nulls;

ghost use Rattle.std.specs.Prelude.{◌≡◌, ◌+◌, ◌≤◌, ◌<◌, ◌↔◌, IsTrue, IfOk, IsOkUnless, MatchResult, None, Some, slice_get, option_map, alloc_error};
ghost use Rattle.nest_model.specs.Layout as layouts;
ghost use Rattle.nest_model.specs.Slot as slots;
ghost use Rattle.nest_flat.specs.Words.{FirstError, Fits, HasValidity, IsSlice, Memory, RefusesValidity, TopFits, bits_of, slice_layout, is_null_at, layout_type, len, null_count, optional, slot, type_of, valid_at, validity_of, where_valid, with_validity};

use crate::validity;
use nest_memory::bitmap::immutable::Bitmap;
use nest_memory::datatypes::DataType;
use nest_memory::datatypes::physical_type::PhysicalType;
use nest_memory::error::Error;
use std::alloc::Global;
use std::marker::Model;

/// An array of booleans (Fixed-Size Primitive Layout, one bit per value).
#[derive(Drop)]
pub struct BooleanArray {
    data_type: DataType,
    values: Bitmap,
    validity: Option<Bitmap>,
}

impl Model for BooleanArray {
    ghost use Rattle.nest_model.specs.Layout as layouts;
    ghost use Rattle.nest_model.specs.Layout.{Layout};
    ghost use Rattle.nest_model.specs.LayoutCode.{coded_layout};

    ghost Value = { Layout };

    ghost coded = { coded_layout };

    ghost use Rattle.nest_memory.specs.TypeOf.{type_of};
    ghost use Rattle.nest_model.specs.Array.{TopFits};

    ghost view = { λ a. layouts.boolean (type_of a.data_type) a.values a.validity };

    ghost invariant = { λ a. TopFits (layouts.boolean (type_of a.data_type) a.values a.validity) };
}

impl BooleanArray {
    /// Returns the array of these parts.
    ///
    /// # Errors
    /// In this order: `ValidityLength` if the validity does not have one bit per slot, `WrongType` if the data type
    /// is not Boolean.
    pub fn try_new(
        data_type: DataType,
        values: Bitmap,
        validity: Option<Bitmap>,
    ) -> Result<BooleanArray, Error>
        ensures { let parts = layouts.boolean (type_of data_type) values validity in
            MatchResult result (λ a. Fits parts × (a ≡ parts)) (λ e. FirstError e parts) }
    {
        if let Some(e) = validity::first_error(
            &validity,
            values.len(),
            &data_type,
            PhysicalType::Boolean,
        ) {
            drop(validity);
            drop(values);
            drop(data_type);
            return Err(e);
        }
        Ok(BooleanArray {
            data_type,
            values,
            validity,
        })
    }

    /// States the invariant of the array. Does nothing at run time.
    pub fn known(&self)
        ensures fits { TopFits self.now }
        ensures kind { self.now ≡ layouts.boolean (layout_type self.now) (bits_of self.now) (validity_of self.now) }
    {
        let _ = &self.data_type;
    }

    /// Returns the number of slots.
    pub fn len(&self) -> usize
        ensures { result ≡ len self.now }
    {
        self.values.len()
    }

    /// Returns whether the array has no slots.
    pub fn is_empty(&self) -> bool
        ensures { IsTrue result ↔ (len self.now ≡ 0) }
    {
        self.len() == 0
    }

    /// Returns the data type.
    pub fn data_type(&self) -> &DataType
        ensures { type_of result.now ≡ layout_type self.now }
    {
        &self.data_type
    }

    /// Returns the validity bitmap: one bit per slot, 1 if valid. `None` means that every slot is valid.
    pub fn validity(&self) -> Option<&Bitmap>
        ensures { option_map (λ b. b.now) result ≡ validity_of self.now }
    {
        self.validity.as_ref()
    }

    /// Returns the raw values, including those of null slots.
    pub fn values(&self) -> &Bitmap
        ensures { result.now ≡ bits_of self.now }
    {
        &self.values
    }

    /// Returns whether slot `i` is valid.
    pub fn is_valid(&self, i: usize) -> bool
        requires { i < len self.now }
        ensures { result ≡ valid_at (validity_of self.now) i }
    {
        validity::is_valid(&self.validity, i)
    }

    /// Returns whether slot `i` is null.
    pub fn is_null(&self, i: usize) -> bool
        requires { i < len self.now }
        ensures slot { IsTrue result ↔ (slot self.now i ≡ slots.null) }
        ensures place { result ≡ is_null_at self.now i }
    {
        !validity::is_valid(&self.validity, i)
    }

    /// Returns the number of null slots.
    pub fn null_count(&self) -> usize
        ensures { result ≡ null_count self.now }
    {
        validity::null_count(&self.validity)
    }

    /// Returns the raw value of slot `i`; unspecified where the slot is null.
    pub fn value(&self, i: usize) -> bool
        requires { i < len self.now }
        ensures raw { slice_get (bits_of self.now) i ≡ Some result }
        ensures slot { slot self.now i ≡ where_valid (validity_of self.now) i (slots.boolean result) }
        ensures unmasked { slot (with_validity self.now None) i ≡ slots.boolean result }
    {
        self.values.get_bit(i)
    }

    /// Returns the value of slot `i`, or `None` if it is null.
    pub fn get(&self, i: usize) -> Option<bool>
        requires { i < len self.now }
        ensures { optional (λ x. slots.boolean x) result ≡ slot self.now i }
    {
        if self.is_valid(i) {
            Some(self.value(i))
        } else {
            None
        }
    }

    /// Slices the array in place to slots `o..o + n`.
    pub fn slice(&mut self, o: usize, n: usize)
        requires { o + n ≤ len self.old }
        ensures { IsSlice self.old o n self.new }
    {
        self.cut(o, n);
    }

    fn cut(&mut self, o: usize, n: usize)
        requires { o + n ≤ len self.old }
        ensures { self.new ≡ slice_layout self.old o n }
    {
        self.values.slice(o, n);
        validity::slice(&mut self.validity, o, n);
    }

    /// Returns the slice of slots `o..o + n`.
    pub fn sliced(self, o: usize, n: usize) -> BooleanArray
        requires { o + n ≤ len self }
        ensures { IsSlice self o n result }
    {
        let mut cut = self;
        cut.slice(o, n);
        cut
    }

    /// Replaces the validity.
    ///
    /// # Errors
    /// `ValidityLength` if it does not have one bit per slot; the array is unchanged then.
    pub fn set_validity(&mut self, validity: Option<Bitmap>) -> Result<(), Error>
        ensures { MatchResult result
            (λ _. HasValidity self.old validity self.new)
            (λ e. RefusesValidity e self.old validity self.new) }
    {
        let count = self.len();
        validity::replace(&mut self.validity, validity, count)
    }

    /// Returns the array with another validity.
    ///
    /// # Errors
    /// The unchanged array and `ValidityLength`, if the validity does not have one bit per slot.
    pub fn with_validity(
        self,
        validity: Option<Bitmap>,
    ) -> Result<BooleanArray, (BooleanArray, Error)>
        ensures { MatchResult result
            (λ a. HasValidity self validity a)
            (λ r. RefusesValidity r.1 self validity r.0) }
    {
        let mut array = self;
        match array.set_validity(validity) {
            Ok(()) => Ok(array),
            Err(e) => Err((array, e)),
        }
    }

    /// Returns a copy that shares the buffers.
    ///
    /// # Errors
    /// `Memory` if an allocation fails.
    pub fn clone(&self, alloc: Global) -> Result<BooleanArray, Error>
        ensures ok { IfOk result (λ a. a ≡ self.now) }
        ensures err { IsOkUnless result (Memory alloc_error) }
    {
        Ok(BooleanArray {
            data_type: self.data_type.clone(alloc)?,
            values: self.values.clone()?,
            validity: validity::clone(&self.validity)?,
        })
    }
}

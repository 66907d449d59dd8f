//! Fixed-size binary arrays.
mod flat;
mod makers;
mod nulls;
mod rows;

ghost use Rattle.std.specs.Prelude.{◌≡◌, ◌+◌, ◌*◌, ◌≤◌, ◌<◌, ◌↔◌, IsTrue, IfOk, IsOkUnless, MatchResult, MatchOption, None, option_map, alloc_error};
ghost use Rattle.nest_model.specs.Accessors.{bytes_of};
ghost use Rattle.nest_model.specs.Layout as layouts;
ghost use Rattle.nest_model.specs.Slot as slots;
ghost use Rattle.nest_flat.specs.FlatParts.{optional};
ghost use Rattle.nest_array.specs.Words.{FirstError, Fits, HasValidity, IsSlice, Memory, RefusesValidity, TopFits, sublist, slice_layout, is_null_at, layout_of, layout_type, len, null_count, size_of, slot, type_of, validity_of, where_valid, with_validity};

use crate::any::AnyArray;
use nest_flat::validity;
use nest_memory::bitmap::immutable::Bitmap;
use nest_memory::buffer::Buffer;
use nest_memory::datatypes::DataType;
use nest_memory::datatypes::physical_type::PhysicalType;
use nest_memory::error::{Error, SpecError};
use std::alloc::Global;
use std::marker::Model;
use std::rc::Rc;

/// Fixed-Size Primitive Layout: an array of binary values of one size, which is at least 1 byte.
#[derive(Drop)]
pub struct FixedSizeBinaryArray {
    // The size of the data type, also where that is the storage of extension types.
    size: usize,
    data_type: DataType,
    values: Buffer<u8>,
    validity: Option<Bitmap>,
}

impl Model for FixedSizeBinaryArray {
    ghost use Rattle.std.specs.Prelude.{◌≡◌};
    ghost use Rattle.nest_model.specs.Layout as layouts;
    ghost use Rattle.nest_model.specs.Layout.{Layout};
    ghost use Rattle.nest_model.specs.LayoutCode.{coded_layout};

    ghost Value = { Layout };

    ghost coded = { coded_layout };

    ghost use Rattle.nest_memory.specs.TypeOf.{type_of};
    ghost use Rattle.nest_memory.specs.TypeTree.{size_of};
    ghost use Rattle.nest_model.specs.Array.{TopFits};

    ghost view = { λ a. layouts.fixed_size_binary (type_of a.data_type) a.values a.validity };

    ghost invariant = { λ a. TopFits (layouts.fixed_size_binary (type_of a.data_type) a.values a.validity) × (a.size ≡ size_of (type_of a.data_type)) };
}

impl FixedSizeBinaryArray {
    /// Returns the array of these parts.
    ///
    /// # Errors
    /// The first that applies:
    /// - `WrongType`: the physical type is not `FixedSizeBinary`;
    /// - `ZeroSize`: its size is 0;
    /// - `NotMultiple`: the number of bytes is not a multiple of the size;
    /// - `ValidityLength`: the validity has another length.
    pub fn try_new(
        data_type: DataType,
        values: Buffer<u8>,
        validity: Option<Bitmap>,
    ) -> Result<FixedSizeBinaryArray, Error>
        ensures { let parts = layouts.fixed_size_binary (type_of data_type) values validity in
            MatchResult result (λ a. Fits parts × (a ≡ parts)) (λ e. FirstError e parts) }
    {
        if let Some(error) = first_error(&data_type, &values, &validity) {
            drop(validity);
            drop(values);
            drop(data_type);
            return Err(error);
        }
        Ok(FixedSizeBinaryArray::new(data_type, values, validity))
    }

    /// Returns the array of these parts, which must pass the checks of `try_new`.
    pub fn new(
        data_type: DataType,
        values: Buffer<u8>,
        validity: Option<Bitmap>,
    ) -> FixedSizeBinaryArray
        requires { Fits (layouts.fixed_size_binary (type_of data_type) values validity) }
        ensures { result ≡ layouts.fixed_size_binary (type_of data_type) values validity }
    {
        FixedSizeBinaryArray {
            size: slot_size(&data_type),
            data_type,
            values,
            validity,
        }
    }

    /// Shows the prover the invariant of the array. Does nothing at run time.
    pub fn known(&self)
        ensures fits { TopFits self.now }
        ensures kind { self.now ≡ layouts.fixed_size_binary (layout_type self.now) (bytes_of self.now) (validity_of self.now) }
    {
        let _ = &self.data_type;
    }

    /// Returns the number of slots.
    pub fn len(&self) -> usize
        ensures { result ≡ len self.now }
    {
        self.values.len() / self.size
    }

    /// Returns the data type.
    pub fn data_type(&self) -> &DataType
        ensures { type_of result.now ≡ layout_type self.now }
    {
        &self.data_type
    }

    /// Returns the size of each slot in bytes.
    pub fn size(&self) -> usize
        ensures typed { result ≡ size_of (layout_type self.now) }
        ensures some { 0 < result }
    {
        self.size
    }

    /// Returns the validity bitmap, one bit per slot; `None` if no slot is null.
    pub fn validity(&self) -> Option<&Bitmap>
        ensures { option_map (λ b. b.now) result ≡ validity_of self.now }
    {
        self.validity.as_ref()
    }

    /// Returns the bytes of all slots, one after another, including null slots.
    pub fn values(&self) -> &Buffer<u8>
        ensures { result.now ≡ bytes_of self.now }
    {
        &self.values
    }

    /// Returns whether slot `i` is null.
    pub fn is_null(&self, i: usize) -> bool
        requires { i < len self.now }
        ensures slot { IsTrue result ↔ (slot self.now i ≡ slots.null) }
        ensures place { result ≡ is_null_at self.now i }
    {
        !validity::is_valid(&self.validity, i)
    }

    /// Returns the number of null slots.
    pub fn null_count(&self) -> usize
        ensures { result ≡ null_count self.now }
    {
        validity::null_count(&self.validity)
    }

    /// Returns the bytes of slot `i`, which have no meaning if the slot is null.
    pub fn value(&self, i: usize) -> &[u8]
        requires { i < len self.now }
        ensures raw { result.now ≡ sublist (bytes_of self.now) (i * size_of (layout_type self.now)) (size_of (layout_type self.now)) }
        ensures slot { slot self.now i ≡ where_valid (validity_of self.now) i (slots.bytes result.now) }
        ensures unmasked { slot (with_validity self.now None) i ≡ slots.bytes result.now }
    {
        let values = &self.values;
        let _bytes = values.len();
        let start = i * self.size;
        &values.as_slice()[start..start + self.size]
    }

    /// Returns the bytes of slot `i`, `None` if it is null.
    pub fn get(&self, i: usize) -> Option<&[u8]>
        requires { i < len self.now }
        ensures { optional (λ x. slots.bytes x.now) result ≡ slot self.now i }
    {
        if self.is_null(i) {
            None
        } else {
            Some(self.value(i))
        }
    }

    /// Slices the array in place to the `n` slots from index `o`.
    pub fn slice(&mut self, o: usize, n: usize)
        requires { o + n ≤ len self.old }
        ensures { IsSlice self.old o n self.new }
    {
        self.cut(o, n);
    }

    fn cut(&mut self, o: usize, n: usize)
        requires { o + n ≤ len self.old }
        ensures { self.new ≡ slice_layout self.old o n }
    {
        let _bytes = self.values.len();
        self.values.slice(o * self.size, n * self.size);
        validity::slice(&mut self.validity, o, n);
    }

    /// Returns the slice of `n` slots from index `o`.
    pub fn sliced(self, o: usize, n: usize) -> FixedSizeBinaryArray
        requires { o + n ≤ len self }
        ensures { IsSlice self o n result }
    {
        let mut cut = self;
        cut.slice(o, n);
        cut
    }

    /// Replaces the validity. On error the array is unchanged.
    ///
    /// # Errors
    /// `ValidityLength` where the validity has another length.
    pub fn set_validity(&mut self, validity: Option<Bitmap>) -> Result<(), Error>
        ensures { MatchResult result
            (λ _. HasValidity self.old validity self.new)
            (λ e. RefusesValidity e self.old validity self.new) }
    {
        let count = self.len();
        validity::replace(&mut self.validity, validity, count)
    }

    /// Returns the array with another validity.
    ///
    /// # Errors
    /// The unchanged array and the error of `set_validity`.
    pub fn with_validity(
        self,
        validity: Option<Bitmap>,
    ) -> Result<FixedSizeBinaryArray, (FixedSizeBinaryArray, Error)>
        ensures { MatchResult result
            (λ a. HasValidity self validity a)
            (λ r. RefusesValidity r.1 self validity r.0) }
    {
        let mut array = self;
        match array.set_validity(validity) {
            Ok(()) => Ok(array),
            Err(e) => Err((array, e)),
        }
    }

    /// Returns a copy that shares the buffers.
    ///
    /// # Errors
    /// `Memory` where an allocation fails.
    pub fn clone(&self, alloc: Global) -> Result<FixedSizeBinaryArray, Error>
        ensures ok { IfOk result (λ a. a ≡ self.now) }
        ensures err { IsOkUnless result (Memory alloc_error) }
    {
        Ok(FixedSizeBinaryArray {
            size: self.size,
            data_type: self.data_type.clone(alloc)?,
            values: self.values.clone()?,
            validity: validity::clone(&self.validity)?,
        })
    }

    /// Returns the array in its variant.
    pub fn boxed(self) -> AnyArray
        ensures { layout_of result ≡ self }
    {
        AnyArray::FixedSizeBinary(self)
    }

    /// Returns the array in its variant, in an `Rc`.
    ///
    /// # Errors
    /// `Memory` where an allocation fails.
    pub fn arced(self, alloc: Global) -> Result<Rc<AnyArray>, Error>
        ensures ok { IfOk result (λ r. layout_of r.value ≡ self) }
        ensures err { IsOkUnless result (Memory alloc_error) }
    {
        Ok(Rc::new(alloc, self.boxed())?)
    }
}

/// Returns the size that a data type states, 0 if it states none.
fn slot_size(data_type: &DataType) -> usize
    ensures { result ≡ size_of (type_of data_type.now) }
{
    data_type.size().unwrap_or(0)
}

/// Returns the error of the first check that fails, `None` if the parts fit.
fn first_error(
    data_type: &DataType,
    values: &Buffer<u8>,
    validity: &Option<Bitmap>,
) -> Option<Error>
    ensures { let parts = layouts.fixed_size_binary (type_of data_type.now) values.now validity.now in
        MatchOption result (Fits parts) (λ e. FirstError e parts) }
{
    if data_type.to_physical_type() != PhysicalType::FixedSizeBinary {
        return Some(Error::OutOfSpec(SpecError::WrongType));
    }
    let size = slot_size(data_type);
    if size == 0 {
        return Some(Error::OutOfSpec(SpecError::ZeroSize));
    }
    if values.len() % size != 0 {
        return Some(Error::OutOfSpec(SpecError::NotMultiple));
    }
    if !validity::fits(validity, values.len() / size) {
        return Some(Error::OutOfSpec(SpecError::ValidityLength));
    }
    None
}

//! Null arrays.
ghost use Rattle.std.specs.Prelude.{◌≡◌, ◌+◌, ◌≤◌, ◌<◌, ◌↔◌, IsTrue, IfOk, IsOkUnless, MatchResult, option_map, alloc_error};
ghost use Rattle.nest_model.specs.Layout as layouts;
ghost use Rattle.nest_model.specs.Slot as slots;
ghost use Rattle.nest_array.specs.Words.{FirstError, Fits, IsSlice, Memory, TopFits, sublist, is_null_at, layout_of, layout_type, len, null_count, slot, type_of, validity_of};

use crate::any::AnyArray;
use nest_memory::bitmap::immutable::Bitmap;
use nest_memory::datatypes::DataType;
use nest_memory::datatypes::physical_type::PhysicalType;
use nest_memory::error::{Error, SpecError};
use std::alloc::Global;
use std::marker::Model;
use std::rc::Rc;

/// An array of nulls: the Null Layout of the Arrow format. It has no buffers.
#[derive(Drop)]
pub struct NullArray {
    data_type: DataType,
    count: usize,
}

impl Model for NullArray {
    ghost use Rattle.nest_model.specs.Layout as layouts;
    ghost use Rattle.nest_model.specs.Layout.{Layout};
    ghost use Rattle.nest_model.specs.LayoutCode.{coded_layout};

    ghost Value = { Layout };

    ghost coded = { coded_layout };

    ghost use Rattle.nest_memory.specs.TypeOf.{type_of};
    ghost use Rattle.nest_model.specs.Array.{TopFits};

    ghost view = { λ a. layouts.null (type_of a.data_type) a.count };

    ghost invariant = { λ a. TopFits (layouts.null (type_of a.data_type) a.count) };
}

impl NullArray {
    /// Returns an array of `length` nulls.
    ///
    /// # Errors
    /// `WrongType` if the physical type is not `Null`.
    pub fn try_new(data_type: DataType, length: usize) -> Result<NullArray, Error>
        ensures { let parts = layouts.null (type_of data_type) length in
            MatchResult result (λ a. Fits parts × (a ≡ parts)) (λ e. FirstError e parts) }
    {
        if data_type.to_physical_type() != PhysicalType::Null {
            drop(data_type);
            return Err(Error::OutOfSpec(SpecError::WrongType));
        }
        Ok(NullArray {
            data_type,
            count: length,
        })
    }

    /// Returns an array of `length` nulls.
    pub fn new(data_type: DataType, length: usize) -> NullArray
        requires { Fits (layouts.null (type_of data_type) length) }
        ensures { result ≡ layouts.null (type_of data_type) length }
    {
        NullArray {
            data_type,
            count: length,
        }
    }

    /// States the invariant of every such array. It does nothing at run time.
    pub fn known(&self)
        ensures fits { TopFits self.now }
        ensures kind { self.now ≡ layouts.null (layout_type self.now) (len self.now) }
    {
        let _ = &self.data_type;
    }

    /// Returns the number of slots.
    pub fn len(&self) -> usize
        ensures { result ≡ len self.now }
    {
        self.count
    }

    /// Returns the data type.
    pub fn data_type(&self) -> &DataType
        ensures { type_of result.now ≡ layout_type self.now }
    {
        &self.data_type
    }

    /// Returns `None`: a null array has no validity.
    pub fn validity(&self) -> Option<&Bitmap>
        ensures { option_map (λ b. b.now) result ≡ validity_of self.now }
    {
        self.known();
        None
    }

    /// Returns whether slot `i` is null: always true.
    pub fn is_null(&self, i: usize) -> bool
        requires { i < len self.now }
        ensures slot { IsTrue result ↔ (slot self.now i ≡ slots.null) }
        ensures place { result ≡ is_null_at self.now i }
    {
        i < self.count
    }

    /// Returns the number of null slots: all of them.
    pub fn null_count(&self) -> usize
        ensures { result ≡ null_count self.now }
    {
        self.count
    }

    /// Keeps `n` slots from index `o`.
    pub fn slice(&mut self, o: usize, n: usize)
        requires { o + n ≤ len self.old }
        ensures { IsSlice self.old o n self.new }
    {
        self.count = n;
    }

    /// Returns the slice of `n` slots from index `o`.
    pub fn sliced(self, o: usize, n: usize) -> NullArray
        requires { o + n ≤ len self }
        ensures { IsSlice self o n result }
    {
        let mut cut = self;
        cut.slice(o, n);
        cut
    }

    /// Returns a copy of the array.
    ///
    /// # Errors
    /// `Memory` if an allocation fails.
    pub fn clone(&self, alloc: Global) -> Result<NullArray, Error>
        ensures ok { IfOk result (λ a. a ≡ self.now) }
        ensures err { IsOkUnless result (Memory alloc_error) }
    {
        Ok(NullArray {
            data_type: self.data_type.clone(alloc)?,
            count: self.count,
        })
    }

    /// Returns the array as an `AnyArray`.
    pub fn boxed(self) -> AnyArray
        ensures { layout_of result ≡ self }
    {
        AnyArray::Null(self)
    }

    /// Returns the array as an `AnyArray` in an `Rc`.
    ///
    /// # Errors
    /// `Memory` if the allocation fails.
    pub fn arced(self, alloc: Global) -> Result<Rc<AnyArray>, Error>
        ensures ok { IfOk result (λ r. layout_of r.value ≡ self) }
        ensures err { IsOkUnless result (Memory alloc_error) }
    {
        Ok(Rc::new(alloc, self.boxed())?)
    }
}

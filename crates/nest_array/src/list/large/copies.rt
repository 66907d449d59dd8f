//! Validity and copies of `LargeListArray`.
ghost use Rattle.std.specs.Prelude.{◌≡◌, IfOk, IsOkUnless, MatchResult, alloc_error};
ghost use Rattle.nest_array.specs.Words.{HasValidity, Memory, RefusesValidity, layout_of, with_validity};

use crate::any::AnyArray;
use crate::list::large::LargeListArray;
use nest_flat::validity;
use nest_memory::bitmap::immutable::Bitmap;
use nest_memory::error::Error;
use std::alloc::Global;
use std::rc::Rc;

impl LargeListArray {
    /// Replaces the validity.
    ///
    /// # Errors
    /// `ValidityLength` if `validity` does not have one bit per slot. The array is unchanged then.
    pub fn set_validity(&mut self, validity: Option<Bitmap>) -> Result<(), Error>
        ensures { MatchResult result
            (λ _. HasValidity self.old validity self.new)
            (λ e. RefusesValidity e self.old validity self.new) }
    {
        let count = self.len();
        validity::replace(&mut self.ranges.validity, validity, count)
    }

    /// Returns the array with this validity, or the unchanged array with the error of `set_validity`.
    pub fn with_validity(
        self,
        validity: Option<Bitmap>,
    ) -> Result<LargeListArray, (LargeListArray, Error)>
        ensures { MatchResult result
            (λ a. HasValidity self validity a)
            (λ r. RefusesValidity r.1 self validity r.0) }
    {
        let mut array = self;
        match array.set_validity(validity) {
            Ok(()) => Ok(array),
            Err(e) => Err((array, e)),
        }
    }

    /// Returns a copy of the array that shares its memory. The items get one more owner.
    ///
    /// # Errors
    /// `Memory` if an allocation fails.
    pub fn clone(&self, alloc: Global) -> Result<LargeListArray, Error>
        ensures ok { IfOk result (λ a. a ≡ self.now) }
        ensures err { IsOkUnless result (Memory alloc_error) }
    {
        Ok(LargeListArray {
            data_type: self.data_type.clone(alloc)?,
            ranges: self.ranges.clone()?,
            values: self.values.clone()?,
        })
    }

    /// Returns the array as an `AnyArray`.
    pub fn boxed(self) -> AnyArray
        ensures { layout_of result ≡ self }
    {
        AnyArray::LargeList(self)
    }

    /// Returns the array as an `AnyArray` in an `Rc`.
    ///
    /// # Errors
    /// `Memory` if the allocation fails.
    pub fn arced(self, alloc: Global) -> Result<Rc<AnyArray>, Error>
        ensures ok { IfOk result (λ r. layout_of r.value ≡ self) }
        ensures err { IsOkUnless result (Memory alloc_error) }
    {
        Ok(Rc::new(alloc, self.boxed())?)
    }
}

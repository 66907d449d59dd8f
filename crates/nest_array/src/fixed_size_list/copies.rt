//! Validity and copies of `FixedSizeListArray`.
ghost use Rattle.std.specs.Prelude.{◌≡◌, IfOk, IsOkUnless, MatchResult, alloc_error};
ghost use Rattle.nest_model.specs.Layout as layouts;
ghost use Rattle.nest_array.specs.Words.{HasValidity, Memory, RefusesValidity, TopFits, layout_of, type_of, with_validity};

use crate::any::AnyArray;
use crate::fixed_size_list::FixedSizeListArray;
use nest_flat::validity;
use nest_memory::bitmap::immutable::Bitmap;
use nest_memory::datatypes::DataType;
use nest_memory::error::Error;
use std::alloc::Global;
use std::rc::Rc;

impl FixedSizeListArray {
    /// Replaces the validity.
    ///
    /// # Errors
    /// `ValidityLength` if `validity` does not have one bit per slot. The array is unchanged then.
    pub fn set_validity(&mut self, validity: Option<Bitmap>) -> Result<(), Error>
        ensures { MatchResult result
            (λ _. HasValidity self.old validity self.new)
            (λ e. RefusesValidity e self.old validity self.new) }
    {
        let count = self.len();
        validity::replace(&mut self.validity, validity, count)
    }

    /// Returns the array with this validity, or the unchanged array with the error of `set_validity`.
    pub fn with_validity(
        self,
        validity: Option<Bitmap>,
    ) -> Result<FixedSizeListArray, (FixedSizeListArray, Error)>
        ensures { MatchResult result
            (λ a. HasValidity self validity a)
            (λ r. RefusesValidity r.1 self validity r.0) }
    {
        let mut array = self;
        match array.set_validity(validity) {
            Ok(()) => Ok(array),
            Err(e) => Err((array, e)),
        }
    }

    /// Returns a copy of the array that shares its memory.
    ///
    /// # Errors
    /// `Memory` if an allocation fails.
    #[cycle(clone)]
    pub fn clone(&self, alloc: Global) -> Result<FixedSizeListArray, Error>
        ensures ok { IfOk result (λ a. a ≡ self.now) }
        ensures err { IsOkUnless result (Memory alloc_error) }
    {
        let values: &AnyArray = &self.values;
        let values = values.clone(alloc)?;
        FixedSizeListArray::again(alloc, &self.data_type, values, &self.validity)
    }

    // Returns the array of a type and a validity that are shared, and of these values.
    fn again(
        alloc: Global,
        data_type: &DataType,
        values: AnyArray,
        validity: &Option<Bitmap>,
    ) -> Result<FixedSizeListArray, Error>
        requires { TopFits (layouts.fixed_size_list (type_of data_type.now) (layout_of values) validity.now) }
        ensures ok { IfOk result (λ a. a ≡ layouts.fixed_size_list (type_of data_type.now) (layout_of values) validity.now) }
        ensures err { IsOkUnless result (Memory alloc_error) }
    {
        let validity = match validity::clone(validity) {
            Ok(validity) => validity,
            Err(error) => {
                drop(values);
                return Err(error);
            }
        };
        match data_type.clone(alloc) {
            Ok(data_type) => FixedSizeListArray::of(alloc, data_type, values, validity),
            Err(error) => {
                drop(validity);
                drop(values);
                Err(error)
            }
        }
    }

    /// Returns the array as an `AnyArray`.
    pub fn boxed(self) -> AnyArray
        ensures { layout_of result ≡ self }
    {
        AnyArray::FixedSizeList(self)
    }

    /// Returns the array as an `AnyArray` in an `Rc`.
    ///
    /// # Errors
    /// `Memory` if the allocation fails.
    pub fn arced(self, alloc: Global) -> Result<Rc<AnyArray>, Error>
        ensures ok { IfOk result (λ r. layout_of r.value ≡ self) }
        ensures err { IsOkUnless result (Memory alloc_error) }
    {
        Ok(Rc::new(alloc, self.boxed())?)
    }
}

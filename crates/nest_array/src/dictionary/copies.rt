//! New validities and copies of dictionary arrays.
ghost use Rattle.std.specs.Prelude.{◌≡◌, IfOk, IsOkUnless, MatchResult, alloc_error};
ghost use Rattle.nest_model.specs.Checks.{Pass};
ghost use Rattle.nest_model.specs.Fits.{validity_checks};
ghost use Rattle.nest_array.specs.Words.{Memory, ValidityError, layout_of, with_validity};

use crate::any::AnyArray;
use crate::dictionary::DictionaryArray;
use nest_flat::validity;
use nest_memory::bitmap::immutable::Bitmap;
use nest_memory::error::{Error, SpecError};
use std::alloc::Global;
use std::rc::Rc;

impl DictionaryArray {
    /// Replaces the validity of the keys. On error the array is unchanged.
    ///
    /// # Errors
    /// The first that applies:
    /// - `ValidityLength`: the validity has another length;
    /// - `KeyRange`: a key that is valid under it is not an index of the values.
    pub fn set_validity(&mut self, validity: Option<Bitmap>) -> Result<(), Error>
        ensures { MatchResult result
            (λ _. Pass (validity_checks self.old validity) × (self.new ≡ with_validity self.old validity))
            (λ e. ValidityError e self.old validity × (self.new ≡ self.old)) }
    {
        if !validity::fits(&validity, self.len()) {
            return Err(Error::OutOfSpec(SpecError::ValidityLength));
        }
        if !self
            .keys
            .each_valid_names(&validity, self.shared.values.len())
        {
            return Err(Error::OutOfSpec(SpecError::KeyRange));
        }
        self.keys.set_validity(validity);
        Ok(())
    }

    /// Returns the array with another validity of its keys.
    ///
    /// # Errors
    /// The unchanged array and the error of `set_validity`.
    pub fn with_validity(
        self,
        validity: Option<Bitmap>,
    ) -> Result<DictionaryArray, (DictionaryArray, Error)>
        ensures { MatchResult result
            (λ a. Pass (validity_checks self validity) × (a ≡ with_validity self validity))
            (λ r. ValidityError r.1 self validity × (r.0 ≡ self)) }
    {
        let mut array = self;
        match array.set_validity(validity) {
            Ok(()) => Ok(array),
            Err(e) => Err((array, e)),
        }
    }

    /// Returns a copy that shares the buffers of the keys, the data type and the values.
    ///
    /// # Errors
    /// `Memory` where an allocation fails.
    pub fn clone(&self, alloc: Global) -> Result<DictionaryArray, Error>
        ensures ok { IfOk result (λ a. a ≡ self.now) }
        ensures err { IsOkUnless result (Memory alloc_error) }
    {
        let keys = self.keys.clone(alloc)?;
        match self.shared.clone() {
            Ok(shared) => Ok(DictionaryArray { keys, shared }),
            Err(error) => {
                drop(keys);
                Err(error.into())
            }
        }
    }

    /// Returns the array in its variant.
    pub fn boxed(self) -> AnyArray
        ensures { layout_of result ≡ self }
    {
        AnyArray::Dictionary(self)
    }

    /// Returns the array in its variant, in an `Rc`.
    ///
    /// # Errors
    /// `Memory` where an allocation fails.
    pub fn arced(self, alloc: Global) -> Result<Rc<AnyArray>, Error>
        ensures ok { IfOk result (λ r. layout_of r.value ≡ self) }
        ensures err { IsOkUnless result (Memory alloc_error) }
    {
        Ok(Rc::new(alloc, self.boxed())?)
    }
}

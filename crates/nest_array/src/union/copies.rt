//! Copies of `UnionArray`.
ghost use Rattle.std.specs.Prelude.{◌≡◌, IfOk, IsOkUnless, alloc_error};
ghost use Rattle.nest_model.specs.Accessors.{children_of, types_of, union_offsets_of};
ghost use Rattle.nest_array.specs.Words.{Memory, layout_of, layouts_of};

use crate::any::AnyArray;
use crate::struct_::clone_all;
use crate::union::UnionArray;
use nest_memory::buffer::Buffer;
use nest_memory::error::Error;
use std::alloc::Global;
use std::rc::Rc;

impl UnionArray {
    /// Returns a copy of the array that shares its memory.
    ///
    /// # Errors
    /// `Memory` if an allocation fails.
    pub fn clone(&self, alloc: Global) -> Result<UnionArray, Error>
        ensures ok { IfOk result (λ a. a ≡ self.now) }
        ensures err { IsOkUnless result (Memory alloc_error) }
    {
        let fields = clone_all(alloc, &self.fields)?;
        self.over(alloc, fields)
    }

    // Returns the array with copies of its fields.
    fn over(&self, alloc: Global, fields: Vec<AnyArray>) -> Result<UnionArray, Error>
        requires { layouts_of fields.items ≡ children_of self.now }
        ensures ok { IfOk result (λ a. a ≡ self.now) }
        ensures err { IsOkUnless result (Memory alloc_error) }
    {
        let (types, offsets) = match self.places() {
            Ok(places) => places,
            Err(error) => {
                drop(fields);
                return Err(error);
            }
        };
        match self.data_type.clone(alloc) {
            Ok(data_type) => Ok(UnionArray {
                data_type,
                types,
                fields,
                offsets,
                start: self.start,
                plain: self.plain,
            }),
            Err(error) => {
                drop(offsets);
                drop(types);
                drop(fields);
                Err(error)
            }
        }
    }

    // Returns copies of the types and the offsets that share their memory.
    fn places(&self) -> Result<(Buffer<i8>, Option<Buffer<i32>>), Error>
        ensures ok { IfOk result (λ p. (p.0 ≡ types_of self.now) × (p.1 ≡ union_offsets_of self.now)) }
        ensures err { IsOkUnless result (Memory alloc_error) }
    {
        let types = self.types.clone()?;
        match &self.offsets {
            None => Ok((types, None)),
            Some(offsets) => Ok((types, Some(offsets.clone()?))),
        }
    }

    /// Returns the array with copies of its fields, as an `AnyArray`.
    pub(crate) fn boxed_over(&self, alloc: Global, fields: Vec<AnyArray>) -> Result<AnyArray, Error>
        requires { layouts_of fields.items ≡ children_of self.now }
        ensures ok { IfOk result (λ a. layout_of a ≡ self.now) }
        ensures err { IsOkUnless result (Memory alloc_error) }
    {
        match self.over(alloc, fields) {
            Ok(array) => Ok(array.boxed()),
            Err(error) => Err(error),
        }
    }

    /// Returns the array as an `AnyArray`.
    pub fn boxed(self) -> AnyArray
        ensures { layout_of result ≡ self }
    {
        AnyArray::Union(self)
    }

    /// Returns the array as an `AnyArray` in an `Rc`.
    ///
    /// # Errors
    /// `Memory` if the allocation fails.
    pub fn arced(self, alloc: Global) -> Result<Rc<AnyArray>, Error>
        ensures ok { IfOk result (λ r. layout_of r.value ≡ self) }
        ensures err { IsOkUnless result (Memory alloc_error) }
    {
        Ok(Rc::new(alloc, self.boxed())?)
    }
}

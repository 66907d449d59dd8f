//! Empty and all-null primitive arrays.
ghost use Rattle.std.specs.Prelude.{◌≡◌, IfOk, IsOkUnless, MatchResult, None, alloc_error};
ghost use Rattle.nest_memory.specs.declared.datatypes.physical_type.PhysicalType.TheVariants as physical;
ghost use Rattle.nest_flat.specs.Words.{AcceptsKind, HasNone, HasNulls, Memory, RefusesKind, null_array, physical_type, type_of};

use crate::primitive::PrimitiveArray;
use crate::validity;
use nest_memory::buffer::Buffer;
use nest_memory::datatypes::DataType;
use nest_memory::datatypes::physical_type::PhysicalType;
use nest_memory::error::{Error, SpecError};
use nest_memory::types::NativeType;
use nest_model::fill::Fill;
use std::alloc::Global;

impl<T: NativeType> PrimitiveArray<T> {
    /// Returns an empty array.
    ///
    /// # Errors
    /// `WrongType` if the data type is not stored as `T`, `Memory` if an allocation fails.
    pub fn new_empty(alloc: Global, data_type: DataType) -> Result<PrimitiveArray<T>, Error>
        ensures { let t = type_of data_type in MatchResult result
            (λ a. AcceptsKind (physical.Primitive T.PRIMITIVE) t None × HasNone t a)
            (λ e. RefusesKind e (physical.Primitive T.PRIMITIVE) t None) }
    {
        PrimitiveArray::checked(alloc, data_type, 0, Fill::Nothing)
    }

    /// Returns an array of `length` nulls, whose raw values are zero.
    ///
    /// # Errors
    /// `WrongType` if the data type is not stored as `T`, `Memory` if an allocation fails.
    pub fn new_null(
        alloc: Global,
        data_type: DataType,
        length: usize,
    ) -> Result<PrimitiveArray<T>, Error>
        ensures { let t = type_of data_type in MatchResult result
            (λ a. AcceptsKind (physical.Primitive T.PRIMITIVE) t None × HasNulls t length a)
            (λ e. RefusesKind e (physical.Primitive T.PRIMITIVE) t None) }
    {
        PrimitiveArray::checked(alloc, data_type, length, Fill::Nulls)
    }

    // Checks the data type, then calls `of_nulls`.
    fn checked(
        alloc: Global,
        data_type: DataType,
        length: usize,
        fill: Fill,
    ) -> Result<PrimitiveArray<T>, Error>
        ensures { let t = type_of data_type in MatchResult result
            (λ a. (physical_type t ≡ physical.Primitive T.PRIMITIVE) × (a ≡ null_array t length fill))
            (λ e. RefusesKind e (physical.Primitive T.PRIMITIVE) t None) }
    {
        if data_type.to_physical_type() != PhysicalType::Primitive(T::PRIMITIVE) {
            drop(data_type);
            return Err(Error::OutOfSpec(SpecError::WrongType));
        }
        let array = PrimitiveArray::of_nulls(alloc, &data_type, length, fill);
        drop(data_type);
        array
    }

    /// Returns an array of `length` zeros. With `Fill::Nulls` every slot is null; with `Fill::Nothing` there is no
    /// validity. Shared by `new_empty` and `new_null`.
    ///
    /// # Errors
    /// `Memory` if an allocation fails.
    pub fn of_nulls(
        alloc: Global,
        data_type: &DataType,
        length: usize,
        fill: Fill,
    ) -> Result<PrimitiveArray<T>, Error>
        requires { physical_type (type_of data_type.now) ≡ physical.Primitive T.PRIMITIVE }
        ensures ok { IfOk result (λ a. a ≡ null_array (type_of data_type.now) length fill) }
        ensures err { IsOkUnless result (Memory alloc_error) }
    {
        let validity = validity::none_valid(alloc, length, fill)?;
        let zeros = Buffer::filled(alloc, T::zero(), length)?;
        Ok(PrimitiveArray {
            data_type: data_type.clone(alloc)?,
            values: zeros,
            validity,
        })
    }
}

//! Empty and all-null binary arrays.
ghost use Rattle.std.specs.Prelude.{◌≡◌, IfOk, IsOkUnless, MatchResult, None, alloc_error};
ghost use Rattle.nest_flat.specs.Words.{AcceptsKind, Fills, HasNone, HasNulls, IsNewArray, Memory, RefusesKind, binary_of_width, empty_error, error_of, null_array, physical_type, type_error, type_of};

use crate::binary::{BinaryArray, physical};
use crate::{spans, validity};
use nest_memory::datatypes::DataType;
use nest_memory::error::{Error, SpecError};
use nest_memory::offset::Offset;
use nest_model::fill::Fill;
use std::alloc::Global;

impl<O: Offset> BinaryArray<O> {
    /// Returns an empty array.
    ///
    /// # Errors
    /// `WrongType` if the data type is not binary with offsets of this width, `Memory` if an allocation fails.
    pub fn new_empty(alloc: Global, data_type: DataType) -> Result<BinaryArray<O>, Error>
        ensures { let t = type_of data_type in MatchResult result
            (λ a. AcceptsKind (binary_of_width O.IS_LARGE) t (empty_error t) × HasNone t a)
            (λ e. RefusesKind e (binary_of_width O.IS_LARGE) t (empty_error t)) }
    {
        BinaryArray::checked(alloc, data_type, 0, Fill::Nothing)
    }

    /// Returns an array of `length` nulls without bytes.
    ///
    /// # Errors
    /// - `WrongType` if the data type is not binary with offsets of this width,
    /// - `Overflow` if the `length + 1` offsets exceed a `usize`,
    /// - `Memory` if an allocation fails.
    pub fn new_null(
        alloc: Global,
        data_type: DataType,
        length: usize,
    ) -> Result<BinaryArray<O>, Error>
        ensures { let t = type_of data_type in let k = binary_of_width O.IS_LARGE in MatchResult result
            (λ a. AcceptsKind k t (type_error t length) × HasNulls t length a)
            (λ e. RefusesKind e k t (type_error t length)) }
    {
        BinaryArray::checked(alloc, data_type, length, Fill::Nulls)
    }

    // Checks the data type and the length, then calls `of_nulls`.
    fn checked(
        alloc: Global,
        data_type: DataType,
        length: usize,
        fill: Fill,
    ) -> Result<BinaryArray<O>, Error>
        requires { Fills fill length }
        ensures { let t = type_of data_type in let k = binary_of_width O.IS_LARGE in MatchResult result
            (λ a. IsNewArray k t length fill a) (λ e. RefusesKind e k t (error_of t length fill)) }
    {
        if data_type.to_physical_type() != physical::<O>() {
            drop(data_type);
            return Err(Error::OutOfSpec(SpecError::WrongType));
        }
        if length == usize::MAX {
            drop(data_type);
            return Err(Error::Overflow);
        }
        let array = BinaryArray::of_nulls(alloc, &data_type, length, fill);
        drop(data_type);
        array
    }

    /// Returns an array of `length` slots without bytes. With `Fill::Nulls` every slot is null; with `Fill::Nothing`
    /// there is no validity. Shared by `new_empty` and `new_null`.
    ///
    /// # Errors
    /// `Memory` if an allocation fails.
    pub fn of_nulls(
        alloc: Global,
        data_type: &DataType,
        length: usize,
        fill: Fill,
    ) -> Result<BinaryArray<O>, Error>
        requires kind { physical_type (type_of data_type.now) ≡ binary_of_width O.IS_LARGE }
        requires unrefused { error_of (type_of data_type.now) length fill ≡ None }
        requires valid { Fills fill length }
        ensures ok { IfOk result (λ a. a ≡ null_array (type_of data_type.now) length fill) }
        ensures err { IsOkUnless result (Memory alloc_error) }
    {
        let validity = validity::none_valid(alloc, length, fill)?;
        let (offsets, bytes) = spans::no_bytes(alloc, length)?;
        Ok(BinaryArray {
            data_type: data_type.clone(alloc)?,
            offsets,
            values: bytes,
            validity,
        })
    }
}

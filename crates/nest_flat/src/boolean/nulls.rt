//! Empty and all-null boolean arrays.
ghost use Rattle.std.specs.Prelude.{◌≡◌, IfOk, IsOkUnless, MatchResult, None, alloc_error};
ghost use Rattle.nest_memory.specs.declared.datatypes.physical_type.PhysicalType.TheVariants as physical;
ghost use Rattle.nest_flat.specs.Words.{AcceptsKind, HasNone, HasNulls, Memory, RefusesKind, null_array, physical_type, type_of};

use crate::boolean::BooleanArray;
use crate::validity;
use nest_memory::bitmap::immutable::Bitmap;
use nest_memory::datatypes::DataType;
use nest_memory::datatypes::physical_type::PhysicalType;
use nest_memory::error::{Error, SpecError};
use nest_model::fill::Fill;
use std::alloc::Global;

impl BooleanArray {
    /// Returns an empty array.
    ///
    /// # Errors
    /// `WrongType` if the data type is not Boolean, `Memory` if an allocation fails.
    pub fn new_empty(alloc: Global, data_type: DataType) -> Result<BooleanArray, Error>
        ensures { let t = type_of data_type in MatchResult result
            (λ a. AcceptsKind physical.Boolean t None × HasNone t a)
            (λ e. RefusesKind e physical.Boolean t None) }
    {
        BooleanArray::checked(alloc, data_type, 0, Fill::Nothing)
    }

    /// Returns an array of `length` nulls, whose raw values are `false`.
    ///
    /// # Errors
    /// `WrongType` if the data type is not Boolean, `Memory` if an allocation fails.
    pub fn new_null(
        alloc: Global,
        data_type: DataType,
        length: usize,
    ) -> Result<BooleanArray, Error>
        ensures { let t = type_of data_type in MatchResult result
            (λ a. AcceptsKind physical.Boolean t None × HasNulls t length a)
            (λ e. RefusesKind e physical.Boolean t None) }
    {
        BooleanArray::checked(alloc, data_type, length, Fill::Nulls)
    }

    // Checks the data type, then calls `of_nulls`.
    fn checked(
        alloc: Global,
        data_type: DataType,
        length: usize,
        fill: Fill,
    ) -> Result<BooleanArray, Error>
        ensures { let t = type_of data_type in MatchResult result
            (λ a. (physical_type t ≡ physical.Boolean) × (a ≡ null_array t length fill))
            (λ e. RefusesKind e physical.Boolean t None) }
    {
        if data_type.to_physical_type() != PhysicalType::Boolean {
            drop(data_type);
            return Err(Error::OutOfSpec(SpecError::WrongType));
        }
        let array = BooleanArray::of_nulls(alloc, &data_type, length, fill);
        drop(data_type);
        array
    }

    /// Returns an array of `length` times `false`. With `Fill::Nulls` every slot is null; with `Fill::Nothing` there
    /// is no validity. Shared by `new_empty` and `new_null`.
    ///
    /// # Errors
    /// `Memory` if an allocation fails.
    pub fn of_nulls(
        alloc: Global,
        data_type: &DataType,
        length: usize,
        fill: Fill,
    ) -> Result<BooleanArray, Error>
        requires { physical_type (type_of data_type.now) ≡ physical.Boolean }
        ensures ok { IfOk result (λ a. a ≡ null_array (type_of data_type.now) length fill) }
        ensures err { IsOkUnless result (Memory alloc_error) }
    {
        let validity = validity::none_valid(alloc, length, fill)?;
        let bits = Bitmap::new_zeroed(alloc, length)?;
        Ok(BooleanArray {
            data_type: data_type.clone(alloc)?,
            values: bits,
            validity,
        })
    }
}

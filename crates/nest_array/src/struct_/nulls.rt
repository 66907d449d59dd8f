//! Empty and all-null struct arrays.
ghost use Rattle.std.specs.Prelude.{◌≡◌, IfOk, IsOkUnless, MatchResult, None, alloc_error};
ghost use Rattle.nest_memory.specs.declared.datatypes.physical_type.PhysicalType.TheVariants as physical;
ghost use Rattle.nest_model.specs.Nulls.{Fills, empty_error, error_of, type_error};
ghost use Rattle.nest_model.specs.NullLayout.{null_array as nulls_of};
ghost use Rattle.nest_array.specs.Words.{AcceptsKind, HasNone, HasNulls, Memory, RefusesKind, physical_type, type_of};

use crate::nulls::{self, Nulls, null_fields};
use crate::struct_::StructArray;
use nest_flat::validity;
use nest_memory::datatypes::DataType;
use nest_memory::datatypes::physical_type::PhysicalType;
use nest_memory::error::Error;
use nest_model::fill::Fill;
use std::alloc::Global;

impl StructArray {
    /// Returns an empty array.
    ///
    /// # Errors
    /// `WrongType` if the physical type is not `Struct`, then the errors of `new_empty_array`.
    pub fn new_empty(alloc: Global, data_type: DataType) -> Result<StructArray, Error>
        ensures { let t = type_of data_type in MatchResult result
            (λ a. AcceptsKind physical.Struct t (empty_error t) × HasNone t a)
            (λ e. RefusesKind e physical.Struct t (empty_error t)) }
    {
        nulls::empty(alloc, data_type)
    }

    /// Returns an array of `length` nulls.
    ///
    /// # Errors
    /// `WrongType` if the physical type is not `Struct`, then the errors of `new_null_array`.
    pub fn new_null(alloc: Global, data_type: DataType, length: usize) -> Result<StructArray, Error>
        ensures { let t = type_of data_type in MatchResult result
            (λ a. AcceptsKind physical.Struct t (type_error t length) × HasNulls t length a)
            (λ e. RefusesKind e physical.Struct t (type_error t length)) }
    {
        nulls::null(alloc, data_type, length)
    }

    /// Returns `length` nulls of a data type that is already checked.
    #[cycle(nulls)]
    pub(crate) fn nulls(
        alloc: Global,
        data_type: &DataType,
        length: usize,
        fill: Fill,
    ) -> Result<StructArray, Error>
        requires kind { physical_type (type_of data_type.now) ≡ physical.Struct }
        requires unrefused { error_of (type_of data_type.now) length fill ≡ None }
        requires valid { Fills fill length }
        ensures ok { IfOk result (λ a. a ≡ nulls_of (type_of data_type.now) length fill) }
        ensures err { IsOkUnless result (Memory alloc_error) }
    {
        let validity = validity::none_valid(alloc, length, fill)?;
        let children = null_fields(alloc, data_type.fields(), length, fill)?;
        match data_type.clone(alloc) {
            Ok(data_type) => Ok(StructArray::new(data_type, children, validity)),
            Err(error) => {
                drop(children);
                drop(validity);
                Err(error)
            }
        }
    }
}

impl Nulls for StructArray {
    ghost KIND = { physical.Struct };

    ghost use Rattle.nest_memory.specs.declared.datatypes.physical_type.PhysicalType.TheVariants as physical;

    const KIND: PhysicalType = PhysicalType::Struct;

    fn of_nulls(
        alloc: Global,
        data_type: &DataType,
        length: usize,
        fill: Fill,
    ) -> Result<StructArray, Error> {
        StructArray::nulls(alloc, data_type, length, fill)
    }
}

//! Fixed-size binary arrays of nulls, and empty ones.
ghost use Rattle.std.specs.Prelude.{◌≡◌, IfOk, IsOkUnless, MatchResult, None, alloc_error};
ghost use Rattle.nest_memory.specs.declared.datatypes.physical_type.PhysicalType.TheVariants as physical;
ghost use Rattle.nest_model.specs.Nulls.{Fills, empty_error, error_of, type_error};
ghost use Rattle.nest_model.specs.NullLayout.{null_array as nulls_of};
ghost use Rattle.nest_array.specs.Words.{AcceptsKind, HasNone, HasNulls, Memory, RefusesKind, physical_type, type_of};

use crate::fixed_size_binary::FixedSizeBinaryArray;
use crate::nulls::{self, Nulls};
use nest_flat::validity;
use nest_memory::buffer::Buffer;
use nest_memory::datatypes::DataType;
use nest_memory::datatypes::physical_type::PhysicalType;
use nest_memory::error::Error;
use nest_model::fill::Fill;
use std::alloc::Global;

impl FixedSizeBinaryArray {
    /// Returns the array without slots.
    ///
    /// # Errors
    /// `WrongType` where the physical type is not `FixedSizeBinary`, then those of `new_empty_array`.
    pub fn new_empty(alloc: Global, data_type: DataType) -> Result<FixedSizeBinaryArray, Error>
        ensures { let t = type_of data_type in MatchResult result
            (λ a. AcceptsKind physical.FixedSizeBinary t (empty_error t) × HasNone t a)
            (λ e. RefusesKind e physical.FixedSizeBinary t (empty_error t)) }
    {
        nulls::empty(alloc, data_type)
    }

    /// Returns the array of `length` null slots.
    ///
    /// # Errors
    /// `WrongType` where the physical type is not `FixedSizeBinary`, then those of `new_null_array`.
    pub fn new_null(
        alloc: Global,
        data_type: DataType,
        length: usize,
    ) -> Result<FixedSizeBinaryArray, Error>
        ensures { let k = physical.FixedSizeBinary in let t = type_of data_type in let first = type_error t length in
            MatchResult result (λ a. AcceptsKind k t first × HasNulls t length a) (λ e. RefusesKind e k t first) }
    {
        nulls::null(alloc, data_type, length)
    }

    /// Returns the array of `length` null slots of a checked type.
    pub(crate) fn nulls(
        alloc: Global,
        data_type: &DataType,
        length: usize,
        fill: Fill,
    ) -> Result<FixedSizeBinaryArray, Error>
        requires kind { physical_type (type_of data_type.now) ≡ physical.FixedSizeBinary }
        requires unrefused { error_of (type_of data_type.now) length fill ≡ None }
        requires valid { Fills fill length }
        ensures ok { IfOk result (λ a. a ≡ nulls_of (type_of data_type.now) length fill) }
        ensures err { IsOkUnless result (Memory alloc_error) }
    {
        let validity = validity::none_valid(alloc, length, fill)?;
        let count = length * data_type.size().unwrap_or(0);
        let bytes = Buffer::filled(alloc, 0, count)?;
        let data_type = data_type.clone(alloc)?;
        Ok(FixedSizeBinaryArray::new(data_type, bytes, validity))
    }
}

impl Nulls for FixedSizeBinaryArray {
    ghost KIND = { physical.FixedSizeBinary };

    ghost use Rattle.nest_memory.specs.declared.datatypes.physical_type.PhysicalType.TheVariants as physical;

    const KIND: PhysicalType = PhysicalType::FixedSizeBinary;

    fn of_nulls(
        alloc: Global,
        data_type: &DataType,
        length: usize,
        fill: Fill,
    ) -> Result<FixedSizeBinaryArray, Error> {
        FixedSizeBinaryArray::nulls(alloc, data_type, length, fill)
    }
}

//! Empty and all-null fixed-size list arrays.
ghost use Rattle.std.specs.Prelude.{◌≡◌, IfOk, IsOkUnless, MatchResult, None, alloc_error};
ghost use Rattle.nest_memory.specs.declared.datatypes.physical_type.PhysicalType.TheVariants as physical;
ghost use Rattle.nest_model.specs.Nulls.{Fills, empty_error, error_of, type_error};
ghost use Rattle.nest_model.specs.NullLayout.{null_array as nulls_of};
ghost use Rattle.nest_array.specs.Words.{AcceptsKind, HasNone, HasNulls, Memory, RefusesKind, physical_type, type_of};

use crate::fixed_size_list::FixedSizeListArray;
use crate::nulls::{self, Nulls, null_array};
use crate::types::item_type;
use nest_flat::validity;
use nest_memory::datatypes::DataType;
use nest_memory::datatypes::physical_type::PhysicalType;
use nest_memory::error::Error;
use nest_model::fill::Fill;
use std::alloc::Global;

impl FixedSizeListArray {
    /// Returns an empty array.
    ///
    /// # Errors
    /// `WrongType` if the physical type is not `FixedSizeList`, then the errors of `new_empty_array`.
    pub fn new_empty(alloc: Global, data_type: DataType) -> Result<FixedSizeListArray, Error>
        ensures { let t = type_of data_type in MatchResult result
            (λ a. AcceptsKind physical.FixedSizeList t (empty_error t) × HasNone t a)
            (λ e. RefusesKind e physical.FixedSizeList t (empty_error t)) }
    {
        nulls::empty(alloc, data_type)
    }

    /// Returns an array of `length` nulls.
    ///
    /// # Errors
    /// `WrongType` if the physical type is not `FixedSizeList`, then the errors of `new_null_array`.
    pub fn new_null(
        alloc: Global,
        data_type: DataType,
        length: usize,
    ) -> Result<FixedSizeListArray, Error>
        ensures { let k = physical.FixedSizeList in let t = type_of data_type in let first = type_error t length in
            MatchResult result (λ a. AcceptsKind k t first × HasNulls t length a) (λ e. RefusesKind e k t first) }
    {
        nulls::null(alloc, data_type, length)
    }

    /// Returns `length` nulls of a data type that is already checked.
    #[cycle(nulls)]
    pub(crate) fn nulls(
        alloc: Global,
        data_type: &DataType,
        length: usize,
        fill: Fill,
    ) -> Result<FixedSizeListArray, Error>
        requires kind { physical_type (type_of data_type.now) ≡ physical.FixedSizeList }
        requires unrefused { error_of (type_of data_type.now) length fill ≡ None }
        requires valid { Fills fill length }
        ensures ok { IfOk result (λ a. a ≡ nulls_of (type_of data_type.now) length fill) }
        ensures err { IsOkUnless result (Memory alloc_error) }
    {
        let validity = validity::none_valid(alloc, length, fill)?;
        let count = length * data_type.size().unwrap_or(0);
        let items = null_array(alloc, item_type(data_type), count, fill)?;
        match data_type.clone(alloc) {
            Ok(data_type) => FixedSizeListArray::of(alloc, data_type, items, validity),
            Err(error) => {
                drop(items);
                drop(validity);
                Err(error)
            }
        }
    }
}

impl Nulls for FixedSizeListArray {
    ghost KIND = { physical.FixedSizeList };

    ghost use Rattle.nest_memory.specs.declared.datatypes.physical_type.PhysicalType.TheVariants as physical;

    const KIND: PhysicalType = PhysicalType::FixedSizeList;

    fn of_nulls(
        alloc: Global,
        data_type: &DataType,
        length: usize,
        fill: Fill,
    ) -> Result<FixedSizeListArray, Error> {
        FixedSizeListArray::nulls(alloc, data_type, length, fill)
    }
}

//! Empty and all-null union arrays.
ghost use Rattle.std.specs.Prelude.{◌≡◌, ◌≤◌, IfOk, IsOkUnless, MatchResult, None, Some, alloc_error, false, map, pos, replicate, true};
ghost use Rattle.nest_memory.specs.declared.datatypes.physical_type.PhysicalType.TheVariants as physical;
ghost use Rattle.std.specs.List.{range_with_len};
ghost use Rattle.nest_memory.specs.TypeTree.{ids_of, is_dense, mode_of};
ghost use Rattle.nest_memory.specs.declared.datatypes.UnionMode.{UnionMode};
ghost use Rattle.nest_model.specs.Checks.{most_picks};
ghost use Rattle.nest_model.specs.Nulls.{Fills, empty_error, error_of, has_bad_id, type_error};
ghost use Rattle.nest_model.specs.NullLayout.{null_array as nulls_of, null_offsets, null_type};
ghost use Rattle.nest_array.specs.Words.{AcceptsKind, HasNone, HasNulls, Memory, RefusesKind, physical_type, type_of};

use crate::nulls::{self, Nulls, null_fields};
use crate::union::UnionArray;
use nest_memory::buffer::Buffer;
use nest_memory::datatypes::physical_type::PhysicalType;
use nest_memory::datatypes::{DataType, UnionMode};
use nest_memory::error::Error;
use nest_model::fill::Fill;
use std::alloc::Global;

impl UnionArray {
    /// Returns an empty array.
    ///
    /// # Errors
    /// `WrongType` if the physical type is not `Union`, then the errors of `new_empty_array`.
    pub fn new_empty(alloc: Global, data_type: DataType) -> Result<UnionArray, Error>
        ensures { let t = type_of data_type in MatchResult result
            (λ a. AcceptsKind physical.Union t (empty_error t) × HasNone t a)
            (λ e. RefusesKind e physical.Union t (empty_error t)) }
    {
        nulls::empty(alloc, data_type)
    }

    /// Returns an array of `length` nulls.
    ///
    /// # Errors
    /// `WrongType` if the physical type is not `Union`, then the errors of `new_null_array`.
    pub fn new_null(alloc: Global, data_type: DataType, length: usize) -> Result<UnionArray, Error>
        ensures { let t = type_of data_type in MatchResult result
            (λ a. AcceptsKind physical.Union t (type_error t length) × HasNulls t length a)
            (λ e. RefusesKind e physical.Union t (type_error t length)) }
    {
        nulls::null(alloc, data_type, length)
    }

    /// Returns `length` nulls of a data type that is already checked.
    #[cycle(nulls)]
    pub(crate) fn nulls(
        alloc: Global,
        data_type: &DataType,
        length: usize,
        fill: Fill,
    ) -> Result<UnionArray, Error>
        requires kind { physical_type (type_of data_type.now) ≡ physical.Union }
        requires unrefused { error_of (type_of data_type.now) length fill ≡ None }
        requires valid { Fills fill length }
        ensures ok { IfOk result (λ a. a ≡ nulls_of (type_of data_type.now) length fill) }
        ensures err { IsOkUnless result (Memory alloc_error) }
    {
        let types = null_types(alloc, data_type, length)?;
        let offsets = places(alloc, data_type, length)?;
        let fields = null_fields(alloc, data_type.fields(), length, fill)?;
        match data_type.clone(alloc) {
            Ok(data_type) => Ok(UnionArray::new(data_type, types, fields, offsets)),
            Err(error) => {
                drop(fields);
                drop(offsets);
                drop(types);
                Err(error)
            }
        }
    }
}

impl Nulls for UnionArray {
    ghost KIND = { physical.Union };

    ghost use Rattle.nest_memory.specs.declared.datatypes.physical_type.PhysicalType.TheVariants as physical;

    const KIND: PhysicalType = PhysicalType::Union;

    fn of_nulls(
        alloc: Global,
        data_type: &DataType,
        length: usize,
        fill: Fill,
    ) -> Result<UnionArray, Error> {
        UnionArray::nulls(alloc, data_type, length, fill)
    }
}

// Returns the type ids of `length` nulls.
fn null_types(alloc: Global, data_type: &DataType, length: usize) -> Result<Buffer<i8>, Error>
    requires { has_bad_id (ids_of (type_of data_type.now)) ≡ false }
    ensures ok { IfOk result (λ b. b ≡ replicate length (null_type (ids_of (type_of data_type.now)))) }
    ensures err { IsOkUnless result (Memory alloc_error) }
{
    let first = first_type(data_type);
    Buffer::filled(alloc, first, length)
}

// Returns the type id of nulls: the first id, or 0 without ids.
fn first_type(data_type: &DataType) -> i8
    requires { has_bad_id (ids_of (type_of data_type.now)) ≡ false }
    ensures { result ≡ null_type (ids_of (type_of data_type.now)) }
{
    match data_type.union_ids() {
        Some([first, ..]) => *first as i8,
        _ => 0,
    }
}

// Returns the offsets of `length` nulls of a dense union: each slot has its own index.
fn places(alloc: Global, data_type: &DataType, length: usize) -> Result<Option<Buffer<i32>>, Error>
    requires { is_dense (type_of data_type.now) ≡ true → length ≤ most_picks }
    ensures ok { IfOk result (λ b. (m : UnionMode) → mode_of (type_of data_type.now) ≡ Some m → b ≡ null_offsets m length) }
    ensures err { IsOkUnless result (Memory alloc_error) }
{
    match data_type.union_mode() {
        Some(UnionMode::Dense) => Ok(Some(counted(alloc, length)?)),
        _ => Ok(None),
    }
}

// Returns the numbers from 0 up to `length`, which is at most 2^31.
fn counted(alloc: Global, length: usize) -> Result<Buffer<i32>, Error>
    requires { length ≤ most_picks }
    ensures ok { IfOk result (λ b. b ≡ map (λ i. pos i) (range_with_len 0 length)) }
    ensures err { IsOkUnless result (Memory alloc_error) }
{
    let mut numbers = Vec::with_capacity(alloc, length)?;
    for i in 0..length {
        numbers.push(i as i32)?;
    }
    Buffer::from_vec(alloc, numbers)
}

//! Data types of fixed-size list builders.
ghost use Rattle.std.specs.Prelude.{◌≡◌, ◌<◌, ◌⊎◌, Some, IfOk, IfErr, MatchResult, alloc_error};
ghost use Rattle.nest_memory.specs.TypeTree as types;
ghost use Rattle.nest_memory.specs.TypeOf.{field_of};
ghost use Rattle.nest_memory.specs.declared.datatypes.physical_type.PhysicalType.TheVariants as physical;
ghost use Rattle.nest_build.specs.Lists.{fixed_type_checks};
ghost use Rattle.nest_build.specs.Words.{FailFirst, Memory, OutOfSpec, Pass, ZeroSize, physical_type, size_of, type_of};

use crate::child::has_items;
use nest_memory::datatypes::DataType;
use nest_memory::datatypes::field::Field;
use nest_memory::datatypes::physical_type::PhysicalType;
use nest_memory::error::{Error, SpecError};
use std::alloc::Global;
use std::marker::Model;

/// A fixed-size list type.
#[derive(Drop)]
pub struct FixedType {
    data_type: DataType,
    size: usize,
}

impl Model for FixedType {
    ghost use Rattle.std.specs.Prelude.{◌≡◌, ◌<◌};
    ghost use Rattle.nest_memory.specs.TypeTree.{TypeTree, size_of};
    ghost use Rattle.nest_memory.specs.TypeCode.{coded_type};
    ghost use Rattle.nest_memory.specs.TypeOf.{type_of};
    ghost use Rattle.nest_memory.specs.Physical.{physical_type};
    ghost use Rattle.nest_memory.specs.declared.datatypes.physical_type.PhysicalType.TheVariants as physical;

    ghost Value = { TypeTree };

    ghost coded = { coded_type };

    ghost view = { λ a. type_of a.data_type };

    ghost invariant = { λ a. (physical_type (type_of a.data_type) ≡ physical.FixedSizeList) × (a.size ≡ size_of (type_of a.data_type)) × (0 < a.size) };
}

impl FixedType {
    /// Returns the type of lists of `size` such items.
    pub fn of_field(alloc: Global, items: Field, size: usize) -> Result<FixedType, Error>
        ensures ok { IfOk result (λ t. t ≡ types.fixed_size_list (field_of items) size) }
        ensures some { IfOk result (λ _. 0 < size) }
        ensures cause { IfErr result (λ e. (e ≡ Memory alloc_error) ⊎ ((e ≡ OutOfSpec ZeroSize) × (size ≡ 0))) }
    {
        if size == 0 {
            return Err(Error::OutOfSpec(SpecError::ZeroSize));
        }
        Ok(FixedType {
            data_type: DataType::FixedSizeList(Box::new(alloc, items)?, size),
            size,
        })
    }

    /// Wraps a type of lists of `size` items of this type.
    pub fn of_type(data_type: DataType, items: &DataType, size: usize) -> Result<FixedType, Error>
        ensures { let checks = fixed_type_checks size (type_of data_type) (type_of items.now) in
            MatchResult result (λ t. Pass checks × (t ≡ type_of data_type)) (λ e. FailFirst e checks) }
    {
        let is_fixed = data_type.to_physical_type() == PhysicalType::FixedSizeList;
        if !is_fixed || data_type.size().unwrap_or(0) != size {
            drop(data_type);
            return Err(Error::OutOfSpec(SpecError::WrongType));
        }
        if size == 0 {
            drop(data_type);
            return Err(Error::OutOfSpec(SpecError::ZeroSize));
        }
        if !has_items(&data_type, items) {
            drop(data_type);
            return Err(Error::OutOfSpec(SpecError::ChildType));
        }
        Ok(FixedType { data_type, size })
    }

    pub fn get(&self) -> &DataType
        ensures value { type_of result.now ≡ self.now }
        ensures lists { physical_type self.now ≡ physical.FixedSizeList }
    {
        &self.data_type
    }

    /// Returns the number of items per list.
    pub fn size(&self) -> usize
        ensures value { result ≡ size_of self.now }
        ensures some { 0 < result }
    {
        self.size
    }
}

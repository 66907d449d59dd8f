//! Data types of list builders.
ghost use Rattle.std.specs.Prelude.{◌≡◌, ◌≢◌, Some, IfOk, MatchResult, IsOkUnless, alloc_error};
ghost use Rattle.nest_memory.specs.Physical.{list_of_width};
ghost use Rattle.nest_memory.specs.TypeOf.{field_of};
ghost use Rattle.nest_build.specs.Lists.{list_type, list_type_checks};
ghost use Rattle.nest_build.specs.Words.{FailFirst, Memory, Pass, physical_type, type_of};

use crate::child::has_items;
use nest_memory::datatypes::DataType;
use nest_memory::datatypes::field::Field;
use nest_memory::datatypes::physical_type::PhysicalType;
use nest_memory::error::{Error, SpecError};
use nest_memory::offset::Offset;
use std::alloc::Global;
use std::marker::{Model, PhantomData};

/// A list type with offsets of type `O`.
#[derive(Drop)]
pub struct ListType<O: Offset> {
    data_type: DataType,
    width: PhantomData<O>,
}

impl<O: Offset> Model for ListType<O> {
    ghost use Rattle.std.specs.Prelude.{◌≡◌};
    ghost use Rattle.nest_memory.specs.TypeTree.{TypeTree};
    ghost use Rattle.nest_memory.specs.TypeCode.{coded_type};
    ghost use Rattle.nest_memory.specs.TypeOf.{type_of};
    ghost use Rattle.nest_memory.specs.Physical.{list_of_width, physical_type};

    ghost Value = { TypeTree };

    ghost coded = { coded_type };

    ghost view = { λ a. type_of a.data_type };

    ghost invariant = { λ a. physical_type (type_of a.data_type) ≡ list_of_width O.IS_LARGE };
}

impl<O: Offset> ListType<O> {
    /// Returns the type of lists of such items.
    pub fn of_field(alloc: Global, items: Field) -> Result<ListType<O>, Error>
        ensures ok { IfOk result (λ t. t ≡ list_type O.IS_LARGE (field_of items)) }
        ensures memory { IsOkUnless result (Memory alloc_error) }
    {
        let items = Box::new(alloc, items)?;
        let data_type = if O::IS_LARGE {
            DataType::LargeList(items)
        } else {
            DataType::List(items)
        };
        Ok(ListType {
            data_type,
            width: PhantomData,
        })
    }

    /// Wraps a type of lists of items of this type.
    pub fn of_type(data_type: DataType, items: &DataType) -> Result<ListType<O>, Error>
        ensures { let checks = list_type_checks O.IS_LARGE (type_of data_type) (type_of items.now) in
            MatchResult result (λ t. Pass checks × (t ≡ type_of data_type)) (λ e. FailFirst e checks) }
    {
        if data_type.to_physical_type() != physical::<O>() {
            drop(data_type);
            return Err(Error::OutOfSpec(SpecError::WrongType));
        }
        if !has_items(&data_type, items) {
            drop(data_type);
            return Err(Error::OutOfSpec(SpecError::ChildType));
        }
        Ok(ListType {
            data_type,
            width: PhantomData,
        })
    }

    pub fn get(&self) -> &DataType
        ensures value { type_of result.now ≡ self.now }
        ensures lists { physical_type self.now ≡ list_of_width O.IS_LARGE }
    {
        &self.data_type
    }
}

/// Returns the physical type of lists with offsets of type `O`.
fn physical<O: Offset>() -> PhysicalType
    ensures { result ≡ list_of_width O.IS_LARGE }
{
    if O::IS_LARGE {
        PhysicalType::LargeList
    } else {
        PhysicalType::List
    }
}

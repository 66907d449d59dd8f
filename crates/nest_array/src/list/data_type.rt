//! Data types of list arrays and of their items.
ghost use Rattle.std.specs.Prelude.{◌≡◌, Some, IfOk, IsOkUnless, MatchResult, alloc_error};
ghost use Rattle.nest_memory.specs.declared.error.Error.TheVariants.{OutOfSpec};
ghost use Rattle.nest_memory.specs.declared.error.SpecError.TheVariants.{WrongType};
ghost use Rattle.nest_memory.specs.declared.datatypes.physical_type.PhysicalType.TheVariants as physical;
ghost use Rattle.nest_memory.specs.TypeOf.{field_of};
ghost use Rattle.nest_memory.specs.TypeTree.{item_field};
ghost use Rattle.nest_array.specs.Types.{default_list_type, default_large_list_type, HasItemField};
ghost use Rattle.nest_array.specs.Words.{Memory, item_type, physical_type, type_of};

use crate::list::ListArray;
use crate::list::large::LargeListArray;
use crate::types::{child_field, default_child};
use nest_memory::datatypes::DataType;
use nest_memory::datatypes::field::Field;
use nest_memory::datatypes::physical_type::PhysicalType;
use nest_memory::error::{Error, SpecError};
use std::alloc::Global;

impl ListArray {
    /// Returns the type of lists of these items. Their field is nullable and named "item".
    ///
    /// # Errors
    /// `Memory` if an allocation fails.
    pub fn default_datatype(alloc: Global, data_type: DataType) -> Result<DataType, Error>
        ensures ok { IfOk result (λ t. type_of t ≡ default_list_type (type_of data_type)) }
        ensures err { IsOkUnless result (Memory alloc_error) }
    {
        let field = default_child(alloc, data_type)?;
        Ok(DataType::List(Box::new(alloc, field)?))
    }

    /// Returns the field of the items of a list type.
    ///
    /// # Errors
    /// `WrongType` if the physical type is not `List`.
    pub fn try_get_child(data_type: &DataType) -> Result<&Field, Error>
        ensures { let t = type_of data_type.now in MatchResult result
            (λ f. HasItemField physical.List t (field_of f.now))
            (λ e. (e ≡ OutOfSpec WrongType) × (physical_type t ≡ physical.List → ⊥)) }
    {
        match child_field(data_type, PhysicalType::List) {
            Some(field) => Ok(field),
            None => Err(Error::OutOfSpec(SpecError::WrongType)),
        }
    }

    /// Returns the field of the items of a list type.
    pub fn get_child_field(data_type: &DataType) -> &Field
        requires { physical_type (type_of data_type.now) ≡ physical.List }
        ensures { item_field (type_of data_type.now) ≡ Some (field_of result.now) }
    {
        match child_field(data_type, PhysicalType::List) {
            Some(field) => field,
            None => unreachable!(),
        }
    }

    /// Returns the data type of the items of a list type.
    pub fn get_child_type(data_type: &DataType) -> &DataType
        requires { physical_type (type_of data_type.now) ≡ physical.List }
        ensures { item_type (type_of data_type.now) ≡ Some (type_of result.now) }
    {
        ListArray::get_child_field(data_type).data_type()
    }
}

impl LargeListArray {
    /// Returns the type of lists of these items. Their field is nullable and named "item".
    ///
    /// # Errors
    /// `Memory` if an allocation fails.
    pub fn default_datatype(alloc: Global, data_type: DataType) -> Result<DataType, Error>
        ensures ok { IfOk result (λ t. type_of t ≡ default_large_list_type (type_of data_type)) }
        ensures err { IsOkUnless result (Memory alloc_error) }
    {
        let field = default_child(alloc, data_type)?;
        Ok(DataType::LargeList(Box::new(alloc, field)?))
    }

    /// Returns the field of the items of a list type.
    ///
    /// # Errors
    /// `WrongType` if the physical type is not `LargeList`.
    pub fn try_get_child(data_type: &DataType) -> Result<&Field, Error>
        ensures { let t = type_of data_type.now in MatchResult result
            (λ f. HasItemField physical.LargeList t (field_of f.now))
            (λ e. (e ≡ OutOfSpec WrongType) × (physical_type t ≡ physical.LargeList → ⊥)) }
    {
        match child_field(data_type, PhysicalType::LargeList) {
            Some(field) => Ok(field),
            None => Err(Error::OutOfSpec(SpecError::WrongType)),
        }
    }

    /// Returns the field of the items of a list type.
    pub fn get_child_field(data_type: &DataType) -> &Field
        requires { physical_type (type_of data_type.now) ≡ physical.LargeList }
        ensures { item_field (type_of data_type.now) ≡ Some (field_of result.now) }
    {
        match child_field(data_type, PhysicalType::LargeList) {
            Some(field) => field,
            None => unreachable!(),
        }
    }

    /// Returns the data type of the items of a list type.
    pub fn get_child_type(data_type: &DataType) -> &DataType
        requires { physical_type (type_of data_type.now) ≡ physical.LargeList }
        ensures { item_type (type_of data_type.now) ≡ Some (type_of result.now) }
    {
        LargeListArray::get_child_field(data_type).data_type()
    }
}

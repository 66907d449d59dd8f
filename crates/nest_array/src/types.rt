//! Data types of children.
ghost use Rattle.std.specs.Prelude.{◌≡◌, ◌↔◌, IsSome, IsTrue, Some, IfOk, IsOkUnless, MatchOption, alloc_error};
ghost use Rattle.nest_memory.specs.TypeOf.{field_of};
ghost use Rattle.nest_memory.specs.TypeTree.{item_field, key_type, value_type as values_of};
ghost use Rattle.nest_model.specs.Fits.{IsLogically, is_dictionary};
ghost use Rattle.nest_array.specs.Types.{default_field, HasItemField};
ghost use Rattle.nest_array.specs.Words.{Memory, item_type as items_of, physical_type, type_of};

use nest_memory::datatypes::field::Field;
use nest_memory::datatypes::physical_type::PhysicalType;
use nest_memory::datatypes::{DataType, IntegerType};
use nest_memory::error::Error;
use std::alloc::Global;

/// Returns whether lists of type `list` have items of type `items`.
pub(crate) fn has_items(list: &DataType, items: &DataType) -> bool
    ensures { IsTrue result ↔ (items_of (type_of list.now) ≡ Some (type_of items.now)) }
{
    match list.item_type() {
        None => false,
        Some(item) => item == items,
    }
}

/// Returns the data type of the items of a list type.
pub(crate) fn item_type(list: &DataType) -> &DataType
    requires { IsSome (items_of (type_of list.now)) }
    ensures { items_of (type_of list.now) ≡ Some (type_of result.now) }
{
    match list.item_type() {
        Some(item) => item,
        None => unreachable!(),
    }
}

/// Returns the data type of the values of a dictionary type.
pub(crate) fn value_type(dictionary: &DataType) -> &DataType
    requires { IsSome (values_of (type_of dictionary.now)) }
    ensures { values_of (type_of dictionary.now) ≡ Some (type_of result.now) }
{
    match dictionary.value_type() {
        Some(value) => value,
        None => unreachable!(),
    }
}

/// Returns whether this is a dictionary type or an extension type of one.
pub(crate) fn is_dictionary(data_type: &DataType) -> bool
    ensures { result ≡ is_dictionary (type_of data_type.now) }
{
    match data_type.key_type() {
        None => false,
        Some(_key_type) => true,
    }
}

/// Returns whether a dictionary type has keys of type `key`.
pub(crate) fn has_key_type(dictionary: &DataType, key: IntegerType) -> bool
    ensures { IsTrue result ↔ (key_type (type_of dictionary.now) ≡ Some key) }
{
    match dictionary.key_type() {
        None => false,
        Some(own) => own == key,
    }
}

/// Returns whether a dictionary type has values of the logical type of `values`.
pub(crate) fn has_values(dictionary: &DataType, values: &DataType) -> bool
    ensures { IsTrue result ↔ IsLogically (values_of (type_of dictionary.now)) (type_of values.now) }
{
    match dictionary.value_type() {
        None => false,
        Some(value) => *values.to_logical_type() == *value.to_logical_type(),
    }
}

/// Returns the field of the items of a list type, or `None` if its physical type is not `physical`.
pub(crate) fn child_field(data_type: &DataType, physical: PhysicalType) -> Option<&Field>
    ensures { let t = type_of data_type.now in MatchOption result
        ((physical_type t ≡ physical) → item_field t ≡ None)
        (λ f. HasItemField physical t (field_of f.now)) }
{
    if data_type.to_physical_type() != physical {
        return None;
    }
    data_type.item_field()
}

/// Returns the default field of list items: nullable and named "item".
pub(crate) fn default_child(alloc: Global, data_type: DataType) -> Result<Field, Error>
    ensures ok { IfOk result (λ f. field_of f ≡ default_field (type_of data_type)) }
    ensures err { IsOkUnless result (Memory alloc_error) }
{
    Field::new(alloc, "item", data_type, true)
}

//! Lists of structs with a dictionary field, from their parts.
ghost use Rattle.std.specs.Prelude.{◌≡◌, ◌∷◌, [], IfOk};
ghost use Rattle.guide.specs.Tagged.{last_tagged_list, tag_type, tagged_children, tagged_fields, tagged_list_type, tagged_lists_layout, tagged_structs, two_tagged_lists};
ghost use Rattle.guide.specs.Words.{field_list_of, layout_of, layouts_of, slots_of, type_of};

use crate::arrays::flat::boxed_numbers;
use crate::arrays::nested::dictionary;
use crate::arrays::parts::offsets;
use std::alloc::Global;
use tiekvorn::error::Error;
use tiekvorn::{AnyArray, DataType, Field, IntegerType, ListArray, StructArray};

/// Returns the data type of a dictionary of strings with 32-bit keys.
fn tag_data_type(alloc: Global) -> Result<DataType, Error>
    ensures { IfOk result (λ t. type_of t ≡ tag_type) }
{
    let values = Box::new(alloc, DataType::Utf8)?;
    Ok(DataType::Dictionary(IntegerType::Int32, values, false))
}

/// Returns the fields of a struct: a number, and a dictionary.
fn fields(alloc: Global) -> Result<Vec<Field>, Error>
    ensures { IfOk result (λ v. field_list_of v.items ≡ tagged_fields) }
{
    let mut fields = Vec::with_capacity(alloc, 2)?;
    fields.push(Field::new(alloc, "number", DataType::Int64, true)?)?;
    fields.push(Field::new(alloc, "tag", tag_data_type(alloc)?, true)?)?;
    Ok(fields)
}

/// Returns a child array for each field, of four slots.
fn children(alloc: Global) -> Result<Vec<AnyArray>, Error>
    ensures { IfOk result (λ v. layouts_of v.items ≡ tagged_children) }
{
    let mut children = Vec::with_capacity(alloc, 2)?;
    children.push(boxed_numbers(alloc)?)?;
    children.push(dictionary(alloc)?.boxed())?;
    Ok(children)
}

/// Returns the data type of lists of these structs.
fn list_data_type(alloc: Global) -> Result<DataType, Error>
    ensures { IfOk result (λ t. type_of t ≡ tagged_list_type) }
{
    let item = DataType::Struct(fields(alloc)?);
    ListArray::default_datatype(alloc, item)
}

/// Returns the struct array `[{1, "c"}, {null, null}, {3, "ab"}, {4, "c"}]`.
fn structs(alloc: Global) -> Result<AnyArray, Error>
    ensures { IfOk result (λ a. layout_of a ≡ tagged_structs) }
{
    let fields = fields(alloc)?;
    match children(alloc) {
        Ok(children) => match StructArray::try_new(DataType::Struct(fields), children, None) {
            Ok(structs) => Ok(structs.boxed()),
            Err(error) => Err(error),
        },
        Err(error) => {
            drop(fields);
            Err(error)
        }
    }
}

/// Returns two lists of these structs: the first two, and the last two.
pub fn tagged_lists(alloc: Global) -> Result<ListArray, Error>
    ensures parts { IfOk result (λ a. a ≡ tagged_lists_layout) }
    ensures slots { IfOk result (λ a. slots_of a ≡ two_tagged_lists) }
{
    let offsets = offsets(alloc, &[0, 2, 4])?;
    let values = structs(alloc)?;
    match list_data_type(alloc) {
        Ok(data_type) => ListArray::try_new(alloc, data_type, offsets, values, None),
        Err(error) => {
            drop(values);
            Err(error)
        }
    }
}

/// Returns the last of these lists, as a slice.
pub fn last_list(alloc: Global) -> Result<AnyArray, Error>
    ensures { IfOk result (λ a. slots_of (layout_of a) ≡ last_tagged_list ∷ []) }
{
    match tagged_lists(alloc) {
        Ok(lists) => Ok(lists.boxed().sliced(1, 1)),
        Err(error) => Err(error),
    }
}

//! Arrays over child arrays, from their parts. Children are made last, and a live `DataType` or `AnyArray` is dropped by name where
//! a later part is refused: each implicit drop is proved anew.
ghost use Rattle.std.specs.Prelude.{◌≡◌, IfOk};
ghost use Rattle.guide.specs.Tagged.{dictionary_layout};
ghost use Rattle.guide.specs.Words.{child_layouts, field_list_of, four_dictionary_values, four_structs, four_union_values, layouts_of, map_type, slots_of, struct_fields, struct_list_type, structs_layout, three_lists, two_maps, two_pairs, two_struct_lists, type_of};

use crate::arrays::flat::{boxed_numbers, strings};
use crate::arrays::parts::{buffer, offsets, validity};
use std::alloc::Global;
use tiekvorn::error::Error;
use tiekvorn::{
    AnyArray, AnyKeys, DataType, DictionaryArray, Field, FixedSizeListArray, ListArray, MapArray,
    PrimitiveArray, StructArray, UnionArray, UnionMode,
};

/// Returns the list array `[[1, null], null, [3, 4]]`.
pub fn lists(alloc: Global) -> Result<ListArray, Error>
    ensures { IfOk result (λ a. slots_of a ≡ three_lists) }
{
    let offsets = offsets(alloc, &[0, 2, 2, 4])?;
    let validity = validity(alloc, &[true, false, true])?;
    let values = boxed_numbers(alloc)?;
    match ListArray::default_datatype(alloc, DataType::Int64) {
        Ok(data_type) => ListArray::try_new(alloc, data_type, offsets, values, validity),
        Err(error) => {
            drop(values);
            Err(error)
        }
    }
}

/// Returns the fixed-size list array `[[1, null], [3, 4]]`, two values a slot.
pub fn fixed_size_lists(alloc: Global) -> Result<FixedSizeListArray, Error>
    ensures { IfOk result (λ a. slots_of a ≡ two_pairs) }
{
    let values = boxed_numbers(alloc)?;
    match FixedSizeListArray::default_datatype(alloc, DataType::Int64, 2) {
        Ok(data_type) => FixedSizeListArray::try_new(alloc, data_type, values, None),
        Err(error) => {
            drop(values);
            Err(error)
        }
    }
}

/// Returns the fields of a struct: a number and a string.
fn fields(alloc: Global) -> Result<Vec<Field>, Error>
    ensures { IfOk result (λ v. field_list_of v.items ≡ struct_fields) }
{
    let mut fields = Vec::with_capacity(alloc, 2)?;
    fields.push(Field::new(alloc, "number", DataType::Int64, true)?)?;
    fields.push(Field::new(alloc, "text", DataType::Utf8, true)?)?;
    Ok(fields)
}

/// Returns a child array for each field, of four slots.
fn children(alloc: Global) -> Result<Vec<AnyArray>, Error>
    ensures { IfOk result (λ v. layouts_of v.items ≡ child_layouts) }
{
    let mut children = Vec::with_capacity(alloc, 2)?;
    children.push(boxed_numbers(alloc)?)?;
    children.push(AnyArray::Utf8(strings(alloc)?))?;
    Ok(children)
}

/// Returns the struct array `[{1, "ab"}, {null, ""}, {3, null}, {4, "c"}]`.
pub fn structs(alloc: Global) -> Result<StructArray, Error>
    ensures parts { IfOk result (λ a. a ≡ structs_layout) }
    ensures slots { IfOk result (λ a. slots_of a ≡ four_structs) }
{
    let fields = fields(alloc)?;
    match children(alloc) {
        Ok(children) => StructArray::try_new(DataType::Struct(fields), children, None),
        Err(error) => {
            drop(fields);
            Err(error)
        }
    }
}

/// Returns the data type of lists of these structs.
fn struct_list_data_type(alloc: Global) -> Result<DataType, Error>
    ensures { IfOk result (λ t. type_of t ≡ struct_list_type) }
{
    let item = DataType::Struct(fields(alloc)?);
    ListArray::default_datatype(alloc, item)
}

/// Returns two lists of these structs: the first one, and the other three.
pub fn struct_lists(alloc: Global) -> Result<ListArray, Error>
    ensures { IfOk result (λ a. slots_of a ≡ two_struct_lists) }
{
    let offsets = offsets(alloc, &[0, 1, 4])?;
    let values = structs(alloc)?.boxed();
    match struct_list_data_type(alloc) {
        Ok(data_type) => ListArray::try_new(alloc, data_type, offsets, values, None),
        Err(error) => {
            drop(values);
            Err(error)
        }
    }
}

/// Returns the data type of maps whose entries are these structs.
fn map_data_type(alloc: Global) -> Result<DataType, Error>
    ensures { IfOk result (λ t. type_of t ≡ map_type) }
{
    let entries = DataType::Struct(fields(alloc)?);
    let field = Field::new(alloc, "entries", entries, false)?;
    Ok(DataType::Map(Box::new(alloc, field)?, false))
}

/// Returns two maps: the first two structs as entries, and the last two.
pub fn maps(alloc: Global) -> Result<MapArray, Error>
    ensures { IfOk result (λ a. slots_of a ≡ two_maps) }
{
    let offsets = offsets(alloc, &[0, 2, 4])?;
    let entries = structs(alloc)?.boxed();
    match map_data_type(alloc) {
        Ok(data_type) => MapArray::try_new(alloc, data_type, offsets, entries, None),
        Err(error) => {
            drop(entries);
            Err(error)
        }
    }
}

/// Returns the sparse union array `[1, "", null, 4]`: numbers are type 0, strings type 1.
pub fn unions(alloc: Global) -> Result<UnionArray, Error>
    ensures { IfOk result (λ a. slots_of a ≡ four_union_values) }
{
    let types = buffer(alloc, &[0i8, 1, 1, 0])?;
    let fields = fields(alloc)?;
    match children(alloc) {
        Ok(children) => {
            let data_type = DataType::Union(fields, None, UnionMode::Sparse);
            UnionArray::try_new(data_type, types, children, None)
        }
        Err(error) => {
            drop(fields);
            Err(error)
        }
    }
}

/// Returns the dictionary array `["c", null, "ab", "c"]`, whose keys are indices into `strings`.
pub fn dictionary(alloc: Global) -> Result<DictionaryArray, Error>
    ensures parts { IfOk result (λ a. a ≡ dictionary_layout) }
    ensures slots { IfOk result (λ a. slots_of a ≡ four_dictionary_values) }
{
    let indices = buffer(alloc, &[3i32, 0, 0, 3])?;
    let validity = validity(alloc, &[true, false, true, true])?;
    let keys = PrimitiveArray::try_new(DataType::Int32, indices, validity)?;
    match strings(alloc) {
        Ok(values) => {
            DictionaryArray::try_from_keys(alloc, AnyKeys::Int32(keys), AnyArray::Utf8(values))
        }
        Err(error) => {
            drop(keys);
            Err(error)
        }
    }
}

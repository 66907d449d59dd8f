//! Map arrays of keys and values.
ghost use Rattle.std.specs.Prelude.{◌≡◌, IfOk, IsOkUnless, MatchOption, MatchResult, alloc_error};
ghost use Rattle.nest_array.specs.Words.{EntriesError, EntriesFit, Fits, Memory, RefusesEntries, entries_map, entries_struct, entry_fields, field_list_of, layout_of, layout_type, layouts_of, len, map_type, maps_over, two_children, type_of};

use super::fields::column_field;
use crate::any::AnyArray;
use crate::map::MapArray;
use crate::struct_::StructArray;
use nest_memory::datatypes::DataType;
use nest_memory::datatypes::field::Field;
use nest_memory::error::{Error, SpecError};
use nest_memory::offsets::OffsetsBuffer;
use std::alloc::Global;

/// Returns a map array of these keys and values: map `i` has the entries from offset `i` up to offset `i + 1`.
///
/// The entries are a struct of the fields "key", not nullable, and "value", nullable. Their own field is named "entries" and not nullable.
/// The keys are marked as not sorted. The array has no validity. Of keys and values only the lengths are checked: a null key is not an error.
///
/// # Errors
/// The first that applies:
/// - `ChildLength` if the number of values is not the number of keys.
/// - `OffsetPastChild` if the last offset is past the end of the keys.
/// - `Memory` if an allocation fails.
pub fn map_of_entries(
    alloc: Global,
    offsets: OffsetsBuffer<i32>,
    keys: AnyArray,
    values: AnyArray,
) -> Result<MapArray, Error>
    ensures { let ks = layout_of keys in let vs = layout_of values in
        MatchResult result (λ a. EntriesFit offsets ks vs × (a ≡ entries_map offsets ks vs)) (λ e. RefusesEntries e offsets ks vs) }
{
    if let Some(error) = first_error(&offsets, &keys, &values) {
        drop(values);
        drop(keys);
        drop(offsets);
        return Err(error);
    }
    match entries_of(alloc, keys, values) {
        Ok(entries) => maps_of(alloc, offsets, entries),
        Err(error) => {
            drop(offsets);
            Err(error)
        }
    }
}

/// Returns the error of the first check of the parts that fails.
fn first_error(offsets: &OffsetsBuffer<i32>, keys: &AnyArray, values: &AnyArray) -> Option<Error>
    ensures { let ks = layout_of keys.now in let vs = layout_of values.now in
        MatchOption result (EntriesFit offsets.now ks vs) (λ e. EntriesError e offsets.now ks vs) }
{
    if values.len() != keys.len() {
        return Some(Error::OutOfSpec(SpecError::ChildLength));
    }
    if offsets.last() > keys.len() {
        return Some(Error::OutOfSpec(SpecError::OffsetPastChild));
    }
    None
}

/// Returns the struct array of the entries.
fn entries_of(alloc: Global, keys: AnyArray, values: AnyArray) -> Result<AnyArray, Error>
    requires { len (layout_of values) ≡ len (layout_of keys) }
    ensures ok { IfOk result (λ a. layout_of a ≡ entries_struct (layout_of keys) (layout_of values)) }
    ensures err { IsOkUnless result (Memory alloc_error) }
{
    match key_value_fields(alloc, &keys, &values) {
        Ok(fields) => match key_value_columns(alloc, keys, values) {
            Ok(children) => {
                let entries = StructArray::new(DataType::Struct(fields), children, None);
                Ok(AnyArray::Struct(entries))
            }
            Err(error) => {
                drop(fields);
                Err(error)
            }
        },
        Err(error) => {
            drop(values);
            drop(keys);
            Err(error)
        }
    }
}

/// Returns the fields of the entries.
fn key_value_fields(alloc: Global, keys: &AnyArray, values: &AnyArray) -> Result<Vec<Field>, Error>
    ensures ok { IfOk result (λ v. field_list_of v.items ≡ entry_fields (layout_type (layout_of keys.now)) (layout_type (layout_of values.now))) }
    ensures err { IsOkUnless result (Memory alloc_error) }
{
    let mut fields = Vec::with_capacity(alloc, 2)?;
    fields.push_reserved(column_field(alloc, "key", keys, false)?);
    fields.push_reserved(column_field(alloc, "value", values, true)?);
    Ok(fields)
}

/// Returns a vector of both arrays.
fn key_value_columns(
    alloc: Global,
    keys: AnyArray,
    values: AnyArray,
) -> Result<Vec<AnyArray>, Error>
    ensures ok { IfOk result (λ v. layouts_of v.items ≡ two_children (layout_of keys) (layout_of values)) }
    ensures err { IsOkUnless result (Memory alloc_error) }
{
    match Vec::with_capacity(alloc, 2) {
        Ok(mut children) => {
            children.push_reserved(keys);
            children.push_reserved(values);
            Ok(children)
        }
        Err(refused) => {
            drop(values);
            drop(keys);
            Err(Error::from(refused))
        }
    }
}

/// Returns the data type of maps of entries of this type.
fn map_data_type(alloc: Global, entries: &DataType) -> Result<DataType, Error>
    ensures ok { IfOk result (λ t. type_of t ≡ map_type (type_of entries.now)) }
    ensures err { IsOkUnless result (Memory alloc_error) }
{
    let field = Field::new(alloc, "entries", entries.clone(alloc)?, false)?;
    Ok(DataType::Map(Box::new(alloc, field)?, false))
}

/// Returns the map array of these offsets into these entries.
fn maps_of(alloc: Global, offsets: OffsetsBuffer<i32>, entries: AnyArray) -> Result<MapArray, Error>
    requires { Fits (maps_over offsets (layout_of entries)) }
    ensures ok { IfOk result (λ a. a ≡ maps_over offsets (layout_of entries)) }
    ensures err { IsOkUnless result (Memory alloc_error) }
{
    match map_data_type(alloc, entries.data_type()) {
        Ok(data_type) => MapArray::new(alloc, data_type, offsets, entries, None),
        Err(error) => {
            drop(entries);
            drop(offsets);
            Err(error)
        }
    }
}

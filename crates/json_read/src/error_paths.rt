//! The fields that errors are in. They are looked for only after an error.
ghost use Rattle.std.specs.Prelude.{◌≡◌, [], is_some, option_map, string_bytes, IfOk};
ghost use Rattle.json.specs.Value.{items_view, members_view, value_view};
ghost use Rattle.json_read.specs.DistinctNames.{FieldHasDistinctFieldNames, FieldsHaveDistinctFieldNames, HasDistinctFieldNames};
ghost use Rattle.json_read.specs.ErrorPaths.{IsPath, first_item_path, first_member_path, first_missing_path, path_after, path_in_array, path_in_object, names_of, spec_error_path, spec_field_path, spec_is_wrong, spec_member_path, spec_path_below, spec_row_path};
ghost use Rattle.json_read.specs.JsonSlots.{value_error};
ghost use Rattle.json_write.specs.TypedSlots.{HaveDistinctNames};
ghost use Rattle.nest_memory.specs.TypeOf.{field_list_of, field_of, type_of};

use crate::builders::new_builder;
use crate::fields::field_at;
use crate::push::push_value;
use crate::required_fields::{field_has_null, has_member, is_required_missing};
use crate::value_error::PushError;
use json::Value;
use nest_memory::datatypes::{DataType, Field};
use std::alloc::{AllocError, Global};

/// Returns the path of the field that the first error of a row is in: the names of the fields from the row down, joined by dots.
///
/// # Errors
/// `Overflow` and `Memory` as `PushError` states.
pub(crate) fn row_path(
    alloc: Global,
    data_type: &DataType,
    value: &Value<'_>,
) -> Result<Option<String>, PushError>
    requires { HasDistinctFieldNames (type_of data_type.now) }
    ensures { IfOk result (IsPath (spec_row_path (type_of data_type.now) (value_view value.now))) }
{
    let invalid = is_invalid(alloc, data_type, value)?;
    error_path(alloc, !invalid, data_type, value)
}

/// Returns whether the value has an error, nulls apart.
fn is_invalid(alloc: Global, data_type: &DataType, value: &Value<'_>) -> Result<bool, PushError>
    ensures { IfOk result (λ b. b ≡ is_some (value_error (type_of data_type.now) (value_view value.now))) }
{
    match new_builder(alloc, data_type) {
        Ok(builder) => {
            let mut builder = builder;
            let pushed = push_value(alloc, &mut builder, value);
            drop(builder);
            match pushed {
                Ok(()) => Ok(false),
                Err(PushError::Value(_)) => Ok(true),
                Err(error) => Err(error),
            }
        }
        Err(_) => Err(PushError::Memory),
    }
}

// Returns whether a value of the field has an error, or if `nulls` a null in a field that is not nullable.
fn is_wrong(alloc: Global, nulls: bool, field: &Field, value: &Value<'_>) -> Result<bool, PushError>
    requires { FieldHasDistinctFieldNames (field_of field.now) }
    ensures { IfOk result (λ b. b ≡ spec_is_wrong nulls (field_of field.now) (value_view value.now)) }
{
    if nulls {
        return Ok(field_has_null(field, value));
    }
    is_invalid(alloc, &field.data_type, value)
}

// Returns the path of a field, or of a field in it.
fn path_below(alloc: Global, name: &str, path: Option<String>) -> Result<String, AllocError>
    ensures { IfOk result (λ s. string_bytes s ≡ spec_path_below name.now (option_map string_bytes path)) }
{
    match path {
        None => String::from_str(alloc, name),
        Some(path) => {
            let joined = format!(in alloc; "{name}.{path}");
            drop(path);
            joined
        }
    }
}

// Returns the path from a wrong value down to its first error.
#[cycle(paths)]
fn error_path(
    alloc: Global,
    nulls: bool,
    data_type: &DataType,
    value: &Value<'_>,
) -> Result<Option<String>, PushError>
    requires { HasDistinctFieldNames (type_of data_type.now) }
    ensures { IfOk result (IsPath (spec_error_path nulls (type_of data_type.now) (value_view value.now))) }
{
    match data_type {
        DataType::List(field) => array_path(alloc, nulls, field, value),
        DataType::LargeList(field) => array_path(alloc, nulls, field, value),
        DataType::FixedSizeList(field, _size) => array_path(alloc, nulls, field, value),
        DataType::Struct(fields) => object_path(alloc, nulls, fields, value),
        DataType::Extension(_name, inner, _metadata) => error_path(alloc, nulls, inner, value),
        _ => Ok(None),
    }
}

// Returns the path from a field on, if its value is wrong.
#[cycle(paths)]
fn field_path(
    alloc: Global,
    nulls: bool,
    field: &Field,
    value: &Value<'_>,
) -> Result<Option<String>, PushError>
    requires { FieldHasDistinctFieldNames (field_of field.now) }
    ensures { IfOk result (IsPath (spec_field_path nulls (field_of field.now) (value_view value.now))) }
{
    if !is_wrong(alloc, nulls, field, value)? {
        return Ok(None);
    }
    let inner = error_path(alloc, nulls, &field.data_type, value)?;
    let path = path_below(alloc, field.name.as_str(), inner)?;
    Ok(Some(path))
}

#[cycle(paths)]
fn array_path(
    alloc: Global,
    nulls: bool,
    field: &Field,
    value: &Value<'_>,
) -> Result<Option<String>, PushError>
    requires { FieldHasDistinctFieldNames (field_of field.now) }
    ensures { IfOk result (IsPath (path_in_array (spec_field_path nulls (field_of field.now)) (value_view value.now))) }
{
    match value {
        Value::Array(items) => items_path(alloc, nulls, field, items),
        _ => Ok(None),
    }
}

#[cycle(paths)]
fn items_path(
    alloc: Global,
    nulls: bool,
    field: &Field,
    items: &[Value<'_>],
) -> Result<Option<String>, PushError>
    requires { FieldHasDistinctFieldNames (field_of field.now) }
    ensures { IfOk result (IsPath (first_item_path (spec_field_path nulls (field_of field.now)) (items_view items.now))) }
{
    for item in items {
        if let Some(path) = field_path(alloc, nulls, field, item)? {
            return Ok(Some(path));
        }
    }
    Ok(None)
}

#[cycle(paths)]
fn object_path(
    alloc: Global,
    nulls: bool,
    fields: &Vec<Field>,
    value: &Value<'_>,
) -> Result<Option<String>, PushError>
    requires names { HaveDistinctNames (field_list_of fields.now.items) }
    requires distinct { FieldsHaveDistinctFieldNames (field_list_of fields.now.items) }
    ensures { IfOk result (IsPath (path_in_object (spec_member_path nulls (field_list_of fields.now.items)) (field_list_of fields.now.items) (value_view value.now))) }
{
    match value {
        Value::Object(members) => match members_path(alloc, nulls, fields, members)? {
            Some(path) => Ok(Some(path)),
            None => missing_path(alloc, fields, members),
        },
        _ => Ok(None),
    }
}

#[cycle(paths)]
fn members_path(
    alloc: Global,
    nulls: bool,
    fields: &Vec<Field>,
    members: &[(&str, Value<'_>)],
) -> Result<Option<String>, PushError>
    requires names { HaveDistinctNames (field_list_of fields.now.items) }
    requires distinct { FieldsHaveDistinctFieldNames (field_list_of fields.now.items) }
    ensures { IfOk result (IsPath (first_member_path (spec_member_path nulls (field_list_of fields.now.items)) [] (members_view members.now))) }
{
    for i in 0..members.len() {
        if let Some(path) = later_path(alloc, nulls, fields, &members[..i], &members[i])? {
            return Ok(Some(path));
        }
    }
    Ok(None)
}

// Returns the path from a member on, after others. A name that one of them has is its own path.
#[cycle(paths)]
fn later_path(
    alloc: Global,
    nulls: bool,
    fields: &Vec<Field>,
    before: &[(&str, Value<'_>)],
    member: &(&str, Value<'_>),
) -> Result<Option<String>, PushError>
    requires names { HaveDistinctNames (field_list_of fields.now.items) }
    requires distinct { FieldsHaveDistinctFieldNames (field_list_of fields.now.items) }
    ensures { IfOk result (IsPath (path_after (spec_member_path nulls (field_list_of fields.now.items)) (names_of before.now) member.now.0.now (value_view member.now.1))) }
{
    if has_member(before, 0, member.0) {
        let path = String::from_str(alloc, member.0)?;
        return Ok(Some(path));
    }
    member_path(alloc, nulls, fields, member.0, &member.1)
}

// Returns the path from the field of that name on. An unknown name is its own path.
#[cycle(paths)]
fn member_path(
    alloc: Global,
    nulls: bool,
    fields: &Vec<Field>,
    name: &str,
    value: &Value<'_>,
) -> Result<Option<String>, PushError>
    requires names { HaveDistinctNames (field_list_of fields.now.items) }
    requires distinct { FieldsHaveDistinctFieldNames (field_list_of fields.now.items) }
    ensures { IfOk result (IsPath (spec_member_path nulls (field_list_of fields.now.items) name.now (value_view value.now))) }
{
    match field_at(fields, 0, name) {
        Some(i) => field_path(alloc, nulls, &fields[i], value),
        None => {
            let path = String::from_str(alloc, name)?;
            Ok(Some(path))
        }
    }
}

// Returns the name of the first field that is not nullable and has no member.
fn missing_path(
    alloc: Global,
    fields: &Vec<Field>,
    members: &[(&str, Value<'_>)],
) -> Result<Option<String>, PushError>
    ensures { IfOk result (IsPath (first_missing_path (field_list_of fields.now.items) (members_view members.now))) }
{
    let mut at = 0usize;
    for field in fields {
        if is_required_missing(field, at, members) {
            let name = String::from_str(alloc, field.name.as_str())?;
            return Ok(Some(name));
        }
        at = at.wrapping_add(1);
    }
    Ok(None)
}

//! Nulls in fields that are not nullable.
ghost use Rattle.std.specs.Prelude.{◌≡◌, bytes_eq, IfErr, None, OnOk};
ghost use Rattle.json.specs.Value.{items_view, members_view, value_view};
ghost use Rattle.json_read.specs.DistinctNames.{FieldHasDistinctFieldNames, FieldsHaveDistinctFieldNames, HasDistinctFieldNames};
ghost use Rattle.json_read.specs.RequiredFields.{any_item, any_member, array_has, has_name, has_required_field, has_unexpected_null, is_any_missing, is_any_required, is_missing, is_required, is_unexpected_member, is_unexpected_null, null_error, object_has};
ghost use Rattle.json_read.specs.SlotAdded.{IsPushError};
ghost use Rattle.json_write.specs.TypedSlots.{HaveDistinctNames};
ghost use Rattle.nest_memory.specs.TypeOf.{field_list_of, field_of, type_of};

use crate::fields::field_at;
use crate::value_error::{PushError, ValueError};
use json::Value;
use nest_memory::datatypes::{DataType, Field};

/// Returns whether a field of the type is not nullable, at any depth.
#[cycle(required)]
pub(crate) fn requires_values(data_type: &DataType) -> bool
    ensures { result ≡ has_required_field (type_of data_type.now) }
{
    match data_type {
        DataType::List(field) | DataType::LargeList(field) => field_requires(field),
        DataType::FixedSizeList(field, _size) => field_requires(field),
        DataType::Struct(fields) => any_requires(fields),
        DataType::Extension(_name, inner, _metadata) => requires_values(inner),
        _ => false,
    }
}

#[cycle(required)]
fn field_requires(field: &Field) -> bool
    ensures { result ≡ is_required (field_of field.now) }
{
    !field.is_nullable || requires_values(&field.data_type)
}

#[cycle(required)]
fn any_requires(fields: &Vec<Field>) -> bool
    ensures { result ≡ is_any_required (field_list_of fields.now.items) }
{
    for field in fields {
        if field_requires(field) {
            return true;
        }
    }
    false
}

/// Returns an error if the value has a null in a field that is not nullable. `required` is the result of `requires_values`.
pub(crate) fn check_nulls(
    data_type: &DataType,
    required: bool,
    value: &Value<'_>,
) -> Result<(), PushError>
    requires distinct { HasDistinctFieldNames (type_of data_type.now) }
    requires required { required ≡ has_required_field (type_of data_type.now) }
    ensures valid { OnOk result (null_error (type_of data_type.now) (value_view value.now) ≡ None) }
    ensures error { IfErr result (λ e. IsPushError e (null_error (type_of data_type.now) (value_view value.now))) }
{
    if !required {
        return Ok(());
    }
    if has_null(data_type, value) {
        return Err(PushError::Value(ValueError::UnexpectedNull));
    }
    Ok(())
}

/// Returns whether the value has a null in a field that is not nullable.
#[cycle(nulls)]
pub(crate) fn has_null(data_type: &DataType, value: &Value<'_>) -> bool
    requires { HasDistinctFieldNames (type_of data_type.now) }
    ensures { result ≡ has_unexpected_null (type_of data_type.now) (value_view value.now) }
{
    match data_type {
        DataType::List(field) | DataType::LargeList(field) => array_has_null(field, value),
        DataType::FixedSizeList(field, _size) => array_has_null(field, value),
        DataType::Struct(fields) => object_has_null(fields, value),
        DataType::Extension(_name, inner, _metadata) => has_null(inner, value),
        _ => false,
    }
}

/// Returns whether the value of a field is such a null or has one.
#[cycle(nulls)]
pub(crate) fn field_has_null(field: &Field, value: &Value<'_>) -> bool
    requires { FieldHasDistinctFieldNames (field_of field.now) }
    ensures { result ≡ is_unexpected_null (field_of field.now) (value_view value.now) }
{
    !field.is_nullable && value.is_null() || has_null(&field.data_type, value)
}

#[cycle(nulls)]
fn array_has_null(field: &Field, value: &Value<'_>) -> bool
    requires { FieldHasDistinctFieldNames (field_of field.now) }
    ensures { result ≡ array_has (is_unexpected_null (field_of field.now)) (value_view value.now) }
{
    match value {
        Value::Array(items) => item_has_null(field, items),
        _ => false,
    }
}

#[cycle(nulls)]
fn item_has_null(field: &Field, items: &[Value<'_>]) -> bool
    requires { FieldHasDistinctFieldNames (field_of field.now) }
    ensures { result ≡ any_item (is_unexpected_null (field_of field.now)) (items_view items.now) }
{
    for item in items {
        if field_has_null(field, item) {
            return true;
        }
    }
    false
}

#[cycle(nulls)]
fn object_has_null(fields: &Vec<Field>, value: &Value<'_>) -> bool
    requires names { HaveDistinctNames (field_list_of fields.now.items) }
    requires distinct { FieldsHaveDistinctFieldNames (field_list_of fields.now.items) }
    ensures { result ≡ object_has (is_unexpected_member (field_list_of fields.now.items)) (field_list_of fields.now.items) (value_view value.now) }
{
    match value {
        Value::Object(members) => {
            member_has_null(fields, members) || lacks_required(fields, members)
        }
        _ => false,
    }
}

#[cycle(nulls)]
fn member_has_null(fields: &Vec<Field>, members: &[(&str, Value<'_>)]) -> bool
    requires names { HaveDistinctNames (field_list_of fields.now.items) }
    requires distinct { FieldsHaveDistinctFieldNames (field_list_of fields.now.items) }
    ensures { result ≡ any_member (is_unexpected_member (field_list_of fields.now.items)) (members_view members.now) }
{
    let mut next = 0;
    for member in members {
        let (is_null, after) = named_has_null(fields, next, member.0, &member.1);
        if is_null {
            return true;
        }
        next = after;
    }
    false
}

// Looks for the field of a member from `next` on. Returns whether the member has a null, and where to begin for the member after it.
#[cycle(nulls)]
fn named_has_null(fields: &Vec<Field>, next: usize, name: &str, value: &Value<'_>) -> (bool, usize)
    requires names { HaveDistinctNames (field_list_of fields.now.items) }
    requires distinct { FieldsHaveDistinctFieldNames (field_list_of fields.now.items) }
    ensures { result.0 ≡ is_unexpected_member (field_list_of fields.now.items) name.now (value_view value.now) }
{
    match field_at(fields, next, name) {
        Some(i) => (field_has_null(&fields[i], value), i + 1),
        None => (false, next),
    }
}

// Returns whether a field that is not nullable has no member.
fn lacks_required(fields: &Vec<Field>, members: &[(&str, Value<'_>)]) -> bool
    ensures { result ≡ is_any_missing (field_list_of fields.now.items) (members_view members.now) }
{
    let mut at = 0usize;
    for field in fields {
        if is_required_missing(field, at, members) {
            return true;
        }
        at = at.wrapping_add(1);
    }
    false
}

// The search for the member begins at `at`, since members mostly have the order of the fields.
pub(crate) fn is_required_missing(field: &Field, at: usize, members: &[(&str, Value<'_>)]) -> bool
    ensures { result ≡ is_missing (field_of field.now) (members_view members.now) }
{
    !field.is_nullable && !has_member(members, at, field.name.as_str())
}

/// Returns whether a member has the name. Member `at` is looked at first.
pub(crate) fn has_member(members: &[(&str, Value<'_>)], at: usize, name: &str) -> bool
    ensures { result ≡ has_name name.now (members_view members.now) }
{
    if at < members.len() && is_same(members[at].0, name) {
        return true;
    }
    for member in members {
        if is_same(member.0, name) {
            return true;
        }
    }
    false
}

fn is_same(a: &str, b: &str) -> bool
    ensures { result ≡ bytes_eq a.now b.now }
{
    a.as_bytes() == b.as_bytes()
}

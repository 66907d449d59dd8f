//! Scalars.
ghost use Rattle.std.specs.Prelude.{◌≡◌, false};
ghost use Rattle.std.specs.Fmt.{WritesOnOk};
ghost use Rattle.nest_memory.specs.TypeOf.{field_list_of, type_of};
ghost use Rattle.nest_model.specs.Layout.{field_types};
ghost use Rattle.nest_array.specs.ScalarParts.{slots_in, types_in};
ghost use Rattle.json_write.specs.JsonText.{json_members, json_of_slot, members_of, field_name_at};

use crate::format::ValueFormat;
use crate::native::write_native;
use crate::nested::{name, write_array};
use crate::quoting::{write_bytes, write_comma, write_quoted};
use nest_array::{AnyScalar, ScalarValue};
use nest_memory::datatypes::{DataType, Field};
use std::fmt;
use std::fmt::Formatter;

/// Writes the slot of a scalar.
#[cycle(scalar_json)]
pub(crate) fn write_scalar<W: fmt::Write>(f: &mut Formatter<W>, scalar: &AnyScalar) -> fmt::Result
    ensures { WritesOnOk W.write_str_gives f.old result (json_of_slot scalar.now.data_type scalar.now.slot) f.new }
{
    match scalar.value() {
        ScalarValue::Null => f.write_str("null"),
        ScalarValue::Boolean(true) => f.write_str("true"),
        ScalarValue::Boolean(false) => f.write_str("false"),
        ScalarValue::Native(value) => {
            write_native(f, ValueFormat::of_type(scalar.data_type()), *value)
        }
        ScalarValue::Text(text) => write_quoted(f, text),
        ScalarValue::Bytes(bytes) => write_bytes(f, bytes),
        ScalarValue::List(items) => write_array(f, items, 0, items.len()),
        ScalarValue::Struct(values) => {
            f.write_str("{")?;
            write_scalar_members(f, members(scalar.data_type()), values)?;
            f.write_str("}")
        }
        ScalarValue::Pick(k, value) => {
            f.write_str("{")?;
            write_quoted(f, name_at(members(scalar.data_type()), *k))?;
            f.write_str(":")?;
            write_scalar(f, value)?;
            f.write_str("}")
        }
    }
}

/// Writes each scalar as a member named after its field.
#[cycle(scalar_json)]
fn write_scalar_members<W: fmt::Write>(
    f: &mut Formatter<W>,
    fields: &[Field],
    values: &[AnyScalar],
) -> fmt::Result
    requires { field_types (field_list_of fields.now) ≡ types_in values.now }
    ensures { WritesOnOk W.write_str_gives f.old result (json_members (field_list_of fields.now) false (slots_in values.now)) f.new }
{
    let mut after = false;
    for (field, value) in fields.iter().zip(values) {
        write_comma(f, after)?;
        write_quoted(f, name(field))?;
        f.write_str(":")?;
        write_scalar(f, value)?;
        after = true;
    }
    Ok(())
}

/// Returns the fields of a struct or a union, of a dictionary's values or an extension's storage.
fn members(data_type: &DataType) -> &[Field]
    ensures { field_list_of result.now ≡ members_of (type_of data_type.now) }
{
    match data_type {
        DataType::Dictionary(_, values, _) => members(values),
        DataType::Extension(_, inner, _) => members(inner),
        DataType::Struct(fields) | DataType::Union(fields, _, _) => fields.as_slice(),
        _ => &[],
    }
}

/// Returns the name of field `k`, or an empty name if there is none.
fn name_at(fields: &[Field], k: usize) -> &str
    ensures { result.now ≡ field_name_at (field_list_of fields.now) k }
{
    match fields.get(k) {
        Some(field) => name(field),
        None => "",
    }
}

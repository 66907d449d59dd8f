//! Slots of types without child arrays.
ghost use Rattle.std.specs.Prelude.{◌≡◌, ℕ, IfErr, IfOk, None, OnOk, Some, false, true};
ghost use Rattle.json.specs.Find.{is_null};
ghost use Rattle.json.specs.Value.{value_view};
ghost use Rattle.nest_any.specs.Trees.{tree_of};
ghost use Rattle.nest_any.specs.Words.{IsComplete, builder_type};
ghost use Rattle.nest_flat.specs.Words.{plain_value};
ghost use Rattle.json_read.specs.StructMembers.{IsLimitError};
ghost use Rattle.json_read.specs.FlatValues.{is_bytes, flat_error, has_values_format};
ghost use Rattle.json_read.specs.JsonSlots.{flat_value_error, values_physical_type, slot_of};
ghost use Rattle.json_read.specs.SlotAdded.{IsPushError, SlotAdded};
ghost use Rattle.json_write.specs.Formats.{format_of_type};
ghost use Rattle.json_write.specs.declared.format.ValueFormat.{ValueFormat};
ghost use Rattle.nest_memory.specs.TypeTree.{TypeTree};
ghost use Rattle.nest_model.specs.BuilderItem.{slot_of_plain};
ghost use Rattle.nest_model.specs.Slot as slots;

use crate::hexadecimal::bytes_of;
use crate::list_rows::limit_error;
use crate::texts::value_of;
use crate::value_error::{PushError, ValueError};
use crate::values_type::values_type;
use json::Value;
use json_write::ValueFormat;
use nest_any::AnyMutableArray;
use nest_build::array::MutableArray;
use nest_flat::plain::Plain;
use nest_memory::datatypes::physical_type::PhysicalType;
use std::alloc::Global;

/// Adds the slot of a value: null, or a value without children.
///
/// # Errors
/// `Value` if the value is no slot of the type: a JSON array is one only as the numbers of a native value, an object never. `Overflow`
/// and `Memory` as `PushError` states.
pub(crate) fn push_leaf(
    alloc: Global,
    builder: &mut AnyMutableArray,
    value: &Value<'_>,
) -> Result<(), PushError>
    requires { IsComplete (tree_of builder.old) }
    ensures added { OnOk result (SlotAdded (slot_of (builder_type (tree_of builder.old)) (value_view value.now)) (tree_of builder.old) (tree_of builder.new)) }
    ensures valid { OnOk result (flat_value_error (builder_type (tree_of builder.old)) (value_view value.now) ≡ None) }
    ensures error { IfErr result (λ e. IsPushError e (flat_value_error (builder_type (tree_of builder.old)) (value_view value.now))) }
{
    if value.is_null() {
        push_null(builder)
    } else {
        push_valid(alloc, builder, value)
    }
}

// Adds a null.
fn push_null(builder: &mut AnyMutableArray) -> Result<(), PushError>
    requires { IsComplete (tree_of builder.old) }
    ensures added { OnOk result (SlotAdded slots.null (tree_of builder.old) (tree_of builder.new)) }
    ensures limit { IfErr result IsLimitError }
{
    match builder.push_null() {
        Ok(()) => Ok(()),
        Err(error) => Err(limit_error(error)),
    }
}

// Adds a value that is not null.
fn push_valid(
    alloc: Global,
    builder: &mut AnyMutableArray,
    value: &Value<'_>,
) -> Result<(), PushError>
    requires complete { IsComplete (tree_of builder.old) }
    requires valid { is_null (value_view value.now) ≡ false }
    ensures added { OnOk result (SlotAdded (slot_of (builder_type (tree_of builder.old)) (value_view value.now)) (tree_of builder.old) (tree_of builder.new)) }
    ensures valid { OnOk result (flat_value_error (builder_type (tree_of builder.old)) (value_view value.now) ≡ None) }
    ensures error { IfErr result (λ e. IsPushError e (flat_value_error (builder_type (tree_of builder.old)) (value_view value.now))) }
{
    let data_type = builder.data_type();
    let format = ValueFormat::of_type(data_type);
    let values = values_type(data_type);
    let physical = values.to_physical_type();
    let size = values.size().unwrap_or(0);
    if are_bytes(physical) {
        let bytes = bytes_in(alloc, physical, size, value)?;
        push_plain(builder, Plain::Bytes(&bytes))
    } else {
        match plain_of(physical, format, value) {
            Ok(plain) => push_plain(builder, plain),
            Err(reason) => Err(PushError::Value(reason)),
        }
    }
}

// Adds a value of the builder's type, which only a limit or an allocation can prevent.
fn push_plain(builder: &mut AnyMutableArray, plain: Plain<'_>) -> Result<(), PushError>
    requires { IsComplete (tree_of builder.old) }
    ensures added { OnOk result (SlotAdded (slot_of_plain (plain_value plain.entry)) (tree_of builder.old) (tree_of builder.new)) }
    ensures limit { IfErr result IsLimitError }
{
    match builder.try_push_plain(Some(plain)) {
        Ok(()) => Ok(()),
        Err(error) => Err(limit_error(error)),
    }
}

// Returns whether the type is binary.
fn are_bytes(physical: PhysicalType) -> bool
    ensures { result ≡ is_bytes physical }
{
    match physical {
        PhysicalType::Binary | PhysicalType::LargeBinary | PhysicalType::FixedSizeBinary => true,
        _ => false,
    }
}

// Converts a JSON value to a value of a physical type other than binary.
fn plain_of<'a>(
    physical: PhysicalType,
    format: ValueFormat,
    value: &Value<'a>,
) -> Result<Plain<'a>, ValueError>
    requires bytes { is_bytes physical ≡ false }
    requires format { has_values_format physical format ≡ true }
    ensures slot { IfOk result (λ p. (t : TypeTree) → values_physical_type t ≡ physical → format_of_type t ≡ format → slot_of_plain (plain_value p) ≡ slot_of t (value_view value.now)) }
    ensures valid { OnOk result ((size : ℕ) → flat_error physical size format (value_view value.now) ≡ None) }
    ensures error { IfErr result (λ e. (size : ℕ) → flat_error physical size format (value_view value.now) ≡ Some e) }
{
    match physical {
        PhysicalType::Boolean => match value {
            Value::Bool(truth) => Ok(Plain::Boolean(*truth)),
            _ => Err(ValueError::WrongType),
        },
        PhysicalType::Primitive(kind) => match value_of(kind, format, value) {
            Ok(native) => Ok(Plain::Native(native)),
            Err(reason) => Err(reason),
        },
        PhysicalType::Utf8 | PhysicalType::LargeUtf8 => match value {
            Value::String(text) => Ok(Plain::Text(*text)),
            _ => Err(ValueError::WrongType),
        },
        _ => Err(ValueError::WrongType),
    }
}

// Converts a JSON value to binary. `size` is the size of fixed-size binary.
fn bytes_in(
    alloc: Global,
    physical: PhysicalType,
    size: usize,
    value: &Value<'_>,
) -> Result<Vec<u8>, PushError>
    requires { is_bytes physical ≡ true }
    ensures slot { IfOk result (λ v. (t : TypeTree) → values_physical_type t ≡ physical → slots.bytes v.items ≡ slot_of t (value_view value.now)) }
    ensures valid { OnOk result ((v : ValueFormat) → flat_error physical size v (value_view value.now) ≡ None) }
    ensures error { IfErr result (λ e. (v : ValueFormat) → IsPushError e (flat_error physical size v (value_view value.now))) }
{
    let Value::String(text) = value else {
        return Err(PushError::Value(ValueError::WrongType));
    };
    let bytes = bytes_of(alloc, text.as_bytes())?;
    match physical {
        PhysicalType::FixedSizeBinary => {
            if bytes.len() == size {
                Ok(bytes)
            } else {
                Err(PushError::Value(ValueError::WrongLength))
            }
        }
        _ => Ok(bytes),
    }
}

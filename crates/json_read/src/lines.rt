//! Lines of JSON as the slots of an array.
ghost use Rattle.std.specs.Prelude.{◌≡◌, ◌^◌, ◌≤◌, [], IfErr, IfOk, None, Ok, OnErr, OnOk, Some, length, take};
ghost use Rattle.json.specs.Value.{value_view};
ghost use Rattle.nest_any.specs.Trees.{tree_of};
ghost use Rattle.nest_any.specs.Words.{IsComplete, builder_type, layout_of, layout_type, own_slots, slots_of, type_of};
ghost use Rattle.json_read.specs.DistinctNames.{HasDistinctFieldNames};
ghost use Rattle.json_read.specs.JsonLines.{IsLineError, IsJsonReadError, StructRowsAreValid, LineAdded, row_error, spec_is_null_struct, spec_is_struct, line_row, line_rows, spec_json_read_error, value_row};
ghost use Rattle.json_read.specs.JsonSlots.{slot_of};
ghost use Rattle.json_read.specs.LineSplit.{AreFirstLines, lines_of};
ghost use Rattle.json_read.specs.RequiredFields.{has_required_field};
ghost use Rattle.json_read.specs.SlotAdded.{IsPushError, SlotAdded};
ghost use Rattle.json_read.specs.UnsupportedTypes.{unsupported_type};

use crate::builders::new_builder;
use crate::error::{FieldError, JsonReadError, LineError, NewBuilderError, PushLineError};
use crate::error_paths::row_path;
use crate::line_split::line_ends;
use crate::push::push_value;
use crate::required_fields::{check_nulls, requires_values};
use crate::value_error::{PushError, ValueError};
use json::{Error, Scratch, Value};
use nest_any::AnyMutableArray;
use nest_array::AnyArray;
use nest_build::array::MutableArray;
use nest_memory::datatypes::DataType;
use nest_memory::datatypes::physical_type::PhysicalType;
use std::alloc::Global;

/// The array of the first lines of a text, and their extent.
#[derive(Drop)]
pub struct JsonRows {
    /// A slot for each line.
    pub array: AnyArray,
    /// The number of bytes of these lines, with their line feeds.
    pub used: usize,
    /// The number of these lines.
    pub lines: usize,
}

/// Reads lines of JSON as an array of the data type, a slot a line. A line feed ends each line; the last may lack it. The value of a
/// line may not be null if the data type is a struct. A value of a field that is not nullable may not be null, nor may its member be missing.
///
/// # Errors
/// - `Type`: JSON of the type cannot be read. Of several reasons it is the first, a type before its children, these in order.
/// - `Line`: the first invalid line, counted from 0, with its error and the path of the field that the error is in. Of several errors it is
///   the first in the line, `UnexpectedNull` after all others.
/// - `Overflow`: the array or a child array would exceed its maximum size; no later line has been read.
/// - `Memory`: an allocation fails; no later line has been read.
pub fn read_json_lines(
    alloc: Global,
    data_type: &DataType,
    text: &[u8],
) -> Result<AnyArray, JsonReadError>
    ensures supported { OnOk result (unsupported_type (type_of data_type.now) ≡ None) }
    ensures rows { IfOk result (λ a. line_rows (type_of data_type.now) (lines_of text.now) ≡ Ok (slots_of (layout_of a))) }
    ensures valid { IfOk result (λ a. StructRowsAreValid (type_of data_type.now) (slots_of (layout_of a))) }
    ensures same_type { IfOk result (λ a. layout_type (layout_of a) ≡ type_of data_type.now) }
    ensures error { IfErr result (λ e. IsJsonReadError e (type_of data_type.now) (lines_of text.now)) }
{
    match read_first_json_lines(alloc, data_type, text, text.len()) {
        Ok(rows) => {
            let JsonRows {
                array,
                used: _,
                lines: _,
            } = rows;
            Ok(array)
        }
        Err(error) => Err(error),
    }
}

/// Reads at most the first `limit` lines, as `read_json_lines` does. The next line begins after the bytes that were used.
///
/// # Errors
/// Those of `read_json_lines` for these lines.
pub fn read_first_json_lines(
    alloc: Global,
    data_type: &DataType,
    text: &[u8],
    limit: usize,
) -> Result<JsonRows, JsonReadError>
    ensures supported { OnOk result (unsupported_type (type_of data_type.now) ≡ None) }
    ensures rows { IfOk result (λ r. line_rows (type_of data_type.now) (lines_of (take r.used text.now)) ≡ Ok (slots_of (layout_of r.array))) }
    ensures valid { IfOk result (λ r. StructRowsAreValid (type_of data_type.now) (slots_of (layout_of r.array))) }
    ensures lines { IfOk result (λ r. AreFirstLines text.now limit r.used r.lines) }
    ensures same_type { IfOk result (λ r. layout_type (layout_of r.array) ≡ type_of data_type.now) }
    ensures error { IfErr result (λ e. IsJsonReadError e (type_of data_type.now) (take limit (lines_of text.now))) }
{
    match new_builder(alloc, data_type) {
        Err(NewBuilderError::Type(reason)) => Err(JsonReadError::Type(reason)),
        Err(NewBuilderError::Memory) => Err(JsonReadError::Memory),
        Ok(builder) => fill(alloc, data_type, builder, text, limit),
    }
}

/// Reads lines with an empty builder of the data type.
fn fill(
    alloc: Global,
    data_type: &DataType,
    builder: AnyMutableArray,
    text: &[u8],
    limit: usize,
) -> Result<JsonRows, JsonReadError>
    requires typed { builder_type (tree_of builder) ≡ type_of data_type.now }
    requires complete { IsComplete (tree_of builder) }
    requires empty { own_slots (tree_of builder) ≡ [] }
    requires distinct { HasDistinctFieldNames (builder_type (tree_of builder)) }
    ensures rows { IfOk result (λ r. line_rows (builder_type (tree_of builder)) (lines_of (take r.used text.now)) ≡ Ok (slots_of (layout_of r.array))) }
    ensures lines { IfOk result (λ r. AreFirstLines text.now limit r.used r.lines) }
    ensures same_type { IfOk result (λ r. layout_type (layout_of r.array) ≡ builder_type (tree_of builder)) }
    ensures error { IfErr result (λ e. IsJsonReadError e (builder_type (tree_of builder)) (take limit (lines_of text.now))) }
{
    let mut builder = builder;
    match push_lines(alloc, data_type, &mut builder, text, limit) {
        Ok((used, lines)) => {
            let array = MutableArray::as_box(&mut builder);
            drop(builder);
            match array {
                Ok(array) => Ok(JsonRows { array, used, lines }),
                Err(_) => Err(JsonReadError::Memory),
            }
        }
        Err(error) => {
            drop(builder);
            Err(error)
        }
    }
}

/// Adds the first lines to an empty builder of the data type; returns the number of their bytes and their number.
fn push_lines(
    alloc: Global,
    data_type: &DataType,
    builder: &mut AnyMutableArray,
    text: &[u8],
    limit: usize,
) -> Result<(usize, usize), JsonReadError>
    requires typed { builder_type (tree_of builder.old) ≡ type_of data_type.now }
    requires complete { IsComplete (tree_of builder.old) }
    requires empty { own_slots (tree_of builder.old) ≡ [] }
    requires distinct { HasDistinctFieldNames (builder_type (tree_of builder.old)) }
    ensures rows { IfOk result (λ r. line_rows (builder_type (tree_of builder.old)) (lines_of (take r.0 text.now)) ≡ Ok (own_slots (tree_of builder.new))) }
    ensures lines { IfOk result (λ r. AreFirstLines text.now limit r.0 r.1) }
    ensures complete { OnOk result (IsComplete (tree_of builder.new)) }
    ensures same_type { OnOk result (builder_type (tree_of builder.new) ≡ builder_type (tree_of builder.old)) }
    ensures error { IfErr result (λ e. IsJsonReadError e (builder_type (tree_of builder.old)) (take limit (lines_of text.now))) }
{
    let required = requires_values(data_type);
    let mut scratch = Scratch::new(alloc);
    let mut used = 0;
    let mut lines = 0;
    'lines: while lines < limit && used < text.len() {
        let rest = &text[used..];
        let (end, next) = line_ends(rest);
        let line = &rest[..end];
        match push_line(alloc, data_type, required, builder, line, &mut scratch) {
            Ok(()) => {}
            Err(error) => return Err(json_read_error(lines, error)),
        }
        used += next;
        lines += 1;
    }
    Ok((used, lines))
}

/// Adds the slot of a line. `required` says whether a field of the data type is not nullable.
fn push_line(
    alloc: Global,
    data_type: &DataType,
    required: bool,
    builder: &mut AnyMutableArray,
    line: &[u8],
    scratch: &mut Scratch,
) -> Result<(), PushLineError>
    requires typed { builder_type (tree_of builder.old) ≡ type_of data_type.now }
    requires required { required ≡ has_required_field (type_of data_type.now) }
    requires complete { IsComplete (tree_of builder.old) }
    requires distinct { HasDistinctFieldNames (builder_type (tree_of builder.old)) }
    ensures added { OnOk result (LineAdded (line_row (builder_type (tree_of builder.old)) line.now) (tree_of builder.old) (tree_of builder.new)) }
    ensures error { IfErr result (λ e. IsLineError e (line_row (builder_type (tree_of builder.old)) line.now)) }
{
    match Value::from_slice(alloc, line, scratch) {
        Ok(value) => {
            let pushed = push_row(alloc, data_type, required, builder, &value);
            match pushed {
                Ok(()) => {
                    drop(value);
                    Ok(())
                }
                Err(error) => {
                    let failed = row_failure(alloc, data_type, &value, error);
                    drop(value);
                    Err(failed)
                }
            }
        }
        Err(Error::Invalid) => Err(PushLineError::Line(FieldError {
            field: None,
            reason: LineError::InvalidJson,
        })),
        Err(_) => Err(PushLineError::Memory),
    }
}

/// Adds the slot of the value of a line. `required` says whether a field of the data type is not nullable.
fn push_row(
    alloc: Global,
    data_type: &DataType,
    required: bool,
    builder: &mut AnyMutableArray,
    value: &Value<'_>,
) -> Result<(), PushError>
    requires typed { builder_type (tree_of builder.old) ≡ type_of data_type.now }
    requires required { required ≡ has_required_field (type_of data_type.now) }
    requires complete { IsComplete (tree_of builder.old) }
    requires distinct { HasDistinctFieldNames (builder_type (tree_of builder.old)) }
    ensures added { OnOk result (SlotAdded (slot_of (builder_type (tree_of builder.old)) (value_view value.now)) (tree_of builder.old) (tree_of builder.new)) }
    ensures valid { OnOk result (row_error (builder_type (tree_of builder.old)) (value_view value.now) ≡ None) }
    ensures error { IfErr result (λ e. IsPushError e (row_error (builder_type (tree_of builder.old)) (value_view value.now))) }
{
    if is_null_struct(builder, value) {
        return Err(PushError::Value(ValueError::WrongType));
    }
    match push_value(alloc, builder, value) {
        Ok(()) => check_nulls(data_type, required, value),
        Err(error) => Err(error),
    }
}

// Returns whether the value is a null struct.
fn is_null_struct(builder: &AnyMutableArray, value: &Value<'_>) -> bool
    ensures { result ≡ spec_is_null_struct (builder_type (tree_of builder.now)) (value_view value.now) }
{
    value.is_null() && is_struct(builder.data_type().to_physical_type())
}

// Returns whether the type is a struct.
fn is_struct(kind: PhysicalType) -> bool
    ensures { result ≡ spec_is_struct kind }
{
    matches!(kind, PhysicalType::Struct)
}

// Converts the error of a value to that of its line, with the path of its field.
fn row_failure(
    alloc: Global,
    data_type: &DataType,
    value: &Value<'_>,
    error: PushError,
) -> PushLineError
    requires distinct { HasDistinctFieldNames (type_of data_type.now) }
    requires error { IsPushError error (row_error (type_of data_type.now) (value_view value.now)) }
    ensures { IsLineError result (value_row (type_of data_type.now) (Some (value_view value.now))) }
{
    match error {
        PushError::Value(reason) => match row_path(alloc, data_type, value) {
            Ok(field) => PushLineError::Line(FieldError {
                field,
                reason: LineError::Value(reason),
            }),
            Err(PushError::Memory) => PushLineError::Memory,
            Err(_) => PushLineError::Overflow,
        },
        PushError::Overflow => PushLineError::Overflow,
        PushError::Memory => PushLineError::Memory,
    }
}

// Adds the number of the line to its error.
fn json_read_error(line: usize, error: PushLineError) -> JsonReadError
    ensures { result ≡ spec_json_read_error line error }
{
    match error {
        PushLineError::Line(error) => JsonReadError::Line { line, error },
        PushLineError::Overflow => JsonReadError::Overflow,
        PushLineError::Memory => JsonReadError::Memory,
    }
}

//! Conditions on the rows of a schema: their errors, and their columns by index.
ghost use Rattle.std.specs.Prelude.{◌≡◌, map, option_map};
ghost use Rattle.nest_memory.specs.TypeOf.{field_of, type_of};
ghost use Rattle.cli_args.specs.ConditionTrees.{condition_tree, literal_tree};
ghost use Rattle.cli_rows.specs.Conditions.{spec_is_boolean};
ghost use Rattle.cli_rows.specs.ConditionErrors.{resolved_condition, resolved_literal, spec_boolean_error, spec_column_error, spec_comparison_error, spec_condition_error, spec_field_kind, spec_literal_error};

use crate::columns::{column_field, resolve_column};
use crate::error::ColumnError;
use crate::select::{ValueKind, accepts, column_kind, number_of_text};
use cli_args::{Condition, Literal};
use nest_memory::datatypes::physical_type::PhysicalType;
use nest_memory::datatypes::{DataType, Field};

fn is_boolean(data_type: &DataType) -> bool
    ensures { result ≡ spec_is_boolean (type_of data_type.now) }
{
    matches!(data_type.to_physical_type(), PhysicalType::Boolean)
}

/// Returns why a field is not a boolean column.
fn boolean_error(position: usize, field: Option<&Field>) -> Option<ColumnError>
    ensures { result ≡ spec_boolean_error position (option_map (λ f. field_of f.now) field.entry) }
{
    match field {
        None => Some(ColumnError::UnknownColumn(position)),
        Some(field) => {
            if is_boolean(field.data_type()) {
                None
            } else {
                Some(ColumnError::NotBoolean(position))
            }
        }
    }
}

/// Returns why there is no column.
fn column_error(position: usize, field: Option<&Field>) -> Option<ColumnError>
    ensures { result ≡ spec_column_error position (option_map (λ f. field_of f.now) field.entry) }
{
    match field {
        None => Some(ColumnError::UnknownColumn(position)),
        Some(_) => None,
    }
}

/// Returns the error of a literal that values of a kind are not compared with.
fn literal_error(position: usize, literal: &Literal, kind: ValueKind) -> ColumnError
    ensures { result ≡ spec_literal_error position (literal_tree literal.now) kind }
{
    match (literal, kind) {
        (Literal::String(_), ValueKind::Temporal(_)) => ColumnError::InvalidText(position),
        _ => ColumnError::OtherLiteral(position),
    }
}

/// Returns why the values of a field are not compared with a literal.
fn comparison_error(
    position: usize,
    literal: &Literal,
    field: Option<&Field>,
) -> Option<ColumnError>
    ensures { result ≡ spec_comparison_error position (literal_tree literal.now) (option_map (λ f. field_of f.now) field.entry) }
{
    match field {
        None => Some(ColumnError::UnknownColumn(position)),
        Some(field) => match column_kind(field.data_type()) {
            None => Some(ColumnError::NotComparable(position)),
            Some(kind) => {
                if accepts(kind, literal) {
                    None
                } else {
                    Some(literal_error(position, literal, kind))
                }
            }
        },
    }
}

/// Returns the first error in the text of a condition for a schema, whatever its rows.
pub fn condition_error(condition: &Condition, fields: &[Field]) -> Option<ColumnError>
    ensures { result ≡ spec_condition_error (condition_tree condition.now) (map field_of fields.now) }
{
    match condition {
        Condition::IsTrue(column, position) => {
            boolean_error(*position, column_field(column, fields))
        }
        Condition::IsNull(column, position) => {
            column_error(*position, column_field(column, fields))
        }
        Condition::Compare(column, position, _, literal) => {
            comparison_error(*position, literal, column_field(column, fields))
        }
        Condition::Not(inner) => condition_error(inner, fields),
        Condition::And(left, right) => {
            condition_error(left, fields).or(condition_error(right, fields))
        }
        Condition::Or(left, right) => {
            condition_error(left, fields).or(condition_error(right, fields))
        }
    }
}

/// Returns the kind of the values of a field.
fn field_kind(field: Option<&Field>) -> Option<ValueKind>
    ensures { result ≡ spec_field_kind (option_map (λ f. field_of f.now) field.entry) }
{
    match field {
        None => None,
        Some(field) => column_kind(field.data_type()),
    }
}

/// Replaces the text of a date or a time by the number that it is compared as.
fn resolve_literal(literal: &mut Literal, kind: Option<ValueKind>)
    ensures { literal_tree literal.new ≡ resolved_literal kind (literal_tree literal.old) }
{
    if let Some(ValueKind::Temporal(temporal)) = kind {
        if let Literal::String(text) = literal {
            if let Some(number) = number_of_text(temporal, text) {
                *literal = Literal::Number(number);
            }
        }
    }
}

/// Replaces each name by the index of its first field, if there is one, and the texts of dates and times by numbers.
pub fn resolve_condition(condition: &mut Condition, fields: &[Field])
    ensures { condition_tree condition.new ≡ resolved_condition (map field_of fields.now) (condition_tree condition.old) }
{
    match condition {
        Condition::IsTrue(column, _) => resolve_column(column, fields),
        Condition::IsNull(column, _) => resolve_column(column, fields),
        Condition::Compare(column, _, _, literal) => {
            resolve_literal(literal, field_kind(column_field(column, fields)));
            resolve_column(column, fields);
        }
        Condition::Not(inner) => resolve_condition(inner, fields),
        Condition::And(left, right) => {
            resolve_condition(left, fields);
            resolve_condition(right, fields);
        }
        Condition::Or(left, right) => {
            resolve_condition(left, fields);
            resolve_condition(right, fields);
        }
    }
}

//! Kinds of values that are compared with literals.
ghost use Rattle.std.specs.Prelude.{◌≡◌, option_map};
ghost use Rattle.nest_memory.specs.TypeOf.{type_of};
ghost use Rattle.nest_memory.specs.TypeTree.{value_type};
ghost use Rattle.cli_args.specs.ConditionTrees.{literal_tree};
ghost use Rattle.cli_rows.specs.Kinds.{spec_accepts, spec_column_kind, spec_value_kind};

use crate::select::time_literals::{TemporalKind, number_of_text};
use cli_args::Literal;
use nest_memory::datatypes::floats::{Precision, precision_of};
use nest_memory::datatypes::{DataType, TimeUnit};

/// A kind of values.
#[derive(Clone, Copy, Debug, PartialEq, Eq)]
pub enum ValueKind {
    /// Numbers, by the number of their digits after the decimal point.
    Number(usize),
    /// Floating-point numbers of a precision, as their bits.
    Float(Precision),
    /// Dates and times.
    Temporal(TemporalKind),
    /// Strings.
    String,
    /// Booleans.
    Boolean,
}

/// Returns the kind of the values of a type, or `None` if they are not compared. Those of a dictionary are not.
fn value_kind(data_type: &DataType) -> Option<ValueKind>
    ensures { result ≡ spec_value_kind (type_of data_type.now) }
{
    match data_type {
        DataType::Boolean => Some(ValueKind::Boolean),
        DataType::Int8
        | DataType::Int16
        | DataType::Int32
        | DataType::Int64
        | DataType::UInt8
        | DataType::UInt16
        | DataType::UInt32
        | DataType::UInt64
        | DataType::Duration(_) => Some(ValueKind::Number(0)),
        DataType::Decimal(_, scale) => Some(ValueKind::Number(*scale)),
        DataType::Date32 => Some(ValueKind::Temporal(TemporalKind::Date)),
        DataType::Date64 => Some(ValueKind::Temporal(TemporalKind::Timestamp(
            TimeUnit::Millisecond,
            false,
        ))),
        DataType::Time32(unit) | DataType::Time64(unit) => {
            Some(ValueKind::Temporal(TemporalKind::Time(*unit)))
        }
        DataType::Timestamp(unit, zone) => Some(ValueKind::Temporal(TemporalKind::Timestamp(
            *unit,
            zone.is_some(),
        ))),
        DataType::Utf8 | DataType::LargeUtf8 => Some(ValueKind::String),
        DataType::Extension(_, inner, _) => match precision_of(data_type) {
            Some(precision) => Some(ValueKind::Float(precision)),
            None => value_kind(inner),
        },
        _ => None,
    }
}

/// Returns the kind of the values of a dictionary, or `None` of any other type.
fn dictionary_kind(data_type: &DataType) -> Option<Option<ValueKind>>
    ensures { result ≡ option_map spec_value_kind (value_type (type_of data_type.now)) }
{
    match data_type {
        DataType::Dictionary(_, values, _) => Some(value_kind(values)),
        DataType::Extension(_, inner, _) => dictionary_kind(inner),
        _ => None,
    }
}

/// Returns the kind of the values of a column, or `None` if they are not compared.
pub fn column_kind(data_type: &DataType) -> Option<ValueKind>
    ensures { result ≡ spec_column_kind (type_of data_type.now) }
{
    match dictionary_kind(data_type) {
        Some(kind) => kind,
        None => value_kind(data_type),
    }
}

/// Returns whether values of a kind are compared with a literal.
pub fn accepts(kind: ValueKind, literal: &Literal) -> bool
    ensures { result ≡ spec_accepts kind (literal_tree literal.now) }
{
    match (kind, literal) {
        (ValueKind::Number(_), Literal::Number(_)) => true,
        (ValueKind::Float(_), Literal::Number(_)) => true,
        (ValueKind::Temporal(_), Literal::Number(_)) => true,
        (ValueKind::Temporal(temporal), Literal::String(text)) => {
            number_of_text(temporal, text).is_some()
        }
        (ValueKind::String, Literal::String(_)) => true,
        (ValueKind::Boolean, Literal::Boolean(_)) => true,
        _ => false,
    }
}

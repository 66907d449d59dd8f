//! Values of arrays, compared with literals.
ghost use Rattle.std.specs.Prelude.{◌≡◌, ◌<◌, Some, not, option_map, string_bytes, true};
ghost use Rattle.std.specs.Option.{option_and_then};
ghost use Rattle.std.specs.Cmp.Lexicographic.{slice_cmp};
ghost use Rattle.std.specs.Ordering.{bool_cmp, nat_cmp};
ghost use Rattle.nest_model.specs.Layout.{layout_type};
ghost use Rattle.nest_model.specs.Meaning.{len, slot};
ghost use Rattle.nest_model.specs.Slot as slots;
ghost use Rattle.nest_flat.specs.AnyNative.{native_numbers};
ghost use Rattle.nest_flat.specs.AnyPrimitive.{primitive_layout};
ghost use Rattle.nest_array.specs.Seen.{layout_of};
ghost use Rattle.nest_memory.specs.Physical.{physical_type};
ghost use Rattle.cli_args.specs.ConditionTrees.{literal_tree, number_tree};
ghost use Rattle.cli_rows.specs.Comparisons.{boolean_of, integer_of, spec_number_order, spec_order, spec_ordered, string_of};
ghost use Rattle.cli_rows.specs.Conditions.{is_valid, spec_compared, truth_of};
ghost use Rattle.cli_rows.specs.Kinds.{spec_column_kind, spec_has_kind};
ghost use Rattle.cli_rows.specs.TimeLiterals.{spec_number_of_text};
ghost use Rattle.cli_rows.specs.declared.select.kinds.ValueKind.TheVariants as kinds;

use crate::select::decimals::order_of_decimals;
use crate::select::floats::float_order;
use crate::select::kinds::{ValueKind, column_kind};
use crate::select::time_literals::{TemporalKind, number_of_text};
use crate::select::truth::holds_of;
use cli_args::{Comparison, Literal, NumberLiteral};
use nest_array::AnyArray;
use nest_flat::any_native::AnyNative;
use nest_flat::any_primitive::AnyPrimitive;
use nest_flat::utf8::Utf8Array;
use nest_memory::offset::Offset;
use std::cmp::Ordering;

/// Returns a native value of one number.
fn integer(value: AnyNative) -> Option<i128>
    ensures { result ≡ integer_of (slots.number (native_numbers value)) }
{
    match value {
        AnyNative::Int8(x) => Some(x as i128),
        AnyNative::Int16(x) => Some(x as i128),
        AnyNative::Int32(x) => Some(x as i128),
        AnyNative::Int64(x) => Some(x as i128),
        AnyNative::Int128(x) => Some(x),
        AnyNative::UInt8(x) => Some(x as i128),
        AnyNative::UInt16(x) => Some(x as i128),
        AnyNative::UInt32(x) => Some(x as i128),
        AnyNative::UInt64(x) => Some(x as i128),
        AnyNative::Int256(_) => None,
        AnyNative::DaysMs(_) => None,
        AnyNative::MonthDayNano(_) => None,
    }
}

/// Returns slot `i` if it is of one number.
fn integer_at(array: &AnyPrimitive, i: usize) -> Option<i128>
    requires { i < len (primitive_layout array.now) }
    ensures { result ≡ integer_of (slot (primitive_layout array.now) i) }
{
    if array.is_null(i) {
        return None;
    }
    array.known();
    integer(array.value(i))
}

/// Compares slot `i`, with so many digits after the decimal point, with a number.
fn order_of_number(
    array: &AnyPrimitive,
    i: usize,
    digits: usize,
    literal: &NumberLiteral,
) -> Option<Ordering>
    requires { i < len (primitive_layout array.now) }
    ensures { result ≡ spec_number_order digits (slot (primitive_layout array.now) i) (number_tree literal.now) }
{
    match integer_at(array, i) {
        None => None,
        Some(value) => Some(order_of_decimals(
            value,
            digits,
            literal.value,
            literal.digits as usize,
        )),
    }
}

/// Compares the number in slot `i` with a literal.
fn number_order(
    array: &AnyArray,
    i: usize,
    digits: usize,
    literal: &NumberLiteral,
) -> Option<Ordering>
    requires within { i < len (layout_of array.now) }
    requires kind { spec_has_kind (kinds.Number digits) (physical_type (layout_type (layout_of array.now))) ≡ true }
    ensures { result ≡ spec_number_order digits (slot (layout_of array.now) i) (number_tree literal.now) }
{
    match array.as_any_primitive() {
        None => unreachable!(),
        Some(numbers) => order_of_number(numbers, i, digits, literal),
    }
}

/// Compares the date or time in slot `i`, as a number of days or units, with a number.
fn temporal_order(
    array: &AnyArray,
    i: usize,
    kind: TemporalKind,
    literal: &NumberLiteral,
) -> Option<Ordering>
    requires within { i < len (layout_of array.now) }
    requires kind { spec_has_kind (kinds.Temporal kind) (physical_type (layout_type (layout_of array.now))) ≡ true }
    ensures { result ≡ spec_number_order 0 (slot (layout_of array.now) i) (number_tree literal.now) }
{
    match array.as_any_primitive() {
        None => unreachable!(),
        Some(numbers) => order_of_number(numbers, i, 0, literal),
    }
}

/// Compares the date or time in slot `i` with a text.
fn temporal_text_order(
    array: &AnyArray,
    i: usize,
    kind: TemporalKind,
    text: &String,
) -> Option<Ordering>
    requires within { i < len (layout_of array.now) }
    requires kind { spec_has_kind (kinds.Temporal kind) (physical_type (layout_type (layout_of array.now))) ≡ true }
    ensures { result ≡ option_and_then (spec_number_order 0 (slot (layout_of array.now) i)) (spec_number_of_text kind (string_bytes text.now)) }
{
    match number_of_text(kind, text) {
        None => None,
        Some(number) => temporal_order(array, i, kind, &number),
    }
}

/// Compares string `i` with a literal.
fn order_at<O: Offset>(strings: &Utf8Array<O>, i: usize, literal: &String) -> Option<Ordering>
    requires { i < len strings.now }
    ensures { result ≡ option_map (λ cs. slice_cmp nat_cmp cs (string_bytes literal.now)) (string_of (slot strings.now i)) }
{
    match strings.get(i) {
        None => None,
        Some(value) => Some(value.cmp(literal.as_str())),
    }
}

/// Compares the string in slot `i` with a literal.
fn string_order(array: &AnyArray, i: usize, literal: &String) -> Option<Ordering>
    requires within { i < len (layout_of array.now) }
    requires kind { spec_has_kind kinds.String (physical_type (layout_type (layout_of array.now))) ≡ true }
    ensures { result ≡ option_map (λ cs. slice_cmp nat_cmp cs (string_bytes literal.now)) (string_of (slot (layout_of array.now) i)) }
{
    if let Some(strings) = array.as_utf8() {
        return order_at(strings, i, literal);
    }
    match array.as_large_utf8() {
        None => unreachable!(),
        Some(strings) => order_at(strings, i, literal),
    }
}

/// Returns slot `i` if it is a boolean.
pub fn boolean_at(array: &AnyArray, i: usize) -> Option<bool>
    requires { i < len (layout_of array.now) }
    ensures { result ≡ truth_of (layout_type (layout_of array.now), slot (layout_of array.now) i) }
{
    match array.as_boolean() {
        None => None,
        Some(booleans) => booleans.get(i),
    }
}

/// Compares the boolean in slot `i` with a literal.
fn boolean_order(array: &AnyArray, i: usize, literal: bool) -> Option<Ordering>
    requires within { i < len (layout_of array.now) }
    requires kind { spec_has_kind kinds.Boolean (physical_type (layout_type (layout_of array.now))) ≡ true }
    ensures { result ≡ option_map (λ c. bool_cmp c literal) (boolean_of (slot (layout_of array.now) i)) }
{
    match boolean_at(array, i) {
        None => None,
        Some(value) => Some(value.cmp(&literal)),
    }
}

/// Returns the order of values that are always ordered, if there is one.
fn ordered(order: Option<Ordering>) -> Option<Option<Ordering>>
    ensures { result ≡ spec_ordered order }
{
    match order {
        None => None,
        Some(order) => Some(Some(order)),
    }
}

/// Compares slot `i` of an array of a kind with a literal. Returns `None` if it is null, or the literal of another kind, and `Some(None)`
/// if the two are not ordered.
fn order_of_kind(
    array: &AnyArray,
    i: usize,
    kind: ValueKind,
    literal: &Literal,
) -> Option<Option<Ordering>>
    requires within { i < len (layout_of array.now) }
    requires kind { spec_has_kind kind (physical_type (layout_type (layout_of array.now))) ≡ true }
    ensures { result ≡ spec_order (Some kind) (literal_tree literal.now) (slot (layout_of array.now) i) }
{
    match (kind, literal) {
        (ValueKind::Number(digits), Literal::Number(number)) => {
            ordered(number_order(array, i, digits, number))
        }
        (ValueKind::Float(precision), Literal::Number(number)) => {
            float_order(array, i, precision, number)
        }
        (ValueKind::Temporal(temporal), Literal::Number(number)) => {
            ordered(temporal_order(array, i, temporal, number))
        }
        (ValueKind::Temporal(temporal), Literal::String(text)) => {
            ordered(temporal_text_order(array, i, temporal, text))
        }
        (ValueKind::String, Literal::String(string)) => ordered(string_order(array, i, string)),
        (ValueKind::Boolean, Literal::Boolean(boolean)) => {
            ordered(boolean_order(array, i, *boolean))
        }
        _ => None,
    }
}

/// Compares slot `i` with a literal, in a dictionary the value at its key.
fn order(array: &AnyArray, i: usize, literal: &Literal) -> Option<Option<Ordering>>
    requires { i < len (layout_of array.now) }
    ensures { result ≡ spec_order (spec_column_kind (layout_type (layout_of array.now))) (literal_tree literal.now) (slot (layout_of array.now) i) }
{
    let Some(kind) = column_kind(array.data_type()) else {
        return None;
    };
    array.known();
    match array.as_dictionary() {
        None => order_of_kind(array, i, kind, literal),
        Some(dictionary) => {
            dictionary.known();
            if dictionary.is_null(i) {
                return None;
            }
            order_of_kind(dictionary.values(), dictionary.key_value(i), kind, literal)
        }
    }
}

/// Returns whether slot `i` compares so with a literal. Returns `None` if it is null, or of another kind.
pub fn compared(
    array: &AnyArray,
    i: usize,
    comparison: Comparison,
    literal: &Literal,
) -> Option<bool>
    requires { i < len (layout_of array.now) }
    ensures { result ≡ spec_compared comparison (literal_tree literal.now) (layout_type (layout_of array.now), slot (layout_of array.now) i) }
{
    match order(array, i, literal) {
        None => None,
        Some(order) => Some(holds_of(comparison, order)),
    }
}

/// Returns whether slot `i` is null.
pub fn is_null(array: &AnyArray, i: usize) -> bool
    requires { i < len (layout_of array.now) }
    ensures { result ≡ not (is_valid (slot (layout_of array.now) i)) }
{
    array.known();
    match array.as_dictionary() {
        None => array.is_null(i),
        Some(dictionary) => {
            dictionary.known();
            if dictionary.is_null(i) {
                return true;
            }
            is_null(dictionary.values(), dictionary.key_value(i))
        }
    }
}

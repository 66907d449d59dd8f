//! Floating-point numbers compared with literals.
ghost use Rattle.std.specs.Prelude.{◌≡◌, ◌<◌, from_bits, option_map, true};
ghost use Rattle.std.specs.Float.Ieee.{binary32, binary64};
ghost use Rattle.std.specs.Ordering.{float_partial_cmp};
ghost use Rattle.nest_memory.specs.Physical.{physical_type};
ghost use Rattle.nest_memory.specs.declared.datatypes.floats.Precision.TheVariants as precisions;
ghost use Rattle.nest_model.specs.Layout.{layout_type};
ghost use Rattle.nest_model.specs.Meaning.{len, slot};
ghost use Rattle.nest_array.specs.Seen.{layout_of};
ghost use Rattle.cli_args.specs.ConditionTrees.{number_tree};
ghost use Rattle.cli_rows.specs.Comparisons.{integer_of, spec_float_order};
ghost use Rattle.cli_rows.specs.Kinds.{spec_has_kind};
ghost use Rattle.cli_rows.specs.declared.select.kinds.ValueKind.TheVariants as kinds;

use cli_args::NumberLiteral;
use float_text::single_of_half;
use nest_array::AnyArray;
use nest_memory::datatypes::floats::Precision;
use std::cmp::Ordering;
use std::num::{f32_from_bits_with_nan, f64_from_bits_with_nan};

fn order_of_singles(left: u32, right: u32) -> Option<Ordering>
    ensures { result ≡ float_partial_cmp (from_bits binary32 left) (from_bits binary32 right) }
{
    f32_from_bits_with_nan(left).partial_cmp(&f32_from_bits_with_nan(right))
}

fn order_of_doubles(left: u64, right: u64) -> Option<Ordering>
    ensures { result ≡ float_partial_cmp (from_bits binary64 left) (from_bits binary64 right) }
{
    f64_from_bits_with_nan(left).partial_cmp(&f64_from_bits_with_nan(right))
}

/// Compares the half-precision number in slot `i` with a literal.
fn half_order(array: &AnyArray, i: usize, literal: &NumberLiteral) -> Option<Option<Ordering>>
    requires within { i < len (layout_of array.now) }
    requires kind { spec_has_kind (kinds.Float precisions.Half) (physical_type (layout_type (layout_of array.now))) ≡ true }
    ensures { result ≡ option_map (spec_float_order precisions.Half (number_tree literal.now)) (integer_of (slot (layout_of array.now) i)) }
{
    match array.as_primitive::<u16>() {
        None => unreachable!(),
        Some(halves) => match halves.get(i) {
            None => None,
            Some(bits) => Some(order_of_singles(single_of_half(bits), literal.single)),
        },
    }
}

/// Compares the single-precision number in slot `i` with a literal.
fn single_order(array: &AnyArray, i: usize, literal: &NumberLiteral) -> Option<Option<Ordering>>
    requires within { i < len (layout_of array.now) }
    requires kind { spec_has_kind (kinds.Float precisions.Single) (physical_type (layout_type (layout_of array.now))) ≡ true }
    ensures { result ≡ option_map (spec_float_order precisions.Single (number_tree literal.now)) (integer_of (slot (layout_of array.now) i)) }
{
    match array.as_primitive::<u32>() {
        None => unreachable!(),
        Some(singles) => match singles.get(i) {
            None => None,
            Some(bits) => Some(order_of_singles(bits, literal.single)),
        },
    }
}

/// Compares the double-precision number in slot `i` with a literal.
fn double_order(array: &AnyArray, i: usize, literal: &NumberLiteral) -> Option<Option<Ordering>>
    requires within { i < len (layout_of array.now) }
    requires kind { spec_has_kind (kinds.Float precisions.Double) (physical_type (layout_type (layout_of array.now))) ≡ true }
    ensures { result ≡ option_map (spec_float_order precisions.Double (number_tree literal.now)) (integer_of (slot (layout_of array.now) i)) }
{
    match array.as_primitive::<u64>() {
        None => unreachable!(),
        Some(doubles) => match doubles.get(i) {
            None => None,
            Some(bits) => Some(order_of_doubles(bits, literal.double)),
        },
    }
}

/// Compares the floating-point number in slot `i` with a literal. Returns `None` if it is null, and `Some(None)` if it is NaN.
pub fn float_order(
    array: &AnyArray,
    i: usize,
    precision: Precision,
    literal: &NumberLiteral,
) -> Option<Option<Ordering>>
    requires within { i < len (layout_of array.now) }
    requires kind { spec_has_kind (kinds.Float precision) (physical_type (layout_type (layout_of array.now))) ≡ true }
    ensures { result ≡ option_map (spec_float_order precision (number_tree literal.now)) (integer_of (slot (layout_of array.now) i)) }
{
    match precision {
        Precision::Half => half_order(array, i, literal),
        Precision::Single => single_order(array, i, literal),
        Precision::Double => double_order(array, i, literal),
    }
}

//! The truth of conditions in the rows of an array.
ghost use Rattle.std.specs.Prelude.{◌≡◌, ◌<◌, IfOk};
ghost use Rattle.nest_memory.specs.TypeTree.{fields_of};
ghost use Rattle.nest_model.specs.Accessors.{children_of};
ghost use Rattle.nest_model.specs.Layout.{layout_type};
ghost use Rattle.nest_model.specs.Meaning.{each, len, slot};
ghost use Rattle.nest_array.specs.Seen.{layout_of};
ghost use Rattle.cli_args.specs.ConditionTrees.{condition_tree};
ghost use Rattle.cli_rows.specs.Conditions.{is_true_in, spec_truth, true_indices};
ghost use Rattle.cli_rows.specs.Rows.{rows_of};

use crate::select::columns::column_of;
use crate::select::truth::{and, negate, or};
use crate::select::values::{boolean_at, compared, is_null};
use cli_args::Condition;
use nest_array::{AnyArray, StructArray};
use std::alloc::{AllocError, Global};

/// Returns the truth of a condition in record `i`, as if it were valid.
fn truth(condition: &Condition, records: &StructArray, i: usize) -> Option<bool>
    requires { i < len records.now }
    ensures { result ≡ spec_truth (condition_tree condition.now) (fields_of (layout_type records.now)) (each (children_of records.now) i) }
{
    match condition {
        Condition::IsTrue(column, _) => match column_of(records, column) {
            None => None,
            Some(values) => boolean_at(values, i),
        },
        Condition::IsNull(column, _) => match column_of(records, column) {
            None => None,
            Some(values) => Some(is_null(values, i)),
        },
        Condition::Compare(column, _, comparison, literal) => match column_of(records, column) {
            None => None,
            Some(values) => compared(values, i, *comparison, literal),
        },
        Condition::Not(inner) => negate(truth(inner, records, i)),
        Condition::And(left, right) => and(truth(left, records, i), truth(right, records, i)),
        Condition::Or(left, right) => or(truth(left, records, i), truth(right, records, i)),
    }
}

/// Returns whether a condition is true in row `i`.
pub fn is_true_at(array: &AnyArray, condition: &Condition, i: usize) -> bool
    requires { i < len (layout_of array.now) }
    ensures { result ≡ is_true_in (condition_tree condition.now) (layout_type (layout_of array.now), slot (layout_of array.now) i) }
{
    let Some(records) = array.as_struct() else {
        return false;
    };
    records.known();
    if records.is_null(i) {
        return false;
    }
    truth(condition, records, i).unwrap_or(false)
}

/// Returns the indices of the rows where a condition is true.
pub fn true_rows(
    alloc: Global,
    array: &AnyArray,
    condition: &Condition,
) -> Result<Vec<usize>, AllocError>
    ensures { IfOk result (λ v. v.items ≡ true_indices (condition_tree condition.now) (rows_of (layout_of array.now))) }
{
    let mut indices = Vec::new(alloc);
    for i in 0..array.len() {
        if is_true_at(array, condition, i) {
            indices.push(i)?;
        }
    }
    Ok(indices)
}

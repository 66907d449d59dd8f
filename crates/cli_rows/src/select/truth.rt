//! Truth as in SQL: true, false, or `None` where it is unknown.
ghost use Rattle.std.specs.Prelude.{◌≡◌};
ghost use Rattle.cli_rows.specs.Comparisons.{spec_holds, spec_holds_of};
ghost use Rattle.cli_rows.specs.Truth.{truth_and, truth_not, truth_or};

use cli_args::Comparison;
use std::cmp::Ordering;

/// Returns the negation.
pub fn negate(truth: Option<bool>) -> Option<bool>
    ensures { result ≡ truth_not truth }
{
    match truth {
        None => None,
        Some(b) => Some(!b),
    }
}

/// Returns the conjunction.
pub fn and(left: Option<bool>, right: Option<bool>) -> Option<bool>
    ensures { result ≡ truth_and left right }
{
    match (left, right) {
        (Some(false), _) | (_, Some(false)) => Some(false),
        (Some(true), Some(true)) => Some(true),
        _ => None,
    }
}

/// Returns the disjunction.
pub fn or(left: Option<bool>, right: Option<bool>) -> Option<bool>
    ensures { result ≡ truth_or left right }
{
    match (left, right) {
        (Some(true), _) | (_, Some(true)) => Some(true),
        (Some(false), Some(false)) => Some(false),
        _ => None,
    }
}

/// Returns whether a comparison holds of two values in this order.
fn holds(comparison: Comparison, order: Ordering) -> bool
    ensures { result ≡ spec_holds comparison order }
{
    match comparison {
        Comparison::Equal => order.is_eq(),
        Comparison::NotEqual => order.is_ne(),
        Comparison::Less => order.is_lt(),
        Comparison::LessOrEqual => order.is_le(),
        Comparison::Greater => order.is_gt(),
        Comparison::GreaterOrEqual => order.is_ge(),
    }
}

/// Returns whether a comparison holds of two values. `None` is the order of two that are not ordered, as with NaN.
pub fn holds_of(comparison: Comparison, order: Option<Ordering>) -> bool
    ensures { result ≡ spec_holds_of comparison order }
{
    match order {
        Some(order) => holds(comparison, order),
        None => matches!(comparison, Comparison::NotEqual),
    }
}

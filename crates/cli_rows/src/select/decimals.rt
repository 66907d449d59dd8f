//! Decimal numbers compared exactly.
ghost use Rattle.std.specs.Prelude.{◌≡◌, ◌^◌, ◌*ℤ◌, pos};
ghost use Rattle.std.specs.Ordering.{int_cmp};
ghost use Rattle.cli_rows.specs.Comparisons.{decimal_cmp};

use std::cmp::Ordering;

/// Compares a number times 10^`digits` with another number.
fn order_scaled(value: i128, digits: usize, other: i128) -> Ordering
    ensures { result ≡ int_cmp (value *ℤ pos (10 ^ digits)) other }
{
    if digits == 0 || value == 0 {
        return value.cmp(&other);
    }
    match value.checked_mul(10) {
        Some(scaled) => order_scaled(scaled, digits - 1, other),
        None if value < 0 => Ordering::Less,
        None => Ordering::Greater,
    }
}

/// Compares `value` / 10^`digits` with `other` / 10^`other_digits`.
pub fn order_of_decimals(value: i128, digits: usize, other: i128, other_digits: usize) -> Ordering
    ensures { result ≡ decimal_cmp value digits other other_digits }
{
    if digits <= other_digits {
        order_scaled(value, other_digits - digits, other)
    } else {
        order_scaled(other, digits - other_digits, value).reverse()
    }
}

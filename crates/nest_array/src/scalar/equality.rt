//! Equality of scalars: equal data types and equal slots. It does not allocate.
ghost use Rattle.std.specs.Prelude.{◌≡◌, ◌↔◌, IsTrue};
ghost use Rattle.nest_array.specs.ScalarParts.{IsSameScalar, same_scalar, slots_in, types_in};

use crate::equal::equal;
use crate::scalar::{AnyScalar, ScalarValue};

impl PartialEq for AnyScalar {
    ghost use Rattle.std.specs.Cmp.{partial_equiv_from_equiv};
    ghost use Rattle.nest_array.specs.ScalarParts.{same_scalar, same_scalar-equiv};

    ghost eq = { same_scalar };

    ghost laws = { partial_equiv_from_equiv same_scalar-equiv };

    fn eq(&self, other: &AnyScalar) -> bool
        ensures computes { result ≡ same_scalar self.now other.now }
        ensures decides { IsTrue result ↔ IsSameScalar self.now other.now }
    {
        are_same(self, other)
    }
}

impl Eq for AnyScalar {
    ghost use Rattle.nest_array.specs.ScalarParts.{same_scalar-equiv};

    ghost laws = { same_scalar-equiv };
}

/// Returns whether two scalars have the same data type and the same slot.
#[cycle(same)]
fn are_same(a: &AnyScalar, b: &AnyScalar) -> bool
    ensures { IsTrue result ↔ IsSameScalar a.now b.now }
{
    a.data_type == b.data_type && same_value(a, b)
}

/// Returns whether two scalars of one data type have the same slot.
#[cycle(same)]
fn same_value(a: &AnyScalar, b: &AnyScalar) -> bool
    requires { a.now.data_type ≡ b.now.data_type }
    ensures { IsTrue result ↔ (a.now.slot ≡ b.now.slot) }
{
    match (&a.value, &b.value) {
        (ScalarValue::Null, ScalarValue::Null) => true,
        (ScalarValue::Boolean(x), ScalarValue::Boolean(y)) => *x == *y,
        (ScalarValue::Native(x), ScalarValue::Native(y)) => x.same_numbers(*y),
        (ScalarValue::Text(x), ScalarValue::Text(y)) => x.as_str() == y.as_str(),
        (ScalarValue::Bytes(x), ScalarValue::Bytes(y)) => x.as_slice() == y.as_slice(),
        (ScalarValue::List(x), ScalarValue::List(y)) => equal(x, y),
        (ScalarValue::Struct(xs), ScalarValue::Struct(ys)) => same_values(xs, ys),
        (ScalarValue::Pick(f, x), ScalarValue::Pick(g, y)) => *f == *g && are_same(x, y),
        _ => false,
    }
}

/// Returns whether scalars of pairwise equal data types have the same slots.
#[cycle(same)]
fn same_values(xs: &[AnyScalar], ys: &[AnyScalar]) -> bool
    requires { types_in xs.now ≡ types_in ys.now }
    ensures { IsTrue result ↔ (slots_in xs.now ≡ slots_in ys.now) }
{
    if xs.len() != ys.len() {
        return false;
    }
    for k in 0..xs.len() {
        if !same_value(&xs[k], &ys[k]) {
            return false;
        }
    }
    true
}

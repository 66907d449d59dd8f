//! Equality of primitive arrays of any native type.
ghost use Rattle.std.specs.Prelude.{◌≡◌, ◌↔◌, ◌+◌, ◌≤◌, IsTrue};
ghost use Rattle.nest_flat.specs.Words.{IsSameArray, layout_type, len, physical_type, primitive_layout, run, same_array, slot, slots_of};

use crate::any_primitive::{AnyPrimitive, NativeArray};
use crate::flat_array;
use nest_memory::types::{days_ms, i256, months_days_ns};

// Matches the common kind of two arrays and evaluates an expression with both.
macro_rules! each_pair {
    ($a:expr, $b:expr, ($x:ident, $y:ident) => $body:expr) => {
        match $a {
            AnyPrimitive::Int8($x) => {
                let $y = i8::of($b);
                $body
            }
            AnyPrimitive::Int16($x) => {
                let $y = i16::of($b);
                $body
            }
            AnyPrimitive::Int32($x) => {
                let $y = i32::of($b);
                $body
            }
            AnyPrimitive::Int64($x) => {
                let $y = i64::of($b);
                $body
            }
            AnyPrimitive::Int128($x) => {
                let $y = i128::of($b);
                $body
            }
            AnyPrimitive::Int256($x) => {
                let $y = i256::of($b);
                $body
            }
            AnyPrimitive::UInt8($x) => {
                let $y = u8::of($b);
                $body
            }
            AnyPrimitive::UInt16($x) => {
                let $y = u16::of($b);
                $body
            }
            AnyPrimitive::UInt32($x) => {
                let $y = u32::of($b);
                $body
            }
            AnyPrimitive::UInt64($x) => {
                let $y = u64::of($b);
                $body
            }
            AnyPrimitive::DaysMs($x) => {
                let $y = days_ms::of($b);
                $body
            }
            AnyPrimitive::MonthDayNano($x) => {
                let $y = months_days_ns::of($b);
                $body
            }
        }
    };
}

/// Returns whether slots `o..o + n` of `a` equal slots `p..p + n` of `b`. Their data types must have one physical
/// type. The kind is matched once for all slots.
pub fn same_run(a: &AnyPrimitive, o: usize, b: &AnyPrimitive, p: usize, n: usize) -> bool
    requires same_kind { physical_type (layout_type (primitive_layout a.now)) ≡ physical_type (layout_type (primitive_layout b.now)) }
    requires within { o + n ≤ len (primitive_layout a.now) }
    requires other_within { p + n ≤ len (primitive_layout b.now) }
    ensures { IsTrue result ↔ (run (slot (primitive_layout a.now)) o n ≡ run (slot (primitive_layout b.now)) p n) }
{
    a.known();
    each_pair!(a, b, (x, y) => flat_array::same_run(x, o, y, p, n))
}

// Returns whether two arrays of one physical type and one length have the same slots.
fn same_slots(a: &AnyPrimitive, b: &AnyPrimitive) -> bool
    requires same_kind { physical_type (layout_type (primitive_layout a.now)) ≡ physical_type (layout_type (primitive_layout b.now)) }
    requires same_len { len (primitive_layout a.now) ≡ len (primitive_layout b.now) }
    ensures { IsTrue result ↔ (slots_of (primitive_layout a.now) ≡ slots_of (primitive_layout b.now)) }
{
    a.known();
    each_pair!(a, b, (x, y) => flat_array::same_slots(x, y))
}

fn same_arrays(a: &AnyPrimitive, b: &AnyPrimitive) -> bool
    ensures { IsTrue result ↔ IsSameArray (primitive_layout a.now) (primitive_layout b.now) }
{
    let same_type = *a.data_type() == *b.data_type();
    if !same_type {
        return false;
    }
    if a.len() != b.len() {
        return false;
    }
    same_slots(a, b)
}

impl PartialEq for AnyPrimitive {
    ghost use Rattle.std.specs.Cmp.{on_equiv, partial_equiv_from_equiv};
    ghost use Rattle.nest_model.specs.SameArray.{same_array};
    ghost use Rattle.nest_flat.specs.AnyPrimitive.{primitive_layout};
    ghost use Rattle.nest_flat.specs.SameFlat.{same_array-equiv};

    ghost eq = { λ a b. same_array (primitive_layout a) (primitive_layout b) };

    ghost laws = { partial_equiv_from_equiv (on_equiv primitive_layout same_array-equiv) };

    fn eq(&self, other: &AnyPrimitive) -> bool
        ensures computes { result ≡ same_array (primitive_layout self.now) (primitive_layout other.now) }
        ensures decides { IsTrue result ↔ IsSameArray (primitive_layout self.now) (primitive_layout other.now) }
    {
        same_arrays(self, other)
    }
}

impl Eq for AnyPrimitive {
    ghost use Rattle.std.specs.Cmp.{on_equiv};
    ghost use Rattle.nest_flat.specs.AnyPrimitive.{primitive_layout};
    ghost use Rattle.nest_flat.specs.SameFlat.{same_array-equiv};

    ghost laws = { on_equiv primitive_layout same_array-equiv };
}

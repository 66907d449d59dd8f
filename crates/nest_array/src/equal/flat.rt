//! Equality of slices of arrays without children, with a count of comparisons.
ghost use Rattle.std.specs.Prelude.{◌≡◌, ◌≢◌, ◌↔◌, ◌+◌, ◌<◌, ◌≤◌, IfNone, IfSome, IsTrue};
ghost use Rattle.nest_flat.specs.AnyPrimitive.{primitive_layout};
ghost use Rattle.nest_flat.specs.BareSlots.{bare};
ghost use Rattle.nest_array.specs.Words.{CountsComparisons, layout_type, len, physical_type, run, slot};

use crate::equal::is_full;
use crate::steps::Steps;
use nest_flat::any_primitive::{AnyPrimitive, NativeArray};
use nest_flat::flat_array::FlatArray;
use nest_flat::primitive::PrimitiveArray;
use nest_memory::types::{NativeType, days_ms, i256, months_days_ns};

/// Returns whether the `n` slots of `a` from index `o` equal those of `b` from index `p`, one by one.
pub(crate) fn each_same_slot<A: FlatArray>(
    a: A,
    o: usize,
    b: A,
    p: usize,
    n: usize,
    steps: &mut Steps,
) -> bool
    requires within { o + n ≤ len (A.layout a) }
    requires other_within { p + n ≤ len (A.layout b) }
    ensures same { IsTrue result ↔ (run (slot (A.layout a)) o n ≡ run (slot (A.layout b)) p n) }
    ensures comparisons { CountsComparisons result steps.old steps.new n }
{
    let _ends = (a.count(), b.count());
    for k in 0..n {
        if !a.is_same_slot(o + k, &b, p + k) {
            steps.add(k as u64 + 1);
            return false;
        }
    }
    steps.add(n as u64);
    true
}

/// Compares `n` raw values of `a` from index `o` with those of `b` from index `p`, by complete blocks of `B` values.
///
/// Returns the number of values in these blocks, `None` if a block differs.
fn same_blocks<A: FlatArray, const B: usize>(
    a: A,
    o: usize,
    b: A,
    p: usize,
    n: usize,
    steps: &mut Steps,
) -> Option<usize>
    requires block { 1 ≤ B }
    requires within { o + n ≤ len (A.layout a) }
    requires other_within { p + n ≤ len (A.layout b) }
    ensures whole { IfSome result (λ m. (m ≤ n) × (n < m + B)) }
    ensures same { IfSome result (λ m. run (slot (bare (A.layout a))) o m ≡ run (slot (bare (A.layout b))) p m) }
    ensures comparisons { IfSome result (λ m. steps.new ≡ steps.old + m) }
    ensures differ { IfNone result (run (slot (bare (A.layout a))) o n ≢ run (slot (bare (A.layout b))) p n) }
    ensures stopped { IfNone result (steps.new ≤ steps.old + n) }
{
    let _ends = (a.count(), b.count());
    let mut done = 0;
    while n - done >= B {
        steps.add(B as u64);
        if !a.same_values(o + done, &b, p + done, B) {
            return None;
        }
        done += B;
    }
    Some(done)
}

/// Returns whether the `n` raw values of `a` from index `o` equal those of `b` from index `p`.
///
/// Compares large blocks, then small blocks, then single values.
fn same_bare<A: FlatArray>(a: A, o: usize, b: A, p: usize, n: usize, steps: &mut Steps) -> bool
    requires within { o + n ≤ len (A.layout a) }
    requires other_within { p + n ≤ len (A.layout b) }
    ensures same { IsTrue result ↔ (run (slot (bare (A.layout a))) o n ≡ run (slot (bare (A.layout b))) p n) }
    ensures comparisons { CountsComparisons result steps.old steps.new n }
{
    let _ends = (a.count(), b.count());
    let Some(large) = same_blocks::<A, 1024>(a, o, b, p, n, steps) else {
        return false;
    };
    let Some(small) = same_blocks::<A, 16>(a, o + large, b, p + large, n - large, steps) else {
        return false;
    };
    let done = large + small;
    same_blocks::<A, 1>(a, o + done, b, p + done, n - done, steps).is_some()
}

/// Returns whether the `n` slots of `a` from index `o` equal those of `b` from index `p`.
///
/// Without nulls it compares blocks of raw values.
fn same_natives<T: NativeType>(
    a: &PrimitiveArray<T>,
    o: usize,
    b: &PrimitiveArray<T>,
    p: usize,
    n: usize,
    steps: &mut Steps,
) -> bool
    requires within { o + n ≤ len a.now }
    requires other_within { p + n ≤ len b.now }
    ensures same { IsTrue result ↔ (run (slot a.now) o n ≡ run (slot b.now) p n) }
    ensures comparisons { CountsComparisons result steps.old steps.new n }
{
    if is_full(a, o, n) && is_full(b, p, n) {
        return same_bare(a, o, b, p, n, steps);
    }
    each_same_slot(a, o, b, p, n, steps)
}

// Evaluates the same expression for two arrays of any native type.
macro_rules! each_pair {
    ($a:expr, $b:expr, ($x:ident, $y:ident) => $body:expr) => {
        match $a {
            AnyPrimitive::Int8($x) => {
                let $y = i8::of($b);
                $body
            }
            AnyPrimitive::Int16($x) => {
                let $y = i16::of($b);
                $body
            }
            AnyPrimitive::Int32($x) => {
                let $y = i32::of($b);
                $body
            }
            AnyPrimitive::Int64($x) => {
                let $y = i64::of($b);
                $body
            }
            AnyPrimitive::Int128($x) => {
                let $y = i128::of($b);
                $body
            }
            AnyPrimitive::Int256($x) => {
                let $y = i256::of($b);
                $body
            }
            AnyPrimitive::UInt8($x) => {
                let $y = u8::of($b);
                $body
            }
            AnyPrimitive::UInt16($x) => {
                let $y = u16::of($b);
                $body
            }
            AnyPrimitive::UInt32($x) => {
                let $y = u32::of($b);
                $body
            }
            AnyPrimitive::UInt64($x) => {
                let $y = u64::of($b);
                $body
            }
            AnyPrimitive::DaysMs($x) => {
                let $y = days_ms::of($b);
                $body
            }
            AnyPrimitive::MonthDayNano($x) => {
                let $y = months_days_ns::of($b);
                $body
            }
        }
    };
}

/// Returns whether the `n` slots of `a` from index `o` equal those of `b` from index `p`, for one physical type.
///
/// The native type is matched once.
pub(crate) fn same_primitives(
    a: &AnyPrimitive,
    o: usize,
    b: &AnyPrimitive,
    p: usize,
    n: usize,
    steps: &mut Steps,
) -> bool
    requires same_kind { physical_type (layout_type (primitive_layout a.now)) ≡ physical_type (layout_type (primitive_layout b.now)) }
    requires within { o + n ≤ len (primitive_layout a.now) }
    requires other_within { p + n ≤ len (primitive_layout b.now) }
    ensures same { IsTrue result ↔ (run (slot (primitive_layout a.now)) o n ≡ run (slot (primitive_layout b.now)) p n) }
    ensures comparisons { CountsComparisons result steps.old steps.new n }
{
    a.known();
    each_pair!(a, b, (x, y) => same_natives(x, o, y, p, n, steps))
}

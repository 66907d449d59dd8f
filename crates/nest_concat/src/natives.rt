//! The values of primitive arrays, by native type.
ghost use Rattle.std.specs.Prelude.{◌≡◌, ◌+◌, ◌<◌, ◌≤◌, ◌^◌, length, map};
ghost use Rattle.nest_memory.specs.declared.datatypes.physical_type.PhysicalType.TheVariants as physical;
ghost use Rattle.nest_array.specs.Seen.{layout_of};
ghost use Rattle.nest_concat.specs.Words.{sublist, layout_type, natives_of, physical_type};

use nest_array::AnyArray;
use nest_memory::types::{NativeType, days_ms, i256, months_days_ns};

/// Returns the `n` values from index `start`.
pub(crate) fn part<T>(values: &[T], start: usize, n: usize) -> &[T]
    requires within { start + n ≤ length values.now }
    requires fits { start + n < 2 ^ 64 }
    ensures { result.now ≡ sublist values.now start n }
{
    let end = start + n;
    &values[start..end]
}

/// A native type and the values of its primitive arrays.
pub(crate) trait Natives: NativeType {
    /// Returns the values, also those under nulls.
    fn values(array: &AnyArray) -> &[Self]
        requires { physical_type (layout_type (layout_of array.now)) ≡ physical.Primitive Self.PRIMITIVE }
        ensures { map Self.numbers result.now ≡ natives_of (layout_of array.now) };
}

impl Natives for i8 {
    fn values(array: &AnyArray) -> &[i8] {
        match array.as_primitive::<i8>() {
            Some(array) => array.values().as_slice(),
            None => unreachable!(),
        }
    }
}

impl Natives for i16 {
    fn values(array: &AnyArray) -> &[i16] {
        match array.as_primitive::<i16>() {
            Some(array) => array.values().as_slice(),
            None => unreachable!(),
        }
    }
}

impl Natives for i32 {
    fn values(array: &AnyArray) -> &[i32] {
        match array.as_primitive::<i32>() {
            Some(array) => array.values().as_slice(),
            None => unreachable!(),
        }
    }
}

impl Natives for i64 {
    fn values(array: &AnyArray) -> &[i64] {
        match array.as_primitive::<i64>() {
            Some(array) => array.values().as_slice(),
            None => unreachable!(),
        }
    }
}

impl Natives for i128 {
    fn values(array: &AnyArray) -> &[i128] {
        match array.as_primitive::<i128>() {
            Some(array) => array.values().as_slice(),
            None => unreachable!(),
        }
    }
}

impl Natives for i256 {
    fn values(array: &AnyArray) -> &[i256] {
        match array.as_primitive::<i256>() {
            Some(array) => array.values().as_slice(),
            None => unreachable!(),
        }
    }
}

impl Natives for u8 {
    fn values(array: &AnyArray) -> &[u8] {
        match array.as_primitive::<u8>() {
            Some(array) => array.values().as_slice(),
            None => unreachable!(),
        }
    }
}

impl Natives for u16 {
    fn values(array: &AnyArray) -> &[u16] {
        match array.as_primitive::<u16>() {
            Some(array) => array.values().as_slice(),
            None => unreachable!(),
        }
    }
}

impl Natives for u32 {
    fn values(array: &AnyArray) -> &[u32] {
        match array.as_primitive::<u32>() {
            Some(array) => array.values().as_slice(),
            None => unreachable!(),
        }
    }
}

impl Natives for u64 {
    fn values(array: &AnyArray) -> &[u64] {
        match array.as_primitive::<u64>() {
            Some(array) => array.values().as_slice(),
            None => unreachable!(),
        }
    }
}

impl Natives for days_ms {
    fn values(array: &AnyArray) -> &[days_ms] {
        match array.as_primitive::<days_ms>() {
            Some(array) => array.values().as_slice(),
            None => unreachable!(),
        }
    }
}

impl Natives for months_days_ns {
    fn values(array: &AnyArray) -> &[months_days_ns] {
        match array.as_primitive::<months_days_ns>() {
            Some(array) => array.values().as_slice(),
            None => unreachable!(),
        }
    }
}

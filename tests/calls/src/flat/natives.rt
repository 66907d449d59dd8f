//! Native values of any kind: each kind there and back, and as no other kind's value.
//!
//! A native value of each kind is of that kind alone, and round-trips.
use nest_flat::any_native::AnyNative;
use nest_flat::any_primitive::Native;
use nest_memory::types::{days_ms, i256, months_days_ns};

const SPAN: days_ms = days_ms {
    days: -1,
    milliseconds: 1,
};

const LONG_SPAN: months_days_ns = months_days_ns {
    months: 1,
    days: 0,
    ns: i64::MIN,
};

/// A value of each kind.
fn values() -> [AnyNative; 12] {
    [
        i8::MIN.to_any(),
        1i16.to_any(),
        1i32.to_any(),
        i64::MIN.to_any(),
        i128::MAX.to_any(),
        i256::from_words(-1, 1).to_any(),
        u8::MAX.to_any(),
        1u16.to_any(),
        1u32.to_any(),
        u64::MAX.to_any(),
        SPAN.to_any(),
        LONG_SPAN.to_any(),
    ]
}

/// Whether it is of each kind, in the same order.
fn kinds(any: AnyNative) -> [bool; 12] {
    [
        i8::from_any(any).is_some(),
        i16::from_any(any).is_some(),
        i32::from_any(any).is_some(),
        i64::from_any(any).is_some(),
        i128::from_any(any).is_some(),
        i256::from_any(any).is_some(),
        u8::from_any(any).is_some(),
        u16::from_any(any).is_some(),
        u32::from_any(any).is_some(),
        u64::from_any(any).is_some(),
        days_ms::from_any(any).is_some(),
        months_days_ns::from_any(any).is_some(),
    ]
}

#[test]
fn a_value_is_of_its_own_kind_alone(rt: HostRuntime) {
    for (i, any) in values().iter().enumerate() {
        for (k, is_kind) in kinds(*any).iter().enumerate() {
            assert!(rt; *is_kind == (i == k));
        }
    }
}

/// Whether a value of any kind returns it back.
fn round_trips<T: Native>(value: T) -> bool {
    match T::from_any(value.to_any()) {
        Some(same) => same == value,
        None => false,
    }
}

#[test]
fn integers_round_trip(rt: HostRuntime) {
    assert!(rt; round_trips(i8::MIN));
    assert!(rt; round_trips(i16::MIN));
    assert!(rt; round_trips(i32::MIN));
    assert!(rt; round_trips(i64::MIN));
    assert!(rt; round_trips(i128::MIN));
    assert!(rt; round_trips(u8::MAX));
    assert!(rt; round_trips(u16::MAX));
    assert!(rt; round_trips(u32::MAX));
    assert!(rt; round_trips(u64::MAX));
}

#[test]
fn values_of_several_numbers_round_trip(rt: HostRuntime) {
    assert!(rt; round_trips(i256::from_words(i128::MIN, u128::MAX)));
    assert!(rt; round_trips(SPAN));
    assert!(rt; round_trips(LONG_SPAN));
}

/// Whether two values of one kind have the same numbers; `None` for values of two kinds.
fn have_same_numbers<T: Native>(x: AnyNative, y: AnyNative) -> Option<bool> {
    if T::from_any(x).is_some() && T::from_any(y).is_some() {
        return Some(x.same_numbers(y));
    }
    None
}

#[test]
fn numbers_of_one_kind_are_compared(rt: HostRuntime) {
    let whole = i256::from_words(1, 2).to_any();
    let other = i256::from_words(1, 3).to_any();
    assert!(rt; have_same_numbers::<i8>(5i8.to_any(), 5i8.to_any()) == Some(true));
    assert!(rt; have_same_numbers::<i8>(5i8.to_any(), (-5i8).to_any()) == Some(false));
    assert!(rt; have_same_numbers::<i256>(whole, whole) == Some(true));
    assert!(rt; have_same_numbers::<i256>(whole, other) == Some(false));
    assert!(rt; have_same_numbers::<i256>(whole, 1u8.to_any()).is_none());
}

#[test]
fn values_of_any_kind_are_compared(rt: HostRuntime) {
    assert!(rt; 5i8.to_any() == AnyNative::Int8(5));
    assert!(rt; 5i8.to_any() != 5i16.to_any());
    assert!(rt; 5u8.to_any() != 6u8.to_any());
    assert!(rt; SPAN.to_any() == AnyNative::DaysMs(SPAN));
}

use nest_memory::datatypes::physical_type::PrimitiveType;
use nest_memory::types::{NativeType, days_ms, i256, months_days_ns};
use std::process::Abort;

// Both halves of -1 are full of ones: the list of -1 and 2^128 - 1, high half first.
fn minus_one() -> i256 {
    i256::from_words(-1, u128::MAX)
}

fn are_same<T: NativeType>(a: T, b: T) -> bool {
    a == b
}

fn expect_native<T: NativeType>(rt: &impl Abort, value: T, primitive: PrimitiveType) {
    assert!(rt; T::PRIMITIVE == primitive);
    assert!(rt; are_same(value, value));
    assert!(rt; !are_same(value, T::zero()));
}

/// The number -1 of 256 bits has the high half -1 and a low half full of ones.
#[test]
fn halves_of_256_bits(rt: HostRuntime) {
    let number = minus_one();
    assert!(rt; number.high == -1);
    assert!(rt; number.low == 340282366920938463463374607431768211455);
}

/// Each native type is of its physical type, and equal to itself alone.
#[test]
fn native_types(rt: HostRuntime) {
    expect_native(&rt, -128i8, PrimitiveType::Int8);
    expect_native(&rt, -1i16, PrimitiveType::Int16);
    expect_native(&rt, 7i32, PrimitiveType::Int32);
    expect_native(&rt, i64::MIN, PrimitiveType::Int64);
    expect_native(&rt, i128::MAX, PrimitiveType::Int128);
    expect_native(&rt, 255u8, PrimitiveType::UInt8);
    expect_native(&rt, 1u16, PrimitiveType::UInt16);
    expect_native(&rt, u32::MAX, PrimitiveType::UInt32);
    expect_native(&rt, u64::MAX, PrimitiveType::UInt64);
    expect_native(&rt, i256::from_words(0, 1), PrimitiveType::Int256);
    expect_native(
        &rt,
        days_ms {
            days: 0,
            milliseconds: 1,
        },
        PrimitiveType::DaysMs,
    );
    expect_native(
        &rt,
        months_days_ns {
            months: 0,
            days: 0,
            ns: -1,
        },
        PrimitiveType::MonthDayNano,
    );
}

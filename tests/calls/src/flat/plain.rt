//! Plain values: what each type is as one, which are equal, and that equal ones hash alike.
//!
//! What a value of each type is as a plain one, which are equal, and that equal ones hash alike.
use nest_flat::any_native::AnyNative;
use nest_flat::plain::{AsPlain, Plain};
use nest_memory::types::{days_ms, i256, months_days_ns};
use std::hash::{DefaultHasher, Hash, Hasher};

const SPAN: days_ms = days_ms {
    days: -1,
    milliseconds: 1,
};

const LONG_SPAN: months_days_ns = months_days_ns {
    months: 1,
    days: 0,
    ns: i64::MIN,
};

/// Whether a value is this plain one, by its own method and through the bound.
fn is_plain<T: AsPlain + Drop>(value: T, plain: Plain<'_>) -> bool {
    value.as_plain() == plain
}

#[test]
fn booleans_strings_and_bytes_are_plain(rt: HostRuntime) {
    assert!(rt; is_plain(true, Plain::Boolean(true)));
    assert!(rt; is_plain("ab", Plain::Text("ab")));
    assert!(rt; is_plain(b"ab".as_slice(), Plain::Bytes(b"ab".as_slice())));
    assert!(rt; "ab".as_plain() == Plain::Text("ab"));
    assert!(rt; !is_plain(true, Plain::Boolean(false)));
    assert!(rt; !is_plain("ab", Plain::Text("a")));
}

fn signed_are_plain() -> bool {
    is_plain(-1i8, Plain::Native(AnyNative::Int8(-1)))
        && is_plain(-1i16, Plain::Native(AnyNative::Int16(-1)))
        && is_plain(-1i32, Plain::Native(AnyNative::Int32(-1)))
        && is_plain(-1i64, Plain::Native(AnyNative::Int64(-1)))
}

fn unsigned_are_plain() -> bool {
    is_plain(1u8, Plain::Native(AnyNative::UInt8(1)))
        && is_plain(1u16, Plain::Native(AnyNative::UInt16(1)))
        && is_plain(1u32, Plain::Native(AnyNative::UInt32(1)))
        && is_plain(1u64, Plain::Native(AnyNative::UInt64(1)))
}

fn wide_are_plain() -> bool {
    let whole = i256::from_words(-1, 1);
    is_plain(-1i128, Plain::Native(AnyNative::Int128(-1)))
        && is_plain(whole, Plain::Native(AnyNative::Int256(whole)))
        && is_plain(SPAN, Plain::Native(AnyNative::DaysMs(SPAN)))
        && is_plain(LONG_SPAN, Plain::Native(AnyNative::MonthDayNano(LONG_SPAN)))
}

#[test]
fn natives_are_plain(rt: HostRuntime) {
    assert!(rt; signed_are_plain());
    assert!(rt; unsigned_are_plain());
    assert!(rt; wide_are_plain());
}

#[test]
fn values_of_two_kinds_are_not_equal(rt: HostRuntime) {
    assert!(rt; Plain::Text("ab") != Plain::Bytes(b"ab".as_slice()));
    assert!(rt; 5i8.as_plain() != 5i16.as_plain());
    assert!(rt; 5i8.as_plain() == 5i8.as_plain());
    assert!(rt; true.as_plain() != 1u8.as_plain());
}

fn hash_of(plain: &Plain<'_>) -> u64 {
    let mut state = DefaultHasher::new();
    plain.hash(&mut state);
    state.finish()
}

#[test]
fn equal_values_have_equal_hashes(rt: HostRuntime) -> Result<(), std::test::Fail> {
    let mut text = String::new(rt.alloc());
    text.push_str("a")?;
    text.push_str("b")?;
    assert!(rt; hash_of(&Plain::Text(text.as_str())) == hash_of(&Plain::Text("ab")));
    assert!(rt; hash_of(&7u64.as_plain()) == hash_of(&7u64.as_plain()));
    assert!(rt; hash_of(&7u64.as_plain()) != hash_of(&8u64.as_plain()));
    Ok(())
}

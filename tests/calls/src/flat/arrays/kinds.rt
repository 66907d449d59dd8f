//! The slots of each kind of array, and what is under its nulls.
use super::{binaries, booleans, numbers, texts};
use nest_flat::any_native::AnyNative;
use nest_flat::any_primitive::{AnyPrimitive, NativeArray};
use nest_memory::datatypes::DataType;

/// Slots, and what is under a null, of each kind.
#[test]
fn slots_of_numbers(rt: HostRuntime) {
    let bits = Some([true, false].as_slice());
    let array = numbers(rt.alloc(), DataType::Int32, &[-1, 5], bits).expect(&rt, "two slots");
    assert!(rt; !array.is_empty());
    assert!(rt; array.len() == 2);
    assert!(rt; array.get(0) == Some(-1));
    assert!(rt; array.is_null(1));
    assert!(rt; array.value(1) == 5);
    assert!(rt; array.null_count() == 1);
    assert!(rt; array.values().as_slice() == [-1, 5].as_slice());
    assert!(rt; array.validity().map(|bits| bits.len()) == Some(2));
}

#[test]
fn slots_of_booleans(rt: HostRuntime) {
    let bits = Some([true, true, false].as_slice());
    let array = booleans(rt.alloc(), &[true, false, true], bits).expect(&rt, "three slots");
    assert!(rt; !array.is_empty());
    assert!(rt; array.len() == 3);
    assert!(rt; array.get(0) == Some(true));
    assert!(rt; array.get(1) == Some(false));
    assert!(rt; array.get(2).is_none());
    assert!(rt; array.is_valid(1));
    assert!(rt; array.value(2));
    assert!(rt; array.null_count() == 1);
    assert!(rt; array.values().unset_bits() == 1);
}

#[test]
fn slots_of_bytes(rt: HostRuntime) {
    let bits = Some([true, false, true].as_slice());
    let offsets = [0, 1, 2, 2].as_slice();
    let array = binaries(rt.alloc(), &[0xff, 7], offsets, bits).expect(&rt, "three slots");
    assert!(rt; !array.is_empty());
    assert!(rt; array.len() == 3);
    assert!(rt; array.get(0) == Some([0xff].as_slice()));
    assert!(rt; array.get(1).is_none());
    assert!(rt; array.value(1) == [7].as_slice());
    assert!(rt; array.is_valid(2));
    assert!(rt; array.value(2).is_empty());
    assert!(rt; array.null_count() == 1);
    assert!(rt; array.offsets().as_slice() == offsets);
    assert!(rt; array.values().len() == 2);
}

#[test]
fn slots_of_strings(rt: HostRuntime) {
    let bits = Some([false, true].as_slice());
    let array = texts(rt.alloc(), b"onetwo", &[0, 3, 6], bits).expect(&rt, "two slots");
    assert!(rt; !array.is_empty());
    assert!(rt; array.len() == 2);
    assert!(rt; array.is_null(0));
    assert!(rt; array.is_valid(1));
    assert!(rt; array.value(0) == "one");
    assert!(rt; array.get(1) == Some("two"));
    assert!(rt; array.null_count() == 1);
    assert!(rt; array.offsets().len_proxy() == 2);
    assert!(rt; array.values().as_slice() == b"onetwo".as_slice());
}

#[test]
fn any_native_kind(rt: HostRuntime) {
    let bits = Some([true, false, true].as_slice());
    let array = numbers(rt.alloc(), DataType::Int32, &[1, 2, 3], bits).expect(&rt, "three slots");
    let mut any = i32::wrap(array);
    assert!(rt; any.len() == 3);
    assert!(rt; any.is_null(1));
    assert!(rt; any.null_count() == 1);
    any.slice(2, 1);
    assert!(rt; any.len() == 1);
    assert!(rt; any.null_count() == 0);
    assert!(rt; any.validity().map(|bits| bits.len()) == Some(1));
}

#[test]
fn raw_values_of_any_kind(rt: HostRuntime) {
    let alloc = rt.alloc();
    let bits = Some([true, false].as_slice());
    let array = numbers(alloc, DataType::Int32, &[1, 2], bits).expect(&rt, "two numbers");
    let any = AnyPrimitive::Int32(array);
    if any.len() == 2 {
        assert!(rt; any.value(0) == AnyNative::Int32(1));
        assert!(rt; any.value(1) == AnyNative::Int32(2));
    }
}

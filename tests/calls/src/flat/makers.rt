//! Arrays in one call, of values and of options: what each slot is, which type it has, and that a validity is made only
//! where one is null.
//!
//! Arrays in one call of values and of options, of each kind and both widths: their type, their slots, and a validity only
//! where one is null.
use nest_flat::binary::BinaryArray;
use nest_flat::boolean::BooleanArray;
use nest_flat::primitive::PrimitiveArray;
use nest_flat::utf8::Utf8Array;
use nest_memory::datatypes::DataType;
use nest_memory::error::Error;
use nest_memory::offset::Offset;
use std::alloc::{AllocError, Global};
use std::process::Abort;

/// Nothing but an allocation fails.
fn unless_without_memory<T>(rt: &impl Abort, outcome: Result<T, Error>) -> Option<T> {
    match outcome {
        Ok(value) => Some(value),
        Err(error) => {
            assert!(rt; error == Error::Memory(AllocError));
            None
        }
    }
}

#[test]
fn numbers_of_values(rt: HostRuntime) {
    let made = PrimitiveArray::from_slice(rt.alloc(), &[1i64, -2, 3]);
    let Some(array) = unless_without_memory(&rt, made) else {
        return;
    };
    assert!(rt; *array.data_type() == DataType::Int64);
    assert!(rt; array.values().as_slice() == [1i64, -2, 3].as_slice());
    assert!(rt; array.validity().is_none());
    drop(array);
}

#[test]
fn numbers_of_options(rt: HostRuntime) {
    let made = PrimitiveArray::from_options(rt.alloc(), &[Some(1u8), None, Some(255)]);
    let Some(array) = unless_without_memory(&rt, made) else {
        return;
    };
    assert!(rt; *array.data_type() == DataType::UInt8);
    assert!(rt; array.len() == 3);
    assert!(rt; array.get(0) == Some(1) && array.get(1).is_none() && array.get(2) == Some(255));
    assert!(rt; array.null_count() == 1);
    drop(array);
}

#[test]
fn numbers_of_options_without_a_null(rt: HostRuntime) {
    let made = PrimitiveArray::from_options(rt.alloc(), &[Some(4i32), Some(5)]);
    let Some(array) = unless_without_memory(&rt, made) else {
        return;
    };
    assert!(rt; array.values().as_slice() == [4i32, 5].as_slice());
    assert!(rt; array.validity().is_none());
    drop(array);
}

#[test]
fn no_numbers(rt: HostRuntime) {
    let none: [Option<i16>; 0] = [];
    let made = PrimitiveArray::from_options(rt.alloc(), &none);
    let Some(array) = unless_without_memory(&rt, made) else {
        return;
    };
    assert!(rt; array.is_empty() && array.validity().is_none());
    drop(array);
}

#[test]
fn truths_of_values(rt: HostRuntime) {
    let made = BooleanArray::from_slice(rt.alloc(), &[true, false, true]);
    let Some(array) = unless_without_memory(&rt, made) else {
        return;
    };
    assert!(rt; *array.data_type() == DataType::Boolean);
    assert!(rt; array.len() == 3);
    assert!(rt; array.value(0) && !array.value(1) && array.value(2));
    assert!(rt; array.validity().is_none());
    drop(array);
}

#[test]
fn truths_of_options(rt: HostRuntime) {
    let made = BooleanArray::from_options(rt.alloc(), &[Some(true), None, Some(false)]);
    let Some(array) = unless_without_memory(&rt, made) else {
        return;
    };
    assert!(rt; array.len() == 3);
    assert!(rt;
        array.get(0) == Some(true) && array.get(1).is_none() && array.get(2) == Some(false)
    );
    drop(array);
}

fn expect_strings<O: Offset>(rt: &impl Abort, alloc: Global, data_type: &DataType) {
    if let Some(array) = unless_without_memory(
        rt,
        Utf8Array::<O>::from_slice(alloc, &["ab", "", "é"]),
    ) {
        assert!(rt; array.data_type() == data_type);
        assert!(rt; array.len() == 3);
        assert!(rt; array.value(0) == "ab" && array.value(1) == "" && array.value(2) == "é");
        assert!(rt; array.validity().is_none());
        drop(array);
    }
    let items = [Some("ab"), None, Some("")];
    if let Some(array) = unless_without_memory(rt, Utf8Array::<O>::from_options(alloc, &items)) {
        assert!(rt; array.data_type() == data_type);
        assert!(rt; array.len() == 3);
        assert!(rt;
            array.get(0) == Some("ab") && array.get(1).is_none() && array.get(2) == Some("")
        );
        assert!(rt; array.null_count() == 1);
        drop(array);
    }
}

#[test]
fn strings_of_either_width(rt: HostRuntime) {
    expect_strings::<i32>(&rt, rt.alloc(), &DataType::Utf8);
    expect_strings::<i64>(&rt, rt.alloc(), &DataType::LargeUtf8);
}

fn expect_bytes<O: Offset>(rt: &impl Abort, alloc: Global, data_type: &DataType) {
    let strings = [b"ab".as_slice(), b"".as_slice(), b"\xff".as_slice()];
    if let Some(array) = unless_without_memory(rt, BinaryArray::<O>::from_slice(alloc, &strings)) {
        assert!(rt; array.data_type() == data_type);
        assert!(rt; array.len() == 3);
        assert!(rt; array.value(0) == b"ab".as_slice() && array.value(1).is_empty());
        assert!(rt; array.value(2) == b"\xff".as_slice());
        assert!(rt; array.validity().is_none());
        drop(array);
    }
    let items = [Some(b"ab".as_slice()), None, Some(b"".as_slice())];
    if let Some(array) = unless_without_memory(rt, BinaryArray::<O>::from_options(alloc, &items)) {
        assert!(rt; array.len() == 3);
        assert!(rt; array.get(0) == Some(b"ab".as_slice()) && array.get(1).is_none());
        assert!(rt; array.get(2) == Some(b"".as_slice()));
        drop(array);
    }
}

#[test]
fn bytes_of_either_width(rt: HostRuntime) {
    expect_bytes::<i32>(&rt, rt.alloc(), &DataType::Binary);
    expect_bytes::<i64>(&rt, rt.alloc(), &DataType::LargeBinary);
}

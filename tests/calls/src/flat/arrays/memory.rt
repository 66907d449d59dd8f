//! Each test passes whichever allocation fails: a rejected clone leaves its array.
use super::{binaries, booleans, numbers, texts};
use nest_flat::any_primitive::{AnyPrimitive, NativeArray};
use nest_memory::datatypes::DataType;
use nest_memory::error::Error;
use std::alloc::{AllocError, Global};
use std::process::Abort;

/// The result of a call, or `None` where an allocation failed; nothing else may be.
fn unless_without_memory<T>(rt: &impl Abort, outcome: Result<T, Error>) -> Option<T> {
    match outcome {
        Ok(value) => Some(value),
        Err(error) => {
            assert!(rt; error == Error::Memory(AllocError));
            None
        }
    }
}

fn expect_same<A: PartialEq + Drop>(rt: &impl Abort, copy: Result<A, Error>, array: &A) {
    if let Some(copy) = unless_without_memory(rt, copy) {
        assert!(rt; copy == *array);
    }
}

/// Any one allocation fails: a clone leaves its array, a push its builder.
#[test]
fn failed_clone_of_primitive(rt: HostRuntime) {
    let numbers = numbers(rt.alloc(), DataType::Int32, &[1, 2], Some(&[true, false]));
    let Some(array) = unless_without_memory(&rt, numbers) else {
        return;
    };
    expect_same(&rt, array.clone(rt.alloc()), &array);
    assert!(rt; array.len() == 2);
    assert!(rt; array.get(0) == Some(1));
    assert!(rt; array.null_count() == 1);
}

#[test]
fn failed_clone_of_booleans(rt: HostRuntime) {
    let booleans = booleans(rt.alloc(), &[true, true], Some(&[true, false]));
    let Some(array) = unless_without_memory(&rt, booleans) else {
        return;
    };
    expect_same(&rt, array.clone(rt.alloc()), &array);
    assert!(rt; array.len() == 2);
    assert!(rt; array.get(0) == Some(true));
    assert!(rt; array.null_count() == 1);
}

#[test]
fn failed_clone_of_binary(rt: HostRuntime) {
    let bytes = binaries(rt.alloc(), &[4, 5], &[0, 2, 2], Some(&[true, false]));
    let Some(array) = unless_without_memory(&rt, bytes) else {
        return;
    };
    expect_same(&rt, array.clone(rt.alloc()), &array);
    assert!(rt; array.len() == 2);
    assert!(rt; array.value(0) == [4, 5].as_slice());
    assert!(rt; array.null_count() == 1);
}

#[test]
fn failed_clone_of_strings(rt: HostRuntime) {
    let texts = texts(rt.alloc(), b"ab", &[0, 2, 2], Some(&[true, false]));
    let Some(array) = unless_without_memory(&rt, texts) else {
        return;
    };
    expect_same(&rt, array.clone(rt.alloc()), &array);
    assert!(rt; array.len() == 2);
    assert!(rt; array.value(0) == "ab");
    assert!(rt; array.null_count() == 1);
}

fn any_of(alloc: Global) -> Result<AnyPrimitive, Error> {
    let numbers = numbers(alloc, DataType::Int32, &[1, 2], Some(&[true, false]));
    numbers.map(|numbers| i32::wrap(numbers))
}

#[test]
fn failed_clone_of_any(rt: HostRuntime) {
    let Some(array) = unless_without_memory(&rt, any_of(rt.alloc())) else {
        return;
    };
    if let Some(copy) = unless_without_memory(&rt, array.clone(rt.alloc())) {
        assert!(rt; copy.len() == 2);
        assert!(rt; copy.null_count() == 1);
    }
    assert!(rt; array.len() == 2);
    assert!(rt; array.null_count() == 1);
}

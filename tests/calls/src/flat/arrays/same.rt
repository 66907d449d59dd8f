//! Arrays are equal where their data types and their slots are; what is under a null does not count.
use super::{binaries, booleans, numbers, texts};
use nest_memory::datatypes::DataType;
use nest_memory::error::Error;

/// Whether both were made and are equal; both are dropped.
fn are_same<A: PartialEq + Drop>(x: Result<A, Error>, y: Result<A, Error>) -> Result<bool, Error> {
    let (x, y) = super::both(x, y)?;
    Ok(x == y)
}

#[test]
fn numbers_under_nulls(rt: HostRuntime) {
    let alloc = rt.alloc();
    let bits = Some([true, false].as_slice());
    let array = numbers(alloc, DataType::Int32, &[1, 2], bits);
    let same = numbers(alloc, DataType::Int32, &[1, 9], bits);
    assert!(rt; are_same(array, same) == Ok(true));
    let array = numbers(alloc, DataType::Int32, &[1, 2], bits);
    let valid = numbers(alloc, DataType::Int32, &[1, 2], None);
    assert!(rt; are_same(array, valid) == Ok(false));
    let array = numbers(alloc, DataType::Int32, &[1, 2], bits);
    let dates = numbers(alloc, DataType::Date32, &[1, 2], bits);
    assert!(rt; are_same(array, dates) == Ok(false));
    let array = numbers(alloc, DataType::Int32, &[1, 2], None);
    let other = numbers(alloc, DataType::Int32, &[1, 3], None);
    assert!(rt; are_same(array, other) == Ok(false));
}

#[test]
fn booleans_under_nulls(rt: HostRuntime) {
    let alloc = rt.alloc();
    let bits = Some([true, false].as_slice());
    let array = booleans(alloc, &[true, false], bits);
    assert!(rt; are_same(array, booleans(alloc, &[true, true], bits)) == Ok(true));
    let array = booleans(alloc, &[true, false], bits);
    assert!(rt; are_same(array, booleans(alloc, &[false, false], bits)) == Ok(false));
}

#[test]
fn bytes_by_other_offsets(rt: HostRuntime) {
    let alloc = rt.alloc();
    let bits = Some([true, false].as_slice());
    let array = binaries(alloc, &[4, 5], &[0, 1, 2], bits);
    let same = binaries(alloc, &[9, 4], &[1, 2, 2], bits);
    assert!(rt; are_same(array, same) == Ok(true));
    let array = binaries(alloc, &[4, 5], &[0, 1, 2], bits);
    let other = binaries(alloc, &[4, 5], &[0, 2, 2], bits);
    assert!(rt; are_same(array, other) == Ok(false));
}

#[test]
fn strings_by_other_offsets(rt: HostRuntime) {
    let alloc = rt.alloc();
    let bits = Some([true, false].as_slice());
    let array = texts(alloc, b"ab", &[0, 1, 2], bits);
    let same = texts(alloc, b"xa", &[1, 2, 2], bits);
    assert!(rt; are_same(array, same) == Ok(true));
    let array = texts(alloc, b"ab", &[0, 1, 2], None);
    let other = texts(alloc, b"ac", &[0, 1, 2], None);
    assert!(rt; are_same(array, other) == Ok(false));
}

/// Hello, null, null, world, null, null is not hello, foo, null, world, null, null; each is equal to itself.
#[test]
fn a_null_is_no_value(rt: HostRuntime) {
    let alloc = rt.alloc();
    let two = Some([true, false, false, true, false, false].as_slice());
    let three = Some([true, true, false, true, false, false].as_slice());
    let short = [0, 5, 5, 5, 10, 10, 10].as_slice();
    let long = [0, 5, 8, 8, 13, 13, 13].as_slice();
    let hello = || binaries(alloc, b"helloworld", short, two);
    let foo = || binaries(alloc, b"hellofooworld", long, three);
    assert!(rt; are_same(hello(), foo()) == Ok(false));
    assert!(rt; are_same(hello(), hello()) == Ok(true));
    assert!(rt; are_same(foo(), foo()) == Ok(true));
    let under_null = binaries(alloc, b"hellofooworld", long, two);
    assert!(rt; are_same(hello(), under_null) == Ok(true));
}

#[test]
fn runs_of_slots(rt: HostRuntime) {
    let alloc = rt.alloc();
    let bits = Some([true, false, true].as_slice());
    let x = numbers(alloc, DataType::Int32, &[1, 2, 3], bits).expect(&rt, "three numbers");
    let y = numbers(alloc, DataType::Int32, &[9, 3, 1], bits).expect(&rt, "three numbers");
    if x.len() == 3 && y.len() == 3 {
        assert!(rt; x.same_run(0, &y, 2, 0));
        assert!(rt; x.same_run(1, &y, 1, 1));
        assert!(rt; x.same_run(0, &y, 2, 1));
        assert!(rt; !x.same_run(0, &y, 0, 2));
    }
}

#[test]
fn runs_of_other_kinds(rt: HostRuntime) {
    let alloc = rt.alloc();
    let x = booleans(alloc, &[true, false, true], None).expect(&rt, "three booleans");
    if x.len() == 3 {
        assert!(rt; x.same_run(0, &x, 2, 1));
        assert!(rt; !x.same_run(0, &x, 1, 2));
    }
    let x = binaries(alloc, &[4, 5, 4], &[0, 1, 2, 3], None).expect(&rt, "three slots");
    if x.len() == 3 {
        assert!(rt; x.same_run(0, &x, 2, 1));
        assert!(rt; !x.same_run(0, &x, 1, 2));
    }
    let x = texts(alloc, b"aba", &[0, 1, 2, 3], None).expect(&rt, "three texts");
    if x.len() == 3 {
        assert!(rt; x.same_run(0, &x, 2, 1));
        assert!(rt; !x.same_run(0, &x, 1, 2));
    }
}

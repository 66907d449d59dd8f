//! Blocks of raw values: what is under a null counts, and whether a slot is null doesn't.
//!
//! Raw values in blocks: of 0, 1, 16 and 17 values, at other indices, under nulls.
use super::numbers;
use nest_flat::primitive::PrimitiveArray;
use nest_memory::datatypes::DataType;

/// Whether blocks within both arrays are equal.
fn are_equal(
    x: &PrimitiveArray<i32>,
    o: usize,
    y: &PrimitiveArray<i32>,
    p: usize,
    n: usize,
) -> Option<bool> {
    let (left, right) = (x.len(), y.len());
    if o > left || n > left - o || p > right || n > right - p {
        return None;
    }
    Some(x.equal_block(o, y, p, n))
}

const ITEMS: [i32; 18] = [0, 1, 2, 3, 4, 5, 6, 7, 8, 9, 10, 11, 12, 13, 14, 15, 16, 17];

#[test]
fn blocks_of_every_length(rt: HostRuntime) {
    let alloc = rt.alloc();
    let x = numbers(alloc, DataType::Int32, &ITEMS, None).expect(&rt, "eighteen numbers");
    let y = numbers(alloc, DataType::Int32, &ITEMS[1..], None).expect(&rt, "seventeen numbers");
    assert!(rt; are_equal(&x, 3, &y, 9, 0) == Some(true));
    assert!(rt; are_equal(&x, 18, &y, 17, 0) == Some(true));
    assert!(rt; are_equal(&x, 4, &y, 3, 1) == Some(true));
    assert!(rt; are_equal(&x, 4, &y, 4, 1) == Some(false));
    assert!(rt; are_equal(&x, 1, &y, 0, 16) == Some(true));
    assert!(rt; are_equal(&x, 2, &y, 1, 16) == Some(true));
    assert!(rt; are_equal(&x, 1, &y, 0, 17) == Some(true));
    assert!(rt; are_equal(&x, 1, &y, 1, 16) == Some(false));
}

#[test]
fn blocks_that_differ_in_one_value(rt: HostRuntime) {
    let alloc = rt.alloc();
    let x = numbers(alloc, DataType::Int32, &[1, 2, 3, 4, 5], None).expect(&rt, "numbers");
    let y = numbers(alloc, DataType::Int32, &[9, 2, 3, 4, 9], None).expect(&rt, "numbers");
    assert!(rt; are_equal(&x, 1, &y, 1, 3) == Some(true));
    assert!(rt; are_equal(&x, 1, &y, 1, 4) == Some(false));
    assert!(rt; are_equal(&x, 0, &y, 0, 4) == Some(false));
}

#[test]
fn raw_values_alone_count(rt: HostRuntime) {
    let alloc = rt.alloc();
    let bits = Some([true, false, true].as_slice());
    let x = numbers(alloc, DataType::Int32, &[1, 2, 3], bits).expect(&rt, "three numbers");
    let y = numbers(alloc, DataType::Int32, &[1, 7, 3], bits).expect(&rt, "three numbers");
    let valid = numbers(alloc, DataType::Int32, &[1, 2, 3], None).expect(&rt, "three numbers");
    assert!(rt; x == y);
    assert!(rt; are_equal(&x, 0, &y, 0, 3) == Some(false));
    assert!(rt; x != valid);
    assert!(rt; are_equal(&x, 0, &valid, 0, 3) == Some(true));
}

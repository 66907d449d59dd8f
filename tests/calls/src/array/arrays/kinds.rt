//! What each kind of array does by the trait of arrays.
use super::{
    are_same, booleans, both, buffer, int32s, lists_of_lists, numbers, offsets_of, sizes, structs,
};
use crate::array::dictionaries::four_strings;
use crate::array::maps::two_maps;
use nest_array::{Array, FixedSizeBinaryArray, NullArray};
use nest_flat::binary::BinaryArray;
use nest_flat::utf8::Utf8Array;
use nest_memory::datatypes::DataType;
use nest_memory::error::Error;
use nest_memory::offset::Offset;
use std::alloc::Global;

/// Whether the array was made, has a slot, and cut to nothing at its end has none.
fn ends_empty<A: Array + Drop>(array: Result<A, Error>) -> bool {
    match array {
        Ok(mut array) => {
            let n = array.len();
            array.slice(n, 0);
            n > 0 && array.is_empty() && array.null_count() == 0
        }
        Err(_) => false,
    }
}

/// The slots a and bc as bytes.
fn bytes<O: Offset>(
    alloc: Global,
    data_type: DataType,
    offsets: &[O],
) -> Result<BinaryArray<O>, Error> {
    match both(offsets_of(alloc, offsets), buffer(alloc, b"abc")) {
        Ok((offsets, values)) => BinaryArray::try_new(data_type, offsets, values, None),
        Err(error) => {
            drop(data_type);
            Err(error)
        }
    }
}

/// The slots a and bc as strings.
fn texts<O: Offset>(
    alloc: Global,
    data_type: DataType,
    offsets: &[O],
) -> Result<Utf8Array<O>, Error> {
    match both(offsets_of(alloc, offsets), buffer(alloc, b"abc")) {
        Ok((offsets, values)) => Utf8Array::try_new(data_type, offsets, values, None),
        Err(error) => {
            drop(data_type);
            Err(error)
        }
    }
}

/// A slice to nothing at the end, of each kind.
#[test]
fn flat_arrays_end_empty(rt: HostRuntime) {
    let alloc = rt.alloc();
    assert!(rt; ends_empty(NullArray::try_new(DataType::Null, 3)));
    assert!(rt; ends_empty(booleans(alloc, &[true, false])));
    assert!(rt; ends_empty(int32s(alloc, &[1, 2], Some(&[true, false]))));
    assert!(rt; ends_empty(bytes(alloc, DataType::Binary, &[0i32, 1, 3])));
    assert!(rt; ends_empty(bytes(alloc, DataType::LargeBinary, &[0i64, 1, 3])));
    assert!(rt; ends_empty(texts(alloc, DataType::Utf8, &[0i32, 1, 3])));
    assert!(rt; ends_empty(texts(alloc, DataType::LargeUtf8, &[0i64, 1, 3])));
    assert!(rt; ends_empty(FixedSizeBinaryArray::from_slice(alloc, [*b"ab", *b"cd"].as_slice())));
}

#[test]
fn nested_arrays_end_empty(rt: HostRuntime) {
    let alloc = rt.alloc();
    assert!(rt; ends_empty(sizes::pairs(alloc)));
    assert!(rt; ends_empty(lists_of_lists(alloc)));
    assert!(rt; ends_empty(super::lists::by_large_offsets(alloc)));
    assert!(rt; ends_empty(structs::four(alloc, &[1, 2, 3, 4])));
    assert!(rt; ends_empty(two_maps(alloc)));
    assert!(rt; ends_empty(four_strings(alloc)));
    assert!(rt; ends_empty(numbers(alloc, &[1, 2])));
}

/// How many slots an array has, and how many of them are null.
fn counts<A: Array>(array: &A) -> (usize, usize) {
    (array.len(), array.null_count())
}

/// The counts of the array, dropped.
fn counts_of<A: Array + Drop>(array: Result<A, Error>) -> Option<(usize, usize)> {
    match array {
        Ok(array) => Some(counts(&array)),
        Err(_) => None,
    }
}

#[test]
fn arrays_in_their_variants(rt: HostRuntime) {
    let array = structs::four(rt.alloc(), &[1, 2, 3, 4]).expect(&rt, "four records");
    assert!(rt; array.len() == 4);
    assert!(rt; counts(&array) == (4, 1));
    assert!(rt; counts_of(array.to_boxed(rt.alloc())) == Some((4, 1)));
    assert!(rt; counts_of(Array::sliced(&array, rt.alloc(), 3, 1)) == Some((1, 0)));
    let same = structs::four(rt.alloc(), &[1, 2, 3, 4]).map(|array| array.boxed());
    assert!(rt; are_same(same, Ok(array.boxed())) == Ok(true));
}

#[test]
fn arrays_that_are_shared(rt: HostRuntime) {
    let array = lists_of_lists(rt.alloc()).expect(&rt, "three lists");
    let shared = array.arced(rt.alloc()).expect(&rt, "a shared array");
    assert!(rt; shared.len() == 3);
}

//! Iterators over fixed-size lists and fixed-size binary values from both ends.
use crate::scan::parts::{both, buffer, numbers, validity};
use crate::scan::walks::{expect_decoded, walked};
use nest_array::{AnyArray, FixedSizeBinaryArray, FixedSizeListArray};
use nest_memory::error::Error;
use nest_scan::{FixedSizeListValuesIter, Scan, ScanValues};
use std::alloc::Global;

fn lists_of_two(
    alloc: Global,
    items: AnyArray,
    bits: Option<&[bool]>,
) -> Result<FixedSizeListArray, Error> {
    let item_type = items.data_type().clone(alloc);
    let data_type = item_type.and_then(|item| FixedSizeListArray::default_datatype(alloc, item, 2));
    match both(data_type, validity(alloc, bits)) {
        Ok((data_type, validity)) => {
            FixedSizeListArray::try_new(alloc, data_type, items, validity)
        }
        Err(error) => {
            drop(items);
            Err(error)
        }
    }
}

/// The numbers from 1 to 6 in pairs.
fn pairs(alloc: Global, bits: Option<&[bool]>) -> Result<FixedSizeListArray, Error> {
    numbers(alloc, &[1, 2, 3, 4, 5, 6]).and_then(|items| lists_of_two(alloc, items, bits))
}

/// A walk over the slots.
fn slots(alloc: Global, pairs: &FixedSizeListArray, turns: &str) -> Result<String, Error> {
    walked(alloc, pairs.iter(alloc), turns)
}

/// A walk over the pairs, also under nulls.
fn values(alloc: Global, pairs: &FixedSizeListArray, turns: &str) -> Result<String, Error> {
    let values: FixedSizeListValuesIter<'_> = pairs.values_iter(alloc);
    walked(alloc, values, turns)
}

#[test]
fn pairs_from_both_ends(rt: HostRuntime) {
    let alloc = rt.alloc();
    let bits = [true, false, true].as_slice();
    let array = pairs(alloc, Some(bits)).expect(&rt, "three pairs");
    let wanted = "[5;6;] [1;2;] 1 [3;4;] - - ";
    expect_decoded(&rt, values(alloc, &array, "<>#<<>"), wanted);
    expect_decoded(&rt, slots(alloc, &array, ">>>>"), "[1;2;] null [5;6;] - ");
}

/// The byte strings ab, cd and ef.
fn three_strings(alloc: Global, bits: Option<&[bool]>) -> Result<FixedSizeBinaryArray, Error> {
    match both(buffer(alloc, b"abcdef"), validity(alloc, bits)) {
        Ok((values, validity)) => {
            let data_type = FixedSizeBinaryArray::default_datatype(2);
            FixedSizeBinaryArray::try_new(data_type, values, validity)
        }
        Err(error) => Err(error),
    }
}

/// Byte strings ab, cd and ef from both ends.
#[test]
fn values_of_byte_strings(rt: HostRuntime) {
    let alloc = rt.alloc();
    let bits = [true, false, true].as_slice();
    let array = three_strings(alloc, Some(bits)).expect(&rt, "three strings");
    expect_decoded(
        &rt,
        walked(alloc, array.values_iter(alloc), "<#>>><"),
        "ef 2 ab cd - - ",
    );
}

#[test]
fn nulls_among_byte_strings(rt: HostRuntime) {
    let alloc = rt.alloc();
    let bits = [true, false, true].as_slice();
    let array = three_strings(alloc, Some(bits)).expect(&rt, "three strings");
    expect_decoded(
        &rt,
        walked(alloc, array.iter(alloc), ">><#<"),
        "ab null ef 0 - ",
    );
}

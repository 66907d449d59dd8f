//! What null and empty arrays hold.
use crate::array::empties::types::{
    extension, large_list, list, map, none, nulls, records, refusal, sized, two, union,
};
use nest_array::equal::equal_counted;
use nest_array::{AnyArray, Steps};
use nest_memory::datatypes::{DataType, UnionMode};
use nest_memory::error::Error;
use std::alloc::{AllocError, Global};

fn pair(alloc: Global) -> Result<DataType, Error> {
    records(two(alloc, Ok(DataType::Utf8), Ok(DataType::Int64)))
}

// A type with each kind that nests.
fn deep(alloc: Global) -> Result<DataType, Error> {
    let lists = two(
        alloc,
        list(alloc, pair(alloc)),
        large_list(alloc, map(alloc, pair(alloc))),
    );
    let either = union(alloc, lists, Some(&[3, 9]), UnionMode::Dense);
    let both = two(alloc, sized(alloc, either, 2), Ok(DataType::Boolean));
    records(both)
}

// The same with an extension at every level.
fn deep_extension(alloc: Global) -> Result<DataType, Error> {
    let text = extension(alloc, Ok(DataType::LargeUtf8));
    let bytes = extension(alloc, Ok(DataType::FixedSizeBinary(3)));
    let both = extension(alloc, records(two(alloc, text, extension(alloc, bytes))));
    let sized = extension(alloc, sized(alloc, both, 2));
    let null = extension(alloc, Ok(DataType::Null));
    extension(
        alloc,
        union(
            alloc,
            two(alloc, extension(alloc, sized), null),
            None,
            UnionMode::Sparse,
        ),
    )
}

fn is_of(array: &AnyArray, length: usize, nulls: usize) -> bool {
    array.len() == length && array.null_count() == nulls
}

/// Three dates are three nulls, and three are counted.
#[test]
fn three_dates(rt: HostRuntime) {
    let dates = nulls(rt.alloc(), Ok(DataType::Date32), 3).expect(&rt, "dates");
    assert!(rt; is_of(&dates, 3, 3));
    assert!(rt; *dates.data_type() == DataType::Date32);
}

/// 2^64 - 1 slots of nulls are counted.
#[test]
fn as_many_nulls_as_a_length_can_be(rt: HostRuntime) {
    let alloc = rt.alloc();
    let most = nulls(alloc, Ok(DataType::Null), usize::MAX).expect(&rt, "nulls");
    assert!(rt; is_of(&most, usize::MAX, usize::MAX));
}

// Whether the array is of fixed-size lists over a child of so many items.
fn holds_items(array: &AnyArray, items: usize) -> bool {
    match array {
        AnyArray::FixedSizeList(array) => array.values().len() == items,
        _ => false,
    }
}

#[test]
fn the_longest_product(rt: HostRuntime) {
    let alloc = rt.alloc();
    let of = sized(alloc, Ok(DataType::Null), usize::MAX);
    let one = nulls(alloc, of, 1).expect(&rt, "one list");
    assert!(rt; is_of(&one, 1, 1));
    assert!(rt; holds_items(&one, usize::MAX));
    let of = sized(alloc, Ok(DataType::Null), usize::MAX);
    assert!(rt; refusal(nulls(alloc, of, 2)) == Some(Error::Overflow));
}

fn child_is_empty(array: &AnyArray) -> bool {
    match array {
        AnyArray::List(array) => array.values().len() == 0,
        AnyArray::Map(array) => array.field().len() == 0,
        _ => false,
    }
}

#[test]
fn lists_and_maps_are_opaque(rt: HostRuntime) {
    let alloc = rt.alloc();
    let lists = nulls(alloc, list(alloc, Ok(DataType::Int32)), 5).expect(&rt, "lists");
    assert!(rt; is_of(&lists, 5, 5));
    assert!(rt; child_is_empty(&lists));
    let maps = nulls(alloc, map(alloc, pair(alloc)), 5).expect(&rt, "maps");
    assert!(rt; is_of(&maps, 5, 5));
    assert!(rt; child_is_empty(&maps));
}

// Whether the slots of an array from its end are those of the empty one, which takes no comparison.
fn ends_empty(array: AnyArray, empty: AnyArray) -> bool {
    let count = array.len();
    let cut = array.sliced(count, 0);
    let mut steps = Steps::new();
    let same = equal_counted(&cut, &empty, &mut steps) && steps.count() == 0;
    drop(empty);
    drop(cut);
    same
}

/// A slice to nothing of each kind is the empty array of its type, after no comparison.
#[test]
fn a_slice_to_nothing_is_the_empty_array(rt: HostRuntime) {
    let alloc = rt.alloc();
    let array = nulls(alloc, deep(alloc), 2).expect(&rt, "two nulls");
    let empty = none(alloc, deep(alloc)).expect(&rt, "none");
    assert!(rt; ends_empty(array, empty));
    let array = nulls(alloc, deep_extension(alloc), 2).expect(&rt, "two nulls");
    let empty = none(alloc, deep_extension(alloc)).expect(&rt, "none");
    assert!(rt; ends_empty(array, empty));
}

#[test]
fn extensions_at_every_level(rt: HostRuntime) {
    let array = nulls(rt.alloc(), deep_extension(rt.alloc()), 2).expect(&rt, "an extension");
    assert!(rt; is_of(&array, 2, 0));
    let same_type = deep_extension(rt.alloc()).expect(&rt, "an extension");
    assert!(rt; *array.data_type() == same_type);
}

#[test]
fn every_kind_below_records(rt: HostRuntime) {
    let array = nulls(rt.alloc(), deep(rt.alloc()), 3).expect(&rt, "records");
    assert!(rt; is_of(&array, 3, 3));
}

// Passes whichever allocation fails.
#[test]
fn without_memory(rt: HostRuntime) {
    match nulls(rt.alloc(), deep(rt.alloc()), 3) {
        Ok(array) => {
            assert!(rt; is_of(&array, 3, 3));
        }
        Err(error) => assert!(rt; error == Error::Memory(AllocError)),
    }
}

//! The constructors of each kind: another kind of type first, then the errors of the type.
//!
//! The constructors of each kind reject another kind first.
use crate::array::empties::types::{
    extension, large_list, list, map, numbers, records, sized, two, union,
};
use nest_array::{
    FixedSizeBinaryArray, FixedSizeListArray, LargeListArray, ListArray, MapArray, NullArray,
    StructArray, UnionArray,
};
use nest_memory::datatypes::{DataType, UnionMode};
use nest_memory::error::{Error, SpecError};
use std::alloc::Global;

const WRONG: Option<Error> = Some(Error::OutOfSpec(SpecError::WrongType));

/// What a call rejected, or why its type wasn't there.
fn refused<A: Drop>(array: Result<A, Error>) -> Option<Error> {
    array.err()
}

fn pair(alloc: Global) -> Result<DataType, Error> {
    records(two(alloc, Ok(DataType::Utf8), Ok(DataType::Int64)))
}

#[test]
fn other_kinds_come_first(rt: HostRuntime) {
    let alloc = rt.alloc();
    assert!(rt; refused(NullArray::new_null(alloc, DataType::Float32, 1)) == WRONG);
    assert!(rt; refused(NullArray::new_empty(alloc, DataType::Boolean)) == WRONG);
    assert!(rt; refused(FixedSizeBinaryArray::new_null(alloc, DataType::Binary, 1)) == WRONG);
    assert!(rt; refused(FixedSizeBinaryArray::new_empty(alloc, DataType::Utf8)) == WRONG);
    assert!(rt;
        refused(FixedSizeListArray::new_null(alloc, DataType::FixedSizeBinary(0), 1)) == WRONG
    );
    assert!(rt; refused(FixedSizeListArray::new_empty(alloc, DataType::Null)) == WRONG);
    assert!(rt; refused(ListArray::new_null(alloc, DataType::Float32, usize::MAX)) == WRONG);
    assert!(rt; refused(ListArray::new_empty(alloc, DataType::Null)) == WRONG);
    assert!(rt; refused(LargeListArray::new_null(alloc, DataType::Null, 1)) == WRONG);
    assert!(rt; refused(LargeListArray::new_empty(alloc, DataType::Null)) == WRONG);
    assert!(rt; refused(StructArray::new_null(alloc, DataType::Null, 1)) == WRONG);
    assert!(rt; refused(StructArray::new_empty(alloc, DataType::Null)) == WRONG);
    assert!(rt; refused(MapArray::new_null(alloc, DataType::Null, 1)) == WRONG);
    assert!(rt; refused(MapArray::new_empty(alloc, DataType::Null)) == WRONG);
    assert!(rt; refused(UnionArray::new_null(alloc, DataType::Null, 1)) == WRONG);
    assert!(rt; refused(UnionArray::new_empty(alloc, DataType::Null)) == WRONG);
}

#[test]
fn nulls_of_each_kind(rt: HostRuntime) {
    let alloc = rt.alloc();
    let array = NullArray::new_null(alloc, DataType::Null, 2).expect(&rt, "nulls");
    assert!(rt; array.null_count() == 2);
    let array = FixedSizeBinaryArray::new_null(alloc, DataType::FixedSizeBinary(3), 2).expect(
        &rt, "bytes",
    );
    assert!(rt; array.null_count() == 2);
    assert!(rt; array.values().as_slice() == [0, 0, 0, 0, 0, 0].as_slice());
    let of = sized(alloc, Ok(DataType::Int8), 3).expect(&rt, "a type");
    let array = FixedSizeListArray::new_null(alloc, of, 2).expect(&rt, "lists");
    assert!(rt; array.null_count() == 2);
    assert!(rt; array.values().len() == 6);
    let of = list(alloc, Ok(DataType::Int8)).expect(&rt, "a type");
    let array = ListArray::new_null(alloc, of, 2).expect(&rt, "lists");
    assert!(rt; array.null_count() == 2);
    assert!(rt; array.offsets().as_slice() == [0, 0, 0].as_slice());
    let of = extension(alloc, large_list(alloc, Ok(DataType::Int8))).expect(&rt, "a type");
    let array = LargeListArray::new_null(alloc, of, 2).expect(&rt, "lists");
    assert!(rt; array.null_count() == 2);
    let of = map(alloc, pair(alloc)).expect(&rt, "a type");
    let array = MapArray::new_null(alloc, of, 2).expect(&rt, "maps");
    assert!(rt; array.null_count() == 2);
    let of = pair(alloc).expect(&rt, "a type");
    let array = StructArray::new_null(alloc, of, 2).expect(&rt, "records");
    assert!(rt; array.null_count() == 2);
}

#[test]
fn none_of_each_kind(rt: HostRuntime) {
    let alloc = rt.alloc();
    let array = NullArray::new_empty(alloc, DataType::Null).expect(&rt, "no null");
    assert!(rt; array.len() == 0);
    let array = FixedSizeBinaryArray::new_empty(alloc, DataType::FixedSizeBinary(3)).expect(
        &rt, "no bytes",
    );
    assert!(rt; array.len() == 0);
    assert!(rt; array.validity().is_none());
    let of = sized(alloc, Ok(DataType::Int8), 3).expect(&rt, "a type");
    let array = FixedSizeListArray::new_empty(alloc, of).expect(&rt, "no list");
    assert!(rt; array.len() == 0);
    let of = list(alloc, Ok(DataType::Int8)).expect(&rt, "a type");
    let array = ListArray::new_empty(alloc, of).expect(&rt, "no list");
    assert!(rt; array.len() == 0);
    let of = extension(alloc, large_list(alloc, Ok(DataType::Int8))).expect(&rt, "a type");
    let array = LargeListArray::new_empty(alloc, of).expect(&rt, "no list");
    assert!(rt; array.len() == 0);
    let of = map(alloc, pair(alloc)).expect(&rt, "a type");
    let array = MapArray::new_empty(alloc, of).expect(&rt, "no map");
    assert!(rt; array.len() == 0);
    let of = pair(alloc).expect(&rt, "a type");
    let array = StructArray::new_empty(alloc, of).expect(&rt, "no record");
    assert!(rt; array.len() == 0);
    let of = union(alloc, numbers(alloc, 2), None, UnionMode::Dense).expect(&rt, "a type");
    let array = UnionArray::new_empty(alloc, of).expect(&rt, "no pick");
    assert!(rt; array.len() == 0);
}

//! Unions of nulls: which field they pick, and which are rejected.
use crate::array::empties::types::{
    extension, list, none, nulls, numbers, one, refusal, two, union,
};
use nest_array::{AnyArray, AnyScalar, UnionArray};
use nest_memory::datatypes::{DataType, UnionMode};
use nest_memory::error::{Error, SpecError};
use std::alloc::Global;

fn number_or_string(alloc: Global, ids: Option<&[i32]>) -> Result<DataType, Error> {
    let fields = two(alloc, Ok(DataType::Int32), Ok(DataType::Utf8));
    union(alloc, fields, ids, UnionMode::Sparse)
}

fn as_union(array: AnyArray) -> Option<UnionArray> {
    match array {
        AnyArray::Union(union) => Some(union),
        other => {
            drop(other);
            None
        }
    }
}

fn union_of(array: Result<AnyArray, Error>) -> Option<UnionArray> {
    match array {
        Ok(array) => as_union(array),
        Err(_error) => None,
    }
}

// The type of what slot i picks, where it is a null.
fn union_null_of(alloc: Global, union: &UnionArray, i: usize, data_type: &DataType) -> bool {
    if i >= union.len() {
        return false;
    }
    match union.value(alloc, i) {
        Ok(scalar) => is_null_of(scalar, data_type),
        Err(_error) => false,
    }
}

fn is_null_of(scalar: AnyScalar, data_type: &DataType) -> bool {
    let null = !scalar.is_valid() && *scalar.data_type() == *data_type;
    drop(scalar);
    null
}

/// A sparse union of numbers and strings by the ids 5 and 7, two slots: types 5 and 5, picks of null numbers, no null counted.
#[test]
fn the_first_id_is_the_type(rt: HostRuntime) {
    let made = nulls(rt.alloc(), number_or_string(rt.alloc(), Some(&[5, 7])), 2);
    let union = union_of(made).expect(&rt, "a union");
    assert!(rt; union.types().as_slice() == [5, 5].as_slice());
    assert!(rt; union.null_count() == 0);
    assert!(rt; union.offsets().is_none());
    assert!(rt; union_null_of(rt.alloc(), &union, 0, &DataType::Int32));
    assert!(rt; union_null_of(rt.alloc(), &union, 1, &DataType::Int32));
}

/// How many slots a union has, and how many fields; it is dropped.
fn counts(array: Result<UnionArray, Error>) -> Result<(usize, usize), Error> {
    match array {
        Ok(array) => {
            let found = (array.len(), array.fields().len());
            drop(array);
            Ok(found)
        }
        Err(error) => Err(error),
    }
}

#[test]
fn nulls_by_the_call_of_their_kind(rt: HostRuntime) {
    let data_type = number_or_string(rt.alloc(), None).expect(&rt, "number or text");
    assert!(rt; counts(UnionArray::new_null(rt.alloc(), data_type, 3)) == Ok((3, 2)));
}

/// Two fields with the id 5: types 5 and 5, picks of a null text.
#[test]
fn the_later_of_two_fields_with_one_id(rt: HostRuntime) {
    let made = nulls(rt.alloc(), number_or_string(rt.alloc(), Some(&[5, 5])), 2);
    let union = union_of(made).expect(&rt, "a union");
    assert!(rt; union.types().as_slice() == [5, 5].as_slice());
    if union.len() == 2 {
        assert!(rt; union.index(0) == (1, 0));
        assert!(rt; union.index(1) == (1, 1));
    }
    assert!(rt; union_null_of(rt.alloc(), &union, 1, &DataType::Utf8));
}

#[test]
fn without_ids_the_first_field(rt: HostRuntime) {
    let made = nulls(
        rt.alloc(),
        extension(rt.alloc(), number_or_string(rt.alloc(), None)),
        1,
    );
    let union = union_of(made).expect(&rt, "a union");
    assert!(rt; union.types().as_slice() == [0].as_slice());
    assert!(rt; union_null_of(rt.alloc(), &union, 0, &DataType::Int32));
}

/// A union of no field: without a slot it is there, with one it is rejected.
#[test]
fn without_fields(rt: HostRuntime) {
    let alloc = rt.alloc();
    let nothing = Some(Error::OutOfSpec(SpecError::UnionType));
    let empty = union(alloc, numbers(alloc, 0), None, UnionMode::Sparse);
    assert!(rt; refusal(nulls(alloc, empty, 0)) == None);
    let empty = union(alloc, numbers(alloc, 0), None, UnionMode::Sparse);
    assert!(rt; refusal(none(alloc, empty)) == None);
    let empty = union(alloc, numbers(alloc, 0), None, UnionMode::Sparse);
    assert!(rt; refusal(nulls(alloc, empty, 1)) == nothing);
}

/// A dense union of numbers: 2^31 + 1 slots are too many, two are at 0 and 1.
#[test]
fn dense_slots_one_after_another(rt: HostRuntime) {
    let alloc = rt.alloc();
    let dense = union(
        alloc,
        one(alloc, Ok(DataType::Int32)),
        None,
        UnionMode::Dense,
    );
    assert!(rt; refusal(nulls(alloc, dense, 2147483649)) == Some(Error::Overflow));
    let dense = union(
        alloc,
        one(alloc, Ok(DataType::Int32)),
        None,
        UnionMode::Dense,
    );
    let union = union_of(nulls(alloc, dense, 2)).expect(&rt, "a union");
    assert!(rt; union.types().as_slice() == [0, 0].as_slice());
    assert!(rt; union.offsets().map(|offsets| offsets.as_slice()) == Some([0, 1].as_slice()));
}

/// 128 fields, two ids of one field, the id 200.
#[test]
fn refused_types(rt: HostRuntime) {
    let alloc = rt.alloc();
    let many = union(alloc, numbers(alloc, 128), None, UnionMode::Sparse);
    assert!(rt; refusal(none(alloc, many)) == Some(Error::OutOfSpec(SpecError::TooManyFields)));
    let most = union(alloc, numbers(alloc, 127), None, UnionMode::Sparse);
    assert!(rt; refusal(nulls(alloc, most, 1)) == None);
    let ids = union(alloc, numbers(alloc, 1), Some(&[1, 2]), UnionMode::Sparse);
    assert!(rt; refusal(nulls(alloc, ids, 0)) == Some(Error::OutOfSpec(SpecError::IdCount)));
    let ids = union(alloc, numbers(alloc, 1), Some(&[200]), UnionMode::Sparse);
    assert!(rt; refusal(nulls(alloc, ids, 0)) == Some(Error::OutOfSpec(SpecError::IdRange)));
    let ids = union(alloc, numbers(alloc, 1), Some(&[-1]), UnionMode::Dense);
    assert!(rt; refusal(none(alloc, ids)) == Some(Error::OutOfSpec(SpecError::IdRange)));
    let ids = union(alloc, numbers(alloc, 1), Some(&[127]), UnionMode::Dense);
    assert!(rt; refusal(nulls(alloc, list(alloc, ids), 3)) == None);
}

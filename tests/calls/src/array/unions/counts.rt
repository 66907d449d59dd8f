//! How many comparisons equality pushes of picks: one for the two fields, and those of the slots that are picked.
use super::{first_twice, listed, middle, sparse};
use crate::array::counts::counted;
use nest_array::{AnyArray, UnionArray};
use nest_memory::error::Error;
use std::alloc::Global;

/// A union in its variant.
fn any_union(array: Result<UnionArray, Error>) -> Result<AnyArray, Error> {
    array.map(|array| array.boxed())
}

/// A pick of one of two fields that both hold the number 7.
fn seven(alloc: Global, types: &[i8]) -> Result<AnyArray, Error> {
    any_union(sparse(alloc, None, types, &[7], &[7]))
}

/// Whether two arrays were distinguished by at most so many comparisons.
fn differ_within(a: Result<AnyArray, Error>, b: Result<AnyArray, Error>, most: u64) -> bool {
    match counted(a, b) {
        Ok((same, count)) => !same && count <= most,
        Err(_) => false,
    }
}

/// Unions of two fields of one type are distinguished by at most 2 comparisons, in lists by 3; equal ones take 2 each, under a
/// null 1.
#[test]
fn unions_of_two_fields_of_one_type(rt: HostRuntime) {
    let alloc = rt.alloc();
    assert!(rt; differ_within(seven(alloc, &[0]), seven(alloc, &[1]), 2));
    assert!(rt; counted(seven(alloc, &[0]), seven(alloc, &[0])) == Ok((true, 2)));
    assert!(rt; counted(seven(alloc, &[1]), seven(alloc, &[1])) == Ok((true, 2)));
}

#[test]
fn unions_in_lists(rt: HostRuntime) {
    let alloc = rt.alloc();
    let first = listed(alloc, &[0], None);
    assert!(rt; differ_within(first, listed(alloc, &[1], None), 3));
    let null = Some([false].as_slice());
    let first = listed(alloc, &[0], null);
    assert!(rt; counted(first, listed(alloc, &[1], null)) == Ok((true, 1)));
}

#[test]
fn dense_unions_of_one_slot(rt: HostRuntime) {
    let alloc = rt.alloc();
    let first = any_union(first_twice(alloc, &[7, 8], &[7]));
    assert!(rt; counted(first, any_union(first_twice(alloc, &[7, 9], &[5]))) == Ok((true, 4)));
}

#[test]
fn unions_of_a_slice(rt: HostRuntime) {
    let alloc = rt.alloc();
    assert!(rt; counted(any_union(middle(alloc)), any_union(middle(alloc))) == Ok((true, 4)));
}

//! Scalars of unions: a pick by itself, and the scalar of what is picked.
use super::{in_turn, middle, sparse};
use crate::array::arrays::are_same;
use crate::array::scalars::{decoded, scalar_of, slot};
use nest_array::{AnyScalar, UnionArray};
use nest_memory::error::Error;
use std::alloc::Global;

/// The scalar of what slot i picks, `Overflow` where there is no such slot; the array is dropped.
fn picked(alloc: Global, array: Result<UnionArray, Error>, i: usize) -> Result<AnyScalar, Error> {
    let array = array?;
    let scalar = match i < array.len() {
        true => array.value(alloc, i),
        false => Err(Error::Overflow),
    };
    drop(array);
    scalar
}

/// The scalar of what a slot picks, also after a slice, and of the pick itself, which pushes its field.
#[test]
fn projected_columns(rt: HostRuntime) {
    let alloc = rt.alloc();
    let first = picked(alloc, in_turn(alloc), 0);
    assert!(rt; decoded(alloc, first).as_str() == "Int32(10)");
    let last = picked(alloc, in_turn(alloc), 3);
    assert!(rt; decoded(alloc, last).as_str() == "'d'");
    let text = picked(alloc, middle(alloc), 0);
    assert!(rt; decoded(alloc, text).as_str() == "'b'");
    let number = picked(alloc, middle(alloc), 1);
    assert!(rt; decoded(alloc, number).as_str() == "Int32(12)");
}

#[test]
fn unions_by_themselves(rt: HostRuntime) {
    let alloc = rt.alloc();
    assert!(rt; slot(alloc, in_turn(alloc), 0).as_str() == "field 0");
    assert!(rt; slot(alloc, middle(alloc), 0).as_str() == "field 1");
}

/// A pick of one of two fields that both hold the number 7.
fn seven(alloc: Global, types: &[i8]) -> Result<UnionArray, Error> {
    sparse(alloc, None, types, &[7], &[7])
}

#[test]
fn unions_differ_in_their_fields(rt: HostRuntime) {
    let alloc = rt.alloc();
    let pick = |types: &[i8]| scalar_of(alloc, seven(alloc, types), 0);
    assert!(rt; are_same(pick(&[0]), pick(&[0])) == Ok(true));
    assert!(rt; are_same(pick(&[0]), pick(&[1])) == Ok(false));
    let first = picked(alloc, seven(alloc, &[0]), 0);
    assert!(rt; are_same(first, picked(alloc, seven(alloc, &[1]), 0)) == Ok(true));
}

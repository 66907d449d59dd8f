//! The test passes whichever allocation fails: the error is returned, and leaves the array.
use super::scalar_at;
use crate::array::arrays::memory::unless_without_memory;
use crate::array::arrays::structs::four;
use crate::array::arrays::{any_list, lists_of_lists};
use crate::array::dictionaries::four_strings;
use crate::array::maps::two_maps;
use crate::array::unions::in_turn;
use nest_array::{AnyArray, Array};
use nest_memory::error::Error;
use std::alloc::Global;
use std::process::Abort;

/// Two scalars of slot 1, where memory is there for them, are equal.
fn expect_same_twice(rt: &impl Abort, alloc: Global, array: Result<AnyArray, Error>) {
    let Some(array) = unless_without_memory(rt, array) else {
        return;
    };
    let n = array.len();
    if let Some(scalar) = unless_without_memory(rt, scalar_at(alloc, &array, 1)) {
        if let Some(again) = unless_without_memory(rt, scalar_at(alloc, &array, 1)) {
            assert!(rt; again == scalar);
            drop(again);
        }
        assert!(rt; scalar.is_valid());
        drop(scalar);
    }
    assert!(rt; array.len() == n);
    drop(array);
}

/// Copies, values and scalars for which an allocation fails leave their array, of lists, records, maps, unions and
/// dictionaries.
#[test]
fn without_memory(rt: HostRuntime) {
    let alloc = rt.alloc();
    expect_same_twice(&rt, alloc, any_list(lists_of_lists(alloc)));
    let records = four(alloc, &[42, 28, 19, 31]);
    expect_same_twice(&rt, alloc, records.map(|records| records.boxed()));
    expect_same_twice(&rt, alloc, two_maps(alloc).map(|maps| maps.boxed()));
    expect_same_twice(&rt, alloc, in_turn(alloc).map(|picks| picks.boxed()));
    expect_same_twice(&rt, alloc, four_strings(alloc).map(|keyed| keyed.boxed()));
}

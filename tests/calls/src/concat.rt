//! Tests of `concatenate` over arrays of every kind, and of `interleave`, as a crate above `nest_concat` sees them.

mod dictionaries;

use crate::take::arrays::{
    Made, are_same, booleans, bytes, cut, keyed, lists, maps, nulls, numbers, picks, records,
    refusal, sized, sized_bytes, texts, two, wide_bytes, wide_lists, wide_strings,
};
use nest_array::AnyArray;
use nest_concat::{concatenate, interleave};
use nest_memory::error::{ArgumentError, Error};
use std::alloc::{AllocError, Global};

/// The slots of both, one after the other.
pub fn joined(alloc: Global, first: Made, second: Made) -> Made {
    match two(alloc, first, second) {
        Ok(arrays) => {
            let joined = concatenate(alloc, arrays.as_slice());
            drop(arrays);
            joined
        }
        Err(error) => Err(error),
    }
}

/// Whether an array of so many slots is its slices, at each index.
pub fn is_its_slices<F: Fn() -> Made>(alloc: Global, len: usize, array: F) -> bool {
    for k in 0..len + 1 {
        let found = joined(alloc, cut(array(), 0, k), cut(array(), k, len - k));
        if !are_same(found, array()) {
            return false;
        }
    }
    true
}

const BITS: Option<&[bool]> = Some(&[true, false, true, true]);

/// An array of each kind, cut at each index: the slices one after the other are the array.
#[test]
fn flat_slices(rt: HostRuntime) {
    let alloc = rt.alloc();
    let words = [Some("a"), None, Some(""), Some("bcd")];
    let strings: [Option<&[u8]>; 4] = [Some(b"a"), None, Some(b""), Some(b"bcd")];
    assert!(rt; is_its_slices(alloc, 4, || nulls(4)));
    assert!(rt;
        is_its_slices(
            alloc,
            4,
            || booleans(alloc, &[true, false, false, true], BITS)
        )
    );
    assert!(rt;
        is_its_slices(
            alloc,
            4,
            || booleans(alloc, &[true, false, false, true], None)
        )
    );
    assert!(rt; is_its_slices(alloc, 4, || numbers(alloc, &[1, 2, 3, 4], BITS)));
    assert!(rt; is_its_slices(alloc, 4, || texts(alloc, &words)));
    assert!(rt; is_its_slices(alloc, 4, || wide_strings(alloc, &words)));
    assert!(rt; is_its_slices(alloc, 4, || bytes(alloc, &strings)));
    assert!(rt; is_its_slices(alloc, 4, || wide_bytes(alloc, &strings)));
    assert!(rt; is_its_slices(alloc, 4, || sized_bytes(alloc, 2, b"abcdefgh", BITS)));
}

fn ten(alloc: Global) -> Made {
    let bits = [true, true, false, true, true, true, false, true, true, true];
    numbers(alloc, &[1, 2, 3, 4, 5, 6, 7, 8, 9, 10], Some(&bits))
}

fn pairs(alloc: Global) -> Made {
    records(alloc, ten(alloc), ten(alloc), None)
}

#[test]
fn slices_of_lists(rt: HostRuntime) {
    let alloc = rt.alloc();
    assert!(rt;
        is_its_slices(
            alloc,
            4,
            || lists(alloc, ten(alloc), &[1, 3, 5, 5, 9], BITS)
        )
    );
    assert!(rt;
        is_its_slices(
            alloc,
            4,
            || wide_lists(alloc, ten(alloc), &[0, 3, 4, 4, 10], BITS)
        )
    );
    assert!(rt;
        is_its_slices(
            alloc,
            4,
            || maps(alloc, pairs(alloc), &[0, 3, 4, 4, 10], BITS)
        )
    );
    assert!(rt; is_its_slices(alloc, 5, || sized(alloc, ten(alloc), 2, None)));
    let deep = || {
        lists(
            alloc,
            lists(alloc, ten(alloc), &[1, 3, 5, 5, 9], BITS),
            &[0, 1, 1, 2, 4],
            BITS,
        )
    };
    assert!(rt; is_its_slices(alloc, 4, deep));
}

#[test]
fn slices_of_records(rt: HostRuntime) {
    let alloc = rt.alloc();
    let words = [Some("a"), None, Some(""), Some("bcd")];
    let rows = || {
        records(
            alloc,
            lists(alloc, ten(alloc), &[1, 3, 5, 5, 9], None),
            texts(alloc, &words),
            BITS,
        )
    };
    assert!(rt; is_its_slices(alloc, 4, rows));
}

#[test]
fn slices_of_unions(rt: HostRuntime) {
    let alloc = rt.alloc();
    let words = [Some("a"), None, Some(""), Some("bcd")];
    assert!(rt;
        is_its_slices(
            alloc,
            4,
            || picks(alloc, &[0, 1, 1, 0], None, ten(alloc), texts(alloc, &words))
        )
    );
    let offsets: Option<&[i32]> = Some(&[7, 0, 2, 1]);
    assert!(rt;
        is_its_slices(
            alloc,
            4,
            || picks(
                alloc,
                &[0, 1, 1, 0],
                offsets,
                ten(alloc),
                texts(alloc, &words)
            )
        )
    );
    let late = || cut(
        picks(alloc, &[1, 0, 1, 1, 0, 0, 1], None, ten(alloc), ten(alloc)),
        2,
        4,
    );
    assert!(rt; is_its_slices(alloc, 4, late));
}

#[test]
fn slices_of_nested_unions(rt: HostRuntime) {
    let alloc = rt.alloc();
    let sparse = || picks(
        alloc,
        &[0, 1, 1, 0, 1, 0, 0, 1, 1, 0],
        None,
        ten(alloc),
        ten(alloc),
    );
    let offsets: Option<&[i32]> = Some(&[0, 1, 2, 3, 4, 5, 6, 7, 8, 9]);
    let dense = || picks(
        alloc,
        &[0, 1, 1, 0, 1, 0, 0, 1, 1, 0],
        offsets,
        sparse(),
        ten(alloc),
    );
    assert!(rt; is_its_slices(alloc, 4, || lists(alloc, dense(), &[1, 3, 5, 5, 9], BITS)));
    assert!(rt; is_its_slices(alloc, 5, || sized(alloc, sparse(), 2, None)));
    assert!(rt; is_its_slices(alloc, 10, || records(alloc, sparse(), dense(), None)));
    let rows = || lists(alloc, ten(alloc), &[1, 3, 5, 5, 9], BITS);
    assert!(rt;
        is_its_slices(
            alloc,
            4,
            || picks(alloc, &[1, 0, 1, 0], None, rows(), dense())
        )
    );
    assert!(rt;
        is_its_slices(
            alloc,
            3,
            || picks(alloc, &[1, 0, 1], Some(&[9, 3, 0]), rows(), dense())
        )
    );
}

/// Whether it is a dense union with these offsets.
fn has_offsets(array: &Made, expected: &[i32]) -> bool {
    let Ok(AnyArray::Union(array)) = array else {
        return false;
    };
    match array.offsets() {
        Some(offsets) => offsets.as_slice() == expected,
        None => false,
    }
}

/// Dense unions: offsets that fall, only what is picked of a field is joined; an empty sparse union.
#[test]
fn parts_of_fields(rt: HostRuntime) {
    let alloc = rt.alloc();
    let first = picks(
        alloc,
        &[0, 1, 0],
        Some(&[5, 1, 3]),
        ten(alloc),
        numbers(alloc, &[11, 12, 13], None),
    );
    let second = picks(
        alloc,
        &[1, 1],
        Some(&[2, 0]),
        ten(alloc),
        numbers(alloc, &[21, 22, 23], None),
    );
    let found = joined(alloc, first, second);
    let expected = || {
        picks(
            alloc,
            &[0, 1, 0, 1, 1],
            Some(&[2, 0, 0, 3, 1]),
            numbers(alloc, &[4, 5, 6], Some(&[true, true, true])),
            numbers(alloc, &[12, 21, 22, 23], None),
        )
    };
    assert!(rt; has_offsets(&found, &[2, 0, 0, 3, 1]));
    assert!(rt; are_same(found, expected()));
}

#[test]
fn an_empty_union(rt: HostRuntime) {
    let alloc = rt.alloc();
    let some = || picks(alloc, &[0, 1], None, ten(alloc), ten(alloc));
    let none = || cut(picks(alloc, &[0, 1, 1], None, ten(alloc), ten(alloc)), 2, 0);
    assert!(rt; are_same(joined(alloc, none(), some()), some()));
    assert!(rt; are_same(joined(alloc, some(), none()), some()));
    assert!(rt; are_same(joined(alloc, none(), none()), none()));
}

/// Lists whose items don't begin at 0, an empty array, a null row; a validity of one of two arrays.
#[test]
fn lists_one_after_another(rt: HostRuntime) {
    let alloc = rt.alloc();
    let first = lists(alloc, numbers(alloc, &[0, 1, 2, 3], None), &[1, 2, 3], None);
    let none = lists(alloc, numbers(alloc, &[8], None), &[1], None);
    let third = lists(
        alloc,
        numbers(alloc, &[4, 5, 6], None),
        &[0, 2, 3],
        Some(&[true, false]),
    );
    let found = joined(alloc, joined(alloc, first, none), third);
    let expected = lists(
        alloc,
        numbers(alloc, &[1, 2, 4, 5, 6], None),
        &[0, 1, 2, 4, 5],
        Some(&[true, true, true, false]),
    );
    assert!(rt; are_same(found, expected));
}

#[test]
fn a_validity_of_one(rt: HostRuntime) {
    let alloc = rt.alloc();
    let first = numbers(alloc, &[1, 2, 3], None);
    let second = numbers(alloc, &[4, 5], Some(&[false, true]));
    let found = joined(alloc, first, second);
    let bits = [true, true, true, false, true];
    assert!(rt; are_same(found, numbers(alloc, &[1, 2, 3, 0, 5], Some(&bits))));
}

const TYPES: Option<Error> = Some(Error::InvalidArgumentError(ArgumentError::ItemType));

/// No array, and one of another data type, unions of both modes.
#[test]
fn no_array(rt: HostRuntime) {
    assert!(rt; refusal(concatenate(rt.alloc(), &[])) == TYPES);
}

#[test]
fn other_types(rt: HostRuntime) {
    let alloc = rt.alloc();
    let found = joined(alloc, ten(alloc), booleans(alloc, &[true], None));
    assert!(rt; refusal(found) == TYPES);
    let found = joined(alloc, texts(alloc, &[]), wide_strings(alloc, &[]));
    assert!(rt; refusal(found) == TYPES);
    let sparse = picks(alloc, &[0], None, ten(alloc), ten(alloc));
    let dense = picks(alloc, &[0], Some(&[0]), ten(alloc), ten(alloc));
    assert!(rt; refusal(joined(alloc, sparse, dense)) == TYPES);
}

/// Unions of dictionaries, and dictionaries of unions.
#[test]
fn unions_and_dictionaries(rt: HostRuntime) {
    let alloc = rt.alloc();
    let picked = || picks(
        alloc,
        &[0, 1],
        None,
        keyed(alloc, &[3, 0], None, ten(alloc)),
        ten(alloc),
    );
    assert!(rt; is_its_slices(alloc, 2, picked));
    let both = || picks(alloc, &[0, 1], None, ten(alloc), ten(alloc));
    let found = |values: Made| keyed(alloc, &[1, 0], None, values);
    assert!(rt; is_its_slices(alloc, 2, || found(both())));
    let other = picks(alloc, &[1, 0], None, ten(alloc), ten(alloc));
    assert!(rt; refusal(joined(alloc, found(both()), found(other))).is_none());
}

/// Lists of twice 2^31 - 1 nulls; more nulls than a length can be; 2^31 picks of a field, and one more.
#[test]
fn too_many(rt: HostRuntime) {
    let alloc = rt.alloc();
    let longest = || lists(alloc, nulls(2147483647), &[0, 2147483647], None);
    assert!(rt; refusal(joined(alloc, longest(), longest())) == Some(Error::Overflow));
    let found = joined(alloc, nulls(usize::MAX), nulls(1));
    assert!(rt; refusal(found) == Some(Error::Overflow));
    assert!(rt;
        are_same(
            joined(alloc, nulls(usize::MAX - 1), nulls(1)),
            nulls(usize::MAX)
        )
    );
}

#[test]
fn too_many_unions(rt: HostRuntime) {
    let alloc = rt.alloc();
    let widest = || picks(
        alloc,
        &[0, 0],
        Some(&[0, 2147483647]),
        nulls(2147483648),
        nulls(1),
    );
    let one = |field: i8| picks(alloc, &[field], Some(&[0]), nulls(1), nulls(1));
    let expected = picks(
        alloc,
        &[0, 0, 1],
        Some(&[0, 2147483647, 0]),
        nulls(2147483648),
        nulls(1),
    );
    assert!(rt; are_same(joined(alloc, widest(), one(1)), expected));
    assert!(rt; refusal(joined(alloc, widest(), one(0))) == Some(Error::Overflow));
    assert!(rt; refusal(joined(alloc, one(0), widest())) == Some(Error::Overflow));
}

/// Slots of both, each by its array, 0 or 1, and its index there.
fn interleaved(alloc: Global, first: Made, second: Made, indices: &[(usize, usize)]) -> Made {
    match two(alloc, first, second) {
        Ok(arrays) => {
            let found = interleave(alloc, arrays.as_slice(), indices);
            drop(arrays);
            found
        }
        Err(error) => Err(error),
    }
}

/// Slots of several arrays, in any order, some twice, none of one; of unions and of no array.
#[test]
fn slots_by_array_and_index(rt: HostRuntime) {
    let alloc = rt.alloc();
    let bits: Option<&[bool]> = Some(&[false, true]);
    let numbered = || numbers(alloc, &[7, 8], bits);
    let indices = [(1, 2), (0, 1), (1, 0), (0, 0), (1, 2)];
    let found = interleaved(
        alloc,
        numbered(),
        numbers(alloc, &[1, 2, 3], None),
        &indices,
    );
    let expected = numbers(
        alloc,
        &[3, 8, 1, 0, 3],
        Some(&[true, true, true, false, true]),
    );
    assert!(rt; are_same(found, expected));
    let found = interleaved(alloc, numbered(), numbers(alloc, &[], None), &[(0, 1)]);
    assert!(rt; are_same(found, numbers(alloc, &[8], None)));
    let found = interleaved(alloc, numbered(), numbered(), &[]);
    assert!(rt; are_same(found, numbers(alloc, &[], None)));
    let rows = || lists(alloc, ten(alloc), &[1, 3, 5, 5, 9], BITS);
    let found = interleaved(
        alloc,
        rows(),
        cut(rows(), 2, 2),
        &[(1, 0), (0, 0), (1, 1), (0, 1)],
    );
    let bits: Option<&[bool]> = Some(&[true, true, true, false]);
    let items = numbers(
        alloc,
        &[2, 3, 6, 7, 8, 9],
        Some(&[true, false, true, false, true, true]),
    );
    assert!(rt; are_same(found, lists(alloc, items, &[0, 0, 2, 6, 6], bits)));
}

#[test]
fn unions_by_array_and_index(rt: HostRuntime) {
    let alloc = rt.alloc();
    let first = picks(
        alloc,
        &[0, 1, 0],
        Some(&[5, 1, 3]),
        ten(alloc),
        numbers(alloc, &[11, 12, 13], None),
    );
    let second = picks(
        alloc,
        &[1, 1],
        Some(&[2, 0]),
        ten(alloc),
        numbers(alloc, &[21, 22, 23], None),
    );
    let found = interleaved(alloc, first, second, &[(1, 1), (0, 2), (1, 0), (0, 1)]);
    let expected = picks(
        alloc,
        &[1, 0, 1, 1],
        Some(&[0, 0, 1, 2]),
        numbers(alloc, &[4], Some(&[true])),
        numbers(alloc, &[21, 23, 12], None),
    );
    assert!(rt; are_same(found, expected));
}

#[test]
fn of_no_array(rt: HostRuntime) {
    let alloc = rt.alloc();
    assert!(rt; refusal(interleave(alloc, &[], &[])) == TYPES);
    let found = interleaved(alloc, ten(alloc), booleans(alloc, &[true], None), &[(1, 0)]);
    assert!(rt; refusal(found) == TYPES);
}

// Passes whichever allocation fails.
#[test]
fn indices_without_memory(rt: HostRuntime) {
    let alloc = rt.alloc();
    let row = || picks(
        alloc,
        &[0, 1, 0],
        Some(&[5, 1, 3]),
        ten(alloc),
        numbers(alloc, &[11, 12, 13], None),
    );
    match row() {
        Ok(expected) => match interleaved(
            alloc,
            cut(row(), 1, 2),
            cut(row(), 0, 1),
            &[(1, 0), (0, 0), (0, 1)],
        ) {
            Ok(found) => {
                let same = found == expected;
                drop(found);
                drop(expected);
                assert!(rt; same);
            }
            Err(error) => {
                drop(expected);
                assert!(rt; error == Error::Memory(AllocError));
            }
        },
        Err(error) => assert!(rt; error == Error::Memory(AllocError)),
    }
}

// Passes whichever allocation fails.
#[test]
fn without_memory(rt: HostRuntime) {
    let alloc = rt.alloc();
    let row = || records(
        alloc,
        ten(alloc),
        lists(alloc, ten(alloc), &[0, 1, 1, 2, 2, 4, 5, 6, 7, 8, 10], None),
        None,
    );
    match row() {
        Ok(expected) => match joined(alloc, cut(row(), 0, 3), cut(row(), 3, 7)) {
            Ok(found) => {
                let same = found == expected;
                drop(found);
                drop(expected);
                assert!(rt; same);
            }
            Err(error) => {
                drop(expected);
                assert!(rt; error == Error::Memory(AllocError));
            }
        },
        Err(error) => assert!(rt; error == Error::Memory(AllocError)),
    }
}

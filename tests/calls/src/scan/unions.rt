//! What the slots of unions pick, one after another.
use crate::scan::maps::texts;
use crate::scan::parts::{both, buffer, numbers, two};
use crate::scan::walks::{expect_decoded, spell};
use nest_array::{AnyArray, UnionArray};
use nest_memory::datatypes::field::Field;
use nest_memory::datatypes::{DataType, UnionMode};
use nest_memory::error::Error;
use nest_scan::{Scan, UnionIter};
use std::alloc::Global;

/// A sparse union of two fields of these types.
fn sparse(
    alloc: Global,
    fields: Result<Vec<Field>, Error>,
    ids: Option<&[i32]>,
    types: &[i8],
    children: Result<Vec<AnyArray>, Error>,
) -> Result<UnionArray, Error> {
    let ids = match ids {
        None => Ok(None),
        Some(ids) => Ok(Some(Vec::from_slice(alloc, ids)?)),
    };
    let data_type = both(fields, ids).map(|(fields, ids)| DataType::Union(
        fields,
        ids,
        UnionMode::Sparse,
    ));
    match both(both(data_type, children), buffer(alloc, types)) {
        Ok(((data_type, children), types)) => {
            UnionArray::try_new(data_type, types, children, None)
        }
        Err(error) => Err(error),
    }
}

/// Eleven slots of two fields, by the ids 5 and 7: from the first the numbers from 0 on, from the second those from 100 on.
fn eleven(alloc: Global) -> Result<UnionArray, Error> {
    let first = Field::new(alloc, "a", DataType::Int32, true);
    let fields = two(alloc, first, Field::new(alloc, "b", DataType::Int32, true));
    let low = numbers(alloc, &[0, 1, 2, 3, 4, 5, 6, 7, 8, 9, 10]);
    let high = [100, 101, 102, 103, 104, 105, 106, 107, 108, 109, 110];
    let children = two(alloc, low, numbers(alloc, high.as_slice()));
    let types = [5, 7, 5, 7, 7, 7, 5, 7, 7, 5, 5];
    sparse(alloc, fields, Some(&[5, 7]), types.as_slice(), children)
}

/// So many picks from the front, each after how many were left.
fn picks(alloc: Global, slots: UnionIter<'_>, n: usize) -> Result<String, Error> {
    let mut slots = slots;
    let mut text = String::new(alloc);
    for _ in 0..n {
        spell(Some(slots.len()), &mut text)?;
        spell(slots.next(), &mut text)?;
    }
    drop(slots);
    Ok(text)
}

/// A sparse union of two fields of numbers by the ids 5 and 7: 11 items, from 11 down to none left.
#[test]
fn eleven_union_values_and_no_more(rt: HostRuntime) {
    let alloc = rt.alloc();
    let array = eleven(alloc).expect(&rt, "eleven slots");
    let wanted = "11 Int32(0) 10 Int32(101) 9 Int32(2) 8 Int32(103) 7 Int32(104) 6 Int32(105) \
        5 Int32(6) 4 Int32(107) 3 Int32(108) 2 Int32(9) 1 Int32(10) 0 - 0 - ";
    expect_decoded(&rt, picks(alloc, UnionIter::new(alloc, &array), 13), wanted);
}

/// The numbers from 10 to 13 and the letters from a to d in turn.
fn in_turn(alloc: Global) -> Result<UnionArray, Error> {
    let first = Field::new(alloc, "n", DataType::Int32, true);
    let fields = two(alloc, first, Field::new(alloc, "t", DataType::Utf8, true));
    let letters = texts(alloc, &[0, 1, 2, 3, 4], b"abcd");
    let children = two(alloc, numbers(alloc, &[10, 11, 12, 13]), letters);
    sparse(alloc, fields, None, &[0, 1, 0, 1], children)
}

/// What a clone picks that was made after the first pick, and the rest.
fn after_the_first(alloc: Global, array: &UnionArray) -> Result<String, Error> {
    let mut text = String::new(alloc);
    let mut slots = array.iter(alloc);
    spell(slots.next(), &mut text)?;
    let again = slots.clone()?;
    text.push_str(picks(alloc, again, 2)?.as_str())?;
    text.push_str(picks(alloc, slots, 2)?.as_str())?;
    Ok(text)
}

/// A slice of a union; a clone continues from the same slot.
#[test]
fn unions_of_a_slice(rt: HostRuntime) {
    let alloc = rt.alloc();
    let array = in_turn(alloc).expect(&rt, "four slots");
    assert!(rt; array.len() == 4);
    let array = array.sliced(1, 2);
    expect_decoded(
        &rt,
        after_the_first(alloc, &array),
        "b 1 Int32(12) 0 - 1 Int32(12) 0 - ",
    );
}

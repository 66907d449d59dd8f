//! The builder of fixed-size binary values.
//!
//! Byte fixed-size binary values: all items or none, popped, read from both ends, joined; parts and room are checked.

use nest_array::{FixedSizeBinaryArray, FixedSizeBinaryValues};
use nest_build::array::MutableArray;
use nest_build::fixed_size_binary::MutableFixedSizeBinaryArray;
use nest_build::push::{TryExtend, TryExtendFromSelf, TryPush};
use nest_flat::plain::Plain;
use nest_memory::bitmap::mutable::MutableBitmap;
use nest_memory::datatypes::DataType;
use nest_memory::error::{ArgumentError, Error, SpecError};
use std::alloc::Global;

const OTHER_SIZE: Error = Error::InvalidArgumentError(ArgumentError::ItemSize);

fn extended(
    builder: &mut MutableFixedSizeBinaryArray,
    items: &[Option<&[u8]>],
) -> Result<(), Error> {
    TryExtend::try_extend(builder, items.iter().copied())
}

#[test]
fn all_items_are_taken_or_none(rt: HostRuntime) {
    let mut pairs = MutableFixedSizeBinaryArray::new(rt.alloc(), 2);
    let mixed = [
        Some(b"ab".as_slice()),
        Some(b"c".as_slice()),
        Some(b"de".as_slice()),
    ];
    assert!(rt; extended(&mut pairs, mixed.as_slice()) == Err(OTHER_SIZE));
    assert!(rt; pairs.is_empty());
    extended(&mut pairs, [Some(b"ab".as_slice()), None].as_slice()).expect(&rt, "extended");
    assert!(rt; pairs.pop().expect(&rt, "a row or none").is_none());
    assert!(rt; pairs.len() == 1);
    let last = pairs.pop().expect(&rt, "a row or none");
    assert!(rt; is_bytes(&last, b"ab"));
    assert!(rt; pairs.pop().expect(&rt, "a row or none").is_none());
}

fn is_bytes(item: &Option<Vec<u8>>, bytes: &[u8]) -> bool {
    match item {
        None => false,
        Some(item) => item.as_slice() == bytes,
    }
}

/// How many slots were frozen, and how many of them are null; the array is dropped.
fn counts(array: Result<FixedSizeBinaryArray, Error>) -> Option<(usize, usize)> {
    match array {
        Err(_) => None,
        Ok(array) => {
            let found = (array.len(), array.null_count());
            drop(array);
            Some(found)
        }
    }
}

#[test]
fn plain_bytes_of_the_size_are_pushed(rt: HostRuntime) {
    let mut pairs = MutableFixedSizeBinaryArray::new(rt.alloc(), 2);
    pairs
        .try_push_plain(Some(Plain::Bytes(b"ab")))
        .expect(&rt, "a value more");
    assert!(rt; pairs.try_push_plain(Some(Plain::Bytes(b"abc"))) == Err(OTHER_SIZE));
    let text = pairs.try_push_plain(Some(Plain::Text("ab")));
    assert!(rt; text == Err(Error::InvalidArgumentError(ArgumentError::ItemType)));
    TryPush::try_push(&mut pairs, Some(b"cd".as_slice())).expect(&rt, "a row more");
    pairs.push(None).expect(&rt, "a row more");
    assert!(rt; pairs.len() == 3);
    if pairs.len() == 3 {
        assert!(rt; pairs.value(1) == b"cd".as_slice());
        assert!(rt; pairs.get(2).is_none());
        assert!(rt; pairs.holds(0, &Plain::Bytes(b"ab")));
        assert!(rt; !pairs.holds(0, &Plain::Text("ab")));
    }
    assert!(rt; pairs.capacity() >= 3);
    assert!(rt; FixedSizeBinaryValues::values(&pairs).len() == 6);
    assert!(rt; pairs.size() == 2);
    assert!(rt; counts(pairs.freeze()) == Some((3, 1)));
    assert!(rt; pairs.validity().is_none());
}

/// The bytes of all slots from the back, zeros under nulls; the same of the values alone.
fn backwards(pairs: &MutableFixedSizeBinaryArray, text: &mut Vec<u8>) -> Result<(), Error> {
    for item in pairs.iter().rev() {
        text.extend_from_slice(item.unwrap_or(b"-"))?;
    }
    for value in pairs.iter_values().rev() {
        text.extend_from_slice(value)?;
    }
    Ok(())
}

#[test]
fn slots_are_read_from_both_ends(rt: HostRuntime) {
    let mut pairs = MutableFixedSizeBinaryArray::new(rt.alloc(), 2);
    extended(&mut pairs, [Some(b"ab".as_slice()), None].as_slice()).expect(&rt, "extended");
    let mut text = Vec::new(rt.alloc());
    backwards(&pairs, &mut text).expect(&rt, "backwards");
    assert!(rt; text.as_slice() == b"-ab\0\0ab".as_slice());
}

#[test]
fn builders_of_the_same_slots_are_equal(rt: HostRuntime) {
    let mut pushed = MutableFixedSizeBinaryArray::new(rt.alloc(), 2);
    extended(&mut pushed, [Some(b"ab".as_slice()), None].as_slice()).expect(&rt, "extended");
    let made = MutableFixedSizeBinaryArray::from(
        rt.alloc(),
        [Some(*b"ab"), None].as_slice(),
    ).expect(&rt, "text");
    assert!(rt; pushed == made);
    let full = MutableFixedSizeBinaryArray::from(rt.alloc(), [Some(*b"ab")].as_slice()).expect(
        &rt, "text",
    );
    assert!(rt; full.validity().is_none());
    assert!(rt; pushed != full);
}

#[test]
fn builders_of_one_type_are_joined(rt: HostRuntime) {
    let alloc = rt.alloc();
    let mut first = MutableFixedSizeBinaryArray::new(alloc, 2);
    let mut second = MutableFixedSizeBinaryArray::new(alloc, 2);
    extended(&mut first, [Some(b"ab".as_slice())].as_slice()).expect(&rt, "extended");
    extended(&mut second, [None, Some(b"cd".as_slice())].as_slice()).expect(&rt, "extended");
    TryExtendFromSelf::try_extend_from_self(&mut first, &second).expect(&rt, "rows more");
    assert!(rt; first.values().as_slice() == b"ab\0\0cd".as_slice());
    let single = MutableFixedSizeBinaryArray::new(alloc, 1);
    let other = TryExtendFromSelf::try_extend_from_self(&mut first, &single);
    assert!(rt; other == Err(Error::InvalidArgumentError(ArgumentError::ItemType)));
    assert!(rt; counts(first.freeze()) == Some((3, 1)));
}

/// What a constructor rejected; a builder is dropped.
fn refusal(made: Result<MutableFixedSizeBinaryArray, Error>) -> Option<Error> {
    match made {
        Err(error) => Some(error),
        Ok(builder) => {
            drop(builder);
            None
        }
    }
}

fn of_parts(alloc: Global, data_type: DataType, bytes: &[u8], bits: usize) -> Option<Error> {
    let mut validity = MutableBitmap::new(alloc);
    if let Err(error) = validity.extend_constant(bits, true) {
        drop(data_type);
        return Some(error);
    }
    match Vec::from_slice(alloc, bytes) {
        Ok(values) => refusal(MutableFixedSizeBinaryArray::try_new(
            data_type,
            values,
            Some(validity),
        )),
        Err(refused) => {
            drop(data_type);
            Some(Error::Memory(refused))
        }
    }
}

#[test]
fn parts_are_checked_in_order(rt: HostRuntime) {
    let alloc = rt.alloc();
    let pairs = |size: usize| DataType::FixedSizeBinary(size);
    assert!(rt;
        of_parts(alloc, DataType::Int8, b"abc", 1) == Some(Error::OutOfSpec(SpecError::WrongType))
    );
    assert!(rt;
        of_parts(alloc, pairs(0), b"abc", 1) == Some(Error::OutOfSpec(SpecError::ZeroSize))
    );
    assert!(rt;
        of_parts(alloc, pairs(2), b"abc", 2) == Some(Error::OutOfSpec(SpecError::NotMultiple))
    );
    assert!(rt;
        of_parts(alloc, pairs(2), b"abcd", 1) == Some(Error::OutOfSpec(SpecError::ValidityLength))
    );
    assert!(rt; of_parts(alloc, pairs(2), b"abcd", 2) == None);
}

#[test]
fn too_much_capacity_is_rejected(rt: HostRuntime) {
    let half = 9223372036854775808;
    let made = MutableFixedSizeBinaryArray::with_capacity(rt.alloc(), half, 2);
    assert!(rt; refusal(made) == Some(Error::Overflow));
}

#[test]
fn items_are_pushed_and_joined_by_its_own_calls(rt: HostRuntime) {
    let mut pairs = MutableFixedSizeBinaryArray::with_capacity(rt.alloc(), 2, 3).expect(
        &rt, "memory",
    );
    pairs.reserve(3).expect(&rt, "room");
    pairs
        .try_push(Some(b"ab".as_slice()))
        .expect(&rt, "a row more");
    let mut more = MutableFixedSizeBinaryArray::new(rt.alloc(), 2);
    more.try_push(None).expect(&rt, "a row more");
    pairs.try_extend_from_self(&more).expect(&rt, "rows more");
    let rows = pairs.len();
    let bytes = pairs.values().len();
    assert!(rt; rows == 2);
    assert!(rt; bytes == 4);
}

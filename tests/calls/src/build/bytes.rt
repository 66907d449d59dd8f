//! The builders of bytes, as builders of any kind, and boxed ones.

use nest_array::AnyArray;
use nest_build::array::MutableArray;
use nest_build::push::{TryExtend, TryExtendFromSelf, TryPush};
use nest_flat::binary::BinaryArray;
use nest_flat::binary::mutable::MutableBinaryArray;
use nest_flat::plain::Plain;
use nest_memory::error::{ArgumentError, Error};
use std::alloc::Global;

type Bytes = MutableBinaryArray<i64>;

const OTHER_KIND: Error = Error::InvalidArgumentError(ArgumentError::ItemType);

/// The bytes 0 and 255, and a null.
fn two(alloc: Global) -> Result<Bytes, Error> {
    let mut bytes = Bytes::new(alloc)?;
    let items = [Some([0u8, 255].as_slice()), None];
    match TryExtend::try_extend(&mut bytes, items.as_slice().iter().copied()) {
        Ok(()) => Ok(bytes),
        Err(error) => {
            drop(bytes);
            Err(error)
        }
    }
}

/// The raw bytes and how many slots, of a large array of bytes; it is dropped.
fn counts(array: Result<AnyArray, Error>) -> Option<(usize, usize)> {
    match array {
        Err(_) => None,
        Ok(array) => {
            let found = counts_of(&array);
            drop(array);
            found
        }
    }
}

fn counts_of(array: &AnyArray) -> Option<(usize, usize)> {
    let AnyArray::LargeBinary(bytes) = array else {
        return None;
    };
    Some((BinaryArray::values(bytes).len(), BinaryArray::len(bytes)))
}

#[test]
fn bytes_of_its_type_are_pushed(rt: HostRuntime) {
    let mut bytes = two(rt.alloc()).expect(&rt, "two strings");
    assert!(rt; TryPush::try_push(&mut bytes, Some(b"".as_slice())) == Ok(()));
    assert!(rt; bytes.try_push_plain(Some(Plain::Bytes(b"x"))) == Ok(()));
    assert!(rt; bytes.try_push_plain(Some(Plain::Text("x"))) == Err(OTHER_KIND));
    assert!(rt; counts(bytes.as_box()) == Some((3, 4)));
}

#[test]
fn bytes_are_joined(rt: HostRuntime) {
    let mut bytes = two(rt.alloc()).expect(&rt, "two strings");
    let more = two(rt.alloc()).expect(&rt, "two strings");
    assert!(rt; TryExtendFromSelf::try_extend_from_self(&mut bytes, &more) == Ok(()));
    assert!(rt; MutableArray::len(&bytes) == 4);
    if MutableArray::len(&bytes) == 4 {
        assert!(rt; bytes.holds(2, &Plain::Bytes([0u8, 255].as_slice())));
        assert!(rt; !MutableArray::is_valid(&bytes, 3));
    }
    assert!(rt; counts(bytes.as_box()) == Some((4, 4)));
}

/// Adds bytes where nothing waits.
fn push(builder: &mut Box<dyn MutableArray>, value: &[u8]) -> Result<(), Error> {
    if !builder.is_complete() {
        return Err(Error::InvalidArgumentError(ArgumentError::Incomplete));
    }
    builder.try_push_plain(Some(Plain::Bytes(value)))
}

/// Keeps the first slot.
fn keep_one(builder: &mut Box<dyn MutableArray>) {
    if builder.is_complete() && !builder.is_empty() {
        builder.truncate(1);
    }
}

#[test]
fn a_boxed_builder_of_bytes(rt: HostRuntime) {
    let bytes = two(rt.alloc()).expect(&rt, "two strings");
    let mut builder: Box<dyn MutableArray> = Box::new(rt.alloc(), bytes).expect(&rt, "memory");
    assert!(rt; push(&mut builder, b"abc") == Ok(()));
    assert!(rt; builder.len() == 3);
    keep_one(&mut builder);
    assert!(rt; push(&mut builder, b"d") == Ok(()));
    assert!(rt; counts(builder.as_box()) == Some((3, 2)));
}

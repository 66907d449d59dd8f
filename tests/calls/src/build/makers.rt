//! Byte fixed-size binary values from items: arrays and builders.
//!
//! Arrays and builders of items of fixed size: a validity exactly where one is null, size 0 and items of another size rejected;
//! bytes written over.

use nest_array::FixedSizeBinaryArray;
use nest_build::fixed_size_binary::MutableFixedSizeBinaryArray;
use nest_memory::error::{ArgumentError, Error, SpecError};
use std::alloc::Global;

const OTHER_SIZE: Error = Error::InvalidArgumentError(ArgumentError::ItemSize);

/// How many slots, nulls and bytes an array has, and whether a validity is there; it is dropped.
fn counts(
    array: Result<FixedSizeBinaryArray, Error>,
) -> Result<(usize, usize, usize, bool), Error> {
    match array {
        Err(error) => Err(error),
        Ok(array) => {
            let found = (
                array.len(),
                array.null_count(),
                array.values().len(),
                array.validity().is_some(),
            );
            drop(array);
            Ok(found)
        }
    }
}

fn array_of(
    alloc: Global,
    items: &[Option<&[u8]>],
    size: usize,
) -> Result<FixedSizeBinaryArray, Error> {
    FixedSizeBinaryArray::try_from_iter(alloc, items.iter().copied(), size)
}

#[test]
fn arrays_of_items(rt: HostRuntime) {
    let items = [Some(b"ab".as_slice()), None, Some(b"cd".as_slice())];
    let empty = [None::<&[u8]>; 0];
    assert!(rt; counts(array_of(rt.alloc(), items.as_slice(), 2)) == Ok((3, 1, 6, true)));
    assert!(rt; counts(array_of(rt.alloc(), &items[..1], 2)) == Ok((1, 0, 2, false)));
    assert!(rt; counts(array_of(rt.alloc(), empty.as_slice(), 3)) == Ok((0, 0, 0, false)));
    let other_name = FixedSizeBinaryArray::from_iter(rt.alloc(), items.iter().copied(), 2);
    assert!(rt; counts(other_name) == Ok((3, 1, 6, true)));
}

#[test]
fn items_of_another_size_make_no_array(rt: HostRuntime) {
    let items = [Some(b"ab".as_slice()), None, Some(b"c".as_slice())];
    let zero = Err(Error::OutOfSpec(SpecError::ZeroSize));
    assert!(rt; counts(array_of(rt.alloc(), items.as_slice(), 0)) == zero);
    assert!(rt; counts(array_of(rt.alloc(), items.as_slice(), 1)) == Err(OTHER_SIZE));
    assert!(rt; counts(array_of(rt.alloc(), items.as_slice(), 2)) == Err(OTHER_SIZE));
}

#[test]
fn arrays_of_rows(rt: HostRuntime) {
    let full = FixedSizeBinaryArray::from(rt.alloc(), [Some(*b"ab")].as_slice());
    assert!(rt; counts(full) == Ok((1, 0, 2, false)));
    let array = FixedSizeBinaryArray::from(rt.alloc(), [None, Some(*b"ab")].as_slice()).expect(
        &rt, "text",
    );
    assert!(rt; array.values().as_slice() == b"\0\0ab".as_slice());
    assert!(rt; array.null_count() == 1);
}

fn builder_of(
    alloc: Global,
    items: &[Option<&[u8]>],
    size: usize,
) -> Result<MutableFixedSizeBinaryArray, Error> {
    MutableFixedSizeBinaryArray::try_from_iter(alloc, items.iter().copied(), size)
}

/// The array of a builder, which is dropped.
fn frozen(
    builder: Result<MutableFixedSizeBinaryArray, Error>,
) -> Result<FixedSizeBinaryArray, Error> {
    match builder {
        Err(error) => Err(error),
        Ok(mut builder) => {
            let array = builder.freeze();
            drop(builder);
            array
        }
    }
}

#[test]
fn builders_of_items(rt: HostRuntime) {
    let items = [Some(b"ab".as_slice()), None, Some(b"c".as_slice())];
    let zero = Err(Error::OutOfSpec(SpecError::ZeroSize));
    assert!(rt; counts(frozen(builder_of(rt.alloc(), &items[..2], 2))) == Ok((2, 1, 4, true)));
    assert!(rt; counts(frozen(builder_of(rt.alloc(), items.as_slice(), 2))) == Err(OTHER_SIZE));
    assert!(rt; counts(frozen(builder_of(rt.alloc(), items.as_slice(), 0))) == zero);
}

/// Writes over the first byte.
fn write_over(builder: &mut MutableFixedSizeBinaryArray) {
    let bytes = builder.values_mut_slice();
    if !bytes.is_empty() {
        bytes[0] = b'x';
    }
}

#[test]
fn bytes_are_written_over(rt: HostRuntime) {
    let mut builder = builder_of(rt.alloc(), [Some(b"ab".as_slice()), None].as_slice(), 2).expect(
        &rt,
        "builder of",
    );
    write_over(&mut builder);
    assert!(rt; builder.values().as_slice() == b"xb\0\0".as_slice());
    assert!(rt; builder.len() == 2);
}

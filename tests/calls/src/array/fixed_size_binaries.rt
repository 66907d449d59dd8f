//! Arrays of byte strings by their examples rows.

use nest_array::{Array, FixedSizeBinaryArray};
use nest_memory::bitmap::immutable::Bitmap;
use nest_memory::buffer::Buffer;
use nest_memory::datatypes::DataType;
use nest_memory::datatypes::physical_type::PhysicalType;
use nest_memory::error::{Error, SpecError};
use std::alloc::Global;

const ROWS: [[u8; 2]; 3] = [*b"ab", *b"cd", *b"ef"];

const OTHER_ROWS: [[u8; 2]; 3] = [*b"ab", *b"xy", *b"ef"];

fn bits_of(alloc: Global, bits: Option<&[bool]>) -> Result<Option<Bitmap>, Error> {
    match bits {
        None => Ok(None),
        Some(bits) => Ok(Some(Bitmap::from_bools(alloc, bits)?)),
    }
}

fn bytes_of(alloc: Global, bytes: &[u8]) -> Result<Buffer<u8>, Error> {
    Buffer::from_vec(alloc, Vec::from_slice(alloc, bytes)?)
}

/// What the parts are rejected for, of the type of byte strings of this size.
fn refused(
    alloc: Global,
    size: usize,
    bytes: &[u8],
    bits: Option<&[bool]>,
) -> Result<Option<Error>, Error> {
    let values = bytes_of(alloc, bytes)?;
    let validity = bits_of(alloc, bits)?;
    let data_type = FixedSizeBinaryArray::default_datatype(size);
    Ok(refusal(FixedSizeBinaryArray::try_new(data_type, values, validity)))
}

/// What a call rejected.
fn refusal(array: Result<FixedSizeBinaryArray, Error>) -> Option<Error> {
    match array {
        Err(error) => Some(error),
        Ok(array) => {
            drop(array);
            None
        }
    }
}

#[test]
fn the_first_failed_check_is_returned(rt: HostRuntime) {
    let bits = [true, false].as_slice();
    let table = [
        (0usize, SpecError::ZeroSize),
        (4, SpecError::NotMultiple),
        (2, SpecError::ValidityLength),
    ];
    for (size, failure) in table {
        let found = refused(rt.alloc(), size, b"abcdef", Some(bits)).expect(&rt, "refused");
        assert!(rt; found == Some(Error::OutOfSpec(failure)));
    }
    assert!(rt;
        refused(rt.alloc(), 3, b"abcdef", Some(bits))
            .expect(&rt, "refused")
            .is_none()
    );
    let values = bytes_of(rt.alloc(), b"abcdef").expect(&rt, "bytes of");
    let other = FixedSizeBinaryArray::try_new(DataType::Binary, values, None);
    assert!(rt; refusal(other) == Some(Error::OutOfSpec(SpecError::WrongType)));
}

/// The rows, of which those with a bit that is 0 are null.
fn pairs(alloc: Global, rows: &[[u8; 2]], bits: &[bool]) -> Result<FixedSizeBinaryArray, Error> {
    let validity = bits_of(alloc, Some(bits))?;
    let mut array = FixedSizeBinaryArray::from_slice(alloc, rows)?;
    match array.set_validity(validity) {
        Ok(()) => Ok(array),
        Err(error) => {
            drop(array);
            Err(error)
        }
    }
}

/// Whether slot i is there, and is these bytes.
fn has(array: &FixedSizeBinaryArray, i: usize, bytes: &[u8]) -> bool {
    if i >= array.len() {
        return false;
    }
    array.get(i) == Some(bytes)
}

/// Whether the slots from index 1 are a null and ef, the bytes under the null are cd, and a slice at the end has no slot.
fn holds_the_rest(array: FixedSizeBinaryArray) -> bool {
    if array.len() != 3 {
        drop(array);
        return false;
    }
    let under_null = array.get(1).is_none() && array.value(1) == b"cd".as_slice();
    let mut cut = array.sliced(1, 2);
    let holds = cut.is_null(0) && has(&cut, 1, b"ef") && cut.null_count() == 1;
    cut.slice(2, 0);
    let empty = cut.is_empty();
    drop(cut);
    under_null && holds && empty
}

#[test]
fn rows_are_the_slots(rt: HostRuntime) {
    let array = pairs(rt.alloc(), ROWS.as_slice(), [true, false, true].as_slice()).expect(
        &rt, "pairs",
    );
    assert!(rt; has(&array, 0, b"ab"));
    assert!(rt; holds_the_rest(array));
    let short = pairs(rt.alloc(), ROWS.as_slice(), [true, false].as_slice());
    assert!(rt; refusal(short) == Some(Error::OutOfSpec(SpecError::ValidityLength)));
}

/// A type of the caller over byte strings of two bytes.
fn extension(alloc: Global) -> Result<DataType, Error> {
    let name = String::from_str(alloc, "pair")?;
    let inner = FixedSizeBinaryArray::default_datatype(2);
    Ok(DataType::Extension(name, Box::new(alloc, inner)?, None))
}

/// The array under another type, where that is one of the same size.
fn retyped(array: FixedSizeBinaryArray, data_type: DataType) -> FixedSizeBinaryArray {
    let same_kind = data_type.to_physical_type() == PhysicalType::FixedSizeBinary;
    if same_kind && data_type.size().unwrap_or(0) == array.size() {
        return array.to(data_type);
    }
    drop(data_type);
    array
}

/// A clone under a type of the caller.
fn extended(alloc: Global, array: &FixedSizeBinaryArray) -> Result<FixedSizeBinaryArray, Error> {
    let data_type = extension(alloc)?;
    match array.clone(alloc) {
        Ok(copy) => Ok(retyped(copy, data_type)),
        Err(error) => {
            drop(data_type);
            Err(error)
        }
    }
}

/// Whether the other array is equal, and then dropped.
fn is_same(array: &FixedSizeBinaryArray, other: Result<FixedSizeBinaryArray, Error>) -> bool {
    match other {
        Err(_) => false,
        Ok(other) => {
            let same = *array == other;
            drop(other);
            same
        }
    }
}

#[test]
fn nulls_and_types_differ(rt: HostRuntime) {
    let bits = [true, false, true].as_slice();
    let array = pairs(rt.alloc(), ROWS.as_slice(), bits).expect(&rt, "pairs");
    assert!(rt; is_same(&array, array.clone(rt.alloc())));
    assert!(rt; is_same(&array, pairs(rt.alloc(), OTHER_ROWS.as_slice(), bits)));
    assert!(rt;
        !is_same(
            &array,
            pairs(rt.alloc(), ROWS.as_slice(), [true, true, true].as_slice())
        )
    );
    assert!(rt; !is_same(&array, extended(rt.alloc(), &array)));
}

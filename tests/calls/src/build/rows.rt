//! Lists of integers by examples rows: what is frozen is compared with arrays that were made of their parts.
use nest_array::{AnyArray, ListArray};
use nest_build::array::MutableArray;
use nest_build::list::MutableListArray;
use nest_build::push::TryPush;
use nest_flat::any_primitive::{AnyPrimitive, NativeArray};
use nest_flat::primitive::PrimitiveArray;
use nest_flat::primitive::mutable::MutablePrimitiveArray;
use nest_memory::bitmap::immutable::Bitmap;
use nest_memory::buffer::Buffer;
use nest_memory::datatypes::DataType;
use nest_memory::error::{Error, SpecError};
use nest_memory::offset::Offset;
use nest_memory::offsets::OffsetsBuffer;
use std::alloc::Global;

/// Both values, or the first error.
fn both<A: Drop, B: Drop>(a: Result<A, Error>, b: Result<B, Error>) -> Result<(A, B), Error> {
    Ok((a?, b?))
}

fn numbers(alloc: Global, items: &[i64], nulls: Option<&[bool]>) -> Result<AnyArray, Error> {
    match both(
        Vec::from_slice(alloc, items).map_err(|refused| Error::Memory(refused)),
        bits(alloc, nulls),
    ) {
        Ok((values, validity)) => typed(Buffer::from_vec(alloc, values), validity),
        Err(error) => Err(error),
    }
}

fn typed(values: Result<Buffer<i64>, Error>, validity: Option<Bitmap>) -> Result<AnyArray, Error> {
    match values {
        Ok(values) => PrimitiveArray::try_new(DataType::Int64, values, validity).map(
            |array| AnyArray::Primitive(i64::wrap(array)),
        ),
        Err(error) => Err(error),
    }
}

fn bits(alloc: Global, bits: Option<&[bool]>) -> Result<Option<Bitmap>, Error> {
    match bits {
        None => Ok(None),
        Some(bits) => Ok(Some(Bitmap::from_bools(alloc, bits)?)),
    }
}

fn offsets_of<O: Offset>(alloc: Global, offsets: &[O]) -> Result<OffsetsBuffer<O>, Error> {
    OffsetsBuffer::try_new(alloc, Vec::from_slice(alloc, offsets)?)
}

/// Lists of these numbers.
fn lists(
    alloc: Global,
    items: Result<AnyArray, Error>,
    offsets: &[i32],
    valid: Option<&[bool]>,
) -> Result<ListArray, Error> {
    let data_type = ListArray::default_datatype(alloc, DataType::Int64);
    let ranges = both(offsets_of(alloc, offsets), bits(alloc, valid));
    match both(both(data_type, items), ranges) {
        Ok(((data_type, items), (offsets, validity))) => {
            ListArray::try_new(alloc, data_type, offsets, items, validity)
        }
        Err(error) => Err(error),
    }
}

/// Lists of integers.
type Lists = MutableListArray<i32, MutablePrimitiveArray<i64>>;

fn no_lists(alloc: Global) -> Result<Lists, Error> {
    MutableListArray::new(alloc, MutablePrimitiveArray::new(alloc))
}

fn push_rows(rows: &mut Lists, items: &[Option<&[Option<i64>]>]) -> Result<(), Error> {
    for item in items {
        if rows.is_complete() {
            rows.try_push(item.map(|items| items.iter().copied()))?;
        }
    }
    Ok(())
}

/// The array of the rows that were pushed.
fn pushed(alloc: Global, items: &[Option<&[Option<i64>]>]) -> Result<ListArray, Error> {
    match no_lists(alloc) {
        Err(error) => Err(error),
        Ok(mut rows) => {
            let done = push_rows(&mut rows, items);
            let array = rows.freeze();
            drop(rows);
            match done {
                Ok(()) => array,
                Err(error) => {
                    drop(array);
                    Err(error)
                }
            }
        }
    }
}

/// Whether both were made and are equal; both are dropped.
fn are_same(x: Result<ListArray, Error>, y: Result<ListArray, Error>) -> Result<bool, Error> {
    match both(x, y) {
        Ok((x, y)) => {
            let same = x == y;
            drop(x);
            drop(y);
            Ok(same)
        }
        Err(error) => Err(error),
    }
}

/// The same rows equal an array with a 5 under its null.
#[test]
fn pushed_rows_equal_an_array_with_a_number_under_a_null(rt: HostRuntime) {
    let alloc = rt.alloc();
    let rows = [Some([Some(1), None].as_slice()), None, Some([].as_slice())];
    let frozen = pushed(alloc, rows.as_slice());
    let items = numbers(alloc, &[1, 0, 5], Some(&[true, false, true]));
    let made = lists(alloc, items, &[0, 2, 3, 3], Some(&[true, false, true]));
    assert!(rt; are_same(frozen, made) == Ok(true));
}

#[test]
fn pushed_rows_differ_from_an_array_without_the_null(rt: HostRuntime) {
    let alloc = rt.alloc();
    let rows = [Some([Some(1)].as_slice()), None];
    let frozen = pushed(alloc, rows.as_slice());
    let made = lists(alloc, numbers(alloc, &[1], None), &[0, 1, 1], None);
    assert!(rt; are_same(frozen, made) == Ok(false));
}

/// Numbers of 64 bits from 1 to 5 by the offsets 0, 2, 2, 3, 5, and by 0, 2 and 0, 6.
#[test]
fn four_lists_of_five_numbers(rt: HostRuntime) {
    let alloc = rt.alloc();
    let rows = [
        Some([Some(1), Some(2)].as_slice()),
        Some([].as_slice()),
        Some([Some(3)].as_slice()),
        Some([Some(4), Some(5)].as_slice()),
    ];
    let frozen = pushed(alloc, rows.as_slice());
    let items = numbers(alloc, &[1, 2, 3, 4, 5], None);
    let made = lists(alloc, items, &[0, 2, 2, 3, 5], None);
    assert!(rt; are_same(frozen, made) == Ok(true));
}

#[test]
fn offsets_within_and_past_the_numbers(rt: HostRuntime) {
    let alloc = rt.alloc();
    let within = lists(alloc, numbers(alloc, &[1, 2, 3, 4, 5], None), &[0, 2], None);
    let rows = [Some([Some(1), Some(2)].as_slice())];
    assert!(rt; are_same(within, pushed(alloc, rows.as_slice())) == Ok(true));
    let past = lists(alloc, numbers(alloc, &[1, 2, 3, 4, 5], None), &[0, 6], None).err();
    assert!(rt; past == Some(Error::OutOfSpec(SpecError::OffsetPastChild)));
}

/// Whether the array was made, and whether it and its items have a validity; it is dropped.
fn validities(array: Result<ListArray, Error>) -> Option<(bool, bool)> {
    match array {
        Ok(array) => {
            let of_items = match array.values() {
                AnyArray::Primitive(AnyPrimitive::Int64(items)) => items.validity().is_some(),
                _ => true,
            };
            let found = (array.validity().is_some(), of_items);
            drop(array);
            Some(found)
        }
        Err(_) => None,
    }
}

/// A builder has no validity before its first null, its child neither.
#[test]
fn no_validity_before_the_first_null(rt: HostRuntime) {
    let alloc = rt.alloc();
    let full = [Some([Some(1)].as_slice()), Some([].as_slice())];
    assert!(rt; validities(pushed(alloc, full.as_slice())) == Some((false, false)));
    let null_row = [Some([Some(1)].as_slice()), None];
    assert!(rt; validities(pushed(alloc, null_row.as_slice())) == Some((true, false)));
    let null_item = [Some([Some(1), None].as_slice())];
    assert!(rt; validities(pushed(alloc, null_item.as_slice())) == Some((false, true)));
}

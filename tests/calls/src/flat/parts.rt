//! Validities and bits by themselves, as who writes another array or builder calls them; builders and arrays of any native
//! kind; room in builders.
//!
//! Validities and bits by themselves, builders and arrays of any native kind, and room, with memory.

use nest_flat::any_primitive::AnyPrimitive;
use nest_flat::any_primitive::mutable::AnyMutablePrimitive;
use nest_flat::binary::BinaryArray;
use nest_flat::binary::mutable::MutableBinaryArray;
use nest_flat::boolean::BooleanArray;
use nest_flat::boolean::mutable::MutableBooleanArray;
use nest_flat::primitive::PrimitiveArray;
use nest_flat::primitive::mutable::MutablePrimitiveArray;
use nest_flat::utf8::Utf8Array;
use nest_flat::utf8::mutable::MutableUtf8Array;
use nest_flat::{growth, validity};
use nest_memory::bitmap::immutable::Bitmap;
use nest_memory::bitmap::mutable::MutableBitmap;
use nest_memory::datatypes::DataType;
use nest_memory::datatypes::physical_type::PrimitiveType;
use nest_memory::error::Error;
use nest_model::fill::Fill;
use std::alloc::Global;

#[test]
fn a_validity_is_made_and_shared(rt: HostRuntime) {
    let nulls = validity::none_valid(rt.alloc(), 3, Fill::Nulls).expect(&rt, "none valid");
    let shared = validity::clone(&nulls).expect(&rt, "a copy");
    assert!(rt; validity::null_count(&nulls) == 3);
    assert!(rt; validity::null_count(&shared) == 3);
    assert!(rt; validity::fits(&shared, 3));
    assert!(rt;
        validity::none_valid(rt.alloc(), 3, Fill::Nothing)
            .expect(&rt, "none valid")
            .is_none()
    );
}

/// The bits of a valid index and a null one.
fn two_bits(alloc: Global) -> Result<Option<MutableBitmap>, Error> {
    let mut bits = None;
    growth::validity::push(alloc, &mut bits, 0, true)?;
    growth::validity::push(alloc, &mut bits, 1, false)?;
    Ok(bits)
}

#[test]
fn bits_begin_with_the_first_null(rt: HostRuntime) {
    let mut bits = two_bits(rt.alloc()).expect(&rt, "two bits");
    growth::validity::reserve(&mut bits, 8).expect(&rt, "room");
    growth::validity::shrink_to_fit(&mut bits);
    let frozen = growth::validity::freeze(&mut bits).expect(&rt, "an array");
    assert!(rt; bits.is_none());
    assert!(rt; validity::fits(&frozen, 2));
    assert!(rt; validity::null_count(&frozen) == 1);
}

/// The bits of three valid indices and a null one.
fn four_bits(alloc: Global) -> Result<Option<MutableBitmap>, Error> {
    let mut more: Option<MutableBitmap> = None;
    growth::validity::push(alloc, &mut more, 0, false)?;
    let mut bits = None;
    growth::validity::join(alloc, &mut bits, 3, &more, 1)?;
    Ok(bits)
}

#[test]
fn bits_are_joined_after_valid_indices(rt: HostRuntime) {
    let mut bits = four_bits(rt.alloc()).expect(&rt, "four bits");
    let frozen = growth::validity::freeze(&mut bits).expect(&rt, "an array");
    assert!(rt; validity::fits(&frozen, 4));
    assert!(rt; validity::null_count(&frozen) == 1);
}

#[test]
fn bits_are_appended(rt: HostRuntime) {
    let mut bits = MutableBitmap::new(rt.alloc());
    let mut more = MutableBitmap::new(rt.alloc());
    more.push(true).expect(&rt, "a row more");
    more.push(false).expect(&rt, "a row more");
    growth::bits::append(&mut bits, &more).expect(&rt, "rows more");
    assert!(rt; bits.len() == 2);
    assert!(rt; bits.unset_bits() == 1);
}

/// A builder of any native kind, with 7 and a null.
fn seven(alloc: Global) -> Result<AnyMutablePrimitive, Error> {
    let mut numbers: MutablePrimitiveArray<i32> = MutablePrimitiveArray::new(alloc);
    numbers.try_push(Some(7))?;
    numbers.try_push(None)?;
    Ok(AnyMutablePrimitive::Int32(numbers))
}

fn frozen(alloc: Global) -> Result<AnyPrimitive, Error> {
    let mut builder = seven(alloc)?;
    let array = builder.freeze();
    drop(builder);
    array
}

/// How many slots, and how many of them are null; the array is dropped.
fn counted(array: Result<AnyPrimitive, Error>) -> Result<(usize, usize), Error> {
    match array {
        Err(error) => Err(error),
        Ok(array) => {
            let counts = (array.len(), array.null_count());
            drop(array);
            Ok(counts)
        }
    }
}

#[test]
fn any_natives_are_frozen_and_copied(rt: HostRuntime) {
    let array = frozen(rt.alloc()).expect(&rt, "frozen");
    let copy = counted(array.clone(rt.alloc()));
    assert!(rt; copy == Ok((2, 1)));
}

#[test]
fn bytes_have_room_and_are_joined(rt: HostRuntime) {
    let mut bytes: MutableBinaryArray<i32> = MutableBinaryArray::new(rt.alloc()).expect(
        &rt, "memory",
    );
    bytes.reserve(2).expect(&rt, "room");
    bytes
        .try_push(Some(b"ab".as_slice()))
        .expect(&rt, "a row more");
    let mut more: MutableBinaryArray<i32> = MutableBinaryArray::new(rt.alloc()).expect(
        &rt, "memory",
    );
    more.try_push(None).expect(&rt, "a row more");
    bytes.try_extend_from_self(&more).expect(&rt, "rows more");
    let count = bytes.len();
    assert!(rt; count == 2);
}

#[test]
fn booleans_have_room(rt: HostRuntime) {
    let mut booleans = MutableBooleanArray::new(rt.alloc());
    booleans.reserve(2).expect(&rt, "room");
    booleans.try_push(Some(true)).expect(&rt, "a row more");
    let count = booleans.len();
    assert!(rt; count == 1);
}

#[test]
fn nulls_of_numbers_and_booleans(rt: HostRuntime) {
    let numbers: PrimitiveArray<i32> = PrimitiveArray::of_nulls(
        rt.alloc(),
        &DataType::Int32,
        2,
        Fill::Nulls,
    ).expect(&rt, "nulls");
    let nulls = numbers.null_count();
    assert!(rt; nulls == 2);
    let any = AnyPrimitive::of_nulls(
        rt.alloc(),
        PrimitiveType::Int32,
        &DataType::Int32,
        2,
        Fill::Nulls,
    );
    assert!(rt; counted(any) == Ok((2, 2)));
    let booleans = BooleanArray::of_nulls(rt.alloc(), &DataType::Boolean, 2, Fill::Nulls).expect(
        &rt, "nulls",
    );
    let nulls = booleans.null_count();
    assert!(rt; nulls == 2);
}

#[test]
fn nulls_of_bytes_and_strings(rt: HostRuntime) {
    let bytes: BinaryArray<i32> = BinaryArray::of_nulls(
        rt.alloc(),
        &DataType::Binary,
        2,
        Fill::Nulls,
    ).expect(&rt, "nulls");
    let nulls = bytes.null_count();
    assert!(rt; nulls == 2);
    let texts: Utf8Array<i32> = Utf8Array::of_nulls(
        rt.alloc(),
        &DataType::Utf8,
        2,
        Fill::Nulls,
    ).expect(&rt, "nulls");
    let nulls = texts.null_count();
    assert!(rt; nulls == 2);
}

/// A validity again.
fn copied(bits: Option<&Bitmap>) -> Result<Option<Bitmap>, Error> {
    match bits {
        Some(bits) => Ok(Some(bits.clone()?)),
        None => Ok(None),
    }
}

/// The strings of the same parts, which are not tested again.
fn of_its_parts(alloc: Global, texts: &Utf8Array<i32>) -> Result<Utf8Array<i32>, Error> {
    let validity = copied(texts.validity())?;
    let offsets = texts.offsets().clone()?;
    let values = texts.values().clone()?;
    let data_type = texts.data_type().clone(alloc)?;
    Ok(Utf8Array::new(data_type, offsets, values, validity))
}

#[test]
fn strings_are_made_of_parts_that_fit(rt: HostRuntime) {
    let mut builder: MutableUtf8Array<i32> = MutableUtf8Array::new(rt.alloc()).expect(
        &rt, "memory",
    );
    builder.try_push(Some("ab")).expect(&rt, "a row more");
    builder.try_push(None).expect(&rt, "a row more");
    let texts = builder.freeze().expect(&rt, "an array");
    let same = of_its_parts(rt.alloc(), &texts).expect(&rt, "the same texts");
    assert!(rt; same.len() == 2);
    assert!(rt; same.get(0) == Some("ab"));
    assert!(rt; same.is_null(1));
    assert!(rt; same == texts);
}

//! Scalars: what a slot of each kind holds, and which scalars are equal. A scalar is decoded as text, down to the parts of a
//! record and the numbers of a list.
mod equality;
mod memory;

use crate::array::arrays::lists::by_large_offsets;
use crate::array::arrays::sizes::pairs;
use crate::array::arrays::structs::four;
use crate::array::arrays::{booleans, int32s, list_array, lists_of_lists, numbers};
use crate::array::calls::{bytes, texts};
use nest_array::{
    AnyArray, AnyScalar, Array, FixedSizeBinaryArray, NullArray, ScalarValue, new_scalar,
};
use nest_flat::any_native::AnyNative;
use nest_flat::any_primitive::AnyPrimitive;
use nest_flat::primitive::PrimitiveArray;
use nest_memory::buffer::Buffer;
use nest_memory::datatypes::DataType;
use nest_memory::error::Error;
use nest_memory::types::{NativeType, days_ms, i256, months_days_ns};
use std::alloc::Global;

/// The scalar of slot i, `Overflow` where there is no such slot.
fn scalar_at(alloc: Global, array: &AnyArray, i: usize) -> Result<AnyScalar, Error> {
    if i >= array.len() {
        return Err(Error::Overflow);
    }
    new_scalar(alloc, array, i)
}

/// The same of an array of any kind that a call gave; the array is dropped.
pub(crate) fn scalar_of<A: Array + Drop>(
    alloc: Global,
    array: Result<A, Error>,
    i: usize,
) -> Result<AnyScalar, Error> {
    let array = array?;
    let copy = array.to_boxed(alloc);
    drop(array);
    match copy {
        Ok(array) => {
            let scalar = scalar_at(alloc, &array, i);
            drop(array);
            scalar
        }
        Err(error) => Err(error),
    }
}

/// Appends numbers of 32 bits as text, in brackets.
fn spell_items(items: &AnyArray, text: &mut String) -> Result<(), Error> {
    match items {
        AnyArray::Primitive(AnyPrimitive::Int32(numbers)) => {
            write!(text, "{:?}", numbers.values().as_slice())?;
        }
        _ => write!(text, "{} items", items.len())?,
    }
    Ok(())
}

fn spell_part(scalar: &AnyScalar, text: &mut String) -> Result<(), Error> {
    match scalar.value() {
        ScalarValue::Null => text.push_str("null")?,
        ScalarValue::Boolean(boolean) => write!(text, "{boolean}")?,
        ScalarValue::Native(native) => write!(text, "{native:?}")?,
        ScalarValue::Text(letters) => write!(text, "'{letters}'")?,
        ScalarValue::Bytes(bytes) => write!(text, "{:?}", bytes.as_slice())?,
        ScalarValue::List(items) => spell_items(items, text)?,
        ScalarValue::Struct(parts) => write!(text, "{} parts", parts.len())?,
        ScalarValue::Pick(field, _) => write!(text, "field {field}")?,
    }
    Ok(())
}

fn spell(scalar: &AnyScalar, text: &mut String) -> Result<(), Error> {
    let ScalarValue::Struct(parts) = scalar.value() else {
        return spell_part(scalar, text);
    };
    for part in parts {
        spell_part(part, text)?;
        text.push_str(" ")?;
    }
    Ok(())
}

/// The spelling of a scalar that a call gave; the scalar is dropped. A rejected one has none, nor has one that is valid where
/// it is decoded null, or the other way round.
pub(crate) fn decoded(alloc: Global, scalar: Result<AnyScalar, Error>) -> String {
    let mut text = String::new(alloc);
    if let Ok(scalar) = scalar {
        let done = spell(&scalar, &mut text);
        if done.is_err() || scalar.is_valid() == (text.as_str() == "null") {
            text.clear();
        }
        drop(scalar);
    }
    text
}

/// Slot i of an array that a call gave, as text.
pub(crate) fn slot<A: Array + Drop>(alloc: Global, array: Result<A, Error>, i: usize) -> String {
    decoded(alloc, scalar_of(alloc, array, i))
}

/// One native value, of the type that represents its kind.
fn single<T: NativeType>(alloc: Global, value: T) -> Result<PrimitiveArray<T>, Error> {
    let mut values = Vec::new(alloc);
    values.push(value)?;
    let values = Buffer::from_vec(alloc, values)?;
    PrimitiveArray::try_new(DataType::from(T::PRIMITIVE), values, None)
}

/// What a slot of each kind holds as a scalar, a null among them.
#[test]
fn whole_numbers(rt: HostRuntime) {
    let alloc = rt.alloc();
    assert!(rt; slot(alloc, single(alloc, -1i8), 0).as_str() == "Int8(-1)");
    assert!(rt; slot(alloc, single(alloc, -2i16), 0).as_str() == "Int16(-2)");
    assert!(rt; slot(alloc, single(alloc, -3i32), 0).as_str() == "Int32(-3)");
    assert!(rt; slot(alloc, single(alloc, -4i64), 0).as_str() == "Int64(-4)");
    assert!(rt; slot(alloc, single(alloc, 5u8), 0).as_str() == "UInt8(5)");
    assert!(rt; slot(alloc, single(alloc, 6u16), 0).as_str() == "UInt16(6)");
    assert!(rt; slot(alloc, single(alloc, 7u32), 0).as_str() == "UInt32(7)");
    assert!(rt; slot(alloc, single(alloc, 8u64), 0).as_str() == "UInt64(8)");
}

#[test]
fn wide_numbers_and_spans(rt: HostRuntime) {
    let alloc = rt.alloc();
    assert!(rt; slot(alloc, single(alloc, -9i128), 0).as_str() == "Int128(-9)");
    let wide = slot(alloc, single(alloc, i256::from_words(1, 2)), 0);
    assert!(rt; wide.as_str() == "Int256(i256 { high: 1, low: 2 })");
    let days = days_ms {
        days: 3,
        milliseconds: 4,
    };
    let span = slot(alloc, single(alloc, days), 0);
    assert!(rt; span.as_str() == "DaysMs(days_ms { days: 3, milliseconds: 4 })");
    let months = months_days_ns {
        months: 5,
        days: 6,
        ns: 7,
    };
    let span = slot(alloc, single(alloc, months), 0);
    assert!(rt; span.as_str() == "MonthDayNano(months_days_ns { months: 5, days: 6, ns: 7 })");
}

#[test]
fn nulls(rt: HostRuntime) {
    let alloc = rt.alloc();
    assert!(rt; slot(alloc, NullArray::try_new(DataType::Null, 3), 1).as_str() == "null");
    let bits = Some([true, false].as_slice());
    assert!(rt; slot(alloc, int32s(alloc, &[1, 2], bits), 0).as_str() == "Int32(1)");
    assert!(rt; slot(alloc, int32s(alloc, &[1, 2], bits), 1).as_str() == "null");
    let lists = || list_array(alloc, numbers(alloc, &[1, 2, 3]), &[0, 2, 3], bits);
    assert!(rt; slot(alloc, lists(), 0).as_str() == "[1, 2]");
    assert!(rt; slot(alloc, lists(), 1).as_str() == "null");
}

#[test]
fn booleans_strings_and_bytes(rt: HostRuntime) {
    let alloc = rt.alloc();
    assert!(rt; slot(alloc, booleans(alloc, &[false, true]), 1).as_str() == "true");
    let array = texts(alloc, DataType::Utf8, &[0i32, 1, 3]);
    assert!(rt; slot(alloc, array, 1).as_str() == "'bc'");
    let array = texts(alloc, DataType::LargeUtf8, &[0i64, 1, 3]);
    assert!(rt; slot(alloc, array, 0).as_str() == "'a'");
    let array = bytes(alloc, DataType::Binary, &[0i32, 1, 3]);
    assert!(rt; slot(alloc, array, 1).as_str() == "[98, 99]");
    let array = bytes(alloc, DataType::LargeBinary, &[0i64, 1, 3]);
    assert!(rt; slot(alloc, array, 0).as_str() == "[97]");
    let array = FixedSizeBinaryArray::from_slice(alloc, [*b"ab", *b"cd"].as_slice());
    assert!(rt; slot(alloc, array, 1).as_str() == "[99, 100]");
}

#[test]
fn lists_of_each_kind(rt: HostRuntime) {
    let alloc = rt.alloc();
    assert!(rt; slot(alloc, pairs(alloc), 1).as_str() == "[3, 4]");
    assert!(rt; slot(alloc, by_large_offsets(alloc), 1).as_str() == "[]");
    assert!(rt; slot(alloc, by_large_offsets(alloc), 2).as_str() == "[2, 3]");
    assert!(rt; slot(alloc, lists_of_lists(alloc), 1).as_str() == "3 items");
}

#[test]
fn records(rt: HostRuntime) {
    let alloc = rt.alloc();
    let items = [42, 28, 19, 31];
    assert!(rt; slot(alloc, four(alloc, &items), 1).as_str() == "false Int32(28) ");
    assert!(rt; slot(alloc, four(alloc, &items), 2).as_str() == "null");
    assert!(rt; slot(alloc, four(alloc, &items), 3).as_str() == "true Int32(31) ");
}

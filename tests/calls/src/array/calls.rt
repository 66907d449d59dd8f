//! Each call of the trait `Array` on each kind, with memory: a call that always wants memory, or says nothing, is caught here.
use crate::array::arrays::lists::by_large_offsets;
use crate::array::arrays::sizes::pairs;
use crate::array::arrays::structs::four;
use crate::array::arrays::{booleans, both, buffer, lists_of_lists, numbers, offsets_of, validity};
use crate::array::dictionaries::four_strings;
use crate::array::maps::two_maps;
use nest_array::{AnyArray, Array, FixedSizeBinaryArray, NullArray};
use nest_flat::any_primitive::AnyPrimitive;
use nest_flat::binary::BinaryArray;
use nest_flat::primitive::PrimitiveArray;
use nest_flat::utf8::Utf8Array;
use nest_memory::buffer::Buffer;
use nest_memory::datatypes::DataType;
use nest_memory::error::Error;
use nest_memory::offset::Offset;
use nest_memory::types::{NativeType, days_ms, i256, months_days_ns};
use std::alloc::Global;
use std::process::Abort;

/// How many slots an array has and how many are null, where all its calls agree on that.
fn counts<A: Array>(array: &A) -> Option<(usize, usize)> {
    let n = array.len();
    let mut nulls = 0usize;
    for i in 0..n {
        if array.is_null(i) {
            nulls = nulls.saturating_add(1);
        }
        if array.is_null(i) == array.is_valid(i) {
            return None;
        }
    }
    if array.is_empty() != (n == 0) || array.null_count() != nulls {
        return None;
    }
    Some((n, nulls))
}

/// The counts of an array that a call gave; the array is dropped.
fn counts_of<A: Array + Drop>(array: Result<A, Error>) -> Option<(usize, usize)> {
    match array {
        Ok(array) => {
            let counts = counts(&array);
            drop(array);
            counts
        }
        Err(_) => None,
    }
}

/// Whether an array that a call gave has this data type; the array is dropped.
fn has_type(array: Result<AnyArray, Error>, data_type: &DataType) -> bool {
    match array {
        Ok(array) => {
            let same = *array.data_type() == *data_type;
            drop(array);
            same
        }
        Err(_) => false,
    }
}

/// The calls that return an array return one of the same type, and not `Memory`.
fn expect_given<A: Array>(rt: &impl Abort, alloc: Global, array: &A, found: (usize, usize)) {
    assert!(rt; counts_of(array.to_boxed(alloc)) == Some(found));
    assert!(rt; has_type(array.to_boxed(alloc), array.data_type()));
    if 1 <= array.len() {
        let cut = counts_of(array.sliced(alloc, 0, 1)).expect(rt, "a cut");
        assert!(rt; cut.0 == 1);
        assert!(rt; has_type(array.sliced(alloc, 0, 1), array.data_type()));
    }
}

/// Under a validity whose first bit alone is unset, the first slot alone is null.
fn expect_take<A: Array>(rt: &impl Abort, alloc: Global, array: &A, n: usize) {
    let all = [false, true, true, true];
    if n <= all.len() {
        let bits = validity(alloc, Some(&all[0..n])).expect(rt, "bits");
        assert!(rt; counts_of(array.with_validity(alloc, bits)) == Some((n, 1)));
    }
    assert!(rt; counts_of(array.with_validity(alloc, None)) == Some((n, 0)));
}

/// Each call of an array with these counts that takes a validity.
fn expect_array<A: Array + Drop>(
    rt: &impl Abort,
    alloc: Global,
    array: Result<A, Error>,
    found: (usize, usize),
) {
    let mut array = array.expect(rt, "an array");
    assert!(rt; counts(&array) == Some(found));
    expect_given(rt, alloc, &array, found);
    expect_take(rt, alloc, &array, found.0);
    let masked = array.validity().is_some();
    let n = array.len();
    if n >= 1 {
        array.slice(1, n - 1);
        assert!(rt; array.len().saturating_add(1) == n);
        assert!(rt; array.validity().is_some() == masked);
    }
    drop(array);
}

/// Two values 0.
fn two_zeros<T: NativeType>(alloc: Global) -> Result<Buffer<T>, Error> {
    let mut values = Vec::with_capacity(alloc, 2)?;
    values.push(T::zero())?;
    values.push(T::zero())?;
    Buffer::from_vec(alloc, values)
}

/// The native values 0, of the type that represents them.
fn zeros<T: NativeType>(alloc: Global) -> Result<PrimitiveArray<T>, Error> {
    match two_zeros(alloc) {
        Ok(values) => PrimitiveArray::try_new(DataType::from(T::PRIMITIVE), values, None),
        Err(error) => Err(error),
    }
}

/// Each call of the trait `Array` on each kind, the twelve natives one by one.
#[test]
fn native_arrays(rt: HostRuntime) {
    let alloc = rt.alloc();
    expect_array(&rt, alloc, zeros::<i8>(alloc), (2, 0));
    expect_array(&rt, alloc, zeros::<i16>(alloc), (2, 0));
    expect_array(&rt, alloc, zeros::<i32>(alloc), (2, 0));
    expect_array(&rt, alloc, zeros::<i64>(alloc), (2, 0));
    expect_array(&rt, alloc, zeros::<i128>(alloc), (2, 0));
    expect_array(&rt, alloc, zeros::<i256>(alloc), (2, 0));
}

#[test]
fn native_arrays_of_other_kinds(rt: HostRuntime) {
    let alloc = rt.alloc();
    expect_array(&rt, alloc, zeros::<u8>(alloc), (2, 0));
    expect_array(&rt, alloc, zeros::<u16>(alloc), (2, 0));
    expect_array(&rt, alloc, zeros::<u32>(alloc), (2, 0));
    expect_array(&rt, alloc, zeros::<u64>(alloc), (2, 0));
    expect_array(&rt, alloc, zeros::<days_ms>(alloc), (2, 0));
    expect_array(&rt, alloc, zeros::<months_days_ns>(alloc), (2, 0));
}

/// The slots a and bc as bytes.
pub(crate) fn bytes<O: Offset>(
    alloc: Global,
    data_type: DataType,
    offsets: &[O],
) -> Result<BinaryArray<O>, Error> {
    match both(offsets_of(alloc, offsets), buffer(alloc, b"abc")) {
        Ok((offsets, values)) => BinaryArray::try_new(data_type, offsets, values, None),
        Err(error) => {
            drop(data_type);
            Err(error)
        }
    }
}

/// The slots a and bc as strings.
pub(crate) fn texts<O: Offset>(
    alloc: Global,
    data_type: DataType,
    offsets: &[O],
) -> Result<Utf8Array<O>, Error> {
    match both(offsets_of(alloc, offsets), buffer(alloc, b"abc")) {
        Ok((offsets, values)) => Utf8Array::try_new(data_type, offsets, values, None),
        Err(error) => {
            drop(data_type);
            Err(error)
        }
    }
}

#[test]
fn flat_arrays(rt: HostRuntime) {
    let alloc = rt.alloc();
    expect_array(&rt, alloc, booleans(alloc, &[true, false]), (2, 0));
    let binary = bytes(alloc, DataType::Binary, &[0i32, 1, 3]);
    expect_array(&rt, alloc, binary, (2, 0));
    let large_binary = bytes(alloc, DataType::LargeBinary, &[0i64, 1, 3]);
    expect_array(&rt, alloc, large_binary, (2, 0));
    let utf8 = texts(alloc, DataType::Utf8, &[0i32, 1, 3]);
    expect_array(&rt, alloc, utf8, (2, 0));
    let large_utf8 = texts(alloc, DataType::LargeUtf8, &[0i64, 1, 3]);
    expect_array(&rt, alloc, large_utf8, (2, 0));
    let rows = FixedSizeBinaryArray::from_slice(alloc, [*b"ab", *b"cd"].as_slice());
    expect_array(&rt, alloc, rows, (2, 0));
}

#[test]
fn nested_arrays(rt: HostRuntime) {
    let alloc = rt.alloc();
    expect_array(&rt, alloc, pairs(alloc), (3, 0));
    expect_array(&rt, alloc, lists_of_lists(alloc), (3, 0));
    expect_array(&rt, alloc, by_large_offsets(alloc), (3, 0));
    expect_array(&rt, alloc, four(alloc, &[1, 2, 3, 4]), (4, 1));
    expect_array(&rt, alloc, two_maps(alloc), (2, 0));
    expect_array(&rt, alloc, four_strings(alloc), (4, 1));
    expect_array(&rt, alloc, numbers(alloc, &[1, 2]), (2, 0));
}

#[test]
fn null_arrays(rt: HostRuntime) {
    let array = NullArray::new(DataType::Null, 3);
    assert!(rt; counts(&array) == Some((3, 3)));
    expect_given(&rt, rt.alloc(), &array, (3, 3));
    assert!(rt; Array::validity(&array).is_none());
}

/// The array in the variant of its kind.
fn in_variant(array: &AnyArray) -> &str {
    match array {
        AnyArray::Null(_) => "nulls",
        AnyArray::Boolean(_) => "booleans",
        AnyArray::Primitive(AnyPrimitive::Int32(_)) => "numbers of 32 bits",
        AnyArray::Primitive(_) => "natives",
        AnyArray::Binary(_) | AnyArray::LargeBinary(_) => "bytes",
        AnyArray::Utf8(_) | AnyArray::LargeUtf8(_) => "texts",
        AnyArray::FixedSizeBinary(_) => "rows of bytes",
        AnyArray::FixedSizeList(_) => "lists of one size",
        AnyArray::List(_) => "lists",
        AnyArray::LargeList(_) => "large lists",
        AnyArray::Struct(_) => "records",
        AnyArray::Map(_) => "maps",
        AnyArray::Union(_) => "unions",
        AnyArray::Dictionary(_) => "values by keys",
    }
}

fn variant_of<A: Array + Drop>(
    rt: &impl Abort,
    alloc: Global,
    array: Result<A, Error>,
    kind: &str,
) {
    let array = array.expect(rt, "an array");
    let copy = array.to_boxed(alloc).expect(rt, "a copy");
    assert!(rt; in_variant(&copy) == kind);
    drop(copy);
    drop(array);
}

#[test]
fn copies_are_in_their_variant(rt: HostRuntime) {
    let alloc = rt.alloc();
    variant_of(&rt, alloc, NullArray::try_new(DataType::Null, 1), "nulls");
    variant_of(&rt, alloc, booleans(alloc, &[true]), "booleans");
    variant_of(&rt, alloc, zeros::<i32>(alloc), "numbers of 32 bits");
    variant_of(&rt, alloc, zeros::<u8>(alloc), "natives");
    let utf8 = texts(alloc, DataType::Utf8, &[0i32, 1, 3]);
    variant_of(&rt, alloc, utf8, "texts");
    variant_of(&rt, alloc, pairs(alloc), "lists of one size");
    variant_of(&rt, alloc, by_large_offsets(alloc), "large lists");
    variant_of(&rt, alloc, four(alloc, &[1, 2, 3, 4]), "records");
    variant_of(&rt, alloc, two_maps(alloc), "maps");
    variant_of(&rt, alloc, four_strings(alloc), "values by keys");
}

//! Arrays of any kind as the one kind that they are, by reference and by value, and flat arrays in their variants. The nulls
//! of each kind's type are that kind and none of the others.
//!
//! An array of each kind is that kind by reference and no other, comes by value, and is handed back where another is asked for;
//! flat arrays in their variants, and shared.
use nest_array::{AnyArray, Array, Boxed, new_null_array};
use nest_flat::binary::BinaryArray;
use nest_flat::boolean::BooleanArray;
use nest_flat::primitive::PrimitiveArray;
use nest_flat::utf8::Utf8Array;
use nest_memory::datatypes::{DataType, Field, IntegerType};
use nest_memory::error::Error;
use std::alloc::{AllocError, Global};
use std::process::Abort;

/// Nothing but an allocation fails.
fn unless_without_memory<T>(rt: &impl Abort, outcome: Result<T, Error>) -> Option<T> {
    match outcome {
        Ok(value) => Some(value),
        Err(error) => {
            assert!(rt; error == Error::Memory(AllocError));
            None
        }
    }
}

/// The kinds that an array is by reference, each by a letter.
fn kinds(alloc: Global, array: &AnyArray) -> Result<String, Error> {
    let is = [
        (array.as_null().is_some(), "null"),
        (array.as_boolean().is_some(), "boolean"),
        (array.as_any_primitive().is_some(), "primitive"),
        (array.as_binary().is_some(), "binary"),
        (array.as_large_binary().is_some(), "large_binary"),
        (array.as_utf8().is_some(), "utf8"),
        (array.as_large_utf8().is_some(), "large_utf8"),
        (array.as_fixed_size_binary().is_some(), "fixed_size_binary"),
        (array.as_fixed_size_list().is_some(), "fixed_size_list"),
        (array.as_list().is_some(), "list"),
        (array.as_large_list().is_some(), "large_list"),
        (array.as_struct().is_some(), "struct"),
        (array.as_map().is_some(), "map"),
        (array.as_union().is_some(), "union"),
        (array.as_dictionary().is_some(), "dictionary"),
    ];
    let mut text = String::new(alloc);
    for (holds, name) in is {
        if holds {
            text.push_str(name)?;
        }
    }
    Ok(text)
}

/// Whether another kind is handed back by value as it was, two nulls: what is no map is asked for maps, and maps for lists.
fn handed_back(array: AnyArray) -> bool {
    let other = if array.as_map().is_some() {
        array.into_list().err()
    } else {
        array.into_map().err()
    };
    match other {
        Some(same) => same.len() == 2 && same.null_count() == 2,
        None => false,
    }
}

fn expect_kind(rt: &impl Abort, alloc: Global, data_type: Result<DataType, Error>, name: &str) {
    let Some(data_type) = unless_without_memory(rt, data_type) else {
        return;
    };
    let Some(array) = unless_without_memory(rt, new_null_array(alloc, data_type, 2)) else {
        return;
    };
    if let Some(listed) = unless_without_memory(rt, kinds(alloc, &array)) {
        assert!(rt; listed.as_str() == name);
    }
    assert!(rt; handed_back(array));
}

fn item(alloc: Global) -> Result<Box<Field>, Error> {
    Ok(Box::new(alloc, Field::new(alloc, "item", DataType::Int8, true)?)?)
}

fn records(alloc: Global) -> Result<DataType, Error> {
    let mut fields = Vec::new(alloc);
    fields.push(Field::new(alloc, "key", DataType::Utf8, true)?)?;
    fields.push(Field::new(alloc, "value", DataType::Int8, true)?)?;
    Ok(DataType::Struct(fields))
}

fn maps(alloc: Global) -> Result<DataType, Error> {
    let field = Field::new(alloc, "entries", records(alloc)?, false)?;
    Ok(DataType::Map(Box::new(alloc, field)?, false))
}

fn keyed(alloc: Global) -> Result<DataType, Error> {
    let values = Box::new(alloc, DataType::Utf8)?;
    Ok(DataType::Dictionary(IntegerType::Int8, values, false))
}

#[test]
fn flat_kinds(rt: HostRuntime) {
    let alloc = rt.alloc();
    expect_kind(&rt, alloc, Ok(DataType::Boolean), "boolean");
    expect_kind(&rt, alloc, Ok(DataType::Date32), "primitive");
    expect_kind(&rt, alloc, Ok(DataType::Binary), "binary");
    expect_kind(&rt, alloc, Ok(DataType::LargeBinary), "large_binary");
    expect_kind(&rt, alloc, Ok(DataType::Utf8), "utf8");
    expect_kind(&rt, alloc, Ok(DataType::LargeUtf8), "large_utf8");
    expect_kind(
        &rt,
        alloc,
        Ok(DataType::FixedSizeBinary(3)),
        "fixed_size_binary",
    );
}

#[test]
fn nested_kinds(rt: HostRuntime) {
    let alloc = rt.alloc();
    let pairs = item(alloc).map(|field| DataType::FixedSizeList(field, 2));
    expect_kind(&rt, alloc, pairs, "fixed_size_list");
    expect_kind(&rt, alloc, item(alloc).map(DataType::List), "list");
    expect_kind(
        &rt,
        alloc,
        item(alloc).map(DataType::LargeList),
        "large_list",
    );
    expect_kind(&rt, alloc, records(alloc), "struct");
    expect_kind(&rt, alloc, maps(alloc), "map");
    expect_kind(&rt, alloc, keyed(alloc), "dictionary");
}

#[test]
fn a_kind_by_value(rt: HostRuntime) {
    let alloc = rt.alloc();
    let Some(data_type) = unless_without_memory(&rt, item(alloc).map(DataType::List)) else {
        return;
    };
    let Some(array) = unless_without_memory(&rt, new_null_array(alloc, data_type, 2)) else {
        return;
    };
    match array.into_list() {
        Ok(lists) => assert!(rt; lists.len() == 2 && lists.null_count() == 2),
        Err(_) => assert!(rt; false),
    }
}

/// The same array is in its variant: of the length, and of the data type that it had.
fn expect_boxed<A: Boxed + Array>(
    rt: &impl Abort,
    alloc: Global,
    made: Result<A, Error>,
    kind: &str,
) {
    let Some(array) = unless_without_memory(rt, made) else {
        return;
    };
    let (count, nulls) = (Array::len(&array), Array::null_count(&array));
    let boxed = Boxed::boxed(array);
    assert!(rt; boxed.len() == count && boxed.null_count() == nulls);
    if let Some(listed) = unless_without_memory(rt, kinds(alloc, &boxed)) {
        assert!(rt; listed.as_str() == kind);
    }
}

#[test]
fn flat_arrays_in_their_variants(rt: HostRuntime) {
    let alloc = rt.alloc();
    let texts = [Some("a"), None];
    let bytes = [b"a".as_slice()];
    expect_boxed(
        &rt,
        alloc,
        PrimitiveArray::from_options(alloc, &[Some(1i64), None]),
        "primitive",
    );
    expect_boxed(
        &rt,
        alloc,
        BooleanArray::from_slice(alloc, &[true, false]),
        "boolean",
    );
    expect_boxed(
        &rt,
        alloc,
        Utf8Array::<i32>::from_options(alloc, &texts),
        "utf8",
    );
    expect_boxed(
        &rt,
        alloc,
        Utf8Array::<i64>::from_options(alloc, &texts),
        "large_utf8",
    );
    expect_boxed(
        &rt,
        alloc,
        BinaryArray::<i32>::from_slice(alloc, &bytes),
        "binary",
    );
    expect_boxed(
        &rt,
        alloc,
        BinaryArray::<i64>::from_slice(alloc, &bytes),
        "large_binary",
    );
}

#[test]
fn flat_arrays_shared(rt: HostRuntime) {
    let alloc = rt.alloc();
    let Some(array) = unless_without_memory(&rt, PrimitiveArray::from_slice(alloc, &[1i64, 2]))
    else {
        return;
    };
    let Some(shared) = unless_without_memory(&rt, Boxed::arced(array, alloc)) else {
        return;
    };
    assert!(rt; shared.len() == 2 && shared.as_primitive::<i64>().is_some());
    drop(shared);
}

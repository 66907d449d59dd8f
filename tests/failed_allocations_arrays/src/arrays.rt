//! Arrays: made of parts, copied, sliced, passed to `take`, as scalars.

use crate::iterators;
use failed_allocations::failures::{Failure, Failures, expect};
use failed_allocations::parts::{flat_record, list, pairs, record};
use failed_allocations::samples::{
    codes, dictionary_of_strings, lists_of_lists, map_array, records, single_numbers, strings,
    union_array,
};
use json_write::output::to_json_string;
use nest_array::equal::equal_windows;
use nest_array::{AnyArray, Array, Window, new_empty_array, new_null_array, new_scalar};
use nest_concat::{concatenate, interleave};
use nest_flat::boolean::BooleanArray;
use nest_memory::bitmap::immutable::Bitmap;
use nest_memory::datatypes::{DataType, UnionMode};
use nest_memory::error::Error;
use nest_take::{filter, take};
use std::alloc::Global;

/// Each call on an array that allocates.
pub fn calls(failures: &mut Failures, alloc: Global, array: &AnyArray) -> Result<(), Failure> {
    expect(failures.retry(|| array.clone(alloc))? == *array, "clone")?;
    expect(
        failures.retry(|| array.to_boxed(alloc))? == *array,
        "to_boxed",
    )?;
    slices(failures, alloc, array)?;
    values(failures, alloc, array)?;
    let scalar = failures.retry(|| new_scalar(alloc, array, 1))?;
    let again = failures.retry(|| new_scalar(alloc, array, 1))?;
    expect(scalar == again, "new_scalar")?;
    let indices = [2, 0, 0, array.len() - 1];
    let taken = failures.retry(|| take(alloc, array, &indices))?;
    expect(are_at(&taken, array, &indices), "take")?;
    let mask = failures.retry(|| odd_indices(alloc, array.len()))?;
    let kept = failures.retry(|| filter(alloc, array, &mask))?;
    expect(are_at(&kept, array, &[1, 3][..array.len() / 2]), "filter")?;
    iterators::walk_all(failures, alloc, array)
}

/// The value of a slot, if it allocates.
fn values(failures: &mut Failures, alloc: Global, array: &AnyArray) -> Result<(), Failure> {
    match array {
        AnyArray::LargeList(lists) => {
            let items = failures.retry(|| lists.value(alloc, 1))?;
            expect(
                equal_windows(&Window::of(&items), &lists.window(1)),
                "value of large lists",
            )
        }
        AnyArray::Map(maps) => {
            let entries = failures.retry(|| maps.value(alloc, 1))?;
            expect(
                equal_windows(&Window::of(&entries), &maps.window(1)),
                "value of maps",
            )
        }
        AnyArray::Union(unions) => {
            let value = failures.retry(|| unions.value(alloc, 1))?;
            expect(
                failures.retry(|| unions.value(alloc, 1))? == value,
                "value of unions",
            )
        }
        AnyArray::Struct(records) => {
            for child in records.values() {
                if let AnyArray::Dictionary(keyed) = child {
                    let value = failures.retry(|| keyed.value(alloc, 0))?;
                    expect(
                        failures.retry(|| keyed.value(alloc, 0))? == value,
                        "value of keys",
                    )?;
                }
            }
            Ok(())
        }
        _ => Ok(()),
    }
}

fn slices(failures: &mut Failures, alloc: Global, array: &AnyArray) -> Result<(), Failure> {
    let slice = failures.retry(|| Array::sliced(array, alloc, 1, 2))?;
    expect(are_at(&slice, array, &[1, 2]), "sliced")?;
    if let AnyArray::Union(_) = array {
        return Ok(());
    }
    let no_validity = failures.retry(|| {
        let bits = Bitmap::new_zeroed(alloc, array.len())?;
        Array::with_validity(array, alloc, Some(bits))
    })?;
    expect(no_validity.null_count() == array.len(), "with_validity")
}

/// Whether the slots of an array are those at indices of another one.
fn are_at(array: &AnyArray, source: &AnyArray, indices: &[usize]) -> bool {
    array.len() == indices.len()
        && indices.iter().enumerate().all(|(i, index)| {
            equal_windows(&Window::new(array, i, 1), &Window::new(source, *index, 1))
        })
}

/// A mask of three to five slots, true at 1 and at 3.
fn odd_indices(alloc: Global, count: usize) -> Result<BooleanArray, Error> {
    let mut bits = Vec::with_capacity(alloc, count)?;
    for i in 0..count {
        bits.push(i == 1 || i == 3)?;
    }
    let values = Bitmap::from_bools(alloc, bits.as_slice())?;
    BooleanArray::try_new(DataType::Boolean, values, None)
}

pub fn maps(failures: &mut Failures, alloc: Global) -> Result<(), Failure> {
    let entries = failures.retry(|| records(alloc))?;
    let maps = failures.retry(|| map_array(alloc, &entries))?;
    calls(failures, alloc, &maps)
}

pub fn unions(failures: &mut Failures, alloc: Global) -> Result<(), Failure> {
    let records = failures.retry(|| records(alloc))?;
    for mode in [UnionMode::Dense, UnionMode::Sparse] {
        let unions = failures.retry(|| union_array(alloc, &records, mode))?;
        calls(failures, alloc, &unions)?;
    }
    Ok(())
}

/// Unions of one type, one after another and by array and index.
pub fn joined(failures: &mut Failures, alloc: Global) -> Result<(), Failure> {
    let records = failures.retry(|| records(alloc))?;
    for mode in [UnionMode::Dense, UnionMode::Sparse] {
        let arrays = failures.retry(|| {
            let mut arrays = Vec::with_capacity(alloc, 2)?;
            arrays.push(union_array(alloc, &records, mode)?)?;
            arrays.push(union_array(alloc, &records, mode)?)?;
            Ok(arrays)
        })?;
        let all = failures.retry(|| concatenate(alloc, arrays.as_slice()))?;
        expect(are_at(&all, &arrays[0], &[0, 1, 2, 0, 1, 2]), "concatenate")?;
        let some = failures.retry(|| interleave(
            alloc,
            arrays.as_slice(),
            &[(1, 2), (0, 1), (1, 0)],
        ))?;
        expect(are_at(&some, &arrays[0], &[2, 1, 0]), "interleave")?;
    }
    Ok(())
}

/// Makes an array twice, of the same parts.
fn made_twice(
    failures: &mut Failures,
    alloc: Global,
    make: fn(Global) -> Result<AnyArray, Error>,
) -> Result<(), Failure> {
    let array = failures.retry(|| make(alloc))?;
    expect(
        failures.retry(|| make(alloc))? == array,
        "an array of the same parts",
    )?;
    expect(array.len() == 3, "the length of an array of parts")
}

/// Arrays that are made of their parts, and the value of a slot of lists.
pub fn parts(failures: &mut Failures, alloc: Global) -> Result<(), Failure> {
    let makers: [fn(Global) -> Result<AnyArray, Error>; 4] = [
        strings,
        dictionary_of_strings,
        codes,
        single_numbers,
    ];
    for make in makers {
        made_twice(failures, alloc, make)?;
    }
    let lists = failures.retry(|| lists_of_lists(alloc))?;
    expect(
        failures.retry(|| lists_of_lists(alloc))? == lists,
        "lists of the same parts",
    )?;
    let items = failures.retry(|| lists.value(alloc, 1))?;
    let window = Window::new(lists.values(), 0, 2);
    expect(equal_windows(&Window::of(&items), &window), "value")?;
    let shared = failures.retry(|| lists.clone(alloc)?.arced(alloc))?;
    expect(*shared == lists.boxed(), "arced")
}

/// The text of an array, of a part of it, of a scalar and of a data type.
pub fn shown(failures: &mut Failures, alloc: Global) -> Result<(), Failure> {
    let lists = failures.retry(|| lists_of_lists(alloc))?.boxed();
    let want = "[[],[[1],[]],[[null,3]]]";
    let text = failures.retry(|| Ok(to_json_string(alloc, &lists)?))?;
    expect(text.as_str() == want, "the text of an array")?;
    let text = failures.retry(|| Ok(to_json_string(alloc, &Window::new(&lists, 2, 1))?))?;
    expect(text.as_str() == "[[[null,3]]]", "the text of a part")?;
    let scalar = failures.retry(|| new_scalar(alloc, &lists, 1))?;
    let text = failures.retry(|| Ok(to_json_string(alloc, &scalar)?))?;
    expect(text.as_str() == "[[1],[]]", "the text of a scalar")?;
    let data_type = failures.retry(|| list(alloc, DataType::Int32))?;
    let text = failures.retry(|| Ok(format!(in alloc; "{data_type}")?))?;
    expect(text.as_str() == "list<a: int32>", "the text of a data type")
}

/// Null and empty arrays.
pub fn nulls(failures: &mut Failures, alloc: Global) -> Result<(), Failure> {
    let types: [fn(Global) -> Result<DataType, Error>; 2] = [flat_record, nested_type];
    for made in types {
        let array = failures.retry(|| new_null_array(alloc, made(alloc)?, 3))?;
        let again = failures.retry(|| new_null_array(alloc, made(alloc)?, 3))?;
        expect(array == again && array.null_count() == 3, "new_null_array")?;
        let empty = failures.retry(|| new_empty_array(alloc, made(alloc)?))?;
        expect(empty.len() == 0, "new_empty_array")?;
    }
    Ok(())
}

fn nested_type(alloc: Global) -> Result<DataType, Error> {
    let first = pairs(alloc, DataType::Utf8)?;
    pairs(alloc, record(alloc, first, list(alloc, DataType::Int8)?)?)
}

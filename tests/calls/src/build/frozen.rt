//! Frozen arrays slot by slot, and the data types that they keep.
//!
//! Rows that were accepted, of lists of pairs, of fixed-size lists and by keys, slot by slot; extensions are kept.

use json_write::output::to_json_string;
use nest_array::equal::equal_windows;
use nest_array::{FixedSizeListArray, Window};
use nest_build::array::MutableArray;
use nest_build::dictionary::MutableDictionaryArray;
use nest_build::fixed_size_binary::MutableFixedSizeBinaryArray;
use nest_build::fixed_size_list::MutableFixedSizeListArray;
use nest_build::list::MutableListArray;
use nest_build::null::MutableNullArray;
use nest_build::push::{TryExtend, TryPush};
use nest_build::tried::push_all;
use nest_flat::primitive::mutable::MutablePrimitiveArray;
use nest_flat::utf8::mutable::MutableUtf8Array;
use nest_memory::datatypes::DataType;
use nest_memory::error::{ArgumentError, Error};
use std::alloc::Global;

type Numbers = MutablePrimitiveArray<i64>;

/// Fixed-size lists.
type SizedLists = MutableFixedSizeListArray<Numbers>;

const ITEM_SIZE: Error = Error::InvalidArgumentError(ArgumentError::ItemSize);

fn no_lists(alloc: Global, size: usize) -> Result<SizedLists, Error> {
    MutableFixedSizeListArray::new(alloc, MutablePrimitiveArray::new(alloc), size)
}

/// All slots of what a builder freezes to.
fn slots<B: MutableArray>(alloc: Global, builder: &mut B) -> Result<String, Error> {
    let array = builder.as_box()?;
    Ok(to_json_string(alloc, &array)?)
}

/// A row of one value, or of two.
fn row(alloc: Global, items: &[Option<i64>]) -> Result<Option<Vec<Option<i64>>>, Error> {
    Ok(Some(Vec::from_slice(alloc, items)?))
}

#[test]
fn a_rejected_pair_is_in_no_slot(rt: HostRuntime) -> Result<(), Error> {
    let alloc = rt.alloc();
    let mut rows: MutableListArray<i32, SizedLists> = MutableListArray::new(
        alloc,
        no_lists(alloc, 2)?,
    )?;
    let mixed = vec![in alloc; row(alloc, &[Some(1), Some(2)])?, row(alloc, &[Some(3)])?]?;
    assert!(rt; rows.try_push(Some(mixed)) == Err(ITEM_SIZE));
    rows.try_push(Some(vec![in alloc; row(alloc, &[Some(5), Some(6)])?]?))?;
    assert_eq!(rt; slots(alloc, &mut rows)?.as_str(), "[[[5,6]]]");
    Ok(())
}

#[test]
fn rows_of_another_size_are_in_no_slot(rt: HostRuntime) -> Result<(), Error> {
    let alloc = rt.alloc();
    let mut rows = no_lists(alloc, 2)?;
    let four = row(alloc, &[Some(1), Some(2), Some(3), Some(4)])?;
    assert!(rt; rows.try_push(four) == Err(ITEM_SIZE));
    assert!(rt; rows.try_push(row(alloc, &[])?) == Err(ITEM_SIZE));
    rows.try_push(row(alloc, &[Some(5), Some(6)])?)?;
    assert_eq!(rt; slots(alloc, &mut rows)?.as_str(), "[[5,6]]");
    Ok(())
}

#[test]
fn accepted_rows_are_the_slots(rt: HostRuntime) -> Result<(), Error> {
    let alloc = rt.alloc();
    let mut rows = no_lists(alloc, 1)?;
    let two = row(alloc, &[Some(2), Some(3)])?;
    let items = vec![in alloc; row(alloc, &[Some(1)])?, two, None]?;
    let marks = push_all(alloc, &mut rows, items)?;
    assert!(rt; marks.as_slice() == [true, false, true].as_slice());
    assert_eq!(rt; slots(alloc, &mut rows)?.as_str(), "[[1],null]");
    Ok(())
}

#[test]
fn waiting_items_are_no_row(rt: HostRuntime) -> Result<(), Error> {
    let alloc = rt.alloc();
    let mut rows = no_lists(alloc, 2)?;
    rows.mut_values().try_push(Some(1))?;
    rows.mut_values().try_push(None)?;
    assert!(rt; rows.len() == 0 && rows.values().len() == 2);
    rows.push_valid()?;
    assert!(rt; rows.len() == 1);
    assert_eq!(rt; slots(alloc, &mut rows)?.as_str(), "[[1,null]]");
    Ok(())
}

#[test]
fn strings_at_other_keys_are_equal(rt: HostRuntime) -> Result<(), Error> {
    let alloc = rt.alloc();
    let mut keyed: MutableDictionaryArray<i32, MutableUtf8Array<i32>> =
        MutableDictionaryArray::try_from_values(alloc, MutableUtf8Array::new(alloc)?)?;
    keyed.try_extend([Some("A"), Some("B"), None, Some("C")])?;
    let first = keyed.as_box()?;
    keyed.try_push(Some("C"))?;
    let second = keyed.as_box()?;
    assert_eq!(rt;
        to_json_string(alloc, &first)?.as_str(),
        "[\"A\",\"B\",null,\"C\"]"
    );
    assert!(rt; equal_windows(&Window::new(&first, 3, 1), &Window::of(&second)));
    assert!(rt; !equal_windows(&Window::new(&first, 1, 1), &Window::of(&second)));
    Ok(())
}

fn extension(alloc: Global, data_type: DataType) -> Result<DataType, Error> {
    let name = String::from_str(alloc, "of the user's")?;
    Ok(DataType::Extension(name, Box::new(alloc, data_type)?, None))
}

/// Whether a builder has a data type, and what it freezes to and shares.
fn keeps<B: MutableArray>(
    alloc: Global,
    builder: &mut B,
    data_type: &DataType,
) -> Result<bool, Error> {
    Ok(
        *builder.data_type() == *data_type
            && *builder.as_box()?.data_type() == *data_type
            && *builder.as_arc(alloc)?.data_type() == *data_type
            && builder.is_empty(),
    )
}

#[test]
fn extensions_are_kept(rt: HostRuntime) -> Result<(), Error> {
    let alloc = rt.alloc();
    let of_bytes = extension(alloc, DataType::FixedSizeBinary(2))?;
    let bytes = Vec::from_slice(alloc, b"abcd")?;
    let mut pairs = MutableFixedSizeBinaryArray::try_new(of_bytes.clone(alloc)?, bytes, None)?;
    assert!(rt; keeps(alloc, &mut pairs, &of_bytes)?);
    let data_type = FixedSizeListArray::default_datatype(alloc, DataType::Int64, 2)?;
    let of_lists = extension(alloc, data_type)?;
    let numbers: Numbers = MutablePrimitiveArray::new(alloc);
    let mut rows = MutableFixedSizeListArray::new_from(alloc, numbers, of_lists.clone(alloc)?, 2)?;
    assert!(rt; keeps(alloc, &mut rows, &of_lists)?);
    let of_nulls = extension(alloc, DataType::Null)?;
    let mut nulls = MutableNullArray::new(alloc, of_nulls.clone(alloc)?, 2);
    assert!(rt; !nulls.is_valid(1));
    assert!(rt; keeps(alloc, &mut nulls, &of_nulls)?);
    Ok(())
}

#[test]
fn a_child_that_lost_items_makes_no_row(rt: HostRuntime) -> Result<(), Error> {
    let alloc = rt.alloc();
    let numbers: Numbers = MutablePrimitiveArray::new(alloc);
    let mut rows: MutableListArray<i32, Numbers> = MutableListArray::new(alloc, numbers)?;
    rows.try_push(row(alloc, &[Some(1), Some(2)])?)?;
    rows.mut_values().truncate(1);
    let unfinished = Err(Error::InvalidArgumentError(ArgumentError::Incomplete));
    assert!(rt; rows.try_push_valid() == unfinished);
    assert!(rt; rows.len() == 1 && rows.values().len() == 1);
    Ok(())
}

#[test]
fn room_for_more_items_than_a_length(rt: HostRuntime) -> Result<(), Error> {
    let mut rows = no_lists(rt.alloc(), 2)?;
    assert!(rt; rows.reserve(usize::MAX) == Err(Error::Overflow));
    assert!(rt; rows.reserve(2) == Ok(()));
    Ok(())
}

#[test]
fn values_with_a_row_make_no_dictionary(rt: HostRuntime) -> Result<(), Error> {
    let alloc = rt.alloc();
    let mut texts: MutableUtf8Array<i32> = MutableUtf8Array::new(alloc)?;
    texts.try_push(Some("A"))?;
    let made: Result<MutableDictionaryArray<i8, MutableUtf8Array<i32>>, Error> =
        MutableDictionaryArray::try_from_values(alloc, texts);
    assert!(rt; made.err() == Some(Error::InvalidArgumentError(ArgumentError::ChildNotEmpty)));
    Ok(())
}

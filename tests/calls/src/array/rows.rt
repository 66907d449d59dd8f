//! Worked arrays, read item by item: each slot is decoded as text.
use crate::array::arrays::structs::four;
use crate::array::arrays::{any_list, are_same, list_array, lists_of_lists, numbers};
use nest_array::{AnyArray, ListArray, StructArray};
use nest_flat::any_primitive::AnyPrimitive;
use nest_memory::error::Error;
use std::alloc::Global;

/// Appends slot i of a flat array of numbers or booleans as text.
fn spell_item(array: &AnyArray, i: usize, text: &mut String) -> Result<(), Error> {
    if i >= array.len() {
        text.push_str("past the end")?;
    } else if array.is_null(i) {
        text.push_str("null")?;
    } else {
        spell_value(array, i, text)?;
    }
    Ok(())
}

fn spell_value(array: &AnyArray, i: usize, text: &mut String) -> Result<(), Error> {
    match array {
        AnyArray::Primitive(AnyPrimitive::Int32(array)) if i < array.len() => {
            let value = array.value(i);
            write!(text, "{value}")?;
        }
        AnyArray::Boolean(array) if i < array.len() => {
            let value = array.value(i);
            write!(text, "{value}")?;
        }
        _ => text.push_str("of another kind")?,
    }
    Ok(())
}

/// Appends a flat array as text, in brackets.
fn spell_items(array: &AnyArray, text: &mut String) -> Result<(), Error> {
    text.push_str("[")?;
    for i in 0..array.len() {
        if i > 0 {
            text.push_str(",")?;
        }
        spell_item(array, i, text)?;
    }
    text.push_str("]")?;
    Ok(())
}

/// Appends lists of flat items as text.
fn spell_lists(alloc: Global, lists: &ListArray, text: &mut String) -> Result<(), Error> {
    text.push_str("[")?;
    for i in 0..lists.len() {
        if i > 0 {
            text.push_str(",")?;
        }
        if lists.is_null(i) {
            text.push_str("null")?;
        } else {
            let items = lists.value(alloc, i)?;
            let done = spell_items(&items, text);
            drop(items);
            done?;
        }
    }
    text.push_str("]")?;
    Ok(())
}

fn spell_any_lists(alloc: Global, array: &AnyArray, text: &mut String) -> Result<(), Error> {
    match array {
        AnyArray::List(lists) => spell_lists(alloc, lists, text),
        _ => Ok(text.push_str("of another kind")?),
    }
}

/// Appends lists of lists of flat items as text.
fn spell_lists_of_lists(alloc: Global, lists: &ListArray, text: &mut String) -> Result<(), Error> {
    for i in 0..lists.len() {
        let items = lists.value(alloc, i)?;
        let done = spell_any_lists(alloc, &items, text);
        drop(items);
        done?;
    }
    Ok(())
}

/// Appends records of two flat fields as text.
fn spell_records(records: &StructArray, text: &mut String) -> Result<(), Error> {
    let children = records.values();
    for i in 0..records.len() {
        if records.is_null(i) {
            text.push_str("null ")?;
        } else if let [first, second] = children {
            text.push_str("{")?;
            spell_item(first, i, text)?;
            text.push_str(",")?;
            spell_item(second, i, text)?;
            text.push_str("} ")?;
        }
    }
    Ok(())
}

/// The list of five numbers in four slots.
fn four_lists(alloc: Global) -> Result<ListArray, Error> {
    list_array(
        alloc,
        numbers(alloc, &[1, 2, 3, 4, 5]),
        &[0, 2, 2, 3, 5],
        None,
    )
}

/// Numbers from 1 to 5 by the offsets 0, 2, 2, 3, 5 are [1,2], [], [3], [4,5].
#[test]
fn lists_of_numbers_item_by_item(rt: HostRuntime) {
    let array = four_lists(rt.alloc()).expect(&rt, "four lists");
    let mut text = String::new(rt.alloc());
    let done = spell_lists(rt.alloc(), &array, &mut text);
    assert!(rt; done == Ok(()));
    assert!(rt; text.as_str() == "[[1,2],[],[3],[4,5]]");
}

/// Numbers from 1 to 10 in lists of lists, slot by slot, and equal to a copy that was built over other parts.
#[test]
fn lists_of_lists_item_by_item(rt: HostRuntime) {
    let array = lists_of_lists(rt.alloc()).expect(&rt, "three lists of lists");
    let mut text = String::new(rt.alloc());
    let done = spell_lists_of_lists(rt.alloc(), &array, &mut text);
    assert!(rt; done == Ok(()));
    assert!(rt; text.as_str() == "[[1,2],[3,4]][[5,6,7],[],[8]][[9,10]]");
}

/// The same lists of lists over other parts: the items begin at index 1, and a null list of lists is before them.
pub(crate) fn rebuilt_lists_of_lists(alloc: Global) -> Result<ListArray, Error> {
    let items = numbers(alloc, &[0, 1, 2, 3, 4, 5, 6, 7, 8, 9, 10, 11]);
    let inner = list_array(alloc, items, &[0, 1, 3, 5, 8, 8, 9, 11], None);
    list_array(alloc, any_list(inner), &[1, 3, 6, 7], None)
}

#[test]
fn rebuilt_lists_of_lists_are_equal(rt: HostRuntime) {
    let alloc = rt.alloc();
    let array = any_list(lists_of_lists(alloc));
    let rebuilt = any_list(rebuilt_lists_of_lists(alloc));
    assert!(rt; are_same(array, rebuilt) == Ok(true));
}

/// Records {false,42}, {false,28}, null, {true,31}, equal whatever is under the null.
#[test]
fn records_field_by_field(rt: HostRuntime) {
    let array = four(rt.alloc(), &[42, 28, 19, 31]).expect(&rt, "four records");
    let mut text = String::new(rt.alloc());
    let done = spell_records(&array, &mut text);
    assert!(rt; done == Ok(()));
    assert!(rt; text.as_str() == "{false,42} {false,28} null {true,31} ");
}

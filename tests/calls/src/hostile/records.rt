//! The enum's list of records of a text and a number.

use crate::hostile::arrays::is_int64s;
use crate::hostile::runs::{
    Calls, MEMORY, UNFINISHED, errors_of, has_bits, has_values, push_rejected,
};
use nest_any::{AnyMutableArray, AnyMutableFlat, MutableStructArray};
use nest_array::{AnyArray, ListArray, StructArray};
use nest_build::array::MutableArray;
use nest_flat::any_native::AnyNative;
use nest_flat::any_primitive::mutable::AnyMutablePrimitive;
use nest_flat::plain::Plain;
use nest_flat::primitive::mutable::MutablePrimitiveArray;
use nest_flat::utf8::mutable::MutableUtf8Array;
use nest_memory::datatypes::DataType;
use nest_memory::datatypes::field::Field;
use nest_memory::error::Error;
use std::alloc::Global;
use std::test::Fail;

const X: Plain<'static> = Plain::Text("x");

const Y: Plain<'static> = Plain::Text("y");

const SEVEN: Plain<'static> = Plain::Native(AnyNative::Int64(7));

/// How many lists, records, strings and numbers there are after so many calls.
const ROWS: [(usize, usize, usize, usize); 9] = [
    (0, 0, 0, 0),
    (0, 0, 1, 0),
    (0, 0, 1, 1),
    (0, 1, 1, 1),
    (0, 1, 2, 1),
    (0, 1, 2, 2),
    (0, 2, 2, 2),
    (1, 2, 2, 2),
    (2, 2, 2, 2),
];

fn texts(alloc: Global) -> Result<AnyMutableArray, Error> {
    Ok(AnyMutableArray::Flat(AnyMutableFlat::Utf8(MutableUtf8Array::new(alloc)?)))
}

fn numbers(alloc: Global) -> AnyMutableArray {
    AnyMutableArray::Flat(AnyMutableFlat::Primitive(AnyMutablePrimitive::Int64(
        MutablePrimitiveArray::new(alloc),
    )))
}

fn record_type(alloc: Global) -> Result<DataType, Error> {
    let a = Field::new(alloc, "a", DataType::Utf8, true)?;
    let b = Field::new(alloc, "b", DataType::Int64, true)?;
    Ok(DataType::Struct(vec![in alloc; a, b]?))
}

/// Records of a text and a number, none yet.
pub(crate) fn no_records(alloc: Global) -> Result<MutableStructArray, Error> {
    let data_type = record_type(alloc)?;
    let texts = match texts(alloc) {
        Ok(texts) => texts,
        Err(error) => {
            drop(data_type);
            return Err(error);
        }
    };
    match vec![in alloc; texts, numbers(alloc)] {
        Ok(values) => MutableStructArray::try_new(alloc, data_type, values, None),
        Err(refused) => {
            drop(refused);
            drop(data_type);
            Err(MEMORY)
        }
    }
}

/// Lists over a child that is whole.
fn lists_over(
    alloc: Global,
    data_type: DataType,
    child: AnyMutableArray,
) -> Result<AnyMutableArray, Error> {
    if !child.is_complete() {
        drop(child);
        drop(data_type);
        return Err(UNFINISHED);
    }
    AnyMutableArray::try_nested(alloc, data_type, child)
}

fn no_lists(alloc: Global) -> Result<AnyMutableArray, Error> {
    let data_type = ListArray::default_datatype(alloc, record_type(alloc)?)?;
    match no_records(alloc) {
        Ok(records) => lists_over(alloc, data_type, AnyMutableArray::Struct(records)),
        Err(error) => {
            drop(data_type);
            Err(error)
        }
    }
}

/// Pushes a value, or a null, into field i of the records.
fn push(lists: &mut AnyMutableArray, i: usize, value: Option<Plain<'_>>) -> Result<(), Error> {
    match lists.child(0) {
        Some(records) => match records.child(i) {
            Some(child) if child.is_complete() => child.try_push_plain(value),
            _ => Err(UNFINISHED),
        },
        None => Err(UNFINISHED),
    }
}

/// Pushes a row of what waits.
fn push_row(builder: &mut AnyMutableArray, valid: bool) -> Result<(), Error> {
    if !builder.has_complete_children() {
        return Err(UNFINISHED);
    }
    builder.push_row(valid)
}

fn push_struct_row(lists: &mut AnyMutableArray, valid: bool) -> Result<(), Error> {
    match lists.child(0) {
        Some(records) => push_row(records, valid),
        None => Err(UNFINISHED),
    }
}

fn add_null(lists: &mut AnyMutableArray) -> Result<(), Error> {
    if !lists.is_complete() {
        return Err(UNFINISHED);
    }
    lists.push_null()
}

/// Whether so many records, strings and numbers are there, and each is what was pushed.
fn has_records(any: &AnyMutableArray, records: usize, texts: usize, numbers: usize) -> bool {
    let AnyMutableArray::Struct(builder) = any else {
        return false;
    };
    let [a, b] = builder.values() else {
        return false;
    };
    has_bits(any, &[true, false][..records.min(2)])
        && has_values(a, &[Some("x"), Some("y")][..texts.min(2)])
        && has_values(b, &[Some(7i64), None][..numbers.min(2)])
}

/// Whether a record of a text alone and one that is null are there.
fn are_two_records(records: &StructArray) -> bool {
    let [AnyArray::Utf8(texts), numbers] = records.values() else {
        return false;
    };
    if records.len() != 2 || texts.len() != 2 {
        return false;
    }
    let same_texts = texts.get(0) == Some("x") && texts.get(1) == Some("y");
    !records.is_null(0) && records.is_null(1) && same_texts && is_int64s(numbers, &[Some(7), None])
}

/// Whether a list of two records and a null list were frozen.
fn is_expected(array: &AnyArray) -> bool {
    let AnyArray::List(lists) = array else {
        return false;
    };
    let AnyArray::Struct(records) = lists.values() else {
        return false;
    };
    lists.len() == 2
        && !lists.is_null(0)
        && lists.is_null(1)
        && lists.offsets().as_slice() == [0i32, 2, 2].as_slice()
        && are_two_records(records)
}

impl Calls for AnyMutableArray {
    fn count(&self) -> usize {
        8
    }

    fn call(&mut self, _alloc: Global, k: usize) -> Result<(), Error> {
        match k {
            0 => push(self, 0, Some(X)),
            1 => push(self, 1, Some(SEVEN)),
            2 => push_struct_row(self, true),
            3 => push(self, 0, Some(Y)),
            4 => push(self, 1, None),
            5 => push_struct_row(self, false),
            6 => push_row(self, true),
            _ => add_null(self),
        }
    }

    fn is_after(&mut self, k: usize) -> bool {
        if k >= ROWS.len() {
            return false;
        }
        let (lists, records, texts, numbers) = ROWS[k];
        let same = has_bits(self, &[true, false][..lists.min(2)]);
        match self.child(0) {
            Some(child) => same && has_records(child, records, texts, numbers),
            None => false,
        }
    }

    fn is_frozen(&mut self) -> Result<bool, Error> {
        match self.as_box() {
            Ok(array) => {
                let same = is_expected(&array);
                drop(array);
                Ok(same && self.is_complete())
            }
            Err(error) => Err(error),
        }
    }
}

/// A call that finds no memory changes no level of lists of records of any kind, and is accepted when it is made again; a
/// freeze leaves the builder empty and complete.
#[test]
fn lists_of_records(rt: HostRuntime) -> Result<(), Fail> {
    let alloc = rt.alloc();
    let refused = errors_of(&rt, alloc, no_lists(alloc));
    push_rejected(&rt, refused > 0)
}

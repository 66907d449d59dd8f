//! Records that were pushed, slot by slot.

use super::records::{UNFINISHED, numbers, over, records_of};
use json_write::output::to_json_string;
use nest_any::MutableStructArray;
use nest_array::AnyArray;
use nest_build::array::MutableArray;
use nest_flat::any_native::AnyNative;
use nest_flat::any_primitive::AnyPrimitive;
use nest_flat::plain::Plain;
use nest_memory::datatypes::DataType;
use nest_memory::error::Error;

fn add(records: &mut MutableStructArray, item: Option<i64>) -> Result<(), Error> {
    let item = item.map(|number| Plain::Native(AnyNative::Int64(number)));
    records.value(0).try_push_plain(item)
}

/// Whether records are of these raw numbers.
fn are_of(records: &AnyArray, numbers: &[i64]) -> bool {
    let AnyArray::Struct(records) = records else {
        return false;
    };
    match records.values() {
        [AnyArray::Primitive(AnyPrimitive::Int64(found))] => found.values().as_slice() == numbers,
        _ => false,
    }
}

/// Records 1, null and 2 slot by slot, and the raw numbers below them; a fourth that is not pushed keeps them from being
/// frozen.
#[test]
fn pushed_records_are_the_slots(rt: HostRuntime) -> Result<(), Error> {
    let alloc = rt.alloc();
    let children = vec![in alloc; numbers(alloc)];
    let mut records = over(alloc, records_of(alloc, DataType::Int64)?, children, None)?;
    for (item, valid) in [(Some(1), true), (None, false), (Some(2), true)] {
        add(&mut records, item)?;
        records.push(valid)?;
    }
    add(&mut records, Some(3))?;
    assert!(rt; records.as_box().err() == Some(UNFINISHED));
    assert!(rt; records.len() == 3 && records.value(0).len() == 4);
    records.value(0).truncate(3);
    let array = records.as_box()?;
    assert_eq!(rt;
        to_json_string(alloc, &array)?.as_str(),
        "[{\"a\":1},null,{\"a\":2}]"
    );
    assert!(rt; are_of(&array, &[1, 0, 2]));
    Ok(())
}

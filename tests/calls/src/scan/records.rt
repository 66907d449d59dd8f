//! Iterators over records from both ends.
use crate::scan::parts::{both, numbers, two, validity};
use crate::scan::walks::{expect_decoded, walked};
use nest_array::{AnyArray, StructArray};
use nest_flat::boolean::BooleanArray;
use nest_memory::bitmap::immutable::Bitmap;
use nest_memory::datatypes::DataType;
use nest_memory::datatypes::field::Field;
use nest_memory::error::Error;
use nest_scan::{Scan, ScanValues, StructValueIter};
use std::alloc::Global;

fn booleans(alloc: Global, items: &[bool]) -> Result<AnyArray, Error> {
    match Bitmap::from_bools(alloc, items) {
        Ok(values) => BooleanArray::try_new(DataType::Boolean, values, None).map(
            |array| AnyArray::Boolean(array),
        ),
        Err(error) => Err(error),
    }
}

/// {false,42}, {false,28}, {true,19}, {true,31}.
pub(crate) fn four_records(alloc: Global, bits: Option<&[bool]>) -> Result<StructArray, Error> {
    let boolean = Field::new(alloc, "b", DataType::Boolean, false);
    let number = Field::new(alloc, "c", DataType::Int32, false);
    let data_type = two(alloc, boolean, number).map(|fields| DataType::Struct(fields));
    let first = booleans(alloc, &[false, false, true, true]);
    let children = two(alloc, first, numbers(alloc, &[42, 28, 19, 31]));
    match both(both(data_type, children), validity(alloc, bits)) {
        Ok(((data_type, children), validity)) => {
            StructArray::try_new(data_type, children, validity)
        }
        Err(error) => Err(error),
    }
}

/// A walk over the slots.
fn slots(alloc: Global, records: &StructArray, turns: &str) -> Result<String, Error> {
    walked(alloc, records.iter(alloc), turns)
}

/// A walk over the records, also under nulls.
fn values(alloc: Global, records: &StructArray, turns: &str) -> Result<String, Error> {
    let values: StructValueIter<'_> = records.values_iter(alloc);
    walked(alloc, values, turns)
}

/// Records {false,42}, {false,28}, {true,19}, {true,31}: item i is the two scalars of row i.
#[test]
fn two_scalars_a_row(rt: HostRuntime) {
    let alloc = rt.alloc();
    let records = four_records(alloc, None).expect(&rt, "four records");
    let wanted =
        "4 {false;Int32(42);} {true;Int32(31);} {false;Int32(28);} {true;Int32(19);} 0 - - ";
    expect_decoded(&rt, slots(alloc, &records, "#><>>#><"), wanted);
}

#[test]
fn nulls_among_records(rt: HostRuntime) {
    let alloc = rt.alloc();
    let bits = [true, true, false, true].as_slice();
    let records = four_records(alloc, Some(bits)).expect(&rt, "four records");
    expect_decoded(
        &rt,
        slots(alloc, &records, "<<#"),
        "{true;Int32(31);} null 2 ",
    );
    let wanted = "{true;Int32(31);} {true;Int32(19);} {false;Int32(42);} ";
    expect_decoded(&rt, values(alloc, &records, "<<>"), wanted);
}

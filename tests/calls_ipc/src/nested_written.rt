//! Arrays of every nesting that are random, cut, written, and round-trip.
//!
//! Arrays of every nesting, random and cut, are written and round-trip, over the values of their dictionaries; columns are one
//! after the other.
use ipc_arrays::{BatchCursor, BodyLayout, layout_columns, read_columns, write_columns};
use ipc_flatbuf::IpcWriteError;
use nest_array::AnyArray;
use nest_memory::datatypes::DataType;
use nest_memory::error::Error;
use random::layouts::lay;
use random::numbers::Generator;
use random::slots::random_slots;
use random::start::START;
use random::types::random_type;
use std::alloc::Global;
use std::test::Fail;

const CASES: usize = 300;

// Whether a dictionary is among a type and those below it.
fn has_dictionary(data_type: &DataType) -> bool {
    match data_type {
        DataType::Dictionary(_, _, _) => true,
        DataType::Extension(_, inner, _) => has_dictionary(inner),
        DataType::List(field) | DataType::LargeList(field) | DataType::Map(field, _) => {
            has_dictionary(&field.data_type)
        }
        DataType::FixedSizeList(field, _) => has_dictionary(&field.data_type),
        DataType::Struct(fields) => fields.iter().any(|field| has_dictionary(&field.data_type)),
        DataType::Union(fields, _, _) => {
            fields.iter().any(|field| has_dictionary(&field.data_type))
        }
        _ => false,
    }
}

// An array of a type, cut.
fn random_array(
    alloc: Global,
    rng: &mut Generator,
    data_type: &DataType,
) -> Result<AnyArray, Error> {
    let count = rng.below(14);
    let slots = random_slots(alloc, rng, data_type, count)?;
    let array = lay(alloc, rng, data_type, slots.as_slice())?;
    let (o, n) = rng.window(count);
    Ok(array.sliced(o, n))
}

// What is written of columns, after bytes that are there.
fn written(
    alloc: Global,
    columns: &[AnyArray],
    before: usize,
) -> Result<(BodyLayout, Vec<u8>), IpcWriteError> {
    let placed = layout_columns(alloc, columns)?;
    let mut out = Vec::new(alloc);
    for _ in 0..before {
        out.push(255)?;
    }
    write_columns(&mut out, columns)?;
    Ok((placed, out))
}

// The values that the arrays of keys in an array name, in their order.
fn name_values<'a>(
    array: &'a AnyArray,
    values: &mut Vec<Option<&'a AnyArray>>,
) -> Result<(), Error> {
    match array {
        AnyArray::Dictionary(array) => values.push(Some(array.values()))?,
        AnyArray::List(array) => name_values(array.values(), values)?,
        AnyArray::LargeList(array) => name_values(array.values(), values)?,
        AnyArray::FixedSizeList(array) => name_values(array.values(), values)?,
        AnyArray::Map(array) => name_values(array.field(), values)?,
        AnyArray::Struct(array) => {
            for child in array.values() {
                name_values(child, values)?;
            }
        }
        AnyArray::Union(array) => {
            for field in array.fields() {
                name_values(field, values)?;
            }
        }
        _ => {}
    }
    Ok(())
}

// Whether a column is written, and over the values of its dictionaries round-trip as the same.
fn is_again(alloc: Global, column: AnyArray, data_type: DataType) -> Result<bool, Error> {
    let rows = column.len();
    let columns = [column];
    let Ok((placed, body)) = written(alloc, &columns, 0) else {
        return Ok(false);
    };
    if body.len() != placed.length {
        return Ok(false);
    }
    let mut values = Vec::new(alloc);
    name_values(&columns[0], &mut values)?;
    let left = BatchCursor {
        nodes: &placed.nodes,
        buffers: &placed.buffers,
        dictionaries: &values,
    };
    match read_columns(alloc, &[data_type], rows, &body, left) {
        Ok(read) => Ok(read.len() == 1 && read[0] == columns[0]),
        Err(_) => Ok(false),
    }
}

#[test]
fn random_windows_are_read_back(rt: HostRuntime) -> Result<(), Fail> {
    let alloc = rt.alloc();
    let mut count = 0;
    for case in 0..CASES {
        let mut rng = Generator::new(START, 41, case);
        let depth = rng.between(0, 4);
        let data_type = random_type(alloc, &mut rng, depth)?;
        let column = random_array(alloc, &mut rng, &data_type)?;
        if has_dictionary(&data_type) {
            count += 1;
        }
        let same = is_again(alloc, column, data_type)?;
        assert!(rt; same, "start {START}, case {case}");
    }
    assert!(rt;
        count > CASES / 20,
        "only {count} had a dictionary: start {START}"
    );
    Ok(())
}

// Two columns one after the other, after other bytes.
#[test]
fn columns_follow_one_another(rt: HostRuntime) -> Result<(), Fail> {
    let alloc = rt.alloc();
    for case in 0..CASES / 4 {
        let mut rng = Generator::new(START, 42, case);
        let depth = rng.between(1, 3);
        let data_type = random_type(alloc, &mut rng, depth)?;
        let one = random_array(alloc, &mut rng, &data_type)?;
        let other = random_array(alloc, &mut rng, &data_type)?;
        let (first, alone) = written(alloc, &[one.clone(alloc)?], 0).map_err(|_| Error::Overflow)?;
        let (second, behind) = written(alloc, &[other.clone(alloc)?], 0).map_err(
            |_| Error::Overflow,
        )?;
        let (both, body) = written(alloc, &[one, other], 3).map_err(|_| Error::Overflow)?;
        assert!(rt;
            both.length == first.length + second.length,
            "start {START}, case {case}"
        );
        assert!(rt;
            both.nodes.len() == first.nodes.len() + second.nodes.len(),
            "start {START}, case {case}"
        );
        assert!(rt;
            &body.as_slice()[3..3 + alone.len()] == alone.as_slice(),
            "start {START}, case {case}"
        );
        assert!(rt;
            &body.as_slice()[3 + alone.len()..] == behind.as_slice(),
            "start {START}, case {case}"
        );
    }
    Ok(())
}

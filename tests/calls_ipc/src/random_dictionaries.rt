//! Schemas with dictionaries at any depth that are random, and batches of arrays that share, grow or change values: what is written
//! of them is as the model has it, and is round-trip.
//!
//! Schemas with dictionaries at any depth, random, and batches that share, grow or change values, held against a plain model of
//! which come.
use crate::dictionary_columns::any_keys;
use crate::dictionary_model::{is_written, model_of, written};
use crate::schemas::{count_dictionaries, count_outer, wanted_of};
use ipc::Batch;
use ipc_schema::Schema;
use nest_array::DictionaryArray;
use nest_array::any::AnyArray;
use nest_memory::datatypes::{DataType, Field, UnionMode};
use nest_memory::error::Error;
use random::layouts::lay;
use random::numbers::Generator;
use random::read::slots_by_calls;
use random::slots::random_slots;
use random::start::START;
use random::types::{logical, random_key_type, random_type};
use std::alloc::Global;
use std::collections::BTreeMap;

fn field(alloc: Global, rng: &mut Generator, data_type: DataType) -> Result<Field, Error> {
    Field::new(alloc, "f", data_type, rng.boolean())
}

fn other_field(alloc: Global, rng: &mut Generator) -> Result<Field, Error> {
    let data_type = random_type(alloc, rng, 1)?;
    field(alloc, rng, data_type)
}

// A dictionary of these values, at times inside of another type.
fn around(alloc: Global, rng: &mut Generator, values: DataType) -> Result<DataType, Error> {
    let key = random_key_type(rng);
    let own = DataType::Dictionary(key, Box::new(alloc, values)?, rng.boolean());
    let kind = rng.below(6);
    if kind < 2 {
        return Ok(own);
    }
    let own = field(alloc, rng, own)?;
    Ok(match kind {
        2 => DataType::List(Box::new(alloc, own)?),
        3 => DataType::FixedSizeList(Box::new(alloc, own)?, 2),
        4 => DataType::Struct(vec![in alloc; other_field(alloc, rng)?, own]?),
        _ => {
            let fields = vec![in alloc; own, other_field(alloc, rng)?]?;
            DataType::Union(fields, None, UnionMode::Dense)
        }
    })
}

/// A type with a dictionary in it or two.
pub fn random_dictionary_type(alloc: Global, rng: &mut Generator) -> Result<DataType, Error> {
    let depth = rng.below(3);
    let mut data_type = random_type(alloc, rng, depth)?;
    for _ in 0..rng.between(1, 2) {
        data_type = around(alloc, rng, data_type)?;
    }
    Ok(data_type)
}

fn random_fields(alloc: Global, rng: &mut Generator) -> Result<Vec<Field>, Error> {
    let mut fields = Vec::new(alloc);
    for _ in 0..rng.between(1, 2) {
        let data_type = random_dictionary_type(alloc, rng)?;
        fields.push(field(alloc, rng, data_type)?)?;
        if rng.one_in(3) {
            fields.push(other_field(alloc, rng)?)?;
        }
    }
    Ok(fields)
}

// Fields with dictionaries that can be written, the first that are random.
fn random_schema(alloc: Global, rng: &mut Generator) -> Result<Schema, Error> {
    let mut fields = random_fields(alloc, rng)?;
    while wanted_of(&fields, 64).is_some() {
        fields = random_fields(alloc, rng)?;
    }
    Ok(Schema {
        fields,
        metadata: BTreeMap::new(alloc),
    })
}

fn new_column(
    alloc: Global,
    rng: &mut Generator,
    data_type: &DataType,
    rows: usize,
) -> Result<AnyArray, Error> {
    let slots = random_slots(alloc, rng, data_type, rows)?;
    lay(alloc, rng, data_type, slots.as_slice())
}

// The same keys of the same values and some more; of another column nothing.
fn delta(alloc: Global, rng: &mut Generator, last: &AnyArray) -> Result<AnyArray, Error> {
    let AnyArray::Dictionary(array) = last else {
        return last.clone(alloc);
    };
    let DataType::Dictionary(key, value, _) = logical(array.data_type()) else {
        return last.clone(alloc);
    };
    let mut indices = Vec::new(alloc);
    for i in 0..array.len() {
        let place = if array.is_null(i) {
            None
        } else {
            array.keys().index(i)
        };
        indices.push(place)?;
    }
    let mut slots = slots_by_calls(alloc, array.values())?;
    let more = rng.below(3);
    slots.extend(random_slots(alloc, rng, value, more)?)?;
    let values = lay(alloc, rng, value, slots.as_slice())?;
    let keys = any_keys(alloc, *key, &indices)?;
    let data_type = array.data_type().clone(alloc)?;
    Ok(AnyArray::Dictionary(DictionaryArray::try_new(alloc, data_type, keys, values)?))
}

// A column after another of its type: a slice of it, of it delta, or a new one.
fn next_column(
    alloc: Global,
    rng: &mut Generator,
    data_type: &DataType,
    rows: usize,
    last: &AnyArray,
) -> Result<AnyArray, Error> {
    if last.len() < rows || rng.one_in(8) {
        return new_column(alloc, rng, data_type, rows);
    }
    let o = rng.between(0, last.len() - rows);
    if rng.boolean() {
        return Ok(delta(alloc, rng, last)?.sliced(o, rows));
    }
    Ok(last.clone(alloc)?.sliced(o, rows))
}

fn random_batch(
    alloc: Global,
    rng: &mut Generator,
    schema: &Schema,
    last: Option<&Batch>,
) -> Result<Batch, Error> {
    let most = match last {
        None => 9,
        Some(last) => last.rows + 1,
    };
    let rows = rng.between(most / 2, most);
    let mut columns = Vec::new(alloc);
    for (i, field) in schema.fields.iter().enumerate() {
        columns.push(match last {
            None => new_column(alloc, rng, &field.data_type, rows)?,
            Some(last) => next_column(alloc, rng, &field.data_type, rows, &last.columns[i])?,
        })?;
    }
    Ok(Batch { rows, columns })
}

fn random_batches(
    alloc: Global,
    rng: &mut Generator,
    schema: &Schema,
) -> Result<Vec<Batch>, Error> {
    let mut batches = Vec::new(alloc);
    for _ in 0..rng.between(1, 4) {
        let batch = random_batch(alloc, rng, schema, batches.last())?;
        batches.push(batch)?;
    }
    Ok(batches)
}

/// How many cases had a file of more than one batch, in how many of them a dictionary grew, how many were rejected, how many had
/// dictionaries inside of another's values; and a case that was not as the model has it.
#[derive(Clone, Copy, Debug)]
struct Found {
    filed: usize,
    delta: usize,
    refused: usize,
    nested: usize,
    wrong: Option<usize>,
}

const RANDOM: u64 = 53;

fn note_case(alloc: Global, case: usize, found: &mut Found) -> Result<(), Error> {
    let mut rng = Generator::new(START, RANDOM, case);
    let schema = random_schema(alloc, &mut rng)?;
    let batches = random_batches(alloc, &mut rng, &schema)?;
    let model = model_of(alloc, &batches)?;
    let own = written(alloc, &schema, &batches)?;
    if !is_written(&own, model.stream.as_str(), model.file()) {
        found.wrong = Some(case);
    }
    if count_dictionaries(&schema.fields) > count_outer(&schema.fields) {
        found.nested += 1;
    }
    match model.file() {
        None => found.refused += 1,
        Some(messages) if messages.contains("D") => found.delta += 1,
        Some(_) => {}
    }
    if !model.replaces && batches.len() > 1 {
        found.filed += 1;
    }
    Ok(())
}

fn cases(alloc: Global, from: usize, to: usize) -> Result<Found, Error> {
    let mut found = Found {
        filed: 0,
        delta: 0,
        refused: 0,
        nested: 0,
        wrong: None,
    };
    for case in from..to {
        note_case(alloc, case, &mut found)?;
    }
    Ok(found)
}

fn are_as_the_model(found: &Found) -> bool {
    found.wrong.is_none()
        && found.filed > 9
        && found.delta > 1
        && found.refused > 9
        && found.nested > 9
}

#[test]
fn the_first_hundred(rt: HostRuntime) {
    let found = cases(rt.alloc(), 0, 100).expect(&rt, "not random");
    assert!(rt; are_as_the_model(&found), "start {START}: {found:?}");
}

#[test]
fn the_second_hundred(rt: HostRuntime) {
    let found = cases(rt.alloc(), 100, 200).expect(&rt, "not random");
    assert!(rt; are_as_the_model(&found), "start {START}: {found:?}");
}

#[test]
fn the_third_hundred(rt: HostRuntime) {
    let found = cases(rt.alloc(), 200, 300).expect(&rt, "not random");
    assert!(rt; are_as_the_model(&found), "start {START}: {found:?}");
}

//! Dictionaries of any values that are random, and that come in parts, the first of which is new and the others are deltas: each batch
//! is read over what came before it, whole, batch by batch and by columns; and all of it from a file.
//!
//! Dictionaries of any values, random, in three parts with batches between them, read whole, batch by batch and by columns, and
//! from files.
use crate::delta_messages::{file_of, put_delta, put_end, put_keys, put_values};
use crate::dictionary_columns::any_keys;
use crate::dictionary_model::{are_same, unread, unwritten};
use crate::random_dictionaries::random_dictionary_type;
use crate::schemas::{count_dictionaries, wanted_of};
use crate::stream_text::{read_alike, read_file_alike};
use ipc::dictionaries::pending_dictionaries;
use ipc::{Batch, read_stream_projected};
use ipc_schema::{Projection, Schema, write_schema_with_dictionaries};
use nest_array::DictionaryArray;
use nest_array::any::AnyArray;
use nest_memory::datatypes::{DataType, Field, IntegerType};
use nest_memory::error::Error;
use random::layouts::lay;
use random::numbers::Generator;
use random::slots::random_slots;
use random::start::START;
use random::types::random_key_type;
use std::alloc::Global;
use std::collections::BTreeMap;

/// In how many parts values come.
const PARTS: usize = 3;

/// A column by a dictionary: all of its values, the id of them, and how many there are after each part.
#[derive(Drop)]
struct Delta {
    key: IntegerType,
    id: i64,
    values: AnyArray,
    ends: [usize; PARTS],
}

impl Delta {
    // The values of a part.
    fn part(&self, alloc: Global, k: usize) -> Result<AnyArray, Error> {
        let begin = if k == 0 { 0 } else { self.ends[k - 1] };
        Ok(
            self.values
                .clone(alloc)?
                .sliced(begin, self.ends[k] - begin),
        )
    }

    // A column of so many rows, whose keys name values of the parts so far.
    fn column(
        &self,
        alloc: Global,
        rng: &mut Generator,
        data_type: &DataType,
        k: usize,
        rows: usize,
    ) -> Result<AnyArray, Error> {
        let mut indices = Vec::new(alloc);
        for _ in 0..rows {
            let none = self.ends[k] == 0 || rng.one_in(6);
            let index = if none {
                None
            } else {
                Some(rng.below(self.ends[k]))
            };
            indices.push(index)?;
        }
        let keys = any_keys(alloc, self.key, &indices)?;
        let values = self.values.clone(alloc)?;
        let data_type = data_type.clone(alloc)?;
        Ok(AnyArray::Dictionary(DictionaryArray::try_new(alloc, data_type, keys, values)?))
    }
}

fn random_field(alloc: Global, rng: &mut Generator) -> Result<Field, Error> {
    let values = random_dictionary_type(alloc, rng)?;
    let key = random_key_type(rng);
    let data_type = DataType::Dictionary(key, Box::new(alloc, values)?, rng.boolean());
    Field::new(alloc, "f", data_type, true)
}

// A field by a dictionary, the first that can be written.
fn field_of_form(alloc: Global, rng: &mut Generator) -> Result<Vec<Field>, Error> {
    let mut fields = vec![in alloc; random_field(alloc, rng)?]?;
    while wanted_of(&fields, 64).is_some() {
        fields = vec![in alloc; random_field(alloc, rng)?]?;
    }
    Ok(fields)
}

fn random_schema(alloc: Global, rng: &mut Generator) -> Result<Schema, Error> {
    let mut fields = field_of_form(alloc, rng)?;
    if rng.boolean() {
        fields.extend(field_of_form(alloc, rng)?)?;
    }
    Ok(Schema {
        fields,
        metadata: BTreeMap::new(alloc),
    })
}

fn random_delta(alloc: Global, rng: &mut Generator, schema: &Schema) -> Result<Vec<Delta>, Error> {
    let mut columns = Vec::new(alloc);
    for (i, field) in schema.fields.iter().enumerate() {
        let DataType::Dictionary(key, values, _) = &field.data_type else {
            return Err(Error::NotYetImplemented);
        };
        let count = rng.below(12);
        let slots = random_slots(alloc, rng, values, count)?;
        let one = rng.between(0, count);
        let ends = [rng.between(0, one), one, count];
        columns.push(Delta {
            key: *key,
            id: count_dictionaries(&schema.fields[..i]) as i64,
            values: lay(alloc, rng, values, slots.as_slice())?,
            ends,
        })?;
    }
    Ok(columns)
}

// A batch after a part of each column's values.
fn random_batch(
    alloc: Global,
    rng: &mut Generator,
    schema: &Schema,
    columns: &[Delta],
    k: usize,
) -> Result<Batch, Error> {
    let rows = rng.below(6);
    let mut arrays = Vec::new(alloc);
    for (i, column) in columns.iter().enumerate() {
        arrays.push(column.column(alloc, rng, &schema.fields[i].data_type, k, rows)?)?;
    }
    Ok(Batch {
        rows,
        columns: arrays,
    })
}

// The first part of each column's values, and all that is inside of those.
fn put_first(
    alloc: Global,
    out: &mut Vec<u8>,
    columns: &[Delta],
    batch: &Batch,
) -> Result<(), Error> {
    let none = BTreeMap::new(alloc);
    for (id, values) in &pending_dictionaries(alloc, &none, &batch.columns)? {
        match columns.iter().find(|column| column.id == *id) {
            None => put_values(alloc, out, *id, values).map_err(unwritten)?,
            Some(column) => {
                put_values(alloc, out, *id, &column.part(alloc, 0)?).map_err(unwritten)?;
            }
        }
    }
    Ok(())
}

fn stream_of(
    alloc: Global,
    schema: &Schema,
    columns: &[Delta],
    batches: &[Batch],
) -> Result<Vec<u8>, Error> {
    let mut out = write_schema_with_dictionaries(alloc, schema).map_err(unwritten)?;
    put_first(alloc, &mut out, columns, &batches[0])?;
    put_keys(alloc, &mut out, &batches[0]).map_err(unwritten)?;
    for k in 1..PARTS {
        for column in columns {
            let more = column.part(alloc, k)?;
            put_delta(alloc, &mut out, column.id, &more).map_err(unwritten)?;
        }
        put_keys(alloc, &mut out, &batches[k]).map_err(unwritten)?;
    }
    put_end(&mut out).map_err(unwritten)?;
    Ok(out)
}

// How many values the columns of a batch have.
fn count_values(batch: &Batch, columns: &[Delta], k: usize) -> bool {
    for (i, column) in columns.iter().enumerate() {
        match &batch.columns[i] {
            AnyArray::Dictionary(array) if array.values().len() == column.ends[k] => {}
            _ => return false,
        }
    }
    true
}

// Whether the stream has these batches, each over the values that came before it; and each column by itself.
fn is_stream_of(
    alloc: Global,
    bytes: &[u8],
    columns: &[Delta],
    batches: &[Batch],
) -> Result<bool, Error> {
    let Some(read) = read_alike(alloc, bytes) else {
        return Ok(false);
    };
    let stream = read.map_err(unread)?;
    if !are_same(&stream.batches, batches) {
        return Ok(false);
    }
    for k in 0..PARTS {
        if !count_values(&stream.batches[k], columns, k) {
            return Ok(false);
        }
    }
    for i in 0..columns.len() {
        let one = read_stream_projected(alloc, bytes, Projection::Indices(&[i])).map_err(unread)?;
        for k in 0..PARTS {
            if one.batches[k].columns[0] != batches[k].columns[i] {
                return Ok(false);
            }
        }
    }
    Ok(true)
}

// Whether the file of it has, all over the values at its end.
fn is_file_of(
    alloc: Global,
    bytes: &[u8],
    columns: &[Delta],
    batches: &[Batch],
) -> Result<bool, Error> {
    let Some(read) = read_file_alike(alloc, bytes) else {
        return Ok(false);
    };
    let file = read.map_err(unread)?;
    if !are_same(&file.batches, batches) {
        return Ok(false);
    }
    for k in 0..PARTS {
        if !count_values(&file.batches[k], columns, PARTS - 1) {
            return Ok(false);
        }
    }
    Ok(true)
}

const RANDOM: u64 = 59;

/// How many cases had dictionaries inside of values; and one that was read as something else.
#[derive(Clone, Copy, Debug)]
struct Found {
    nested: usize,
    wrong: Option<usize>,
}

fn note_case(alloc: Global, case: usize, found: &mut Found) -> Result<(), Error> {
    let mut rng = Generator::new(START, RANDOM, case);
    let schema = random_schema(alloc, &mut rng)?;
    let columns = random_delta(alloc, &mut rng, &schema)?;
    let mut batches = Vec::new(alloc);
    for k in 0..PARTS {
        batches.push(random_batch(alloc, &mut rng, &schema, &columns, k)?)?;
    }
    let stream = stream_of(alloc, &schema, &columns, &batches)?;
    let file = file_of(alloc, &stream).map_err(unread)?;
    if !is_stream_of(alloc, &stream, &columns, &batches)?
        || !is_file_of(alloc, &file, &columns, &batches)?
    {
        found.wrong = Some(case);
    }
    if count_dictionaries(&schema.fields) > schema.fields.len() {
        found.nested += 1;
    }
    Ok(())
}

fn cases(alloc: Global, from: usize, to: usize) -> Result<Found, Error> {
    let mut found = Found {
        nested: 0,
        wrong: None,
    };
    for case in from..to {
        note_case(alloc, case, &mut found)?;
    }
    Ok(found)
}

#[test]
fn the_first_forty(rt: HostRuntime) {
    let found = cases(rt.alloc(), 0, 40).expect(&rt, "not random");
    assert!(rt;
        found.wrong.is_none() && found.nested > 9,
        "start {START}: {found:?}"
    );
}

#[test]
fn the_second_forty(rt: HostRuntime) {
    let found = cases(rt.alloc(), 40, 80).expect(&rt, "not random");
    assert!(rt;
        found.wrong.is_none() && found.nested > 9,
        "start {START}: {found:?}"
    );
}

#[test]
fn the_third_forty(rt: HostRuntime) {
    let found = cases(rt.alloc(), 80, 120).expect(&rt, "not random");
    assert!(rt;
        found.wrong.is_none() && found.nested > 9,
        "start {START}: {found:?}"
    );
}

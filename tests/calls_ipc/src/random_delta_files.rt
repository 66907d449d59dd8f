//! Columns of any type, random, whose dictionaries have deltas in two or three steps, some of them inside of the values of another, which grows
//! too: the file and the stream of them are as the model has them, and both are round-trip.
//!
//! Columns of any type, random, whose dictionaries have deltas in two or three steps, inside of values too, held against the same
//! model as stream and as file.
use crate::dictionary_columns::{any_keys, list, record, schema_of, union};
use crate::dictionary_model::{is_written, model_of, written};
use crate::schemas::{count_dictionaries, wanted_of};
use ipc::Batch;
use nest_array::DictionaryArray;
use nest_array::any::AnyArray;
use nest_memory::datatypes::{DataType, Field, IntegerType};
use nest_memory::error::Error;
use random::layouts::lay;
use random::numbers::Generator;
use random::slot::Slot;
use random::slots::random_slots;
use random::start::START;
use random::types::{random_key_type, random_type};
use std::alloc::Global;

/// How many steps there are at most.
const STEPS: usize = 3;

/// Keys of a width that grow: how many each step has, and which index of what they name each is.
#[derive(Drop)]
struct Level {
    key: IntegerType,
    ends: [usize; STEPS],
    places: Vec<Option<usize>>,
}

/// A column: values of a type, how many of them each step has; what is around the keys of them, which are values of keys again, if
/// there are such.
#[derive(Drop)]
struct Delta {
    values: DataType,
    slots: Vec<Slot>,
    layouts: AnyArray,
    ends: [usize; STEPS],
    inner: Option<Level>,
    around: usize,
    key: IntegerType,
}

// How many are there at each step.
fn random_ends(rng: &mut Generator, most: usize) -> [usize; STEPS] {
    let last = rng.between(1, most);
    let middle = rng.between(1, last);
    [rng.between(1, middle), middle, last]
}

// Keys that name what is there at their step.
fn random_level(alloc: Global, rng: &mut Generator, below: &[usize]) -> Result<Level, Error> {
    let ends = random_ends(rng, 9);
    let mut places = Vec::new(alloc);
    for step in 0..STEPS {
        while places.len() < ends[step] {
            let none = rng.one_in(6);
            places.push((!none).then_some(rng.below(below[step])))?;
        }
    }
    let key = random_key_type(rng);
    Ok(Level { key, ends, places })
}

// A type that can be written as values of a dictionary, the first that is random.
fn random_values(alloc: Global, rng: &mut Generator) -> Result<DataType, Error> {
    loop {
        let depth = rng.below(3);
        let values = random_type(alloc, rng, depth)?;
        let own = DataType::Dictionary(IntegerType::Int8, Box::new(alloc, values)?, false);
        let fields = vec![in alloc; Field::new(alloc, "f", own, true)?]?;
        if wanted_of(&fields, 60).is_none() {
            return match &fields[0].data_type {
                DataType::Dictionary(_, values, _) => (**values).clone(alloc),
                _ => Err(Error::NotYetImplemented),
            };
        }
    }
}

fn random_delta(alloc: Global, rng: &mut Generator) -> Result<Delta, Error> {
    let values = random_values(alloc, rng)?;
    let ends = random_ends(rng, 9);
    let slots = random_slots(alloc, rng, &values, ends[STEPS - 1])?;
    let layouts = lay(alloc, rng, &values, slots.as_slice())?;
    let inner = if rng.boolean() {
        Some(random_level(alloc, rng, &ends)?)
    } else {
        None
    };
    Ok(Delta {
        values,
        slots,
        layouts,
        ends,
        inner,
        around: rng.below(4),
        key: random_key_type(rng),
    })
}

// Each of them inside of another slot.
fn put_around(alloc: Global, kind: usize, inner: AnyArray) -> Result<AnyArray, Error> {
    let count = inner.len();
    match kind {
        0 => record(alloc, vec![in alloc; inner]?),
        1 => {
            let mut ends = Vec::new(alloc);
            for i in 0..count + 1 {
                ends.push(i as i32)?;
            }
            list(alloc, &ends, inner)
        }
        2 => {
            let mut kinds = Vec::new(alloc);
            for _ in 0..count {
                kinds.push(0i8)?;
            }
            union(alloc, &kinds, vec![in alloc; inner]?)
        }
        _ => record(
            alloc,
            vec![in alloc; record(alloc, vec![in alloc; inner]?)?]?,
        ),
    }
}

fn by_places(
    alloc: Global,
    key: IntegerType,
    places: &[Option<usize>],
    values: AnyArray,
) -> Result<AnyArray, Error> {
    let keys = any_keys(alloc, key, places)?;
    Ok(AnyArray::Dictionary(DictionaryArray::try_from_keys(alloc, keys, values)?))
}

impl Delta {
    // The values of a step: layouts again, or, where dictionaries are inside, which may not change, a slice of them.
    fn values_at(
        &self,
        alloc: Global,
        rng: &mut Generator,
        step: usize,
    ) -> Result<AnyArray, Error> {
        let field = Field::new(alloc, "f", self.values.clone(alloc)?, true)?;
        let end = self.ends[step];
        if count_dictionaries(std::slice::from_ref(&field)) > 0 || rng.boolean() {
            return Ok(self.layouts.clone(alloc)?.sliced(0, end));
        }
        lay(alloc, rng, &self.values, &self.slots[..end])
    }

    // What the keys of the column name.
    fn named_at(&self, alloc: Global, rng: &mut Generator, step: usize) -> Result<AnyArray, Error> {
        let values = self.values_at(alloc, rng, step)?;
        let Some(level) = &self.inner else {
            return Ok(values);
        };
        let places = &level.places[..level.ends[step]];
        put_around(
            alloc,
            self.around,
            by_places(alloc, level.key, places, values)?,
        )
    }

    fn column(
        &self,
        alloc: Global,
        rng: &mut Generator,
        step: usize,
        rows: usize,
    ) -> Result<AnyArray, Error> {
        let named = self.named_at(alloc, rng, step)?;
        let mut places = Vec::new(alloc);
        for _ in 0..rows {
            let none = rng.one_in(6);
            places.push((!none).then_some(rng.below(named.len())))?;
        }
        by_places(alloc, self.key, &places, named)
    }
}

fn random_batches(
    alloc: Global,
    rng: &mut Generator,
    columns: &[Delta],
) -> Result<Vec<Batch>, Error> {
    let mut batches = Vec::new(alloc);
    for step in 0..rng.between(2, STEPS) {
        let rows = rng.below(6);
        let mut arrays = Vec::new(alloc);
        for column in columns {
            arrays.push(column.column(alloc, rng, step, rows)?)?;
        }
        batches.push(Batch {
            rows,
            columns: arrays,
        })?;
    }
    Ok(batches)
}

const RANDOM: u64 = 71;

/// How many deltas there were, in how many cases a dictionary inside of values grew, and a case that was not as the model has it.
#[derive(Clone, Copy, Debug)]
struct Found {
    deltas: usize,
    inside: usize,
    wrong: Option<usize>,
}

fn note_case(alloc: Global, case: usize, found: &mut Found) -> Result<(), Error> {
    let mut rng = Generator::new(START, RANDOM, case);
    let mut columns = vec![in alloc; random_delta(alloc, &mut rng)?]?;
    if rng.one_in(3) {
        columns.push(random_delta(alloc, &mut rng)?)?;
    }
    let batches = random_batches(alloc, &mut rng, &columns)?;
    let schema = schema_of(alloc, &batches[0].columns)?;
    let model = model_of(alloc, &batches)?;
    let own = written(alloc, &schema, &batches)?;
    if model.replaces || !is_written(&own, model.stream.as_str(), model.file()) {
        found.wrong = Some(case);
    }
    let messages = model.file().unwrap_or("");
    found.deltas += messages
        .as_bytes()
        .iter()
        .filter(|byte| **byte == b'D')
        .count();
    if messages.contains("D1") {
        found.inside += 1;
    }
    Ok(())
}

fn cases(alloc: Global, from: usize, to: usize) -> Result<Found, Error> {
    let mut found = Found {
        deltas: 0,
        inside: 0,
        wrong: None,
    };
    for case in from..to {
        note_case(alloc, case, &mut found)?;
    }
    Ok(found)
}

#[test]
fn the_first_fifty(rt: HostRuntime) {
    let found = cases(rt.alloc(), 0, 50).expect(&rt, "not random");
    assert!(rt;
        found.wrong.is_none() && found.deltas > 50 && found.inside > 9,
        "start {START}: {found:?}"
    );
}

#[test]
fn the_second_fifty(rt: HostRuntime) {
    let found = cases(rt.alloc(), 50, 100).expect(&rt, "not random");
    assert!(rt;
        found.wrong.is_none() && found.deltas > 50 && found.inside > 9,
        "start {START}: {found:?}"
    );
}

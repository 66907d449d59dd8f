//! The dictionary batches of a file: a first batch for each id, then deltas. Source: Columnar format, "IPC File Format".
ghost use Rattle.std.specs.Prelude.{◌≡◌, ◌≤◌, ◌++◌, map, false, IfOk, OnOk};
ghost use Rattle.nest_array.specs.Seen.{layout_of};
ghost use Rattle.nest_model.specs.Meaning.{len};
ghost use Rattle.ipc.specs.PendingDictionaries.{entry_at};
ghost use Rattle.ipc.specs.FileDictionaries.{dictionary_batch_of, spec_delta_values, spec_begins_with, batches_for, spec_dictionary_batches, spec_is_replaced, spec_any_replaced};
ghost use Rattle.ipc.specs.EntriesOf.{by_id, entry_of};

use nest_array::any::AnyArray;
use std::alloc::{AllocError, Global};
use std::collections::BTreeMap;

/// A dictionary batch to be written: the first values of an id, or a delta. Source: Message.fbs, table DictionaryBatch.
#[derive(Drop)]
pub struct DictionaryBatch {
    /// Whether the values extend those that the id has.
    pub delta: bool,
    /// The id of the dictionary.
    pub id: i64,
    /// The values of this batch.
    pub values: AnyArray,
}

// Returns a clone, which shares the buffers.
fn share(alloc: Global, values: &AnyArray) -> Result<AnyArray, AllocError>
    ensures { IfOk result (λ a. layout_of a ≡ layout_of values.now) }
{
    match values.clone(alloc) {
        Ok(values) => Ok(values),
        Err(_) => Err(AllocError),
    }
}

// Returns the values after the first ones.
fn delta_values(alloc: Global, values: &AnyArray, first: usize) -> Result<AnyArray, AllocError>
    requires { first ≤ len (layout_of values.now) }
    ensures { IfOk result (λ a. layout_of a ≡ spec_delta_values (layout_of values.now) first) }
{
    let more = values.len() - first;
    let values = share(alloc, values)?;
    Ok(values.sliced(first, more))
}

// Returns whether `values` begin with `last`.
fn begins_with(alloc: Global, last: &AnyArray, values: &AnyArray) -> Result<bool, AllocError>
    ensures { IfOk result (λ b. b ≡ spec_begins_with (layout_of last.now) (layout_of values.now)) }
{
    let first = last.len();
    if first > values.len() {
        return Ok(false);
    }
    let values = share(alloc, values)?;
    let begin = values.sliced(0, first);
    Ok(*last == begin)
}

// Returns whether these values replace those of an id: it has some, and these do not begin with them.
fn is_replaced(
    alloc: Global,
    emitted: &BTreeMap<i64, AnyArray>,
    id: i64,
    values: &AnyArray,
) -> Result<bool, AllocError>
    ensures { IfOk result (λ b. b ≡ spec_is_replaced (entry_at (by_id emitted.now.entries) id) (layout_of values.now)) }
{
    match emitted.get(&id) {
        None => Ok(false),
        Some(last) => Ok(!begins_with(alloc, last, values)?),
    }
}

/// Returns whether a pending dictionary replaces an emitted one. A file cannot hold replacement dictionaries.
///
/// # Errors
/// `AllocError`, where an allocation fails.
pub fn any_replaced(
    alloc: Global,
    emitted: &BTreeMap<i64, AnyArray>,
    pending: &[(i64, &AnyArray)],
) -> Result<bool, AllocError>
    ensures { IfOk result (λ b. b ≡ spec_any_replaced (by_id emitted.now.entries) (map entry_of pending.now)) }
{
    for (id, values) in pending {
        if is_replaced(alloc, emitted, *id, values)? {
            return Ok(true);
        }
    }
    Ok(false)
}

// Appends the dictionary batch of a pending dictionary, if it has new values.
fn push_batch(
    alloc: Global,
    emitted: &BTreeMap<i64, AnyArray>,
    id: i64,
    values: &AnyArray,
    puts: &mut Vec<DictionaryBatch>,
) -> Result<(), AllocError>
    requires { spec_is_replaced (entry_at (by_id emitted.now.entries) id) (layout_of values.now) ≡ false }
    ensures { OnOk result (map dictionary_batch_of puts.new.items ≡ map dictionary_batch_of puts.old.items ++ batches_for (entry_at (by_id emitted.now.entries) id) (id, layout_of values.now)) }
{
    match emitted.get(&id) {
        None => {
            let values = share(alloc, values)?;
            puts.push(DictionaryBatch {
                delta: false,
                id,
                values,
            })?;
        }
        Some(last) => {
            let first = last.len();
            if values.len() != first {
                let values = delta_values(alloc, values, first)?;
                puts.push(DictionaryBatch {
                    delta: true,
                    id,
                    values,
                })?;
            }
        }
    }
    Ok(())
}

/// Returns the dictionary batches that a file needs for these pending dictionaries, none of which replaces an emitted one.
///
/// An id without values gets a batch of all values. Any other gets a delta of the values after those emitted, if there are some. The
/// arrays share the buffers of the values.
///
/// # Errors
/// `AllocError`, where an allocation fails.
pub fn dictionary_batches(
    alloc: Global,
    emitted: &BTreeMap<i64, AnyArray>,
    pending: &[(i64, &AnyArray)],
) -> Result<Vec<DictionaryBatch>, AllocError>
    requires { spec_any_replaced (by_id emitted.now.entries) (map entry_of pending.now) ≡ false }
    ensures { IfOk result (λ v. map dictionary_batch_of v.items ≡ spec_dictionary_batches (by_id emitted.now.entries) (map entry_of pending.now)) }
{
    let mut puts = Vec::new(alloc);
    for (id, values) in pending {
        push_batch(alloc, emitted, *id, values, &mut puts)?;
    }
    Ok(puts)
}

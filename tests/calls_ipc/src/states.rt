//! What a state says of dictionaries, kept and put back.
//!
//! What a state says of dictionaries, kept after each batch and put back.
use crate::dictionary_columns::{batch, dictionary_of_strings, schema_of, words};
use crate::dictionary_model::{unread, unwritten};
use ipc::{DictionaryState, initial_state, next_batch, write_stream};
use ipc_flatbuf::{FieldAction, IpcWriteError};
use ipc_schema::read_schema;
use nest_memory::error::Error;
use std::alloc::Global;

// Two batches, the second of other words.
fn stream(alloc: Global) -> Result<Vec<u8>, Error> {
    let columns = vec![in alloc; dictionary_of_strings(alloc, "01", "ab")?]?;
    let others = vec![in alloc; dictionary_of_strings(alloc, "10", "cd")?]?;
    let schema = schema_of(alloc, &columns)?;
    let batches = vec![in alloc; batch(columns), batch(others)]?;
    write_stream(alloc, &schema, &batches).map_err(unwritten)
}

// Whether just the id 0 has values, these words, and is fresh.
fn has_words(alloc: Global, state: &DictionaryState, letters: &str) -> Result<bool, Error> {
    match state.known.get(&0) {
        None => Ok(false),
        Some(values) => Ok(
            state.known.len() == 1
                && *values == words(alloc, letters)?
                && state.appendable.as_slice() == [0i64].as_slice(),
        ),
    }
}

// Whether nothing is known after the schema, the words after each batch, and what was said before wherever it is put back.
fn is_put_back(alloc: Global) -> Result<bool, Error> {
    let bytes = stream(alloc)?;
    let (_, rest) = read_schema(alloc, &bytes).map_err(unread)?;
    let mut state = DictionaryState::read(alloc, &bytes).map_err(unread)?;
    let none = state.dictionaries(alloc)?;
    let (_, rest) = next_batch(alloc, &mut state, rest).map_err(unread)?;
    let one = state.dictionaries(alloc)?;
    let first = has_words(alloc, &state, "ab")?;
    next_batch(alloc, &mut state, rest).map_err(unread)?;
    let second = has_words(alloc, &state, "cd")?;
    state.restore(one);
    let again = has_words(alloc, &state, "ab")?;
    state.restore(none);
    Ok(first && second && again && state.known.is_empty() && state.appendable.is_empty())
}

#[test]
fn what_is_kept_is_put_back(rt: HostRuntime) {
    assert!(rt; is_put_back(rt.alloc()) == Ok(true));
}

// Whether a state has the schema of the stream and no dictionary, and reads the first batch.
fn is_initial(alloc: Global, bytes: &[u8], mut state: DictionaryState) -> Result<bool, Error> {
    let (keyed, rest) = read_schema(alloc, bytes).map_err(unread)?;
    let picked = &state.picked;
    let is_of_schema = picked.schema.fields == keyed.schema.fields
        && picked.schema.metadata == keyed.schema.metadata
        && picked.steps.as_slice() == [FieldAction::Read].as_slice()
        && picked.dictionaries.ids.as_slice() == [0i64].as_slice()
        && picked.dictionaries.named.len() == 1;
    let has_none = state.known.is_empty() && state.appendable.is_empty();
    let (first, _) = next_batch(alloc, &mut state, rest).map_err(unread)?;
    let Some(first) = first else {
        return Ok(false);
    };
    let is_first = first.columns[0] == dictionary_of_strings(alloc, "01", "ab")?;
    Ok(is_of_schema && has_none && is_first && has_words(alloc, &state, "ab")?)
}

#[test]
fn the_state_after_a_written_schema(rt: HostRuntime) {
    let alloc = rt.alloc();
    let bytes = stream(alloc).expect(&rt, "no stream");
    let state = initial_state(alloc, &bytes).expect(&rt, "no state");
    assert!(rt; is_initial(alloc, &bytes, state) == Ok(true));
    assert!(rt; initial_state(alloc, &bytes[..8]).err() == Some(IpcWriteError::Memory));
}

#[test]
fn no_state_of_bytes_that_are_no_schema(rt: HostRuntime) {
    assert!(rt; DictionaryState::read(rt.alloc(), &[]).is_err());
}

//! Appends the values of a delta to a dictionary.
ghost use Rattle.std.specs.Prelude.{◌≡◌, true, Some};
ghost use Rattle.std.specs.Option.{option_map};
ghost use Rattle.ipc_flatbuf.specs.ReadResults.{ReturnsOrRunsOut};
ghost use Rattle.nest_array.specs.Seen.{layout_of};
ghost use Rattle.ipc.specs.Streams.{join_error_of, spec_joined_values, spec_with_values, state_of};

use crate::appendable::contains_id;
use crate::state::DictionaryState;
use crate::union_offsets::union_offsets_overflow;
use ipc_flatbuf::IpcReadError;
use nest_array::any::AnyArray;
use nest_concat::concatenate;
use nest_memory::error::Error;
use std::alloc::Global;

// Returns the error of a delta that cannot be appended.
fn join_error(error: Error) -> IpcReadError
    ensures { result ≡ join_error_of error }
{
    match error {
        Error::Memory(_) => IpcReadError::Memory,
        Error::OutOfSpec(_) => IpcReadError::Delta,
        Error::InvalidArgumentError(_) => IpcReadError::Delta,
        Error::Overflow => IpcReadError::Delta,
        Error::NotYetImplemented => IpcReadError::Delta,
    }
}

// Concatenates the values and the delta, if no offset of a dense union leaves 32 bits.
fn joined(alloc: Global, values: AnyArray, more: AnyArray) -> Result<AnyArray, IpcReadError>
    ensures { ReturnsOrRunsOut layout_of result (spec_joined_values (Some (layout_of values)) (layout_of more)) }
{
    if union_offsets_overflow(&values, &more) {
        return Err(IpcReadError::Delta);
    }
    let arrays = [values, more];
    match concatenate(alloc, &arrays) {
        Err(error) => Err(join_error(error)),
        Ok(joined) => Ok(joined),
    }
}

// Appends a delta to the values of an id, which must have some.
fn join_values(
    alloc: Global,
    known: Option<&AnyArray>,
    more: AnyArray,
) -> Result<AnyArray, IpcReadError>
    ensures { ReturnsOrRunsOut layout_of result (spec_joined_values (option_map (λ a. layout_of a.now) known.entry) (layout_of more)) }
{
    match known {
        None => Err(IpcReadError::Delta),
        Some(values) => match values.clone(alloc) {
            Err(_) => Err(IpcReadError::Memory),
            Ok(values) => joined(alloc, values, more),
        },
    }
}

/// Appends a delta to the values of an id; `Delta`, if the id is not appendable or the values cannot be concatenated.
pub(crate) fn more_values(
    alloc: Global,
    state: &mut DictionaryState,
    id: i64,
    more: AnyArray,
) -> Result<(), IpcReadError>
    ensures picked { state.new.picked ≡ state.old.picked }
    ensures known { ReturnsOrRunsOut (λ x. state_of state.new) result (spec_with_values true (state_of state.old) id (layout_of more)) }
{
    if !contains_id(&state.appendable, id) {
        return Err(IpcReadError::Delta);
    }
    match join_values(alloc, state.known.get(&id), more) {
        Err(error) => Err(error),
        Ok(values) => {
            state.insert_delta(id, values)?;
            Ok(())
        }
    }
}

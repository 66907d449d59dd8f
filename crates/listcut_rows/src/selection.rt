//! The rows that the arguments select.
ghost use Rattle.std.specs.Prelude.{◌≡◌, IfErr, IfOk, Some, map, option_map, string_bytes};
ghost use Rattle.std.specs.Option.{is_some};
ghost use Rattle.listcut_rows.specs.Words.{IsArgumentError, parsed_indices, parsed_selection, take_rows, selection_of};

use crate::error::ListcutError;
use crate::numbers::{parse_slice, parse_unsigned};
use std::alloc::{AllocError, Global};

/// A selection of rows.
#[derive(Drop)]
pub enum RowSelection {
    /// The rows of a slice: its offset and its length.
    Slice(u64, u64),
    /// The rows at the indices, in that order.
    Take(Vec<usize>),
}

/// Returns whether each argument is an index.
fn are_indices(arguments: &[String]) -> bool
    ensures { result ≡ is_some (parsed_indices (map string_bytes arguments.now)) }
{
    for argument in arguments {
        let Some(_) = parse_unsigned(argument.as_bytes()) else {
            return false;
        };
    }
    true
}

/// Parses the arguments as indices; returns `None` if one is invalid.
fn parse_indices(alloc: Global, arguments: &[String]) -> Result<Option<Vec<usize>>, AllocError>
    ensures { IfOk result (λ found. option_map (λ indices. indices.items) found ≡ parsed_indices (map string_bytes arguments.now)) }
{
    let mut indices = Vec::new(alloc);
    for argument in arguments {
        let Some(index) = parse_unsigned(argument.as_bytes()) else {
            return Ok(None);
        };
        indices.push(index as usize)?;
    }
    Ok(Some(indices))
}

/// Parses the arguments: `take` and any number of indices, or an offset and a length.
///
/// # Errors
/// - `Arguments`: the arguments are invalid.
/// - `Memory`: they are valid, and an allocation fails.
pub fn parse_selection(alloc: Global, arguments: &[String]) -> Result<RowSelection, ListcutError>
    ensures selection { IfOk result (λ selection. parsed_selection (map string_bytes arguments.now) ≡ Some (selection_of selection)) }
    ensures error { IfErr result (λ error. IsArgumentError error (parsed_selection (map string_bytes arguments.now))) }
{
    match arguments {
        [first, indices @ ..] if first.as_bytes() == b"take".as_slice() => {
            parse_take(alloc, indices)
        }
        _ => match parse_slice(arguments) {
            Some((offset, len)) => Ok(RowSelection::Slice(offset, len)),
            None => Err(ListcutError::Arguments),
        },
    }
}

/// Parses the arguments as the indices of the rows to take.
fn parse_take(alloc: Global, arguments: &[String]) -> Result<RowSelection, ListcutError>
    ensures selection { IfOk result (λ selection. option_map take_rows (parsed_indices (map string_bytes arguments.now)) ≡ Some (selection_of selection)) }
    ensures error { IfErr result (λ error. IsArgumentError error (parsed_indices (map string_bytes arguments.now))) }
{
    match parse_indices(alloc, arguments) {
        Ok(Some(indices)) => Ok(RowSelection::Take(indices)),
        Err(_) if are_indices(arguments) => Err(ListcutError::Memory),
        _ => Err(ListcutError::Arguments),
    }
}

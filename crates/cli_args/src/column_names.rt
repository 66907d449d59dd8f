//! Column names in the value of an option, and on the lines of a file.
ghost use Rattle.std.specs.Prelude.{◌≡◌, ◌<◌, ◌-◌, IfOk, IfSome, Ok, length, map, option_map, string_bytes};
ghost use Rattle.std.specs.Str.Lines.{lines};
ghost use Rattle.cli_args.specs.ColumnNames.{ReadsAs, column_names, first_name, name_before, plain_name, position_of};

use crate::condition_parser::undoubled_name;
use crate::condition_token::{split_quoted, strip_prefix};
use std::alloc::{AllocError, AllocFailed, Global};
use thiserror::Error;

/// What is wrong in a list of column names.
#[derive(Clone, Copy, Debug, PartialEq, Eq, Error)]
pub enum ColumnNamesError {
    /// The quoted name that begins at this byte has no closing quote.
    #[error("position {0}: the quoted column name is not closed")]
    UnclosedName(usize),
    /// The byte here follows a quoted name, and is not a comma.
    #[error("position {0}: a comma is expected")]
    CommaExpected(usize),
}

/// Error returned by `parse_column_names`.
#[derive(Clone, Copy, Debug, PartialEq, Eq, Error)]
pub enum ParseColumnNamesError {
    /// The text is not a list of column names.
    #[error("{0}")]
    Names(ColumnNamesError),
    /// An allocation failed.
    #[error("out of memory")]
    Memory,
}

impl From<AllocError> for ParseColumnNamesError {
    ghost use Rattle.std.specs.Prelude.{◌≡◌};
    ghost use Rattle.cli_args.specs.declared.column_names.ParseColumnNamesError.TheVariants.{Memory};

    ghost from_gives = { λ _ e. e ≡ Memory };

    fn from(_error: AllocError) -> ParseColumnNamesError {
        ParseColumnNamesError::Memory
    }
}

impl<T: Drop> From<AllocFailed<T>> for ParseColumnNamesError {
    ghost use Rattle.std.specs.Prelude.{◌≡◌};
    ghost use Rattle.cli_args.specs.declared.column_names.ParseColumnNamesError.TheVariants.{Memory};

    ghost from_gives = { λ _ e. e ≡ Memory };

    fn from(_error: AllocFailed<T>) -> ParseColumnNamesError {
        ParseColumnNamesError::Memory
    }
}

/// Returns where the rest of a text of `len` bytes begins.
fn position_of(len: usize, rest: &str) -> usize
    ensures { result ≡ position_of len rest.now }
{
    len.saturating_sub(rest.len())
}

/// Splits the text at its first comma.
fn plain_name<'a>(text: &'a str) -> (&'a str, Option<&'a str>)
    ensures name { (result.0.now, option_map (λ r. r.now) result.1) ≡ plain_name text.entry.now }
    ensures shorter { IfSome result.1 (λ r. length r.now < length text.entry.now) }
{
    match text.split_once(',') {
        Some((name, rest)) => (name, Some(rest)),
        None => (text, None),
    }
}

/// Returns a quoted name, and what follows the comma after it.
fn name_before<'a>(
    len: usize,
    name: String,
    rest: &'a str,
) -> Result<(String, Option<&'a str>), ParseColumnNamesError>
    ensures name { ReadsAs (λ x. (string_bytes x.0, option_map (λ r. r.now) x.1)) result (name_before len (string_bytes name) rest.entry.now) }
    ensures shorter { IfOk result (λ x. IfSome x.1 (λ r. length r.now < length rest.entry.now)) }
{
    if rest.is_empty() {
        return Ok((name, None));
    }
    match strip_prefix(rest, ",") {
        Some(next) => Ok((name, Some(next))),
        None => {
            let position = position_of(len, rest);
            Err(ParseColumnNamesError::Names(ColumnNamesError::CommaExpected(position)))
        }
    }
}

/// Returns the name that the text begins with, and what follows the comma after it.
fn first_name<'a>(
    alloc: Global,
    len: usize,
    text: &'a str,
) -> Result<(String, Option<&'a str>), ParseColumnNamesError>
    ensures name { ReadsAs (λ x. (string_bytes x.0, option_map (λ r. r.now) x.1)) result (first_name len text.entry.now) }
    ensures shorter { IfOk result (λ x. IfSome x.1 (λ r. length r.now < length text.entry.now)) }
{
    match strip_prefix(text, "\"") {
        None => {
            let (name, rest) = plain_name(text);
            Ok((String::from_str(alloc, name)?, rest))
        }
        Some(quoted) => match split_quoted(b'"', quoted) {
            Some((raw, rest)) => name_before(len, undoubled_name(alloc, raw)?, rest),
            None => {
                let position = position_of(len, text);
                Err(ParseColumnNamesError::Names(ColumnNamesError::UnclosedName(position)))
            }
        },
    }
}

/// Parses column names: commas separate them, and a name that begins with a double quote ends before the closing one. In it two double quotes
/// stand for one.
///
/// # Errors
///
/// - `Names`: the first error from left to right.
/// - `Memory`: an allocation fails.
pub fn parse_column_names(alloc: Global, text: &str) -> Result<Vec<String>, ParseColumnNamesError>
    ensures { ReadsAs (λ v. map string_bytes v.items) result (column_names text.now) }
{
    let mut names = Vec::new(alloc);
    let mut rest = Some(text);
    'names: while let Some(current) = rest {
        match first_name(alloc, text.len(), current) {
            Err(error) => return Err(error),
            Ok((name, next)) => {
                names.push(name)?;
                rest = next;
            }
        }
    }
    Ok(names)
}

/// Returns the names on the lines of a text. A line ends in a line feed, after a carriage return or none; the last may lack it.
pub fn name_lines(alloc: Global, text: &str) -> Result<Vec<&str>, AllocError>
    ensures { IfOk result (λ v. map (λ n. n.now) v.items ≡ lines text.now) }
{
    text.lines().collect(alloc)
}

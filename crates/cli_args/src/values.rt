//! The values of a command's arguments, as clap finds them.
ghost use Rattle.std.specs.Prelude.{◌≡◌, IfOk, codes, map, option_map};
ghost use Rattle.clap.specs.Words.{first_of};
ghost use Rattle.cli_args.specs.ColumnNames.{column_names};
ghost use Rattle.cli_args.specs.Commands.{columns_in, listed_in, integer_in, argument_integer, required_integer, found_rows, argument_text, texts_of};
ghost use Rattle.cli_args.specs.CommandTrees.{column_names_tree};
ghost use Rattle.cli_args.specs.UsageErrors.{MeansAs};

use crate::arguments::ColumnNames;
use crate::column_names::parse_column_names;
use crate::usage_error::{CommandError, UsageError};
use clap::ArgMatches;
use std::alloc::{AllocError, Global};

/// Returns the value of an argument.
pub(crate) fn value<'a>(matches: &ArgMatches<'a>, id: &str) -> Option<&'a str>
    ensures { option_map (λ s. s.now) result ≡ first_of id.now (found_rows matches.now) }
{
    matches.get_str(id)
}

/// Returns the value of a required argument.
pub(crate) fn text<'a>(matches: &ArgMatches<'a>, id: &str) -> &'a str
    ensures { result.now ≡ argument_text id.now (found_rows matches.now) }
{
    match value(matches, id) {
        Some(text) => text,
        None => "",
    }
}

/// Returns the values of an argument.
pub(crate) fn texts<'a>(
    alloc: Global,
    matches: &ArgMatches<'a>,
    id: &str,
) -> Result<Vec<&'a str>, AllocError>
    ensures { IfOk result (λ v. map (λ s. s.now) v.items ≡ texts_of id.now (found_rows matches.now)) }
{
    match matches.get_strs(id) {
        Some(texts) => texts.to_vec(alloc),
        None => Ok(Vec::new(alloc)),
    }
}

fn parse_integer(text: &str) -> usize
    ensures { result ≡ argument_integer text.now }
{
    text.parse::<usize>().unwrap_or(0)
}

/// Returns the value of an argument that is an integer.
pub(crate) fn integer(matches: &ArgMatches<'_>, id: &str) -> Option<usize>
    ensures { result ≡ integer_in id.now (found_rows matches.now) }
{
    match value(matches, id) {
        Some(text) => Some(parse_integer(text)),
        None => None,
    }
}

/// Returns the value of a required argument that is an integer.
pub(crate) fn required_integer(matches: &ArgMatches<'_>, id: &str) -> usize
    ensures { result ≡ required_integer id.now (found_rows matches.now) }
{
    match integer(matches, id) {
        Some(number) => number,
        None => 0,
    }
}

fn parse_integers(alloc: Global, texts: &[&str]) -> Result<Vec<usize>, AllocError>
    ensures { IfOk result (λ v. v.items ≡ map argument_integer (map (λ t. t.now) texts.now)) }
{
    let mut integers = Vec::new(alloc);
    for text in texts {
        integers.push(parse_integer(text))?;
    }
    Ok(integers)
}

/// Returns the indices of `take`.
pub(crate) fn indices(alloc: Global, matches: &ArgMatches<'_>) -> Result<Vec<usize>, AllocError>
    ensures { IfOk result (λ v. v.items ≡ map argument_integer (texts_of (codes "INDEX") (found_rows matches.now))) }
{
    match texts(alloc, matches, "INDEX") {
        Ok(texts) => parse_integers(alloc, &texts),
        Err(error) => Err(error),
    }
}

fn listed<'a>(alloc: Global, names: &str) -> Result<Option<ColumnNames<'a>>, CommandError>
    ensures { MeansAs (option_map column_names_tree) result (listed_in (column_names names.now)) }
{
    match parse_column_names(alloc, names) {
        Ok(names) => Ok(Some(ColumnNames::Listed(names))),
        Err(error) => Err(CommandError::from(error)),
    }
}

/// Returns the columns that a command reads.
pub(crate) fn columns<'a>(
    alloc: Global,
    matches: &ArgMatches<'a>,
) -> Result<Option<ColumnNames<'a>>, CommandError>
    ensures { MeansAs (option_map column_names_tree) result (columns_in (found_rows matches.now)) }
{
    match (value(matches, "NAMES"), value(matches, "LIST")) {
        (None, None) => Ok(None),
        (None, Some(file)) => Ok(Some(ColumnNames::InFile(file))),
        (Some(names), None) => listed(alloc, names),
        (Some(_), Some(_)) => Err(CommandError::Usage(UsageError::ColumnsTwice)),
    }
}

//! Arguments of the process as a command.
ghost use Rattle.std.specs.Prelude.{◌≡◌, IfOk, Ok, codes, map, string_bytes};
ghost use Rattle.clap.specs.Faults.{fault_of};
ghost use Rattle.clap.specs.Kinds.{FailsBy};
ghost use Rattle.clap.specs.Values.{kind_of};
ghost use Rattle.clap.specs.Words.{subcommand_of, subcommand_rows_of};
ghost use Rattle.cli_args.specs.CommandLine.{nest_app};
ghost use Rattle.cli_args.specs.Commands.{argument_text, arguments_found, arguments_in, arguments_of, command_of, concat, condition_selection, found_rows, import_in, kinds_of, rows_selection, select_of, selection_of, texts_of};
ghost use Rattle.cli_args.specs.ConditionParser.{parsed_condition};
ghost use Rattle.cli_args.specs.CommandTrees.{arguments_tree, command_tree};
ghost use Rattle.cli_args.specs.RequestTrees.{selection_tree};
ghost use Rattle.cli_args.specs.UsageErrors.{MeansAs, usage_kind};

use crate::arguments::Arguments;
use crate::command::{Command, ImportRequest};
use crate::command_line::{nest, subcommand};
use crate::condition_parser::parse_condition;
use crate::request::Selection;
use crate::usage_error::{CommandError, UsageError};
use crate::values::{columns, indices, integer, required_integer, text, texts, value};
use clap::{ArgMatches, Error};
use std::alloc::{AllocError, Global};

fn slice_of_rows(start: Option<usize>, count: Option<usize>) -> Selection
    ensures { selection_tree result ≡ rows_selection start count }
{
    match (start, count) {
        (None, None) => Selection::All,
        (None, Some(count)) => Selection::Slice(0, count),
        (Some(start), None) => Selection::Slice(start, usize::MAX),
        (Some(start), Some(count)) => Selection::Slice(start, count),
    }
}

fn rows_where(alloc: Global, expression: &str) -> Result<Selection, CommandError>
    ensures { MeansAs selection_tree result (condition_selection (parsed_condition expression.now)) }
{
    match parse_condition(alloc, expression) {
        Ok(condition) => Ok(Selection::Where(condition)),
        Err(error) => Err(CommandError::from(error)),
    }
}

/// Returns the rows that a command selects.
fn selection_named(
    alloc: Global,
    name: &str,
    matches: &ArgMatches<'_>,
) -> Result<Selection, CommandError>
    ensures { MeansAs selection_tree result (selection_of name.now (found_rows matches.now)) }
{
    if name == "rows" {
        let start = integer(matches, "START");
        let count = integer(matches, "COUNT");
        Ok(slice_of_rows(start, count))
    } else if name == "head" {
        Ok(Selection::Slice(0, required_integer(matches, "COUNT")))
    } else if name == "slice" {
        let start = required_integer(matches, "START");
        let count = required_integer(matches, "COUNT");
        Ok(Selection::Slice(start, count))
    } else if name == "take" {
        Ok(Selection::Indices(indices(alloc, matches)?))
    } else if name == "where" {
        rows_where(alloc, text(matches, "EXPRESSION"))
    } else {
        Err(CommandError::Usage(UsageError::UnknownCommand))
    }
}

fn select_named<'a>(
    alloc: Global,
    name: &str,
    matches: &ArgMatches<'a>,
) -> Result<Command<'a>, CommandError>
    ensures { MeansAs command_tree result (select_of name.now (found_rows matches.now)) }
{
    let file = text(matches, "FILE");
    let out = value(matches, "OUT");
    match selection_named(alloc, name, matches) {
        Ok(selection) => Ok(Command::Select(file, selection, out)),
        Err(error) => Err(error),
    }
}

fn concat_of<'a>(alloc: Global, matches: &ArgMatches<'a>) -> Result<Command<'a>, AllocError>
    ensures { IfOk result (λ c. command_tree c ≡ concat (texts_of (codes "FILE") (found_rows matches.now)) (argument_text (codes "OUT") (found_rows matches.now))) }
{
    let out = text(matches, "OUT");
    match texts(alloc, matches, "FILE") {
        Ok(files) => Ok(Command::Concat(files, out)),
        Err(error) => Err(error),
    }
}

fn import_of<'a>(matches: &ArgMatches<'a>) -> Command<'a>
    ensures { command_tree result ≡ import_in (found_rows matches.now) }
{
    Command::FromJson(ImportRequest {
        row_type: text(matches, "TYPE"),
        input: text(matches, "LINES"),
        output: text(matches, "OUT"),
    })
}

/// Returns the command of a name.
fn command_named<'a>(
    alloc: Global,
    name: &str,
    matches: &ArgMatches<'a>,
) -> Result<Command<'a>, CommandError>
    ensures { MeansAs command_tree result (command_of name.now (found_rows matches.now)) }
{
    let file = text(matches, "FILE");
    if name == "schema" {
        Ok(Command::Schema(file))
    } else if name == "tail" {
        Ok(Command::Tail(file, required_integer(matches, "COUNT")))
    } else if name == "count" {
        Ok(Command::Count(file))
    } else if name == "info" {
        Ok(Command::Info(file))
    } else if name == "equal" {
        Ok(Command::Equal(file, text(matches, "OTHER")))
    } else if name == "concat" {
        match concat_of(alloc, matches) {
            Ok(command) => Ok(command),
            Err(error) => Err(CommandError::from(error)),
        }
    } else if name == "convert" {
        Ok(Command::Convert(file, text(matches, "OUT")))
    } else if name == "from-json" {
        Ok(import_of(matches))
    } else {
        select_named(alloc, name, matches)
    }
}

fn arguments_named<'a>(
    alloc: Global,
    name: &str,
    matches: &ArgMatches<'a>,
) -> Result<Arguments<'a>, CommandError>
    ensures { MeansAs arguments_tree result (arguments_in name.now (found_rows matches.now)) }
{
    match columns(alloc, matches) {
        Err(error) => Err(error),
        Ok(columns) => match command_named(alloc, name, matches) {
            Ok(command) => Ok(Arguments { columns, command }),
            Err(error) => {
                drop(columns);
                Err(error)
            }
        },
    }
}

/// Returns the command that clap found.
fn arguments_matched<'a>(
    alloc: Global,
    matches: &ArgMatches<'a>,
) -> Result<Arguments<'a>, CommandError>
    ensures { MeansAs arguments_tree result (arguments_found (subcommand_rows_of matches.now)) }
{
    match matches.subcommand() {
        Some((name, found)) => arguments_named(alloc, name, found),
        None => Err(CommandError::Usage(UsageError::UnknownCommand)),
    }
}

/// Returns what clap finds in the arguments.
fn matches_of<'a>(alloc: Global, words: &'a [String]) -> Result<ArgMatches<'a>, Error>
    ensures found { IfOk result (λ m. subcommand_rows_of m ≡ subcommand_of nest_app (map string_bytes words.entry.now)) }
    ensures kinds { FailsBy (fault_of nest_app (map string_bytes words.entry.now)) result }
{
    nest(alloc)?.try_get_matches_from(words)
}

/// Returns the error of clap for arguments that it accepts and that mean no command. It shows the usage of the command of this name.
fn usage_error(alloc: Global, name: &str, error: UsageError) -> Result<Error, AllocError>
    ensures { IfOk result (λ e. kind_of e ≡ usage_kind error) }
{
    let message = format!(in alloc; "{error}")?;
    subcommand(alloc, name)?.error(error.kind(), &message)
}

/// Parses the arguments of the process, the name of the program first.
///
/// # Errors
///
/// The error of clap, whose `Display` is the message for the user. It is also the way in which clap returns the text of `--help` and
/// `--version`. Arguments that clap accepts are errors too if they mean no command: of kind `ValueValidation` if `--columns` is no list of
/// names or the expression of `where` no condition; `ArgumentConflict` for `--columns` with `--columns-file`. The errors of
/// `--columns` come first.
pub fn parse_arguments<'a>(alloc: Global, words: &'a [String]) -> Result<Arguments<'a>, Error>
    ensures arguments { IfOk result (λ a. arguments_of (map string_bytes words.entry.now) ≡ Ok (arguments_tree a)) }
    ensures kinds { FailsBy (kinds_of (map string_bytes words.entry.now)) result }
{
    match matches_of(alloc, words) {
        Err(error) => Err(error),
        Ok(matches) => match arguments_matched(alloc, &matches) {
            Ok(arguments) => Ok(arguments),
            Err(CommandError::Usage(error)) => {
                let name = matches.subcommand_name().unwrap_or("");
                Err(usage_error(alloc, name, error)?)
            }
            Err(CommandError::Memory) => Err(Error::from(AllocError)),
        },
    }
}

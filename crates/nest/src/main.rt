//! `nest COMMAND ..` prints, compares and converts Arrow files and streams.
#![tactic(auto)]

mod column_file;
mod concatenate;
mod copy;
mod failing_column;
mod input;
mod json_import;
mod messages;
mod output;
mod print;
mod schema;
mod support;
mod take;
mod unknown_names;

use cli_args::{Arguments, ColumnNames, Command, Selection, name_lines, parse_arguments};
use cli_rows::CliError;
use column_file::read_column_file;
use concatenate::concat;
use copy::{copy_file, copy_selection};
use ipc_schema::Projection;
use json_import::from_json;
use messages::{failed, report, report_arguments};
use print::{equal, print_count, print_info, print_rows, print_schema, print_tail};
use std::alloc::{AllocError, Global};
use std::env;
use std::io::ErrorKind;
use std::process::ExitCode;
use std::rt::Env;
use thiserror::Error;

/// Error returned where the process has no arguments that can be parsed.
#[derive(Clone, Copy, Debug, PartialEq, Eq, Error)]
enum WordsError {
    /// An argument is not UTF-8.
    #[error("an argument is not UTF-8")]
    NotUtf8,
    /// An allocation failed.
    #[error("out of memory")]
    Memory,
}

/// Returns the arguments of the process, the name of the program first.
fn words(rt: &(impl Env + AllocGlobal)) -> Result<Vec<String>, WordsError> {
    let args = match env::args(rt) {
        Ok(args) => args,
        Err(error) if error.kind() == ErrorKind::OutOfMemory => return Err(WordsError::Memory),
        Err(_) => return Err(WordsError::NotUtf8),
    };
    match args.collect(rt.alloc()) {
        Ok(words) => Ok(words),
        Err(_) => Err(WordsError::Memory),
    }
}

/// Runs a command.
fn run(rt: &HostRuntime, columns: Projection<'_>, command: Command<'_>) -> ExitCode {
    match command {
        Command::Schema(file) => print_schema(rt, columns, file),
        Command::Select(file, selection, out) => match out {
            None => print_rows(rt, columns, file, selection),
            Some(out) => copy_selection(rt, columns, file, selection, out),
        },
        Command::Tail(file, count) => print_tail(rt, columns, file, count),
        Command::Count(file) => print_count(rt, columns, file),
        Command::Info(file) => print_info(rt, file),
        Command::Equal(file, other) => equal(rt, columns, file, other),
        Command::Concat(files, out) => concat(rt, columns, &files, out),
        Command::Convert(file, out) => copy_file(rt, columns, file, Selection::All, out),
        Command::FromJson(request) => from_json(rt, &request),
    }
}

/// Returns the names as string slices.
fn string_slices(alloc: Global, names: &[String]) -> Result<Vec<&str>, AllocError> {
    let mut slices = Vec::new(alloc);
    for name in names {
        slices.push(name.as_str())?;
    }
    Ok(slices)
}

/// Runs a command on the columns of these names.
fn run_projected(
    rt: &HostRuntime,
    names: Result<Vec<&str>, AllocError>,
    command: Command<'_>,
) -> ExitCode {
    match names {
        Err(_) => {
            drop(command);
            let _ = eprintln!(rt; "nest: {}", CliError::Memory);
            failed()
        }
        Ok(names) => run(rt, Projection::Names(&names), command),
    }
}

/// Runs a command on the columns that a file names.
fn run_in_file(rt: &HostRuntime, file: &str, command: Command<'_>) -> ExitCode {
    match read_column_file(rt, file) {
        Err(error) => {
            drop(command);
            report(rt, file, &error)
        }
        Ok(text) => run_projected(rt, name_lines(rt.alloc(), &text), command),
    }
}

/// Runs a command on the columns that it reads.
fn run_arguments(rt: &HostRuntime, arguments: Arguments<'_>) -> ExitCode {
    let Arguments { columns, command } = arguments;
    match columns {
        None => run(rt, Projection::All, command),
        Some(ColumnNames::Listed(names)) => {
            run_projected(rt, string_slices(rt.alloc(), &names), command)
        }
        Some(ColumnNames::InFile(file)) => run_in_file(rt, file, command),
    }
}

fn main(rt: HostRuntime) -> ExitCode {
    match words(&rt) {
        Err(error) => {
            let _ = eprintln!(rt; "nest: {error}");
            failed()
        }
        Ok(words) => match parse_arguments(rt.alloc(), &words) {
            Ok(arguments) => run_arguments(&rt, arguments),
            Err(error) => report_arguments(&rt, &error),
        },
    }
}

//! The command `from-json`.
use crate::input::open_path;
use crate::messages::{failed, report};
use crate::output::{Output, ProgressLine, StandardOutput, open_output, settle};
use cli_args::{ImportRequest, format_of};
use cli_rows::CliError;
use cli_write::import::{ImportError, import};
use nest_memory::datatypes::{DataType, Field};
use std::io;
use std::io::{IsTerminal, Read, Write};
use std::process::ExitCode;
use type_text::parse_type;

/// Reports why lines are not written.
fn report_import(rt: &HostRuntime, request: &ImportRequest<'_>, error: ImportError) -> ExitCode {
    let (row_type, lines, out) = (request.row_type, request.input, request.output);
    match error {
        ImportError::Type(reason) => {
            let _ = eprintln!(rt; "nest: {row_type}: cannot be read from JSON: {reason}");
            failed()
        }
        ImportError::Line(line, error) => {
            let line = line.saturating_add(1);
            let _ = eprintln!(rt; "nest: {lines}: line {line}: {error}");
            drop(error);
            failed()
        }
        ImportError::Overflow => {
            let _ = eprintln!(rt; "nest: {lines}: the rows exceed the limits of an array");
            failed()
        }
        ImportError::Write(error) => report(rt, out, &CliError::Write(error)),
        ImportError::Input => report(rt, lines, &CliError::Input),
        ImportError::Output => report(rt, out, &CliError::Output),
        ImportError::Memory => report(rt, lines, &CliError::Memory),
    }
}

/// Writes the lines of a reader.
fn import_from<R: Read + Drop, W: Write + Drop>(
    rt: &HostRuntime,
    fields: Vec<Field>,
    input: R,
    out: Output<'_, W>,
) -> Result<(), ImportError> {
    let format = format_of(out.name);
    let mut line = ProgressLine::new(rt, out.is_terminal);
    let done = import(rt.alloc(), fields, format, input, out.writer, &mut line);
    line.clear();
    match done {
        Ok(writer) => {
            drop(writer);
            Ok(())
        }
        Err(error) => Err(error),
    }
}

fn report_done(
    rt: &HostRuntime,
    request: &ImportRequest<'_>,
    done: Result<(), ImportError>,
) -> ExitCode {
    match done {
        Ok(()) => ExitCode::SUCCESS,
        Err(error) => report_import(rt, request, error),
    }
}

/// Writes the lines of a reader to a file.
fn import_to_file<R: Read + Drop>(
    rt: &HostRuntime,
    request: &ImportRequest<'_>,
    fields: Vec<Field>,
    input: R,
) -> ExitCode {
    let out = request.output;
    match open_output(rt, out) {
        Err(error) => {
            drop(fields);
            drop(input);
            report(rt, out, &error)
        }
        Ok((writer, place)) => {
            let output = Output {
                name: out,
                writer,
                is_terminal: rt.stderr().is_terminal(),
            };
            let done = import_from(rt, fields, input, output);
            match settle(rt, out, place, done.is_ok()) {
                Ok(()) => report_done(rt, request, done),
                Err(code) => {
                    drop(done);
                    code
                }
            }
        }
    }
}

/// Writes the lines of a reader to the output.
fn import_lines<R: Read + Drop>(
    rt: &HostRuntime,
    request: &ImportRequest<'_>,
    fields: Vec<Field>,
    input: R,
) -> ExitCode {
    let out = request.output;
    if out != "-" {
        return import_to_file(rt, request, fields, input);
    }
    let mut writer = StandardOutput::new(io::writer(rt));
    let output = Output {
        name: out,
        writer: &mut writer,
        is_terminal: false,
    };
    let done = import_from(rt, fields, input, output);
    if writer.is_closed() {
        drop(done);
        return ExitCode::SUCCESS;
    }
    report_done(rt, request, done)
}

/// Opens the lines, and writes them as columns of these fields.
fn open_lines(rt: &HostRuntime, request: &ImportRequest<'_>, fields: Vec<Field>) -> ExitCode {
    let file = request.input;
    if file == "-" {
        return import_lines(rt, request, fields, rt.reader());
    }
    match open_path(rt, file) {
        Ok(opened) => import_lines(rt, request, fields, opened),
        Err(error) => {
            drop(fields);
            report(rt, file, &error)
        }
    }
}

/// Writes lines of JSON as an Arrow stream or file.
pub fn from_json(rt: &HostRuntime, request: &ImportRequest<'_>) -> ExitCode {
    let row_type = request.row_type;
    match parse_type(rt.alloc(), row_type) {
        Ok(DataType::Struct(fields)) => open_lines(rt, request, fields),
        Ok(other) => {
            drop(other);
            let _ = eprintln!(rt; "nest: {row_type}: the type of a row is a struct");
            failed()
        }
        Err(error) => {
            let _ = eprintln!(rt; "nest: {row_type}: {error}");
            failed()
        }
    }
}

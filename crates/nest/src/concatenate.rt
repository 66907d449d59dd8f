//! The command `concat`.
use crate::input::{Source, open_input};
use crate::messages::{InputError, failed, report, report_written};
use crate::output::{Output, ProgressLine, StandardOutput, open_output, settle};
use cli_args::format_of;
use cli_read::Input;
use cli_rows::CliError;
use cli_write::{AppendError, BatchWriter, append, begin_concat};
use ipc_schema::Projection;
use std::io;
use std::io::{IsTerminal, Write};
use std::process::ExitCode;

/// Error returned where files are not concatenated, and the file.
#[derive(Drop)]
enum ConcatError<'a> {
    /// The file is not opened or read, or its record batches are not written.
    Input(&'a str, InputError),
    /// The schema of the file differs from that of the first.
    Schema(&'a str),
    /// The end of the output is not written.
    End(CliError),
}

/// Begins the output with the first input.
fn begin<'a, W: Write + Drop>(
    rt: &HostRuntime,
    columns: Projection<'_>,
    (file, input): (&'a str, Input<Source>),
    out: Output<'_, W>,
    line: &mut ProgressLine<'_>,
) -> Result<BatchWriter<W>, ConcatError<'a>> {
    let format = format_of(out.name);
    match begin_concat(rt.alloc(), columns, format, input, out.writer, line) {
        Ok(writer) => Ok(writer),
        Err(error) => Err(ConcatError::Input(file, InputError::Batch(error))),
    }
}

/// Appends a file.
fn append_file<'a, W: Write + Drop>(
    rt: &HostRuntime,
    columns: Projection<'_>,
    file: &'a str,
    writer: &mut BatchWriter<W>,
    line: &mut ProgressLine<'_>,
) -> Result<(), ConcatError<'a>> {
    match open_input(rt, file) {
        Err(error) => Err(ConcatError::Input(file, InputError::Open(error))),
        Ok(input) => match append(rt.alloc(), columns, input, writer, line) {
            Ok(()) => Ok(()),
            Err(AppendError::Schema) => Err(ConcatError::Schema(file)),
            Err(AppendError::Batch(error)) => {
                Err(ConcatError::Input(file, InputError::Batch(error)))
            }
        },
    }
}

/// Appends files.
fn append_files<'a, W: Write + Drop>(
    rt: &HostRuntime,
    columns: Projection<'_>,
    files: &[&'a str],
    writer: &mut BatchWriter<W>,
    line: &mut ProgressLine<'_>,
) -> Result<(), ConcatError<'a>> {
    for &file in files {
        append_file(rt, columns, file, writer, line)?;
    }
    Ok(())
}

/// Writes the first input and further files to an output.
fn concat_inputs<'a, W: Write + Drop>(
    rt: &HostRuntime,
    columns: Projection<'_>,
    first: (&'a str, Input<Source>),
    others: &[&'a str],
    out: Output<'_, W>,
) -> Result<(), ConcatError<'a>> {
    let mut line = ProgressLine::new(rt, out.is_terminal);
    let begun = begin(rt, columns, first, out, &mut line);
    let done = match begun {
        Err(error) => Err(error),
        Ok(mut writer) => match append_files(rt, columns, others, &mut writer, &mut line) {
            Err(error) => {
                drop(writer);
                Err(error)
            }
            Ok(()) => match writer.finish(rt.alloc()) {
                Ok(out) => {
                    drop(out);
                    Ok(())
                }
                Err(error) => Err(ConcatError::End(error)),
            },
        },
    };
    line.clear();
    done
}

fn report_concat(
    rt: &HostRuntime,
    columns: Projection<'_>,
    first: &str,
    out: &str,
    done: Result<(), ConcatError<'_>>,
) -> ExitCode {
    match done {
        Ok(()) => ExitCode::SUCCESS,
        Err(ConcatError::Schema(file)) => {
            let _ = eprintln!(rt; "nest: {file}: the schema differs from that of {first}");
            failed()
        }
        Err(ConcatError::End(error)) => report(rt, out, &error),
        Err(ConcatError::Input(file, error)) => report_written(rt, columns, file, out, error),
    }
}

/// Writes the first input and further files to a file.
fn concat_to_file(
    rt: &HostRuntime,
    columns: Projection<'_>,
    first: (&str, Input<Source>),
    others: &[&str],
    out: &str,
) -> ExitCode {
    let name = first.0;
    match open_output(rt, out) {
        Err(error) => {
            drop(first);
            report(rt, out, &error)
        }
        Ok((writer, place)) => {
            let output = Output {
                name: out,
                writer,
                is_terminal: rt.stderr().is_terminal(),
            };
            let done = concat_inputs(rt, columns, first, others, output);
            match settle(rt, out, place, done.is_ok()) {
                Ok(()) => report_concat(rt, columns, name, out, done),
                Err(code) => {
                    drop(done);
                    code
                }
            }
        }
    }
}

/// Concatenates files.
pub fn concat(rt: &HostRuntime, columns: Projection<'_>, files: &[&str], out: &str) -> ExitCode {
    let [first, others @ ..] = files else {
        return failed();
    };
    let first = *first;
    match open_input(rt, first) {
        Err(error) => report(rt, first, &error),
        Ok(input) => {
            if out != "-" {
                return concat_to_file(rt, columns, (first, input), others, out);
            }
            let mut writer = StandardOutput::new(io::writer(rt));
            let output = Output {
                name: out,
                writer: &mut writer,
                is_terminal: false,
            };
            let done = concat_inputs(rt, columns, (first, input), others, output);
            if writer.is_closed() {
                drop(done);
                return ExitCode::SUCCESS;
            }
            report_concat(rt, columns, first, out, done)
        }
    }
}

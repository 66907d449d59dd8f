//! The commands that print: `schema`, `tail`, `count`, `info`, `equal`, and those that select rows, without an output.
use crate::input::open_input;
use crate::messages::{InputError, print_comparison, report, report_input};
use crate::output::StandardOutput;
use crate::schema::print_columns;
use crate::take::print_taken;
use cli_args::{Request, Selection};
use cli_read::{Input, compare, count_lines, file_info_lines, stream_info_lines, tail_lines};
use cli_rows::{in_row_order, write_output};
use ipc_schema::Projection;
use std::io;
use std::io::Write;
use std::process::ExitCode;

/// Prints rows. Those in row order are printed as they are read.
fn print_selection<W: Write>(
    rt: &HostRuntime,
    columns: Projection<'_>,
    file: &str,
    selection: Selection,
    out: &mut W,
) -> Result<(), InputError> {
    match in_row_order(selection) {
        Err(indices) => print_taken(rt, columns, file, &indices, out),
        Ok(selection) => match open_input(rt, file) {
            Err(error) => {
                drop(selection);
                Err(InputError::Open(error))
            }
            Ok(input) => {
                let request = Request::Rows(selection);
                cli_read::print(rt.alloc(), columns, request, input, out)?;
                Ok(())
            }
        },
    }
}

/// Reports the result of printing. If nothing reads standard output any more, that is no error.
fn report_printed<W>(
    rt: &HostRuntime,
    columns: Projection<'_>,
    file: &str,
    printed: Result<(), InputError>,
    out: &StandardOutput<W>,
) -> ExitCode {
    match printed {
        Err(error) if !out.is_closed() => report_input(rt, columns, file, error),
        _ => ExitCode::SUCCESS,
    }
}

/// Prints the selected rows of a file.
pub fn print_rows(
    rt: &HostRuntime,
    columns: Projection<'_>,
    file: &str,
    selection: Selection,
) -> ExitCode {
    let mut out = StandardOutput::new(io::writer(rt));
    let printed = print_selection(rt, columns, file, selection, &mut out);
    report_printed(rt, columns, file, printed, &out)
}

/// Prints the schema of a file.
pub fn print_schema(rt: &HostRuntime, columns: Projection<'_>, file: &str) -> ExitCode {
    let mut out = StandardOutput::new(io::writer(rt));
    let printed = print_columns(rt, columns, file, &mut out);
    report_printed(rt, columns, file, printed, &out)
}

fn print_last<W: Write>(
    rt: &HostRuntime,
    columns: Projection<'_>,
    file: &str,
    count: usize,
    out: &mut W,
) -> Result<(), InputError> {
    let input = open_input(rt, file)?;
    let text = tail_lines(rt.alloc(), columns, count, input)?;
    write_output(out, text.as_bytes())?;
    Ok(())
}

fn print_row_count<W: Write>(
    rt: &HostRuntime,
    columns: Projection<'_>,
    file: &str,
    out: &mut W,
) -> Result<(), InputError> {
    let input = open_input(rt, file)?;
    let text = count_lines(rt.alloc(), columns, input)?;
    write_output(out, text.as_bytes())?;
    Ok(())
}

fn print_info_lines<W: Write>(rt: &HostRuntime, file: &str, out: &mut W) -> Result<(), InputError> {
    let lines = match open_input(rt, file)? {
        Input::Stream(mut source) => stream_info_lines(rt.alloc(), &mut source),
        Input::File(mut source) => file_info_lines(rt.alloc(), &mut source),
    };
    let text = lines?;
    write_output(out, text.as_bytes())?;
    Ok(())
}

/// Prints the last rows of a file.
pub fn print_tail(rt: &HostRuntime, columns: Projection<'_>, file: &str, count: usize) -> ExitCode {
    let mut out = StandardOutput::new(io::writer(rt));
    let printed = print_last(rt, columns, file, count, &mut out);
    report_printed(rt, columns, file, printed, &out)
}

/// Prints the number of rows of a file.
pub fn print_count(rt: &HostRuntime, columns: Projection<'_>, file: &str) -> ExitCode {
    let mut out = StandardOutput::new(io::writer(rt));
    let printed = print_row_count(rt, columns, file, &mut out);
    report_printed(rt, columns, file, printed, &out)
}

/// Prints what the metadata of a file says. No column is read.
pub fn print_info(rt: &HostRuntime, file: &str) -> ExitCode {
    let mut out = StandardOutput::new(io::writer(rt));
    let printed = print_info_lines(rt, file, &mut out);
    report_printed(rt, Projection::Indices(&[]), file, printed, &out)
}

/// Compares two files.
pub fn equal(rt: &HostRuntime, columns: Projection<'_>, file: &str, other: &str) -> ExitCode {
    match open_input(rt, file) {
        Err(error) => report(rt, file, &error),
        Ok(left) => match open_input(rt, other) {
            Err(error) => {
                drop(left);
                report(rt, other, &error)
            }
            Ok(right) => {
                let compared = compare(rt.alloc(), columns, left, right);
                print_comparison(rt, columns, (file, other), compared)
            }
        },
    }
}

//! The command `take`. All rows are in memory before the output is opened.
use crate::input::open_input;
use crate::messages::{InputError, report, report_input};
use crate::output::{StandardOutput, open_output, settle};
use cli_args::format_of;
use cli_read::{take_encoded, take_lines};
use cli_rows::write_output;
use ipc_schema::Projection;
use std::io;
use std::io::Write;
use std::process::ExitCode;

fn taken_lines(
    rt: &HostRuntime,
    columns: Projection<'_>,
    file: &str,
    indices: &[usize],
) -> Result<String, InputError> {
    let input = open_input(rt, file)?;
    let text = take_lines(rt.alloc(), columns, indices, input)?;
    Ok(text)
}

/// Prints the row at each index.
pub fn print_taken<W: Write>(
    rt: &HostRuntime,
    columns: Projection<'_>,
    file: &str,
    indices: &[usize],
    out: &mut W,
) -> Result<(), InputError> {
    let text = taken_lines(rt, columns, file, indices)?;
    write_output(out, text.as_bytes())?;
    Ok(())
}

fn taken_bytes(
    rt: &HostRuntime,
    columns: Projection<'_>,
    file: &str,
    indices: &[usize],
    out: &str,
) -> Result<Vec<u8>, InputError> {
    let format = format_of(out);
    let input = open_input(rt, file)?;
    let bytes = take_encoded(rt.alloc(), columns, format, indices, input)?;
    Ok(bytes)
}

fn write_file(rt: &HostRuntime, out: &str, bytes: &[u8]) -> ExitCode {
    match open_output(rt, out) {
        Err(error) => report(rt, out, &error),
        Ok((mut opened, place)) => {
            let written = write_output(&mut opened, bytes);
            drop(opened);
            match settle(rt, out, place, written.is_ok()) {
                Err(code) => code,
                Ok(()) => match written {
                    Ok(()) => ExitCode::SUCCESS,
                    Err(error) => report(rt, out, &error),
                },
            }
        }
    }
}

fn write_stdout(rt: &HostRuntime, out: &str, bytes: &[u8]) -> ExitCode {
    let mut writer = StandardOutput::new(io::writer(rt));
    match write_output(&mut writer, bytes) {
        Err(error) if !writer.is_closed() => report(rt, out, &error),
        _ => ExitCode::SUCCESS,
    }
}

/// Writes the row at each index to an output.
pub fn write_taken(
    rt: &HostRuntime,
    columns: Projection<'_>,
    file: &str,
    indices: &[usize],
    out: &str,
) -> ExitCode {
    match taken_bytes(rt, columns, file, indices, out) {
        Err(error) => report_input(rt, columns, file, error),
        Ok(bytes) if out == "-" => write_stdout(rt, out, &bytes),
        Ok(bytes) => write_file(rt, out, &bytes),
    }
}

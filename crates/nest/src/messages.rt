//! Messages on standard error, and exit codes.
use crate::failing_column::failing_column;
use crate::input::OpenError;
use crate::output::StandardOutput;
use crate::support::unsupported_column;
use crate::unknown_names::{report_unknown_name, unknown_name};
use cli_read::CompareError;
use cli_rows::{BatchError, CliError, Difference, difference_text, write_output};
use ipc_io::InfoError;
use ipc_schema::Projection;
use std::alloc::AllocError;
use std::fmt::Display;
use std::io;
use std::io::ErrorKind;
use std::process::ExitCode;

/// Returns the exit code of an error.
pub fn failed() -> ExitCode {
    ExitCode::from(2)
}

/// Error returned where a command fails with an input.
#[derive(Clone, Copy)]
pub enum InputError {
    /// The input is not opened.
    Open(OpenError),
    /// An error in a record batch, or before the record batches.
    Batch(BatchError),
}

impl From<OpenError> for InputError {
    fn from(error: OpenError) -> InputError {
        InputError::Open(error)
    }
}

impl From<BatchError> for InputError {
    fn from(error: BatchError) -> InputError {
        InputError::Batch(error)
    }
}

impl From<InfoError> for InputError {
    fn from(error: InfoError) -> InputError {
        InputError::Batch(BatchError {
            batch: error.batch,
            error: CliError::from(error.error),
        })
    }
}

impl From<CliError> for InputError {
    fn from(error: CliError) -> InputError {
        InputError::Batch(BatchError { batch: None, error })
    }
}

impl From<AllocError> for InputError {
    fn from(error: AllocError) -> InputError {
        InputError::from(CliError::from(error))
    }
}

/// Reports an error of a file.
pub fn report<E: Display>(rt: &HostRuntime, file: &str, error: &E) -> ExitCode {
    let _ = eprintln!(rt; "nest: {file}: {error}");
    failed()
}

/// Reports an error in a record batch, or before the record batches. A projected name that no column has is printed with similar names, the
/// path of a column that is not supported, and the name of the column that has the error.
fn report_batch(
    rt: &HostRuntime,
    columns: Projection<'_>,
    file: &str,
    error: &BatchError,
) -> ExitCode {
    if let Some(name) = unknown_name(columns, error.error) {
        return report_unknown_name(rt, file, name);
    }
    let text = match unsupported_column(rt, columns, file, error.error) {
        Some(text) => Some(text),
        None => failing_column(rt, columns, file, error),
    };
    match text {
        Some(text) => report(rt, file, &text),
        None => report(rt, file, error),
    }
}

/// Reports an error of an input.
pub fn report_input(
    rt: &HostRuntime,
    columns: Projection<'_>,
    file: &str,
    error: InputError,
) -> ExitCode {
    match error {
        InputError::Open(error) => report(rt, file, &error),
        InputError::Batch(error) => report_batch(rt, columns, file, &error),
    }
}

/// Reports an error of an input that is written to an output. The output is named if a write failed.
pub fn report_written(
    rt: &HostRuntime,
    columns: Projection<'_>,
    file: &str,
    out: &str,
    error: InputError,
) -> ExitCode {
    match error {
        InputError::Open(error) => report(rt, file, &error),
        InputError::Batch(error) => {
            if error.error == CliError::Output {
                return report(rt, out, &CliError::Output);
            }
            report_batch(rt, columns, file, &error)
        }
    }
}

/// Prints the help or the version that the arguments ask for, or reports what is wrong with them.
pub fn report_arguments(rt: &HostRuntime, error: &cli_args::Error) -> ExitCode {
    let printed = error.print(rt);
    if error.use_stderr() {
        return failed();
    }
    match printed {
        Err(error) if error.kind() != ErrorKind::BrokenPipe => report(rt, "-", &CliError::Output),
        _ => ExitCode::SUCCESS,
    }
}

/// Prints the first difference.
fn print_difference(rt: &HostRuntime, file: &str, difference: Difference) -> ExitCode {
    let Ok(line) = difference_text(rt.alloc(), difference) else {
        return report(rt, file, &CliError::Memory);
    };
    let mut out = StandardOutput::new(io::writer(rt));
    match write_output(&mut out, line.as_bytes()) {
        Err(error) if !out.is_closed() => report(rt, file, &error),
        _ => ExitCode::from(1),
    }
}

/// Prints the result of a comparison, or reports its error.
pub fn print_comparison(
    rt: &HostRuntime,
    columns: Projection<'_>,
    files: (&str, &str),
    compared: Result<Option<Difference>, CompareError>,
) -> ExitCode {
    match compared {
        Ok(None) => ExitCode::SUCCESS,
        Ok(Some(difference)) => print_difference(rt, files.0, difference),
        Err(CompareError::First(error)) => report_batch(rt, columns, files.0, &error),
        Err(CompareError::Second(error)) => report_batch(rt, columns, files.1, &error),
        Err(CompareError::TooManyRows) => {
            let file = files.0;
            let _ = eprintln!(rt; "nest: {file}: more than 2^64 rows are equal");
            failed()
        }
    }
}

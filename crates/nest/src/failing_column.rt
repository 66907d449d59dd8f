//! Errors of one column, which the message names.
use crate::input::open_again;
use crate::messages::InputError;
use crate::support::is_projected;
use cli_read::{first_error, open_schema};
use cli_rows::{BatchError, CliError};
use ipc_flatbuf::IpcReadError;
use ipc_schema::Projection;

/// Returns whether the input has the same error if these columns alone are read.
fn fails_alike(rt: &HostRuntime, columns: Projection<'_>, file: &str, error: &BatchError) -> bool {
    let Ok(input) = open_again(rt, file) else {
        return false;
    };
    let count = match error.batch {
        None => 0,
        Some(k) => k.saturating_add(1),
    };
    match first_error(rt.alloc(), columns, count, input) {
        None => false,
        Some(other) => other == *error,
    }
}

/// Returns the message of an error, with the name of the first projected column that has the error if it is read alone.
fn message_of(
    rt: &HostRuntime,
    columns: Projection<'_>,
    file: &str,
    error: &BatchError,
) -> Result<Option<String>, InputError> {
    let input = open_again(rt, file)?;
    let reader = open_schema(rt.alloc(), Projection::All, input)?;
    for (index, field) in reader.schema().fields.iter().enumerate() {
        let name = field.name.as_str();
        if is_projected(columns, name)
            && fails_alike(rt, Projection::Indices(&[index]), file, error)
        {
            return Ok(Some(column_message(rt, name, error)?));
        }
    }
    Ok(None)
}

fn column_message(rt: &HostRuntime, name: &str, error: &BatchError) -> Result<String, InputError> {
    let reason = error.error;
    let message = match error.batch {
        None => format!(in rt.alloc(); "column \"{name}\": {reason}"),
        Some(k) => format!(in rt.alloc(); "record batch {k}: column \"{name}\": {reason}"),
    }?;
    Ok(message)
}

/// Returns the message of an error that one column has and its record batch without columns has not. The input is read again for each column.
pub fn failing_column(
    rt: &HostRuntime,
    columns: Projection<'_>,
    file: &str,
    error: &BatchError,
) -> Option<String> {
    match error.error {
        CliError::Read(IpcReadError::Memory) => return None,
        CliError::Read(_) => {}
        _ => return None,
    }
    if fails_alike(rt, Projection::Indices(&[]), file, error) {
        return None;
    }
    match message_of(rt, columns, file, error) {
        Ok(message) => message,
        Err(_) => None,
    }
}

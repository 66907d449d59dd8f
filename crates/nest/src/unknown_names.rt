//! Projected names that no column has: the message lists the similar names of the columns.
use crate::input::open_again;
use crate::messages::{InputError, failed, report};
use cli_read::open_schema;
use cli_rows::{CliError, unknown_name_text};
use ipc_schema::Projection;
use std::process::ExitCode;

/// Returns the projected name that no column has, if that is the error.
pub fn unknown_name<'a>(columns: Projection<'a>, error: CliError) -> Option<&'a str> {
    match (error, columns) {
        (CliError::UnknownName(index), Projection::Names(names)) => names.get(index).copied(),
        _ => None,
    }
}

/// Returns the message of a name that no column of a file has. All columns of the file must be supported.
fn message_of(rt: &HostRuntime, file: &str, name: &str) -> Result<String, InputError> {
    let input = open_again(rt, file)?;
    let reader = open_schema(rt.alloc(), Projection::All, input)?;
    let text = unknown_name_text(rt.alloc(), name, &reader.schema().fields)?;
    Ok(text)
}

/// Reports a name that no column of an input has. It lists no similar name if the schema cannot be read again.
pub fn report_unknown_name(rt: &HostRuntime, file: &str, name: &str) -> ExitCode {
    match message_of(rt, file, name) {
        Ok(text) => report(rt, file, &text),
        Err(_) => {
            let _ = eprintln!(rt; "nest: {file}: there is no column \"{name}\"");
            failed()
        }
    }
}

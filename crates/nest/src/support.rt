//! Columns whose types are not supported: printed with a schema, and named in errors.
ghost use Rattle.std.specs.Prelude.{◌<◌, ◌^◌, length, IfOk};

use crate::input::{OpenError, Source, open_again};
use crate::messages::InputError;
use cli_read::{Input, open_schema};
use cli_rows::{CliError, support_error, support_lines, write_output};
use ipc_flatbuf::IpcReadError;
use ipc_io::{FetchedMessage, SeekRead, fetch_message};
use ipc_schema::{FieldSupport, Projection, columns_support};
use std::alloc::Global;
use std::io::{Cursor, Read, Write};

/// The number of bytes before the first message of a file: its magic and two bytes of padding.
const BEFORE_MESSAGES: usize = 8;

/// The error of an input with a type that is not supported.
const UNSUPPORTED: CliError = CliError::Read(IpcReadError::UnsupportedType);

/// Opens an input again at its first message.
fn open_stream(rt: &HostRuntime, file: &str) -> Result<Source, OpenError> {
    match open_again(rt, file)? {
        Input::Stream(source) => Ok(source),
        Input::File(mut source) => {
            let mut magic = [0u8; BEFORE_MESSAGES];
            source.read_exact(&mut magic)?;
            Ok(source)
        }
    }
}

/// Reads the next message, of an input that has one.
fn next_message<R: Read>(alloc: Global, source: &mut R) -> Result<FetchedMessage, InputError>
    ensures { IfOk result (λ message. length message.metadata.items < 2 ^ 31) }
{
    match fetch_message(alloc, source) {
        Ok(Some(message)) => Ok(message),
        Ok(None) => Err(InputError::from(UNSUPPORTED)),
        Err(error) => Err(InputError::from(CliError::from(error))),
    }
}

/// Reads the first message of an input again. Of one that cannot be read twice, the error is the one that it had.
fn first_message(rt: &HostRuntime, file: &str) -> Result<FetchedMessage, InputError>
    ensures { IfOk result (λ message. length message.metadata.items < 2 ^ 31) }
{
    match open_stream(rt, file) {
        Ok(mut source) => next_message(rt.alloc(), &mut source),
        Err(_) => Err(InputError::from(UNSUPPORTED)),
    }
}

/// Returns the columns of a schema message.
fn columns_of<'a>(
    alloc: Global,
    message: &'a FetchedMessage,
) -> Result<Vec<FieldSupport<'a>>, CliError>
    requires { length message.now.metadata.items < 2 ^ 31 }
{
    let columns = columns_support(alloc, Some(message.message()))?;
    Ok(columns)
}

/// Returns the indices of the supported columns.
fn supported_indices(alloc: Global, columns: &[FieldSupport<'_>]) -> Result<Vec<usize>, CliError> {
    let mut indices = Vec::new(alloc);
    for (index, column) in columns.iter().enumerate() {
        if column.unsupported.is_none() {
            indices.push(index)?;
        }
    }
    Ok(indices)
}

/// Prints the schema in a message, with its unsupported columns marked.
fn print_marked<R: SeekRead + Drop, W: Write>(
    rt: &HostRuntime,
    message: &FetchedMessage,
    input: Input<R>,
    out: &mut W,
) -> Result<(), InputError>
    requires { length message.now.metadata.items < 2 ^ 31 }
{
    let columns = columns_of(rt.alloc(), message)?;
    let indices = supported_indices(rt.alloc(), &columns)?;
    let reader = open_schema(rt.alloc(), Projection::Indices(&indices), input)?;
    let text = support_lines(rt.alloc(), &columns, &reader.schema().fields)?;
    write_output(out, text.as_bytes())?;
    Ok(())
}

/// Prints the schema of a file with unsupported columns.
pub fn print_support<W: Write>(
    rt: &HostRuntime,
    file: &str,
    out: &mut W,
) -> Result<(), InputError> {
    let message = first_message(rt, file)?;
    let input = open_again(rt, file)?;
    print_marked(rt, &message, input, out)
}

/// Prints the schema of a stream with unsupported columns, from the bytes of its schema message.
pub fn print_support_of_stream<W: Write>(
    rt: &HostRuntime,
    bytes: &[u8],
    out: &mut W,
) -> Result<(), InputError> {
    let message = next_message(rt.alloc(), &mut Cursor::new(bytes))?;
    print_marked(rt, &message, Input::Stream(Cursor::new(bytes)), out)
}

/// Prints the schema of a file in memory with unsupported columns.
pub fn print_support_of_file<W: Write>(
    rt: &HostRuntime,
    bytes: &[u8],
    out: &mut W,
) -> Result<(), InputError> {
    if bytes.len() < BEFORE_MESSAGES {
        return Err(InputError::from(UNSUPPORTED));
    }
    let message = next_message(rt.alloc(), &mut Cursor::new(&bytes[BEFORE_MESSAGES..]))?;
    print_marked(rt, &message, Input::File(Cursor::new(bytes)), out)
}

/// Returns whether a column is read.
pub fn is_projected(columns: Projection<'_>, name: &str) -> bool {
    match columns {
        Projection::Names(names) => names.iter().any(|it| *it == name),
        _ => true,
    }
}

/// Returns the error of the first projected column that is not supported.
fn error_of(
    rt: &HostRuntime,
    columns: Projection<'_>,
    file: &str,
) -> Result<Option<String>, InputError> {
    let message = first_message(rt, file)?;
    let columns_read = columns_of(rt.alloc(), &message)?;
    for column in &columns_read {
        if let Some(field) = &column.unsupported {
            if is_projected(columns, column.name) {
                return Ok(Some(support_error(rt.alloc(), field)?));
            }
        }
    }
    Ok(None)
}

/// Returns why an input is not read: its first projected column that is not supported, if that is the error.
pub fn unsupported_column(
    rt: &HostRuntime,
    columns: Projection<'_>,
    file: &str,
    error: CliError,
) -> Option<String> {
    if error != UNSUPPORTED {
        return None;
    }
    match error_of(rt, columns, file) {
        Ok(text) => text,
        Err(_) => None,
    }
}

/// Returns whether printing failed since a column is not supported.
pub fn is_unsupported(error: &InputError) -> bool {
    match error {
        InputError::Open(_) => false,
        InputError::Batch(error) => error.batch.is_none() && error.error == UNSUPPORTED,
    }
}

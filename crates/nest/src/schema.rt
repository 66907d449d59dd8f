//! The command `schema`. An input is read once, so that standard input and pipes have their unsupported columns printed too.
use crate::input::{Source, open_input};
use crate::messages::InputError;
use crate::support::{
    is_unsupported, print_support, print_support_of_file, print_support_of_stream,
};
use cli_read::{Input, schema_text};
use cli_rows::write_output;
use ipc_io::SeekRead;
use ipc_schema::Projection;
use std::io;
use std::io::{Cursor, ErrorKind, Read, Seek, SeekFrom, Write};

/// A reader that keeps the bytes that it returns.
#[derive(Drop)]
struct Recorder<'a, R> {
    inner: R,
    bytes: &'a mut Vec<u8>,
}

impl<R: Read> Read for Recorder<'_, R> {
    fn read(&mut self, buf: &mut [u8]) -> io::Result<usize> {
        let n = self.inner.read(buf)?;
        match self.bytes.extend_from_slice(&buf[..n]) {
            Ok(()) => Ok(n),
            Err(_) => Err(io::Error::from(ErrorKind::OutOfMemory)),
        }
    }
}

impl<R> Seek for Recorder<'_, R> {
    fn seek(&mut self, _to: SeekFrom) -> io::Result<u64> {
        Err(io::Error::from(ErrorKind::Unsupported))
    }
}

impl<R: Read> SeekRead for Recorder<'_, R> {
    fn read_at_position(&mut self, buf: &mut [u8]) -> io::Result<usize> {
        self.read(buf)
    }
}

/// Prints the schema of an input whose columns are supported.
fn print_supported<R: SeekRead + Drop, W: Write>(
    rt: &HostRuntime,
    columns: Projection<'_>,
    input: Input<R>,
    out: &mut W,
) -> Result<(), InputError> {
    let text = schema_text(rt.alloc(), columns, input)?;
    write_output(out, text.as_bytes())?;
    Ok(())
}

/// Returns whether printing failed since a column is not supported, where all columns are printed.
fn lacks_support(columns: Projection<'_>, printed: &Result<(), InputError>) -> bool {
    match (printed, columns) {
        (Err(error), Projection::All) => is_unsupported(error),
        _ => false,
    }
}

/// Prints the schema of a file that can be opened again.
fn print_file<W: Write>(
    rt: &HostRuntime,
    columns: Projection<'_>,
    file: &str,
    source: Source,
    out: &mut W,
) -> Result<(), InputError> {
    let printed = print_supported(rt, columns, Input::File(source), out);
    if lacks_support(columns, &printed) {
        return print_support(rt, file, out);
    }
    printed
}

/// Prints the schema of a file in memory.
fn print_bytes<W: Write>(
    rt: &HostRuntime,
    columns: Projection<'_>,
    bytes: &[u8],
    out: &mut W,
) -> Result<(), InputError> {
    let printed = print_supported(rt, columns, Input::File(Cursor::new(bytes)), out);
    if lacks_support(columns, &printed) {
        return print_support_of_file(rt, bytes, out);
    }
    printed
}

/// Prints the schema of a stream. No more than the schema message is read.
fn print_stream<W: Write>(
    rt: &HostRuntime,
    columns: Projection<'_>,
    source: Source,
    out: &mut W,
) -> Result<(), InputError> {
    let mut bytes = Vec::new(rt.alloc());
    let recorder = Recorder {
        inner: source,
        bytes: &mut bytes,
    };
    let printed = print_supported(rt, columns, Input::Stream(recorder), out);
    if lacks_support(columns, &printed) {
        return print_support_of_stream(rt, &bytes, out);
    }
    printed
}

/// Prints the columns of an input, and marks the unsupported ones.
pub fn print_columns<W: Write>(
    rt: &HostRuntime,
    columns: Projection<'_>,
    file: &str,
    out: &mut W,
) -> Result<(), InputError> {
    match open_input(rt, file)? {
        Input::Stream(source) => print_stream(rt, columns, source, out),
        Input::File(Source::Bytes(source)) => {
            let bytes = source.into_inner();
            print_bytes(rt, columns, &bytes, out)
        }
        Input::File(source) => print_file(rt, columns, file, source, out),
    }
}

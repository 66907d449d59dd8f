//! Calls of the program `nest` on a stream of one record batch: rows as lines, rows at indices, a comparison, a conversion and a
//! concatenation.

use crate::buffer::FixedBuffer;
use cli_args::{Format, Request, Selection};
use cli_read::{CompareError, Input, compare, print, take_encoded, take_lines};
use cli_rows::{BatchError, CliError};
use cli_write::{AppendError, Progress, append, begin_concat, copy};
use failed_allocations::failures::{Failure, Failures, expect};
use failed_allocations_ipc::streams::{STREAM, from_read_error, from_write_error};
use ipc_schema::Projection;
use nest_memory::error::Error;
use std::alloc::{AllocError, Global};
use std::io::Cursor;

/// The indices of the rows that are taken.
const INDICES: [usize; 3] = [1, 0, 1];

/// Progress that is not reported.
#[derive(Drop)]
struct NoProgress;

impl Progress for NoProgress {
    fn rows_read(&mut self, _rows: usize) {}
}

fn from_cli_error(error: CliError) -> Error {
    match error {
        CliError::Memory => Error::Memory(AllocError),
        CliError::Read(error) => from_read_error(error),
        CliError::Write(error) => from_write_error(error),
        _ => Error::NotYetImplemented,
    }
}

fn from_batch_error(e: BatchError) -> Error {
    from_cli_error(e.error)
}

fn input(bytes: &[u8]) -> Input<Cursor<&[u8]>> {
    Input::Stream(Cursor::new(bytes))
}

/// Whether the lines of all rows are right.
fn is_printed(alloc: Global) -> Result<bool, Error> {
    let mut out = FixedBuffer::new();
    let request = Request::Rows(Selection::All);
    print(alloc, Projection::All, request, input(&STREAM), &mut out).map_err(from_batch_error)?;
    Ok(out.written() == b"{\"a\":7}\n{\"a\":null}\n".as_slice())
}

/// Whether the lines of the rows at `INDICES` are right.
fn are_lines_taken(alloc: Global) -> Result<bool, Error> {
    let text = take_lines(alloc, Projection::All, &INDICES, input(&STREAM)).map_err(
        from_batch_error,
    )?;
    Ok(text.as_str() == "{\"a\":null}\n{\"a\":7}\n{\"a\":null}\n")
}

/// The number of bytes of the rows at `INDICES` as a file.
fn taken_len(alloc: Global) -> Result<usize, Error> {
    let taken = take_encoded(
        alloc,
        Projection::All,
        Format::File,
        &INDICES,
        input(&STREAM),
    );
    Ok(taken.map_err(from_batch_error)?.len())
}

/// Whether the stream is equal to itself.
fn is_equal(alloc: Global) -> Result<bool, Error> {
    match compare(alloc, Projection::All, input(&STREAM), input(&STREAM)) {
        Ok(difference) => Ok(difference.is_none()),
        Err(CompareError::First(e) | CompareError::Second(e)) => Err(from_batch_error(e)),
        Err(CompareError::TooManyRows) => Err(Error::NotYetImplemented),
    }
}

/// The number of bytes of the stream in a format.
fn converted_len(alloc: Global, format: Format) -> Result<usize, Error> {
    let out = FixedBuffer::new();
    let selection = Selection::All;
    let all = Projection::All;
    let out = copy(
        alloc,
        all,
        format,
        selection,
        input(&STREAM),
        out,
        &mut NoProgress,
    );
    Ok(out.map_err(from_batch_error)?.written().len())
}

/// The number of bytes of the stream, followed by itself, as a stream.
fn concatenated_len(alloc: Global) -> Result<usize, Error> {
    let out = FixedBuffer::new();
    let all = Projection::All;
    let begun = begin_concat(
        alloc,
        all,
        Format::Stream,
        input(&STREAM),
        out,
        &mut NoProgress,
    );
    let mut writer = begun.map_err(from_batch_error)?;
    match append(
        alloc,
        Projection::All,
        input(&STREAM),
        &mut writer,
        &mut NoProgress,
    ) {
        Ok(()) => {}
        Err(AppendError::Batch(e)) => return Err(from_batch_error(e)),
        Err(_schema) => return Err(Error::NotYetImplemented),
    }
    Ok(
        writer
            .finish(alloc)
            .map_err(from_cli_error)?
            .written()
            .len(),
    )
}

pub fn all(failures: &mut Failures, alloc: Global) -> Result<(), Failure> {
    expect(failures.retry(|| is_printed(alloc))?, "lines of all rows")?;
    expect(
        failures.retry(|| are_lines_taken(alloc))?,
        "lines of taken rows",
    )?;
    let taken = failures.retry(|| taken_len(alloc))?;
    let file = failures.retry(|| converted_len(alloc, Format::File))?;
    expect(file > 0 && taken > file, "the sizes of files")?;
    let stream = failures.retry(|| converted_len(alloc, Format::Stream))?;
    let concatenated = failures.retry(|| concatenated_len(alloc))?;
    expect(stream > 0 && concatenated > stream, "the sizes of streams")?;
    expect(
        failures.retry(|| is_equal(alloc))?,
        "a stream that differs from itself",
    )
}

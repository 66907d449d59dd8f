//! The schema of an input: of a stream from its first message, of a file from its footer. No dictionary and no record batch is read.
ghost use Rattle.std.specs.Prelude.{◌≡◌, IfErr, IfOk, OnOk, string_bytes};
ghost use Rattle.ipc_schema.specs.Projections.{projection_of};
ghost use Rattle.ipc_schema.specs.Schemas.{schema_of};
ghost use Rattle.cli_read.specs.Counts.{counted_input};
ghost use Rattle.cli_read.specs.ProjectedNames.{FailsToOpenColumns, HasNames};
ghost use Rattle.cli_read.specs.InputSchemas.{FailsToShowSchema, HasSchema, ShowsSchema, input_schema};

use crate::counting::open_metadata;
use crate::input::Input;
use crate::reader::{BatchReader, open};
use cli_rows::{CliError, schema_lines};
use ipc_io::{FileMetadataReader, SeekRead};
use ipc_schema::{Projection, Schema};
use std::alloc::Global;

/// A reader of a schema.
#[derive(Drop)]
pub enum SchemaReader<R> {
    /// Of a stream.
    Stream(BatchReader<R>),
    /// Of the footer of a file.
    File(FileMetadataReader<R>),
}

impl<R> SchemaReader<R> {
    /// Returns the schema of the projected columns.
    pub fn schema(&self) -> &Schema
        ensures { schema_of result.now ≡ input_schema self.now }
    {
        match self {
            SchemaReader::Stream(reader) => reader.schema(),
            SchemaReader::File(reader) => reader.schema(),
        }
    }
}

/// Opens an input and reads its schema. Dictionaries and record batches are not read.
///
/// # Errors
/// `Read` with the first error of the schema or the footer, which may be `Memory`. `Input` if a read fails. `UnknownName` with the first
/// projected name that no column has.
pub fn open_schema<R: SeekRead + Drop>(
    alloc: Global,
    columns: Projection<'_>,
    input: Input<R>,
) -> Result<SchemaReader<R>, CliError>
    ensures schema { let picks = projection_of columns.entry in
        IfOk result (λ r. HasSchema (counted_input R.remaining R.stream_position R.stream_bytes picks input) (input_schema r)) }
    ensures names { let picks = projection_of columns.entry in
        OnOk result (HasNames picks (counted_input R.remaining R.stream_position R.stream_bytes picks input)) }
    ensures error { let picks = projection_of columns.entry in
        IfErr result (λ e. FailsToOpenColumns picks e (counted_input R.remaining R.stream_position R.stream_bytes picks input)) }
{
    match input {
        Input::Stream(device) => match open(alloc, columns, Input::Stream(device)) {
            Ok(reader) => Ok(SchemaReader::Stream(reader)),
            Err(error) => Err(error),
        },
        Input::File(device) => match open_metadata(alloc, columns, device) {
            Ok(reader) => Ok(SchemaReader::File(reader)),
            Err(error) => Err(error),
        },
    }
}

/// Returns the schema of an Arrow stream or file as text: a line for each projected column with its name, its data type, and `not null` if
/// it is not nullable. Dictionaries and record batches are not read.
///
/// # Errors
/// Those of [`open_schema`], and `Memory` if an allocation fails.
pub fn schema_text<R: SeekRead + Drop>(
    alloc: Global,
    columns: Projection<'_>,
    input: Input<R>,
) -> Result<String, CliError>
    ensures text { let picks = projection_of columns.entry in
        IfOk result (λ text. ShowsSchema (counted_input R.remaining R.stream_position R.stream_bytes picks input) (string_bytes text)) }
    ensures names { let picks = projection_of columns.entry in
        OnOk result (HasNames picks (counted_input R.remaining R.stream_position R.stream_bytes picks input)) }
    ensures error { let picks = projection_of columns.entry in
        IfErr result (λ e. FailsToShowSchema picks e (counted_input R.remaining R.stream_position R.stream_bytes picks input)) }
{
    match open_schema(alloc, columns, input) {
        Err(error) => Err(error),
        Ok(reader) => {
            let text = schema_lines(alloc, &reader.schema().fields);
            drop(reader);
            Ok(text?)
        }
    }
}

//! Schemas and rows printed one record batch at a time: each batch is read, printed and dropped before the next one is read.
ghost use Rattle.std.specs.Prelude.{◌≡◌, IfErr, Ok, OnOk, Some};
ghost use Rattle.ipc.specs.Streams.{record_batch_of};
ghost use Rattle.ipc_schema.specs.Projections.{projection_of};
ghost use Rattle.ipc_schema.specs.Schemas.{SchemaModel, schema_of};
ghost use Rattle.cli_args.specs.RequestTrees.{request_tree};
ghost use Rattle.cli_rows.specs.Tables.{table_of_parts};
ghost use Rattle.cli_read.specs.Inputs.{decoded_input};
ghost use Rattle.cli_read.specs.Printed.{FailsToPrint, Prints, PrintsColumns, WritesText};
ghost use Rattle.cli_read.specs.Readers.{decoded_reader};
ghost use Rattle.cli_read.specs.RemainingRequests.{IsRequestInRowOrder, batch_table, is_complete_request, remaining_request, table_row_count};

use crate::input::Input;
use crate::reader::{BatchReader, open};
use cli_args::Request;
use cli_rows::{
    BatchError, CliError, is_complete, request_text, resolve_request, skip_rows, write_output,
};
use ipc::Batch;
use ipc_io::SeekRead;
use ipc_schema::{Projection, Schema};
use std::alloc::Global;
use std::io::Write;

/// Returns whether a request needs no further record batch.
fn is_request_complete(request: &Request) -> bool
    ensures { result ≡ is_complete_request (request_tree request.now) }
{
    match request {
        Request::Columns => true,
        Request::Rows(selection) => is_complete(selection),
    }
}

/// Changes a request to what it prints after so many rows.
fn skip_request_rows(request: &mut Request, rows: usize)
    ensures { request_tree request.new ≡ remaining_request (request_tree request.old) rows }
{
    if let Request::Rows(selection) = request {
        skip_rows(selection, rows);
    }
}

/// Writes the text that a request prints of record batches.
fn write_text<W: Write>(
    alloc: Global,
    schema: &Schema,
    request: &Request,
    batches: Vec<Batch>,
    out: &mut W,
) -> Result<(), CliError>
    ensures ok { OnOk result (WritesText (request_tree request.now) (Ok (table_of_parts schema.now batches.items)) (W.contents out.old) (W.contents out.new)) }
    ensures error { IfErr result (λ e. FailsToPrint e (request_tree request.now) (Ok (table_of_parts schema.now batches.items)) (W.contents out.old) (W.contents out.new)) }
{
    match request_text(alloc, schema, request, batches) {
        Err(error) => Err(error),
        Ok(text) => write_output(out, text.as_bytes()),
    }
}

/// Returns the number of rows of a record batch: the length of its first column.
fn row_count(batch: &Batch) -> usize
    ensures { (s : SchemaModel) → table_row_count (batch_table s (Some (record_batch_of batch.now))) ≡ result }
{
    match batch.columns.first() {
        None => 0,
        Some(column) => column.len(),
    }
}

/// Writes the text of one record batch, and changes the request to what it prints after the batch.
fn write_batch<W: Write>(
    alloc: Global,
    schema: &Schema,
    left: &mut Request,
    batch: Batch,
    out: &mut W,
) -> Result<(), CliError>
    ensures left { OnOk result (request_tree left.new ≡ remaining_request (request_tree left.old) (table_row_count (batch_table (schema_of schema.now) (Some (record_batch_of batch))))) }
    ensures ok { OnOk result (WritesText (request_tree left.old) (Ok (batch_table (schema_of schema.now) (Some (record_batch_of batch)))) (W.contents out.old) (W.contents out.new)) }
    ensures error { IfErr result (λ e. FailsToPrint e (request_tree left.old) (Ok (batch_table (schema_of schema.now) (Some (record_batch_of batch)))) (W.contents out.old) (W.contents out.new)) }
{
    let rows = row_count(&batch);
    let mut batches = Vec::new(alloc);
    batches.push(batch)?;
    match write_text(alloc, schema, left, batches, out) {
        Err(error) => Err(error),
        Ok(()) => {
            skip_request_rows(left, rows);
            Ok(())
        }
    }
}

/// Prints the remaining record batches of a reader.
fn print_resolved<R: SeekRead + Drop, W: Write>(
    alloc: Global,
    reader: BatchReader<R>,
    request: Request,
    out: &mut W,
) -> Result<(), BatchError>
    requires { IsRequestInRowOrder (request_tree request) }
    ensures { Prints (request_tree request) (decoded_reader R.remaining R.stream_position R.stream_bytes reader) result (W.contents out.old) (W.contents out.new) }
{
    let mut reader = reader;
    let mut left = request;
    match write_text(alloc, reader.schema(), &left, Vec::new(alloc), out) {
        Ok(()) => {}
        Err(error) => return Err(BatchError { batch: None, error }),
    }
    for k in 0..usize::MAX {
        if is_request_complete(&left) {
            return Ok(());
        }
        let batch = match reader.next_batch(alloc) {
            Ok(None) => return Ok(()),
            Ok(Some(batch)) => batch,
            Err(error) => {
                return Err(BatchError {
                    batch: Some(k),
                    error,
                });
            }
        };
        match write_batch(alloc, reader.schema(), &mut left, batch, out) {
            Ok(()) => {}
            Err(error) => {
                return Err(BatchError {
                    batch: Some(k),
                    error,
                });
            }
        }
    }
    if is_request_complete(&left) {
        return Ok(());
    }
    // There are more record batches than a `usize` counts.
    Err(BatchError {
        batch: Some(usize::MAX),
        error: CliError::Input,
    })
}

/// Prints an input that was opened. The column of the request is resolved once.
fn print_reader<R: SeekRead + Drop, W: Write>(
    alloc: Global,
    reader: BatchReader<R>,
    request: Request,
    out: &mut W,
) -> Result<(), BatchError>
    requires { IsRequestInRowOrder (request_tree request) }
    ensures { Prints (request_tree request) (decoded_reader R.remaining R.stream_position R.stream_bytes reader) result (W.contents out.old) (W.contents out.new) }
{
    let request = resolve_request(request, &reader.schema().fields);
    print_resolved(alloc, reader, request, out)
}

/// Writes the text that a request prints of an Arrow stream or file: a line for each column, or for each selected row. The lines of a record
/// batch are written before the next batch is read. No batch is read after the selected rows. Only the projected columns are read.
///
/// # Errors
/// Before any record batch: `Read` with the first error of the bytes in reading order; `UnknownName` with the first projected name that no
/// column has; `Condition` with the first error of the condition of `Where`. In a record batch, after the lines of the batches before it and
/// no line of its own: `Read`; `MismatchedColumns` if its columns do not match the schema, or there is no column. `Input` if a read fails.
/// `Output` if a write fails: a prefix of the lines was written. `Memory`, also in `Read`, if an allocation fails.
pub fn print<R: SeekRead + Drop, W: Write>(
    alloc: Global,
    columns: Projection<'_>,
    request: Request,
    input: Input<R>,
    out: &mut W,
) -> Result<(), BatchError>
    requires { IsRequestInRowOrder (request_tree request) }
    ensures { let picks = projection_of columns.entry in
        PrintsColumns picks (request_tree request) (decoded_input R.remaining R.stream_position R.stream_bytes picks input) result (W.contents out.old) (W.contents out.new) }
{
    match open(alloc, columns, input) {
        Err(error) => {
            drop(request);
            Err(BatchError { batch: None, error })
        }
        Ok(reader) => print_reader(alloc, reader, request, out),
    }
}

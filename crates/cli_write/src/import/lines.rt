//! Lines of JSON written as record batches.
ghost use Rattle.std.specs.Prelude.{◌≡◌, ◌<◌, [], None, map, IfErr, IfOk, IfSome, OnOk};
ghost use Rattle.std.specs.Io.KnownBytes.{IsAtEnd};
ghost use Rattle.nest_memory.specs.TypeOf.{field_of, type_of};
ghost use Rattle.ipc_schema.specs.Schemas.{schema_of};
ghost use Rattle.cli_rows.specs.Records.{record_type};
ghost use Rattle.cli_write.specs.ImportStates.{IsLinesError};
ghost use Rattle.cli_write.specs.ImportSteps.{EndsImport, FailsToImport, ImportsAll, ImportsSome};
ghost use Rattle.cli_write.specs.Imports.{Imports};
ghost use Rattle.cli_write.specs.LineBuffers.{HasLine, KnowsEnd, unread_bytes};

use crate::copier::Progress;
use crate::import::batch::{ParsedBatch, after_lines, next_batch, parse_batch};
use crate::import::buffer::LineBuffer;
use crate::import::error::ImportError;
use crate::writer::{BatchWriter, begin_writer, write_batches};
use cli_args::Format;
use cli_rows::row_type;
use ipc_schema::Schema;
use nest_memory::datatypes::{DataType, Field, Metadata};
use std::alloc::Global;
use std::io::{Read, Write};

/// Writes the rows of the next lines of the buffer, after `lines` others. Returns their number, which is positive if a line is complete.
fn import_batch<R: Read, W: Write + Drop>(
    alloc: Global,
    data_type: &DataType,
    fields: &[Field],
    text: &mut LineBuffer<R>,
    lines: &mut usize,
    writer: &mut BatchWriter<W>,
) -> Result<usize, ImportError>
    requires typed { type_of data_type.now ≡ record_type (map field_of fields.now) }
    requires over { KnowsEnd R.remaining text.old }
    ensures over { OnOk result (KnowsEnd R.remaining text.new) }
    ensures some { IfOk result (λ n. HasLine text.old.is_over text.old.text.items → 0 < n) }
    ensures on { OnOk result (ImportsSome W.contents R.remaining (map field_of fields.now) text.old lines.old writer.old text.new lines.new writer.new) }
    ensures error { IfErr result (FailsToImport W.contents R.remaining (map field_of fields.now) text.old lines.old writer.old) }
{
    let parsed = match next_batch(alloc, data_type, fields, text) {
        Ok(parsed) => parsed,
        Err(error) => return Err(after_lines(error, *lines)),
    };
    let ParsedBatch {
        batches,
        used,
        lines: count,
    } = parsed;
    let written = write_batches(alloc, writer, &batches);
    drop(batches);
    if let Err(error) = written {
        return Err(ImportError::from(error));
    }
    let Some(sum) = lines.checked_add(count) else {
        return Err(ImportError::Overflow);
    };
    *lines = sum;
    text.consume(used);
    Ok(count)
}

/// Reads further lines and writes their rows, after `lines` others. Returns their number, or `None` at the end.
fn import_next<R: Read, W: Write + Drop>(
    alloc: Global,
    data_type: &DataType,
    fields: &[Field],
    text: &mut LineBuffer<R>,
    lines: &mut usize,
    writer: &mut BatchWriter<W>,
) -> Result<Option<usize>, ImportError>
    requires typed { type_of data_type.now ≡ record_type (map field_of fields.now) }
    requires over { KnowsEnd R.remaining text.old }
    ensures over { OnOk result (KnowsEnd R.remaining text.new) }
    ensures on { OnOk result (ImportsSome W.contents R.remaining (map field_of fields.now) text.old lines.old writer.old text.new lines.new writer.new) }
    ensures some { IfOk result (λ step. IfSome step (λ n. 0 < n)) }
    ensures end { IfOk result (λ step. step ≡ None → IsAtEnd (unread_bytes R.remaining text.new)) }
    ensures error { IfErr result (FailsToImport W.contents R.remaining (map field_of fields.now) text.old lines.old writer.old) }
{
    if let Err(error) = text.fill() {
        return Err(error);
    }
    if text.is_done() {
        return Ok(None);
    }
    match import_batch(alloc, data_type, fields, text, lines, writer) {
        Ok(count) => Ok(Some(count)),
        Err(error) => Err(error),
    }
}

/// Writes the rows of all lines. Returns their number.
fn import_all<R: Read, W: Write + Drop, P: Progress>(
    alloc: Global,
    data_type: &DataType,
    fields: &[Field],
    text: &mut LineBuffer<R>,
    writer: &mut BatchWriter<W>,
    progress: &mut P,
) -> Result<usize, ImportError>
    requires typed { type_of data_type.now ≡ record_type (map field_of fields.now) }
    requires over { KnowsEnd R.remaining text.old }
    ensures end { OnOk result (IsAtEnd (unread_bytes R.remaining text.new)) }
    ensures on { IfOk result (ImportsAll W.contents R.remaining (map field_of fields.now) text.old writer.old text.new writer.new) }
    ensures error { IfErr result (FailsToImport W.contents R.remaining (map field_of fields.now) text.old 0 writer.old) }
{
    let mut lines = 0;
    for _turn in 0..usize::MAX {
        match import_next(alloc, data_type, fields, text, &mut lines, writer) {
            Err(error) => return Err(error),
            Ok(None) => return Ok(lines),
            Ok(Some(count)) => progress.rows_read(count),
        }
    }
    Err(ImportError::Overflow)
}

/// Writes the rows of all lines, and ends the output.
fn import_lines<R: Read + Drop, W: Write + Drop, P: Progress>(
    alloc: Global,
    data_type: &DataType,
    fields: &[Field],
    text: LineBuffer<R>,
    writer: BatchWriter<W>,
    progress: &mut P,
) -> Result<W, ImportError>
    requires typed { type_of data_type.now ≡ record_type (map field_of fields.now) }
    requires over { KnowsEnd R.remaining text }
    ensures { EndsImport W.contents R.remaining (map field_of fields.now) text writer result }
{
    let mut text = text;
    let mut writer = writer;
    let imported = import_all(alloc, data_type, fields, &mut text, &mut writer, progress);
    drop(text);
    if let Err(error) = imported {
        drop(writer);
        return Err(error);
    }
    match writer.finish(alloc) {
        Ok(end) => Ok(end),
        Err(error) => Err(ImportError::from(error)),
    }
}

/// Returns why records of these fields are not read from JSON, if they are not.
fn type_error(alloc: Global, data_type: &DataType, fields: &[Field]) -> Option<ImportError>
    requires { type_of data_type.now ≡ record_type (map field_of fields.now) }
    ensures { IfSome result (λ e. IsLinesError e (map field_of fields.now) []) }
{
    match parse_batch(alloc, data_type, fields, &[]) {
        Ok(none) => {
            drop(none);
            None
        }
        Err(error) => Some(error),
    }
}

/// Writes lines as columns of a schema. Nothing is written if records of its fields are not read from JSON.
fn import_typed<R: Read + Drop, W: Write + Drop, P: Progress>(
    alloc: Global,
    format: Format,
    data_type: &DataType,
    schema: &Schema,
    input: R,
    out: W,
    progress: &mut P,
) -> Result<W, ImportError>
    requires typed { type_of data_type.now ≡ record_type (schema_of schema.now).fields }
    requires plain { (schema_of schema.now).metadata ≡ [] }
    ensures { Imports W.contents (schema_of schema.now).fields format (R.remaining input) out result }
{
    if let Some(error) = type_error(alloc, data_type, &schema.fields) {
        drop(input);
        drop(out);
        return Err(error);
    }
    match begin_writer(alloc, format, out, schema) {
        Err(error) => {
            drop(input);
            Err(ImportError::from(error))
        }
        Ok(writer) => {
            let text = LineBuffer::new(alloc, input);
            import_lines(alloc, data_type, &schema.fields, text, writer, progress)
        }
    }
}

/// Writes the remaining lines of a reader in a format, as columns of these fields, flushes the output and returns it. Each line is one record, a
/// value of JSON as `json_read::read_json_lines` reads it. The bytes decode to the records of the lines, in order. The rows of up to 65,536
/// lines, or of 32 MiB of lines, are written as a record batch before further lines are read.
///
/// # Errors
/// `Type` with the first reason why such records are not read. `Line` with the first invalid line, from 0, its first reason and the path of its field. `Overflow`
/// if the rows of a record batch exceed the limits of an array. `Write` with the first reason why the lines up to a record batch cannot be
/// written. `Input` if a read fails, `Output` if a write fails. `Memory`, also in `Write`, if an allocation fails. A prefix of the bytes
/// may have been written then.
pub fn import<R: Read + Drop, W: Write + Drop, P: Progress>(
    alloc: Global,
    fields: Vec<Field>,
    format: Format,
    input: R,
    out: W,
    progress: &mut P,
) -> Result<W, ImportError>
    ensures { Imports W.contents (map field_of fields.items) format (R.remaining input) out result }
{
    match row_type(alloc, &fields) {
        Err(_) => {
            drop(fields);
            drop(input);
            drop(out);
            Err(ImportError::Memory)
        }
        Ok(data_type) => {
            let metadata = Metadata::new(alloc);
            let schema = Schema { fields, metadata };
            let done = import_typed(alloc, format, &data_type, &schema, input, out, progress);
            drop(data_type);
            drop(schema);
            done
        }
    }
}

//! A writer of record batches in either IPC format.
ghost use Rattle.std.specs.Prelude.{[], IfErr, IfOk, OnOk, map};
ghost use Rattle.ipc.specs.Streams.{record_batch_of};
ghost use Rattle.ipc.specs.EncodedStreams.{schema_error};
ghost use Rattle.ipc_schema.specs.Schemas.{schema_of};
ghost use Rattle.std.specs.Prelude.{◌≡◌};
ghost use Rattle.cli_args.specs.declared.format.Format.TheVariants as formats;
ghost use Rattle.cli_write.specs.Writers.{FailsSchema, FailsToFinish, FailsToPut, FailsToPutAll, Finishes, HasWritten, Puts, PutsAll, writer_schema};

use cli_args::Format;
use cli_rows::CliError;
use ipc::Batch;
use ipc_io::{FileWriter, StreamWriter};
use ipc_schema::Schema;
use std::alloc::Global;
use std::io::Write;

/// A writer of the record batches of a stream or a file. After an error it can only be dropped.
#[derive(Drop)]
pub enum BatchWriter<W> {
    /// A writer of a stream.
    Stream(StreamWriter<W>),
    /// A writer of a file.
    File(FileWriter<W>),
}

fn begin_stream<W: Write + Drop>(
    alloc: Global,
    out: W,
    schema: &Schema,
) -> Result<BatchWriter<W>, CliError>
    ensures begun { IfOk result (λ w. HasWritten W.contents formats.Stream out (schema_of schema.now) [] w) }
    ensures error { IfErr result (λ e. FailsSchema e (schema_error (schema_of schema.now))) }
{
    match StreamWriter::new(alloc, out, schema) {
        Ok(writer) => Ok(BatchWriter::Stream(writer)),
        Err(e) => Err(CliError::from(e)),
    }
}

fn begin_file<W: Write + Drop>(
    alloc: Global,
    out: W,
    schema: &Schema,
) -> Result<BatchWriter<W>, CliError>
    ensures begun { IfOk result (λ w. HasWritten W.contents formats.File out (schema_of schema.now) [] w) }
    ensures error { IfErr result (λ e. FailsSchema e (schema_error (schema_of schema.now))) }
{
    match FileWriter::new(alloc, out, schema) {
        Ok(writer) => Ok(BatchWriter::File(writer)),
        Err(e) => Err(CliError::from(e)),
    }
}

/// Opens a writer of a format and writes its schema.
///
/// # Errors
/// `Write` with the first reason why the schema cannot be written. `Output` if a write fails.
pub(crate) fn begin_writer<W: Write + Drop>(
    alloc: Global,
    format: Format,
    out: W,
    schema: &Schema,
) -> Result<BatchWriter<W>, CliError>
    ensures begun { IfOk result (λ w. HasWritten W.contents format out (schema_of schema.now) [] w) }
    ensures error { IfErr result (λ e. FailsSchema e (schema_error (schema_of schema.now))) }
{
    match format {
        Format::Stream => begin_stream(alloc, out, schema),
        Format::File => begin_file(alloc, out, schema),
    }
}

impl<W> BatchWriter<W> {
    /// Returns the schema.
    pub fn schema(&self) -> &Schema
        ensures { schema_of result.now ≡ writer_schema self.now }
    {
        match self {
            BatchWriter::Stream(writer) => writer.schema(),
            BatchWriter::File(writer) => writer.schema(),
        }
    }
}

impl<W: Write + Drop> BatchWriter<W> {
    /// Writes a record batch.
    ///
    /// # Errors
    /// `Write` with the first reason why the record batches up to this one cannot be written. `Output` if a write fails.
    pub fn write(&mut self, alloc: Global, batch: &Batch) -> Result<(), CliError>
        ensures put { OnOk result (Puts W.contents self.old (record_batch_of batch.now) self.new) }
        ensures error { IfErr result (FailsToPut W.contents self.old (record_batch_of batch.now)) }
    {
        match self {
            BatchWriter::Stream(writer) => match writer.write(alloc, batch) {
                Ok(()) => Ok(()),
                Err(e) => Err(CliError::from(e)),
            },
            BatchWriter::File(writer) => match writer.write(alloc, batch) {
                Ok(()) => Ok(()),
                Err(e) => Err(CliError::from(e)),
            },
        }
    }

    /// Writes the end of the stream or the footer of the file, and returns the output.
    ///
    /// # Errors
    /// `Write` with the first reason why the record batches cannot be written. `Output` if a write fails.
    pub fn finish(self, alloc: Global) -> Result<W, CliError>
        ensures put { IfOk result (Finishes W.contents self) }
        ensures error { IfErr result (FailsToFinish W.contents self) }
    {
        match self {
            BatchWriter::Stream(writer) => match writer.finish() {
                Ok(out) => Ok(out),
                Err(e) => Err(CliError::from(e)),
            },
            BatchWriter::File(writer) => match writer.finish(alloc) {
                Ok(out) => Ok(out),
                Err(e) => Err(CliError::from(e)),
            },
        }
    }
}

/// Writes record batches, one after another.
///
/// # Errors
/// Those of [`BatchWriter::write`], of the first record batch that is not written.
pub(crate) fn write_batches<W: Write + Drop>(
    alloc: Global,
    writer: &mut BatchWriter<W>,
    batches: &[Batch],
) -> Result<(), CliError>
    ensures put { OnOk result (PutsAll W.contents writer.old (map record_batch_of batches.now) writer.new) }
    ensures error { IfErr result (FailsToPutAll W.contents writer.old (map record_batch_of batches.now)) }
{
    for batch in batches {
        writer.write(alloc, batch)?;
    }
    Ok(())
}

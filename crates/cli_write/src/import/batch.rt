//! Lines parsed as record batches.
ghost use Rattle.std.specs.Prelude.{◌≡◌, ◌≢◌, ◌<◌, ◌⊎◌, [], length, map, take, IfErr, IfOk, OnOk};
ghost use Rattle.ipc.specs.Streams.{record_batch_of};
ghost use Rattle.cli_rows.specs.Records.{record_type};
ghost use Rattle.cli_write.specs.ImportStates.{IsFinalError, IsLinesError, ReadsBatch, ReadsPrefix, spec_after_lines};
ghost use Rattle.cli_write.specs.LineBuffers.{HasLine};
ghost use Rattle.cli_write.specs.declared.import.error.ImportError.TheVariants.{Overflow};
ghost use Rattle.json_read.specs.LineSplit.{lines_of};
ghost use Rattle.nest_memory.specs.TypeOf.{field_of, type_of};

use crate::import::buffer::{LINES, LineBuffer};
use crate::import::error::ImportError;
use cli_rows::push_batch;
use ipc::Batch;
use json_read::{JsonRows, read_first_json_lines};
use nest_memory::datatypes::{DataType, Field};
use std::alloc::Global;
use std::io::Read;

/// Leading lines of a text, parsed as one record batch, or as none if there is no row.
#[derive(Drop)]
pub(crate) struct ParsedBatch {
    /// The record batch, or none.
    pub(crate) batches: Vec<Batch>,
    /// The number of bytes of the lines.
    pub(crate) used: usize,
    /// The number of lines.
    pub(crate) lines: usize,
}

/// Returns an error of lines after `lines` others, with the line counted from the first.
pub(crate) fn after_lines(error: ImportError, lines: usize) -> ImportError
    ensures { (result ≡ spec_after_lines lines error) ⊎ (result ≡ Overflow) }
{
    match error {
        ImportError::Line(line, reason) => match lines.checked_add(line) {
            Some(line) => ImportError::Line(line, reason),
            None => {
                drop(reason);
                ImportError::Overflow
            }
        },
        other => other,
    }
}

/// Parses leading lines of a text, [`LINES`] at most.
pub(crate) fn parse_batch(
    alloc: Global,
    data_type: &DataType,
    fields: &[Field],
    text: &[u8],
) -> Result<ParsedBatch, ImportError>
    requires { type_of data_type.now ≡ record_type (map field_of fields.now) }
    ensures rows { IfOk result (λ t. ReadsBatch (map field_of fields.now) text.now t.used t.lines [] (map record_batch_of t.batches.items)) }
    ensures some { IfOk result (λ t. text.now ≢ [] → 0 < t.lines) }
    ensures error { IfErr result (λ e. IsLinesError e (map field_of fields.now) (lines_of text.now)) }
{
    match read_first_json_lines(alloc, data_type, text, LINES) {
        Err(error) => Err(ImportError::from(error)),
        Ok(rows) => {
            let JsonRows { array, used, lines } = rows;
            let mut batches = Vec::new(alloc);
            match push_batch(alloc, fields, &mut batches, array) {
                Ok(()) => Ok(ParsedBatch {
                    batches,
                    used,
                    lines,
                }),
                Err(_) => {
                    drop(batches);
                    Err(ImportError::Memory)
                }
            }
        }
    }
}

/// Parses leading complete lines of the buffer.
pub(crate) fn next_batch<R: Read>(
    alloc: Global,
    data_type: &DataType,
    fields: &[Field],
    text: &LineBuffer<R>,
) -> Result<ParsedBatch, ImportError>
    requires { type_of data_type.now ≡ record_type (map field_of fields.now) }
    ensures rows { IfOk result (λ t. ReadsPrefix (map field_of fields.now) text.now.text.items text.now.is_over t.used t.lines (map record_batch_of t.batches.items)) }
    ensures some { IfOk result (λ t. HasLine text.now.is_over text.now.text.items → 0 < t.lines) }
    ensures error { IfErr result (λ e. IsFinalError e (map field_of fields.now) text.now.text.items text.now.is_over) }
{
    let whole = text.whole_lines();
    parse_batch(alloc, data_type, fields, &text.text[..whole])
}

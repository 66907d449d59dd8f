//! Tables encoded as files and streams.
ghost use Rattle.std.specs.Prelude.{IfErr, IfOk};
ghost use Rattle.ipc.specs.EncodedStreams.{IsErrorOrMemory};
ghost use Rattle.cli_rows.specs.Encodings.{IsEncodingOf, write_refusal};
ghost use Rattle.cli_rows.specs.Tables.{table_of};

use crate::table::Table;
use cli_args::Format;
use ipc::{write_file, write_stream};
use ipc_flatbuf::IpcWriteError;
use std::alloc::Global;

/// Encodes a table in a format. The bytes decode to the schema and the record batches.
///
/// # Errors
/// The first reason why the table cannot be written, or `Memory` if an allocation fails.
pub fn encode_table(alloc: Global, format: Format, table: &Table) -> Result<Vec<u8>, IpcWriteError>
    ensures bytes { IfOk result (λ out. IsEncodingOf format (table_of table.now) out.items) }
    ensures error { IfErr result (IsErrorOrMemory (write_refusal format (table_of table.now))) }
{
    match format {
        Format::File => write_file(alloc, &table.schema, &table.batches),
        Format::Stream => write_stream(alloc, &table.schema, &table.batches),
    }
}

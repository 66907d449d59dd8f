//! All bytes of a reader, and bytes written to a writer.
ghost use Rattle.std.specs.Prelude.{◌≡◌, IfErr, IfOk, IfSome, OnOk};
ghost use Rattle.std.specs.Io.KnownBytes.{IsAtEnd};
ghost use Rattle.cli_rows.specs.Output.{IsInputOrMemoryError, WritesOutput};

use crate::error::CliError;
use std::alloc::Global;
use std::io::{Read, Write};

/// Reads all remaining bytes of a reader.
///
/// # Errors
/// `Input` if a read fails. `Memory` if an allocation fails.
pub fn read_input<R: Read>(alloc: Global, reader: &mut R) -> Result<Vec<u8>, CliError>
    ensures bytes { IfOk result (λ input. IfSome (R.remaining reader.old) (λ bytes. input.items ≡ bytes)) }
    ensures end { OnOk result (IsAtEnd (R.remaining reader.new)) }
    ensures error { IfErr result IsInputOrMemoryError }
{
    let mut input = Vec::new(alloc);
    let mut buffer = [0u8; 4096];
    'reads: for _turn in 0..u64::MAX {
        match reader.read(&mut buffer) {
            Ok(0) => return Ok(input),
            Ok(n) => input.extend_from_slice(&buffer[..n])?,
            Err(_) => return Err(CliError::Input),
        }
    }
    Err(CliError::Input)
}

/// Writes all bytes and flushes the writer.
///
/// # Errors
/// `Output` if a write or the flush fails, or a write accepts no byte. A prefix of the bytes was written then.
pub fn write_output<W: Write>(writer: &mut W, bytes: &[u8]) -> Result<(), CliError>
    ensures { WritesOutput result (W.contents writer.old) (W.contents writer.new) bytes.now }
{
    let mut rest = bytes;
    'bytes: while !rest.is_empty() {
        match writer.write(rest) {
            Ok(0) | Err(_) => return Err(CliError::Output),
            Ok(n) => rest = &rest[n..],
        }
    }
    match writer.flush() {
        Ok(()) => Ok(()),
        Err(_) => Err(CliError::Output),
    }
}

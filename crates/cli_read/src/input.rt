//! Inputs, and the first bytes that distinguish a file from a stream.
ghost use Rattle.std.specs.Prelude.{◌≡◌, IfErr, IfOk};
ghost use Rattle.cli_rows.specs.Output.{IsInputOrMemoryError};
ghost use Rattle.cli_rows.specs.Tables.{is_file_prefix};
ghost use Rattle.cli_read.specs.FirstBytes.{AreFirstBytes};

use cli_rows::CliError;
use std::alloc::Global;
use std::io::Read;

/// A reader of an Arrow stream or file.
#[derive(Drop)]
pub enum Input<R> {
    /// A stream, from the position of the reader.
    Stream(R),
    /// A file, from its first byte.
    File(R),
}

/// Reads the first six remaining bytes of a reader, or all of them if there are fewer.
///
/// # Errors
/// `Input` if a read fails. `Memory` if an allocation fails.
pub fn read_first_bytes<R: Read>(alloc: Global, reader: &mut R) -> Result<Vec<u8>, CliError>
    ensures head { IfOk result (λ head. AreFirstBytes (R.remaining reader.old) (R.remaining reader.new) head.items) }
    ensures error { IfErr result IsInputOrMemoryError }
{
    let mut head = Vec::new(alloc);
    let mut buffer = [0u8; 6];
    'reads: while head.len() < 6 {
        let room = &mut buffer[..6 - head.len()];
        match reader.read(room) {
            Ok(0) => return Ok(head),
            Ok(n) => head.extend_from_slice(&room[..n])?,
            Err(_) => return Err(CliError::Input),
        }
    }
    Ok(head)
}

/// Returns whether bytes begin with the magic of a file, `ARROW1`.
pub fn is_file(head: &[u8]) -> bool
    ensures { result ≡ is_file_prefix head.now }
{
    let magic = b"ARROW1";
    head.starts_with(magic)
}

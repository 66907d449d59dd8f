//! Writes all of a sequence of bytes.
ghost use Rattle.std.specs.Io.{WritesAtMost};
ghost use Rattle.std.specs.Io.KnownBytes.{WriteAppends};
ghost use Rattle.ipc_io.specs.Writes.{WritesAll};

use std::io;
use std::io::{ErrorKind, Write};

// Writes once, and retries while the write is interrupted.
fn write_retrying<W: Write>(writer: &mut W, bytes: &[u8]) -> io::Result<usize>
    ensures bound { WritesAtMost result bytes.now }
    ensures bytes { WriteAppends (W.contents writer.old) (W.contents writer.new) result bytes.now }
{
    'tries: for _turn in 0..u64::MAX {
        match writer.write(bytes) {
            Ok(n) => return Ok(n),
            Err(e) => {
                if e.kind() != ErrorKind::Interrupted {
                    return Err(e);
                }
            }
        }
    }
    Err(io::Error::from(ErrorKind::TimedOut))
}

/// Writes all of the bytes, in as many writes as the writer needs; interrupted writes are retried.
///
/// # Errors
/// The error of the writer, or `WriteZero`, if it accepts no byte. A prefix of the bytes may have been written.
pub fn write_all<W: Write>(writer: &mut W, bytes: &[u8]) -> io::Result<()>
    ensures { WritesAll result (W.contents writer.old) (W.contents writer.new) bytes.now }
{
    let mut rest = bytes;
    'bytes: while !rest.is_empty() {
        match write_retrying(writer, rest) {
            Ok(0) => return Err(io::Error::from(ErrorKind::WriteZero)),
            Ok(n) => rest = &rest[n..],
            Err(e) => return Err(e),
        }
    }
    Ok(())
}

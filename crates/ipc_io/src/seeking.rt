//! Reads ranges of bytes from a reader that seeks. Memory is allocated for bytes that were read, not for the length requested.
ghost use Rattle.std.specs.Prelude.{◌≡◌, ◌<◌, ◌≤◌, ◌+◌, length, IfErr, IfOk, OnOk};
ghost use Rattle.std.specs.Io.{ReadsAtMost};
ghost use Rattle.ipc_io.specs.Seeks.{AppendsRead, HasBytesAt, HasSize, KeepsBytes, MovesTo, ReadsHere};
ghost use Rattle.ipc_io.specs.Fetched.{IsReadFailure};

use crate::error::ReadError;
use crate::fetching::PIECE;
use crate::seek_read::SeekRead;
use std::alloc::Global;
use std::io;
use std::io::{ErrorKind, SeekFrom};

// Reads once, and retries while the read is interrupted.
fn read_retrying<R: SeekRead>(reader: &mut R, piece: &mut [u8]) -> io::Result<usize>
    ensures bound { ReadsAtMost result piece.new }
    ensures there { ReadsHere R.stream_position R.stream_bytes reader.old reader.new result piece.new }
{
    'tries: for _turn in 0..u64::MAX {
        match reader.read_at_position(piece) {
            Ok(n) => return Ok(n),
            Err(e) => {
                if e.kind() != ErrorKind::Interrupted {
                    return Err(e);
                }
            }
        }
    }
    Err(io::Error::from(ErrorKind::TimedOut))
}

// Reads some bytes at the position, at most `left`.
#[tactic(auto, using(crate::proofs::Ranges::piece_read, crate::proofs::Ranges::piece_kept))]
fn read_some<R: SeekRead>(
    reader: &mut R,
    buffer: &mut [u8],
    buf: &mut Vec<u8>,
    left: usize,
) -> Result<usize, ReadError>
    ensures read { IfOk result (AppendsRead R.stream_position R.stream_bytes reader.old reader.new buf.old.items buf.new.items) }
    ensures some { IfOk result (λ n. (0 < n) × (n ≤ left)) }
    ensures long { IfOk result (λ n. length buf.new.items ≡ length buf.old.items + n) }
    ensures kept { KeepsBytes R.stream_position R.stream_bytes reader.old reader.new }
    ensures err { IfErr result IsReadFailure }
{
    let most = left.min(buffer.len());
    let piece = &mut buffer[..most];
    match read_retrying(reader, piece) {
        Ok(0) => Err(ReadError::Io(io::Error::from(ErrorKind::UnexpectedEof))),
        Ok(n) => {
            buf.extend_from_slice(&piece[..n])?;
            Ok(n)
        }
        Err(e) => Err(ReadError::Io(e)),
    }
}

// Reads `want` bytes at the position.
fn fill<R: SeekRead>(reader: &mut R, buf: &mut Vec<u8>, want: usize) -> Result<(), ReadError>
    ensures read { OnOk result (AppendsRead R.stream_position R.stream_bytes reader.old reader.new buf.old.items buf.new.items want) }
    ensures long { OnOk result (length buf.new.items ≡ length buf.old.items + want) }
    ensures kept { KeepsBytes R.stream_position R.stream_bytes reader.old reader.new }
    ensures err { IfErr result IsReadFailure }
{
    let mut buffer = [0u8; PIECE];
    let mut left = want;
    'reads: while left > 0 {
        let n = read_some(reader, &mut buffer, buf, left)?;
        left -= n;
    }
    Ok(())
}

// Moves to a position.
fn seek_to<R: SeekRead>(reader: &mut R, position: usize) -> Result<(), ReadError>
    ensures moves { OnOk result (MovesTo R.stream_position R.stream_bytes reader.old reader.new position) }
    ensures kept { KeepsBytes R.stream_position R.stream_bytes reader.old reader.new }
    ensures err { IfErr result IsReadFailure }
{
    match reader.seek(SeekFrom::Start(position as u64)) {
        Ok(_) => Ok(()),
        Err(e) => Err(ReadError::Io(e)),
    }
}

/// Returns the number of bytes of a reader.
pub fn stream_len<R: SeekRead>(reader: &mut R) -> Result<usize, ReadError>
    ensures size { IfOk result (HasSize R.stream_position R.stream_bytes reader.old) }
    ensures kept { KeepsBytes R.stream_position R.stream_bytes reader.old reader.new }
    ensures err { IfErr result IsReadFailure }
{
    match reader.seek(SeekFrom::End(0)) {
        Ok(end) => Ok(end as usize),
        Err(e) => Err(ReadError::Io(e)),
    }
}

/// Reads `want` bytes at a position. A reader that ends before is an error.
pub fn read_range<R: SeekRead>(
    alloc: Global,
    reader: &mut R,
    position: usize,
    want: usize,
) -> Result<Vec<u8>, ReadError>
    ensures part { IfOk result (λ part. HasBytesAt R.stream_position R.stream_bytes reader.old position want part.items) }
    ensures long { IfOk result (λ part. length part.items ≡ want) }
    ensures kept { KeepsBytes R.stream_position R.stream_bytes reader.old reader.new }
    ensures err { IfErr result IsReadFailure }
{
    let mut buf = Vec::new(alloc);
    seek_to(reader, position)?;
    fill(reader, &mut buf, want)?;
    Ok(buf)
}

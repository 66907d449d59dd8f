//! Readers that can seek.
ghost use Rattle.std.specs.Io.{ReadsAtMost};
ghost use Rattle.std.specs.Io.KnownBytes.{ReadConsumes};
ghost use Rattle.ipc_io.specs.Seeks.{ReadsHere};

use std::fs::File;
use std::io;
use std::io::{AsBytes, Cursor, Read, Seek};

/// A reader whose reads return the bytes at its position and change none of them.
///
/// `Read` says which bytes a read returns, and `Seek` which bytes are at a position. An implementation of this trait says that they are the
/// same.
pub trait SeekRead: Read + Seek {
    /// Reads as `Read::read` does: returns bytes from the position on, and moves past them.
    ///
    /// # Errors
    /// Those of `Read::read`.
    fn read_at_position(&mut self, buf: &mut [u8]) -> io::Result<usize>
        ensures bound { ReadsAtMost result buf.new }
        ensures bytes { ReadConsumes (Self.remaining self.old) (Self.remaining self.new) result buf.new }
        ensures there { ReadsHere Self.stream_position Self.stream_bytes self.old self.new result buf.new };
}

impl<T: AsBytes> SeekRead for Cursor<T> {
    fn read_at_position(&mut self, buf: &mut [u8]) -> io::Result<usize> {
        self.read(buf)
    }
}

impl<R: SeekRead> SeekRead for &mut R {
    fn read_at_position(&mut self, buf: &mut [u8]) -> io::Result<usize> {
        (**self).read_at_position(buf)
    }
}

impl SeekRead for File {
    fn read_at_position(&mut self, buf: &mut [u8]) -> io::Result<usize> {
        self.read(buf)
    }
}

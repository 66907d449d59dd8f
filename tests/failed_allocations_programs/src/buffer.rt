//! An output that allocates nothing.

use std::io;
use std::io::Write;

const SIZE: usize = 2048;

/// A writer of at most `SIZE` bytes, which allocates nothing.
#[derive(Drop)]
pub struct FixedBuffer {
    bytes: [u8; SIZE],
    len: usize,
}

impl FixedBuffer {
    pub fn new() -> FixedBuffer {
        FixedBuffer {
            bytes: [0; SIZE],
            len: 0,
        }
    }

    /// Returns the bytes that were written.
    pub fn written(&self) -> &[u8] {
        &self.bytes[..self.len]
    }
}

impl Write for FixedBuffer {
    fn write(&mut self, buf: &[u8]) -> io::Result<usize> {
        let len = buf.len().min(SIZE - self.len);
        for i in 0..len {
            self.bytes[self.len + i] = buf[i];
        }
        self.len += len;
        Ok(len)
    }

    fn flush(&mut self) -> io::Result<()> {
        Ok(())
    }
}

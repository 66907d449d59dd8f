//! Readers and writers in memory that transfer few bytes at a time and fail in a given call.
use cli_read::{Input, is_file};
use cli_write::Progress;
use ipc_io::SeekRead;
use std::alloc::Global;
use std::io;
use std::io::{ErrorKind, Read, Seek, SeekFrom, Write};

/// The number of a call that is never made.
pub const NEVER: usize = usize::MAX;

/// A reader of bytes: five at a time at most. The call with the number `fails_at` fails.
#[derive(Drop)]
pub struct Device {
    bytes: Vec<u8>,
    pub at: usize,
    calls: usize,
    fails_at: usize,
}

impl Device {
    pub fn new(bytes: Vec<u8>, fails_at: usize) -> Device {
        Device {
            bytes,
            at: 0,
            calls: 0,
            fails_at,
        }
    }

    fn fails(&mut self) -> bool {
        self.calls += 1;
        self.calls - 1 == self.fails_at
    }
}

impl Read for Device {
    fn read(&mut self, buf: &mut [u8]) -> io::Result<usize> {
        if self.fails() {
            return Err(io::Error::from(ErrorKind::ConnectionReset));
        }
        let n = buf
            .len()
            .min(5)
            .min(self.bytes.len().saturating_sub(self.at));
        for i in 0..n {
            buf[i] = self.bytes[self.at + i];
        }
        self.at += n;
        Ok(n)
    }
}

impl Seek for Device {
    fn seek(&mut self, to: SeekFrom) -> io::Result<u64> {
        if self.fails() {
            return Err(io::Error::from(ErrorKind::ConnectionReset));
        }
        match to {
            SeekFrom::Start(place) => self.at = place as usize,
            SeekFrom::End(_) => self.at = self.bytes.len(),
            SeekFrom::Current(_) => return Err(io::Error::from(ErrorKind::Unsupported)),
        }
        Ok(self.at as u64)
    }
}

impl SeekRead for Device {
    fn read_at_position(&mut self, buf: &mut [u8]) -> io::Result<usize> {
        self.read(buf)
    }
}

/// A writer of bytes: seven at a time at most, and `room` bytes in all.
#[derive(Drop)]
pub struct Sink {
    pub bytes: Vec<u8>,
    room: usize,
}

impl Sink {
    pub fn new(alloc: Global, room: usize) -> Sink {
        Sink {
            bytes: Vec::new(alloc),
            room,
        }
    }
}

impl Write for Sink {
    fn write(&mut self, buf: &[u8]) -> io::Result<usize> {
        if self.bytes.len() >= self.room {
            return Err(io::Error::from(ErrorKind::StorageFull));
        }
        let n = buf.len().min(7).min(self.room - self.bytes.len());
        self.bytes.extend_from_slice(&buf[..n])?;
        Ok(n)
    }

    fn flush(&mut self) -> io::Result<()> {
        Ok(())
    }
}

/// Counts rows and record batches.
#[derive(Drop)]
pub struct Count {
    pub rows: usize,
    pub batches: usize,
}

impl Count {
    pub fn new() -> Count {
        Count {
            rows: 0,
            batches: 0,
        }
    }
}

impl Progress for Count {
    fn rows_read(&mut self, rows: usize) {
        self.rows += rows;
        self.batches += 1;
    }
}

/// Returns a reader of a stream or a file, by its first bytes.
pub fn input<R>(bytes: &[u8], device: R) -> Input<R> {
    if is_file(bytes) {
        Input::File(device)
    } else {
        Input::Stream(device)
    }
}

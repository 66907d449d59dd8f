//! Devices in memory: they return and take few bytes at a time, are interrupted, and fail at a byte.
use ipc_io::SeekRead;
use std::alloc::Global;
use std::io;
use std::io::{ErrorKind, Read, Seek, SeekFrom, Write};

/// Gives at most so many bytes a turn; every second turn is interrupted; it fails once it has given so many.
#[derive(Drop)]
pub struct Source {
    pub bytes: Vec<u8>,
    pub at: usize,
    pub most: usize,
    pub fails_at: usize,
    pub turns: usize,
}

impl Source {
    pub fn new(bytes: Vec<u8>, most: usize, fails_at: usize) -> Source {
        Source {
            bytes,
            at: 0,
            most,
            fails_at,
            turns: 0,
        }
    }
}

impl Read for Source {
    fn read(&mut self, buf: &mut [u8]) -> io::Result<usize> {
        self.turns += 1;
        if self.turns % 2 == 0 {
            return Err(io::Error::from(ErrorKind::Interrupted));
        }
        if self.at >= self.fails_at {
            return Err(io::Error::from(ErrorKind::ConnectionReset));
        }
        let mut n = buf.len();
        n = n.min(self.most);
        n = n.min(self.bytes.len() - self.at);
        n = n.min(self.fails_at - self.at);
        for i in 0..n {
            buf[i] = self.bytes[self.at + i];
        }
        self.at += n;
        Ok(n)
    }
}

/// Has bytes at any index, and says how many: returns at most so many a turn, every second turn is interrupted, and the call of a number
/// fails, of those that seek or are not interrupted.
#[derive(Drop)]
pub struct Disk<'a> {
    pub bytes: &'a [u8],
    pub says: usize,
    pub at: usize,
    pub most: usize,
    pub fails_at: usize,
    pub calls: usize,
    pub turns: usize,
    pub wanted: usize,
}

impl<'a> Disk<'a> {
    pub fn new(bytes: &'a [u8], most: usize, fails_at: usize) -> Disk<'a> {
        Disk {
            bytes,
            says: bytes.len(),
            at: 0,
            most,
            fails_at,
            calls: 0,
            turns: 0,
            wanted: 0,
        }
    }

    // Whether this call fails.
    fn fails(&mut self) -> bool {
        self.calls += 1;
        self.calls - 1 == self.fails_at
    }
}

impl<'a> Read for Disk<'a> {
    fn read(&mut self, buf: &mut [u8]) -> io::Result<usize> {
        self.turns += 1;
        if self.turns % 2 == 0 {
            return Err(io::Error::from(ErrorKind::Interrupted));
        }
        if self.fails() {
            return Err(io::Error::from(ErrorKind::ConnectionReset));
        }
        self.wanted = self.wanted.max(buf.len());
        let mut n = buf.len();
        n = n.min(self.most);
        n = n.min(self.bytes.len().saturating_sub(self.at));
        for i in 0..n {
            buf[i] = self.bytes[self.at + i];
        }
        self.at += n;
        Ok(n)
    }
}

impl<'a> Seek for Disk<'a> {
    fn seek(&mut self, to: SeekFrom) -> io::Result<u64> {
        if self.fails() {
            return Err(io::Error::from(ErrorKind::ConnectionReset));
        }
        match to {
            SeekFrom::Start(index) => self.at = index as usize,
            SeekFrom::End(_) => self.at = self.says,
            SeekFrom::Current(_) => return Err(io::Error::from(ErrorKind::Unsupported)),
        }
        Ok(self.at as u64)
    }
}

impl<'a> SeekRead for Disk<'a> {
    fn read_at_position(&mut self, buf: &mut [u8]) -> io::Result<usize> {
        self.read(buf)
    }
}

/// Takes at most so many bytes a turn; every second turn is interrupted; it fails once it has so many, and when it is flushed
/// where that is asked for.
#[derive(Drop)]
pub struct Sink {
    pub bytes: Vec<u8>,
    pub most: usize,
    pub fails_at: usize,
    pub turns: usize,
    pub flushes: usize,
    pub flush_fails: bool,
}

impl Sink {
    pub fn new(alloc: Global, most: usize, fails_at: usize) -> Sink {
        Sink {
            bytes: Vec::new(alloc),
            most,
            fails_at,
            turns: 0,
            flushes: 0,
            flush_fails: false,
        }
    }
}

impl Write for Sink {
    fn write(&mut self, buf: &[u8]) -> io::Result<usize> {
        self.turns += 1;
        if self.turns % 2 == 0 {
            return Err(io::Error::from(ErrorKind::Interrupted));
        }
        if self.bytes.len() >= self.fails_at {
            return Err(io::Error::from(ErrorKind::StorageFull));
        }
        let mut n = buf.len();
        n = n.min(self.most);
        n = n.min(self.fails_at - self.bytes.len());
        self.bytes.extend_from_slice(&buf[..n])?;
        Ok(n)
    }

    fn flush(&mut self) -> io::Result<()> {
        self.flushes += 1;
        if self.flush_fails {
            return Err(io::Error::from(ErrorKind::BrokenPipe));
        }
        Ok(())
    }
}

//! Files and standard input as inputs.
use cli_read::{Input, is_file, read_first_bytes};
use cli_rows::{CliError, OtherFormat, other_format, read_input};
use ipc_io::SeekRead;
use std::fs::File;
use std::io::{Chain, Cursor, ErrorKind, Read, Seek, SeekFrom, StdinLock};
use std::rt::Files;
use std::{fs, io};
use thiserror::Error;

/// Error returned where an input is not opened.
#[derive(Clone, Copy, Debug, PartialEq, Eq, Error)]
pub enum OpenError {
    /// There is no file of the name.
    #[error("no such file")]
    NotFound,
    /// The file may not be read.
    #[error("permission denied")]
    PermissionDenied,
    /// The name is that of a directory.
    #[error("is a directory")]
    Directory,
    /// The file cannot be opened, or reading failed.
    #[error("input cannot be read")]
    Input,
    /// The input is neither an Arrow IPC file nor a stream.
    #[error("{0}")]
    NotArrow(OtherFormat),
    /// An allocation failed.
    #[error("out of memory")]
    Memory,
}

impl From<CliError> for OpenError {
    fn from(error: CliError) -> OpenError {
        match error {
            CliError::Memory => OpenError::Memory,
            _ => OpenError::Input,
        }
    }
}

impl From<io::Error> for OpenError {
    fn from(error: io::Error) -> OpenError {
        match error.kind() {
            ErrorKind::NotFound => OpenError::NotFound,
            ErrorKind::PermissionDenied => OpenError::PermissionDenied,
            ErrorKind::IsADirectory => OpenError::Directory,
            ErrorKind::OutOfMemory => OpenError::Memory,
            _ => OpenError::Input,
        }
    }
}

/// A source of bytes. One that cannot seek is chained after its first bytes.
#[derive(Drop)]
pub enum Source {
    /// A file that can seek.
    File(File),
    /// All bytes of a source that cannot seek.
    Bytes(Cursor<Vec<u8>>),
    /// A file that cannot seek.
    Pipe(Chain<Cursor<Vec<u8>>, File>),
    /// Standard input.
    Stdin(Chain<Cursor<Vec<u8>>, StdinLock<'static>>),
}

impl Read for Source {
    fn read(&mut self, buf: &mut [u8]) -> io::Result<usize> {
        match self {
            Source::File(x) => x.read(buf),
            Source::Bytes(x) => x.read(buf),
            Source::Pipe(x) => x.read(buf),
            Source::Stdin(x) => x.read(buf),
        }
    }
}

impl Seek for Source {
    fn seek(&mut self, to: SeekFrom) -> io::Result<u64> {
        match self {
            Source::File(x) => x.seek(to),
            Source::Bytes(x) => x.seek(to),
            Source::Pipe(_) => Err(io::Error::from(ErrorKind::Unsupported)),
            Source::Stdin(_) => Err(io::Error::from(ErrorKind::Unsupported)),
        }
    }
}

impl SeekRead for Source {
    fn read_at_position(&mut self, buf: &mut [u8]) -> io::Result<usize> {
        self.read(buf)
    }
}

/// Reads an Arrow file that cannot seek into memory: it is read from its end.
fn read_file<R: Read>(rt: &impl AllocGlobal, source: &mut R) -> Result<Input<Source>, OpenError> {
    let bytes = read_input(rt.alloc(), source)?;
    Ok(Input::File(Source::Bytes(Cursor::new(bytes))))
}

/// Returns whether an input with these first bytes is a file, and not a stream.
fn is_arrow_file(head: &[u8]) -> Result<bool, OpenError> {
    if is_file(head) {
        return Ok(true);
    }
    match other_format(head) {
        Some(format) => Err(OpenError::NotArrow(format)),
        None => Ok(false),
    }
}

/// Opens standard input.
fn open_stdin(rt: &HostRuntime) -> Result<Input<Source>, OpenError> {
    let mut reader = rt.reader();
    let head = read_first_bytes(rt.alloc(), &mut reader)?;
    let is_arrow_file = is_arrow_file(&head)?;
    let mut source = Cursor::new(head).chain(reader);
    if is_arrow_file {
        return read_file(rt, &mut source);
    }
    Ok(Input::Stream(Source::Stdin(source)))
}

fn is_directory(rt: &HostRuntime, file: &str) -> bool {
    match fs::metadata(rt, file) {
        Ok(metadata) => metadata.is_dir(),
        Err(_) => false,
    }
}

/// Returns an open file as an input, from its first byte.
fn open_file(rt: &impl AllocGlobal, mut opened: File) -> Result<Input<Source>, OpenError> {
    let head = read_first_bytes(rt.alloc(), &mut opened)?;
    let is_arrow_file = is_arrow_file(&head)?;
    if opened.seek(SeekFrom::Start(0)).is_ok() {
        let source = Source::File(opened);
        return Ok(if is_arrow_file {
            Input::File(source)
        } else {
            Input::Stream(source)
        });
    }
    let mut source = Cursor::new(head).chain(opened);
    if is_arrow_file {
        return read_file(rt, &mut source);
    }
    Ok(Input::Stream(Source::Pipe(source)))
}

/// Opens a file. A directory can be opened, but not read.
pub fn open_path(rt: &HostRuntime, file: &str) -> Result<File, OpenError> {
    if is_directory(rt, file) {
        return Err(OpenError::Directory);
    }
    let opened = fs::open(rt, file)?;
    Ok(opened)
}

fn is_regular_file(rt: &HostRuntime, file: &str) -> bool {
    match fs::metadata(rt, file) {
        Ok(metadata) => metadata.is_file(),
        Err(_) => false,
    }
}

/// Opens a file or standard input, as an Arrow file or stream by its first bytes.
pub fn open_input(rt: &HostRuntime, file: &str) -> Result<Input<Source>, OpenError> {
    if file == "-" {
        return open_stdin(rt);
    }
    let opened = open_path(rt, file)?;
    open_file(rt, opened)
}

/// Opens an input again, from its first byte. Standard input cannot be read twice, nor can a pipe: opening it may wait for a writer.
pub fn open_again(rt: &HostRuntime, file: &str) -> Result<Input<Source>, OpenError> {
    if file == "-" || !is_regular_file(rt, file) {
        return Err(OpenError::Input);
    }
    open_input(rt, file)
}

//! Outputs, and the progress line.
use crate::messages::failed;
use cli_write::Progress;
use std::fs::File;
use std::io::{ErrorKind, Write};
use std::process::ExitCode;
use std::{fs, io};
use thiserror::Error;

/// The number of record batches between two updates of the line.
const BATCHES: usize = 16;

/// A line on standard error that counts rows, if standard error is a terminal.
#[derive(Drop)]
pub struct ProgressLine<'a> {
    rt: &'a HostRuntime,
    rows: usize,
    batches: usize,
    is_shown: bool,
}

impl<'a> ProgressLine<'a> {
    pub fn new(rt: &'a HostRuntime, is_shown: bool) -> ProgressLine<'a> {
        ProgressLine {
            rt,
            rows: 0,
            batches: 0,
            is_shown,
        }
    }

    /// Erases the line.
    pub fn clear(&self) {
        if self.is_shown {
            let _ = eprint!(self.rt; "\r\x1b[K");
        }
    }
}

impl Progress for ProgressLine<'_> {
    fn rows_read(&mut self, rows: usize) {
        self.rows = self.rows.saturating_add(rows);
        self.batches = self.batches.wrapping_add(1);
        if self.is_shown && self.batches % BATCHES == 0 {
            let rows = self.rows;
            let _ = eprint!(self.rt; "\r{rows} rows");
        }
    }
}

/// Error returned where an output is not opened.
#[derive(Clone, Copy, Debug, PartialEq, Eq, Error)]
pub enum CreateError {
    /// There is no directory for the output.
    #[error("output cannot be written: no such directory")]
    NotFound,
    /// The output, or its directory, may not be written.
    #[error("output cannot be written: permission denied")]
    PermissionDenied,
    /// The output is a directory.
    #[error("output cannot be written: is a directory")]
    Directory,
    /// The file beside the output exists.
    #[error("output cannot be written: OUT.part exists")]
    PartExists,
    /// The output cannot be opened.
    #[error("output cannot be written")]
    Output,
    /// An allocation failed.
    #[error("out of memory")]
    Memory,
}

impl From<io::Error> for CreateError {
    fn from(error: io::Error) -> CreateError {
        match error.kind() {
            ErrorKind::NotFound => CreateError::NotFound,
            ErrorKind::PermissionDenied => CreateError::PermissionDenied,
            ErrorKind::IsADirectory => CreateError::Directory,
            ErrorKind::OutOfMemory => CreateError::Memory,
            _ => CreateError::Output,
        }
    }
}

/// Standard output. It records whether nothing reads it any more, as in `nest rows FILE | head`.
#[derive(Drop)]
pub struct StandardOutput<W> {
    writer: W,
    is_closed: bool,
}

impl<W> StandardOutput<W> {
    pub fn new(writer: W) -> StandardOutput<W> {
        StandardOutput {
            writer,
            is_closed: false,
        }
    }

    pub fn is_closed(&self) -> bool {
        self.is_closed
    }
}

impl<W: Write> Write for StandardOutput<W> {
    fn write(&mut self, buf: &[u8]) -> io::Result<usize> {
        match self.writer.write(buf) {
            Ok(n) => Ok(n),
            Err(error) => {
                if error.kind() == ErrorKind::BrokenPipe {
                    self.is_closed = true;
                }
                Err(error)
            }
        }
    }

    fn flush(&mut self) -> io::Result<()> {
        self.writer.flush()
    }
}

/// An output: its name, its writer, and whether the progress line is shown.
#[derive(Drop)]
pub struct Output<'a, W> {
    pub name: &'a str,
    pub writer: W,
    pub is_terminal: bool,
}

/// Where an output is written until it is complete.
#[derive(Drop)]
pub enum Place {
    /// A new file, which is removed if the output is incomplete.
    Created,
    /// Not a regular file, say a device.
    Device,
    /// This file beside an existing one, which may be the input and is replaced when the output is complete.
    Beside(String),
}

/// Returns whether a regular file exists.
fn is_regular_file(rt: &HostRuntime, name: &str) -> bool {
    match fs::metadata(rt, name) {
        Ok(metadata) => metadata.is_file(),
        Err(_) => false,
    }
}

/// Opens a new file beside an output.
fn open_beside(rt: &HostRuntime, out: &str) -> Result<(File, Place), CreateError> {
    let Ok(name) = format!(in rt.alloc(); "{out}.part") else {
        return Err(CreateError::Memory);
    };
    match File::create_new(rt, name.as_str()) {
        Ok(created) => Ok((created, Place::Beside(name))),
        Err(error) => {
            drop(name);
            if error.kind() == ErrorKind::AlreadyExists {
                return Err(CreateError::PartExists);
            }
            Err(CreateError::from(error))
        }
    }
}

/// Opens an output, or a file beside it if the output exists.
pub fn open_output(rt: &HostRuntime, out: &str) -> Result<(File, Place), CreateError> {
    if let Ok(created) = File::create_new(rt, out) {
        return Ok((created, Place::Created));
    }
    if is_regular_file(rt, out) {
        return open_beside(rt, out);
    }
    let opened = fs::create(rt, out)?;
    Ok((opened, Place::Device))
}

/// Copies a file over an output, which keeps its permissions and links.
fn write_over(rt: &HostRuntime, from: &str, out: &str) -> io::Result<()> {
    let mut written = fs::open(rt, from)?;
    let mut target = fs::create(rt, out)?;
    io::copy(&mut written, &mut target)?;
    Ok(())
}

/// Completes an output, or removes it if it is incomplete. If an existing output cannot be replaced, the complete output stays beside it, and
/// this is reported.
pub fn settle(
    rt: &HostRuntime,
    out: &str,
    place: Place,
    is_complete: bool,
) -> Result<(), ExitCode> {
    match place {
        Place::Device => Ok(()),
        Place::Created => {
            if !is_complete {
                let _ = fs::remove_file(rt, out);
            }
            Ok(())
        }
        Place::Beside(name) => {
            if is_complete && write_over(rt, name.as_str(), out).is_err() {
                let _ = eprintln!(rt;
                    "nest: {out}: output cannot be replaced; it is complete in {name}"
                );
                return Err(failed());
            }
            let _ = fs::remove_file(rt, name.as_str());
            Ok(())
        }
    }
}

//! Readers and writers that fail, that return or take one byte at a time, and input that ends within a row.
use super::{ROWS, arguments_of};
use listcut_rows::command::run;
use listcut_rows::error::ListcutError;
use std::alloc::{AllocError, Global};
use std::io;
use std::io::{Error, ErrorKind, Read, Write};
use std::test::*;

/// A reader that returns its bytes one at a time, and then ends or fails.
struct Slow<'a> {
    rest: &'a [u8],
    ends: bool,
}

impl Read for Slow<'_> {
    fn read(&mut self, buf: &mut [u8]) -> io::Result<usize> {
        let [first, rest @ ..] = self.rest else {
            return if self.ends {
                Ok(0)
            } else {
                Err(Error::from(ErrorKind::Other))
            };
        };
        if buf.is_empty() {
            return Ok(0);
        }
        buf[0] = *first;
        self.rest = rest;
        Ok(1)
    }
}

/// What a writer does where it has no more room, or is flushed.
#[derive(Clone, Copy, PartialEq)]
enum Refusal {
    TakesNoByte,
    FailsToWrite,
    FailsToFlush,
}

/// A writer that takes one byte at a time, `room` in all.
#[derive(Drop)]
struct Narrow {
    taken: Vec<u8>,
    room: usize,
    refusal: Refusal,
}

impl Write for Narrow {
    fn write(&mut self, buf: &[u8]) -> io::Result<usize> {
        let Some(first) = buf.first() else {
            return Ok(0);
        };
        if self.taken.len() < self.room {
            self.taken.push(*first)?;
            return Ok(1);
        }
        match self.refusal {
            Refusal::FailsToWrite => Err(Error::from(ErrorKind::Other)),
            Refusal::TakesNoByte | Refusal::FailsToFlush => Ok(0),
        }
    }

    fn flush(&mut self) -> io::Result<()> {
        match self.refusal {
            Refusal::FailsToFlush => Err(Error::from(ErrorKind::Other)),
            Refusal::TakesNoByte | Refusal::FailsToWrite => Ok(()),
        }
    }
}

/// The rows of one request, and the text that it asks for.
const REQUESTS: [(&[&str], &str); 2] = [
    (&["1", "2"], "null\n[]\n"),
    (&["take", "3", "0"], "[3,null]\n[1,2]\n"),
];

/// Whether a reader that returns these bytes one at a time, and then ends or fails, is decoded by this error, and this text.
fn reads_slowly(
    alloc: Global,
    words: &[&str],
    bytes: &[u8],
    ends: bool,
    want: (Option<ListcutError>, &str),
) -> Result<bool, AllocError> {
    let words = arguments_of(alloc, words)?;
    let mut reader = Slow { rest: bytes, ends };
    let mut out = Vec::new(alloc);
    let result = run(alloc, &words, &mut reader, &mut out);
    let Slow { rest, ends: _ } = reader;
    Ok(result.err() == want.0 && out.as_slice() == want.1.as_bytes() && rest.is_empty())
}

#[test]
fn bytes_are_read_one_at_a_time(rt: HostRuntime) -> Result<(), Fail> {
    for (words, want) in REQUESTS {
        let fine = reads_slowly(rt.alloc(), words, ROWS.as_bytes(), true, (None, want))?;
        assert!(rt; fine, "{want}");
    }
    Ok(())
}

/// The read after each number of bytes fails, the first of all too.
#[test]
fn each_read_fails(rt: HostRuntime) -> Result<(), Fail> {
    for (words, want) in REQUESTS {
        for count in 0..ROWS.len() + 1 {
            let (bytes, _) = ROWS.as_bytes().split_at(count);
            let fine = reads_slowly(
                rt.alloc(),
                words,
                bytes,
                false,
                (Some(ListcutError::Input), ""),
            )?;
            assert!(rt; fine, "{count} {want}");
        }
    }
    Ok(())
}

/// Whether a writer with so much room gets the beginning of the text, and the result pushes whether it got all.
fn writes_narrowly(
    alloc: Global,
    words: &[&str],
    want: &[u8],
    room: usize,
    refusal: Refusal,
) -> Result<bool, AllocError> {
    let words = arguments_of(alloc, words)?;
    let mut reader = ROWS.as_bytes();
    let mut writer = Narrow {
        taken: Vec::new(alloc),
        room,
        refusal,
    };
    let error = run(alloc, &words, &mut reader, &mut writer).err();
    let whole = want.len() <= room;
    let begun = if whole { want } else { want.split_at(room).0 };
    let fails = !whole || refusal == Refusal::FailsToFlush;
    Ok(
        error.is_some() == fails
            && error.unwrap_or(ListcutError::Output) == ListcutError::Output
            && writer.taken.as_slice() == begun,
    )
}

#[test]
fn each_write_fails(rt: HostRuntime) -> Result<(), Fail> {
    for (words, want) in REQUESTS {
        for room in 0..want.len() + 1 {
            for refusal in [
                Refusal::TakesNoByte,
                Refusal::FailsToWrite,
                Refusal::FailsToFlush,
            ] {
                let fine = writes_narrowly(rt.alloc(), words, want.as_bytes(), room, refusal)?;
                assert!(rt; fine, "{room} {want}");
            }
        }
    }
    Ok(())
}

/// What is wrong with so many bytes of the rows.
fn error_after(count: usize) -> Option<ListcutError> {
    match count {
        1..=4 => Some(ListcutError::Line(1)),
        7..=9 => Some(ListcutError::Line(2)),
        12 => Some(ListcutError::Line(3)),
        15..=21 => Some(ListcutError::Line(4)),
        _ => None,
    }
}

#[test]
fn input_ends_within_a_row(rt: HostRuntime) -> Result<(), Fail> {
    for count in 0..ROWS.len() + 1 {
        let (bytes, _) = ROWS.as_bytes().split_at(count);
        let want = (error_after(count), "");
        let fine = reads_slowly(rt.alloc(), &["0", "0"], bytes, true, want)?;
        assert!(rt; fine, "{count}");
    }
    Ok(())
}

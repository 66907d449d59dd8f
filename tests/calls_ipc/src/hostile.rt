//! Bytes that nobody wrote: each is decoded, by `read_stream` and by a reader alike.
//!
//! Each prefix of the streams, and each byte of three changed, is decoded, by `read_stream` and by a reader alike.
use crate::examples::count_batches;
use crate::samples::{READ, Sample};
use crate::samples_read::bytes_of;
use crate::stream_text::is_read;
use crate::streams::WORKED;
use ipc_flatbuf::IpcReadError;
use std::alloc::Global;

#[test]
fn each_beginning(rt: HostRuntime) {
    for len in 0..WORKED.len() {
        let answer = count_batches(rt.alloc(), &WORKED[..len]);
        if len == 0 {
            assert!(rt; answer == Err(IpcReadError::MissingSchema));
        } else if len == 128 {
            assert!(rt; answer == Ok(0));
        } else if len == 288 {
            assert!(rt; answer == Ok(1));
        } else {
            assert!(rt; answer == Err(IpcReadError::Truncated));
        }
    }
}

/// Whether each prefix of a stream is decoded alike.
fn are_beginnings_read(alloc: Global, sample: &Sample) -> Result<bool, IpcReadError> {
    let bytes = bytes_of(alloc, sample)?;
    for len in 0..bytes.len() + 1 {
        if is_read(alloc, &bytes[..len]).is_none() {
            return Ok(false);
        }
    }
    Ok(true)
}

#[test]
fn each_beginning_of_the_streams(rt: HostRuntime) {
    assert!(rt; READ.len() == 13);
    for sample in &READ {
        let alike = are_beginnings_read(rt.alloc(), sample).expect(&rt, "no bytes");
        assert!(rt; alike, "{}", sample.name);
    }
}

/// How many streams are read that differ from one in a byte at a multiple of `step`: it is 0, 255 or one more. Each is decoded alike.
pub fn count_read(alloc: Global, bytes: &mut [u8], step: usize) -> Option<usize> {
    let mut count = 0;
    for index in (0..bytes.len()).step_by(step) {
        let old = bytes[index];
        for new in [0, 255, old.wrapping_add(1)] {
            bytes[index] = new;
            if is_read(alloc, bytes)? {
                count += 1;
            }
        }
        bytes[index] = old;
    }
    Some(count)
}

#[test]
fn each_byte_changed(rt: HostRuntime) {
    let mut stream = WORKED;
    let count = count_read(rt.alloc(), &mut stream, 1).expect(&rt, "changed bytes");
    assert!(rt; count > 296);
}

/// The same of a sample.
fn count_of(alloc: Global, name: &str) -> Option<usize> {
    for sample in &READ {
        if sample.name == name {
            let mut bytes = bytes_of(alloc, sample).ok()?;
            return count_read(alloc, &mut bytes, 1);
        }
    }
    None
}

#[test]
fn each_byte_of_a_schema_changed(rt: HostRuntime) {
    let count = count_of(rt.alloc(), "other_implementation").expect(&rt, "changed bytes");
    assert!(rt; count > 128);
}

#[test]
fn each_byte_of_rows_without_columns_changed(rt: HostRuntime) {
    let count = count_of(rt.alloc(), "no_columns").expect(&rt, "changed bytes");
    assert!(rt; count > 152);
}

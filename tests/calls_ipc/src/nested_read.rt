//! Streams of arrays with children, of another implementation: read, or rejected; each prefix, and each byte of the short ones
//! changed; what is read is written again.
//!
//! Arrays with children of every kind, of another implementation: read, or rejected; each prefix of their streams, and each
//! byte of the short ones changed.
use crate::samples::{READ_NESTED, REJECTED_NESTED, Sample};
use crate::samples_read::bytes_of;
use crate::stream_text::{is_read, text_of_file, text_of_stream};
use ipc::{read_stream, write_file, write_stream};
use ipc_flatbuf::IpcReadError;
use std::alloc::Global;

fn decoded(alloc: Global, sample: &Sample) -> Result<String, IpcReadError> {
    let bytes = bytes_of(alloc, sample)?;
    text_of_stream(alloc, &bytes)
}

#[test]
fn valid_samples(rt: HostRuntime) {
    for sample in &READ_NESTED {
        let text = decoded(rt.alloc(), sample).expect(&rt, "no text");
        assert!(rt; text.as_str() == sample.text, "{}: {text}", sample.name);
    }
}

/// What is read of a sample that was read and written, as a stream and as a file.
fn written_again(alloc: Global, sample: &Sample) -> Result<(String, String), IpcReadError> {
    let bytes = bytes_of(alloc, sample)?;
    let stream = read_stream(alloc, &bytes)?;
    let Ok(again) = write_stream(alloc, &stream.schema, &stream.batches) else {
        return Err(IpcReadError::Memory);
    };
    let Ok(file) = write_file(alloc, &stream.schema, &stream.batches) else {
        return Err(IpcReadError::Memory);
    };
    Ok((text_of_stream(alloc, &again)?, text_of_file(alloc, &file)?))
}

#[test]
fn each_is_written_again(rt: HostRuntime) {
    for sample in &READ_NESTED {
        let (stream, file) = written_again(rt.alloc(), sample).expect(&rt, "not written");
        assert!(rt; stream.as_str() == sample.text, "{}: {stream}", sample.name);
        assert!(rt; file.as_str() == sample.text, "{}: {file}", sample.name);
    }
}

#[test]
fn invalid_samples_are_rejected(rt: HostRuntime) {
    for sample in &REJECTED_NESTED {
        let text = decoded(rt.alloc(), sample).expect(&rt, "no text");
        assert!(rt; text.as_str() == sample.text, "{}: {text}", sample.name);
    }
}

#[test]
fn each_beginning(rt: HostRuntime) {
    let alloc = rt.alloc();
    for sample in &READ_NESTED {
        let bytes = bytes_of(alloc, sample).expect(&rt, "no bytes");
        let step = if bytes.len() > BYTES { 3 } else { 1 };
        for end in (0..bytes.len()).step_by(step) {
            assert!(rt;
                is_read(alloc, &bytes[..end]).is_some(),
                "{} up to {end}",
                sample.name
            );
        }
    }
}

/// Longer streams have each third prefix alone.
const BYTES: usize = 600;

#[test]
fn each_byte_changed(rt: HostRuntime) {
    let alloc = rt.alloc();
    for sample in &READ_NESTED {
        if sample.bytes.len() > BYTES {
            continue;
        }
        let mut bytes = bytes_of(alloc, sample).expect(&rt, "no bytes");
        for i in 0..bytes.len() {
            let byte = bytes[i];
            let other = if i % 2 == 0 { 0 } else { 255 };
            bytes[i] = other;
            assert!(rt;
                is_read(alloc, &bytes).is_some(),
                "{} with {other} at {i}",
                sample.name
            );
            bytes[i] = byte;
        }
    }
}

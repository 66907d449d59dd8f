//! Streams of another implementation are decoded to their text, or rejected with their error.
//!
//! Streams of another implementation have their results, or their errors.
use crate::samples::{READ, REJECTED, Sample};
use crate::stream_text::text_of_stream;
use ipc_flatbuf::IpcReadError;
use std::alloc::Global;

/// Returns a copy of the bytes of a sample.
pub fn bytes_of(alloc: Global, sample: &Sample) -> Result<Vec<u8>, IpcReadError> {
    copied(alloc, sample.bytes)
}

/// Returns a copy of bytes.
pub fn copied(alloc: Global, bytes: &[u8]) -> Result<Vec<u8>, IpcReadError> {
    Ok(Vec::from_slice(alloc, bytes)?)
}

#[test]
fn valid_samples(rt: HostRuntime) {
    for sample in &READ {
        let bytes = bytes_of(rt.alloc(), sample).expect(&rt, "no bytes");
        let text = text_of_stream(rt.alloc(), &bytes).expect(&rt, "no text");
        assert!(rt; text.as_str() == sample.text, "{}: {text}", sample.name);
    }
}

#[test]
fn invalid_samples_are_rejected(rt: HostRuntime) {
    for sample in &REJECTED {
        let bytes = bytes_of(rt.alloc(), sample).expect(&rt, "no bytes");
        let text = text_of_stream(rt.alloc(), &bytes).expect(&rt, "no text");
        assert!(rt; text.as_str() == sample.text, "{}: {text}", sample.name);
    }
}

//! Streams and files in unusual layouts, and others with one error each, of another implementation: decoded to their text, or rejected with their
//! error.
use crate::samples::Sample;
use crate::stream_text::{text_of_file, text_of_stream};
use ipc_flatbuf::IpcReadError;
use std::alloc::Global;

const READ: &[Sample] = &samples!("layouts/valid");

const REJECTED: &[Sample] = &samples!("layouts/invalid");

fn decoded(alloc: Global, sample: &Sample) -> Result<String, IpcReadError> {
    let bytes = Vec::from_slice(alloc, sample.bytes)?;
    if bytes.starts_with(b"ARROW1") {
        text_of_file(alloc, &bytes)
    } else {
        text_of_stream(alloc, &bytes)
    }
}

#[test]
fn valid_layouts(rt: HostRuntime) {
    for sample in READ {
        let text = decoded(rt.alloc(), sample).expect(&rt, "no text");
        assert!(rt; text.as_str() == sample.text, "{}: {text}", sample.name);
    }
}

#[test]
fn invalid_layouts_are_rejected(rt: HostRuntime) {
    for sample in REJECTED {
        let text = decoded(rt.alloc(), sample).expect(&rt, "no text");
        assert!(rt; text.as_str() == sample.text, "{}: {text}", sample.name);
    }
}

//! Concatenating inputs.
use crate::comparing::read_error;
use crate::devices::{Count, Device, NEVER, Sink, input};
use crate::oracle::concatenated;
use crate::samples::{BOOLEANS, COLUMNLESS, COMPRESSED, EMPTY, FILE, STREAM, bytes_of};
use cli_args::Format;
use cli_rows::{BatchError, CliError};
use cli_write::{AppendError, append, begin_concat};
use ipc_flatbuf::{CompressionError, IpcReadError};
use ipc_schema::Projection;
use std::alloc::Global;
use std::test::*;

fn batch_error(batch: Option<usize>, error: CliError) -> AppendError {
    AppendError::Batch(BatchError { batch, error })
}

/// Returns the bytes of samples.
fn samples(alloc: Global, samples: &[&[u8]]) -> Result<Vec<Vec<u8>>, Fail> {
    let mut parts = Vec::new(alloc);
    for sample in samples {
        parts.push(bytes_of(alloc, sample)?)?;
    }
    Ok(parts)
}

/// Concatenates inputs. In the last one the call with the number `fails_at.0` fails, and the output has room for `fails_at.1` bytes. Returns the
/// index of an input that is not written, and its error. The index of an error at the end is the number of inputs.
fn appended(
    alloc: Global,
    parts: &[Vec<u8>],
    format: Format,
    fails_at: (usize, usize),
) -> Result<Vec<u8>, (usize, AppendError)> {
    let mut count = Count::new();
    let last = parts.len() - 1;
    let memory = batch_error(None, CliError::Memory);
    let own = parts[0].to_vec(alloc).map_err(|_| (0usize, memory))?;
    let call = if last == 0 { fails_at.0 } else { NEVER };
    let first = input(&parts[0], Device::new(own, call));
    let out = Sink::new(alloc, fails_at.1);
    let begun = begin_concat(alloc, Projection::All, format, first, out, &mut count);
    let mut writer = begun.map_err(|e| (0usize, AppendError::Batch(e)))?;
    for k in 1..parts.len() {
        let own = parts[k].to_vec(alloc).map_err(|_| (k, memory))?;
        let call = if k == last { fails_at.0 } else { NEVER };
        let next = input(&parts[k], Device::new(own, call));
        append(alloc, Projection::All, next, &mut writer, &mut count).map_err(|error| (k, error))?;
    }
    match writer.finish(alloc) {
        Ok(out) => Ok(out.bytes),
        Err(error) => Err((parts.len(), batch_error(None, error))),
    }
}

#[test]
fn samples_are_concatenated(rt: HostRuntime) -> Result<(), Fail> {
    let alloc = rt.alloc();
    for inputs in [
        [STREAM].as_slice(),
        [STREAM, FILE].as_slice(),
        [FILE, FILE, STREAM].as_slice(),
        [BOOLEANS, BOOLEANS].as_slice(),
        [COLUMNLESS, COLUMNLESS].as_slice(),
        [EMPTY, EMPTY].as_slice(),
    ] {
        let parts = samples(alloc, inputs)?;
        for format in [Format::File, Format::Stream] {
            let want = concatenated(alloc, format, &parts).expect(&rt, "a table");
            let made = appended(alloc, &parts, format, (NEVER, NEVER)).expect(&rt, "an output");
            assert!(rt; made == want);
        }
    }
    Ok(())
}

#[test]
fn errors_name_the_input(rt: HostRuntime) -> Result<(), Fail> {
    let alloc = rt.alloc();
    let mut broken = bytes_of(alloc, STREAM)?;
    // The metadata length of the third record batch is negative.
    broken[632] = 0;
    let negative = AppendError::Batch(read_error(Some(2), IpcReadError::MetadataLength));
    let truncated = IpcReadError::Compression(CompressionError::Truncated);
    let compressed = AppendError::Batch(read_error(Some(0), truncated));
    let unread = AppendError::Batch(read_error(None, IpcReadError::Truncated));
    let mut none = Vec::new(alloc);
    none.extend_from_slice(b"a,b\n1,2\n")?;
    for (inputs, last, k, error) in [
        ([STREAM, FILE].as_slice(), Some(&broken), 2usize, negative),
        ([].as_slice(), Some(&broken), 0, negative),
        ([STREAM, COMPRESSED].as_slice(), None, 1, compressed),
        ([COMPRESSED].as_slice(), None, 0, compressed),
        (
            [STREAM, FILE, BOOLEANS].as_slice(),
            None,
            2,
            AppendError::Schema,
        ),
        (
            [STREAM, COLUMNLESS, COMPRESSED].as_slice(),
            None,
            1,
            AppendError::Schema,
        ),
        ([FILE].as_slice(), Some(&none), 1, unread),
        ([].as_slice(), Some(&none), 0, unread),
    ] {
        let mut parts = samples(alloc, inputs)?;
        if let Some(bytes) = last {
            parts.push(bytes.to_vec(alloc)?)?;
        }
        for format in [Format::File, Format::Stream] {
            let found = appended(alloc, &parts, format, (NEVER, NEVER)).err();
            assert!(rt; found == Some((k, error)), "{k}: {found:?}");
        }
    }
    Ok(())
}

#[test]
fn devices_and_outputs_fail(rt: HostRuntime) -> Result<(), Fail> {
    let alloc = rt.alloc();
    let parts = samples(alloc, &[FILE, STREAM])?;
    for format in [Format::File, Format::Stream] {
        let want = appended(alloc, &parts, format, (NEVER, NEVER)).expect(&rt, "an output");
        for at in (0..want.len()).step_by(7) {
            let found = appended(alloc, &parts, format, (NEVER, at)).err();
            let is_output = match found {
                Some((_, AppendError::Batch(e))) => e.error == CliError::Output,
                _ => false,
            };
            assert!(rt; is_output, "{at}: {found:?}");
        }
        let mut errors = 0;
        for call in (0..400usize).step_by(3) {
            match appended(alloc, &parts, format, (call, NEVER)) {
                Ok(made) => assert!(rt; made == want),
                Err((1, AppendError::Batch(e))) => {
                    assert!(rt; e.error == CliError::Input, "{e}");
                    errors += 1;
                }
                Err(other) => assert!(rt; false, "{other:?}"),
            }
        }
        assert!(rt; errors > 30, "{errors}");
    }
    Ok(())
}

#[test]
fn the_schema_is_that_of_the_first_input(rt: HostRuntime) -> Result<(), Fail> {
    let alloc = rt.alloc();
    for (sample, fields) in [(STREAM, 2usize), (FILE, 2), (COLUMNLESS, 0)] {
        let bytes = bytes_of(alloc, sample)?;
        for format in [Format::File, Format::Stream] {
            let mut count = Count::new();
            let first = input(&bytes, Device::new(bytes.to_vec(alloc)?, NEVER));
            let out = Sink::new(alloc, NEVER);
            let begun = begin_concat(alloc, Projection::All, format, first, out, &mut count);
            let writer = begun.expect(&rt, "a writer");
            assert!(rt; writer.schema().fields.len() == fields);
            assert!(rt; count.rows == 3);
        }
    }
    Ok(())
}

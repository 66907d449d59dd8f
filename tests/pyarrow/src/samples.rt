//! The rows of each sample, or its error.
use crate::table::{line_of, sample_count};
use cli_args::{Request, Selection};
use cli_read::{Input, is_file, print};
use cli_rows::{BatchError, CliError};
use ipc_schema::Projection;
use std::alloc::{AllocError, Global};
use std::io::Cursor;
use std::test::*;

/// Encoded bytes, and the lines of their rows.
#[derive(Clone, Copy)]
struct Sample {
    name: &'static str,
    bytes: &'static [u8],
    text: &'static str,
}

const FLAT: &[Sample] = &samples!("pyarrow/samples/flat");

const NESTED: &[Sample] = &samples!("pyarrow/samples/nested");
/// Slices, and unusual offsets and values under nulls.
const LAYOUTS: &[Sample] = &samples!("pyarrow/samples/layouts");
/// Several record batches, delta and replacement dictionaries.
const BATCHES: &[Sample] = &samples!("pyarrow/samples/batches");
/// Other versions and framings, the types of other programs, and what is not supported.
const FORMATS: &[Sample] = &samples!("pyarrow/samples/formats");

const COMPRESSED: &[Sample] = &samples!("pyarrow/samples/compressed");

/// Returns the samples of each folder.
fn all_samples() -> [&'static [Sample]; 6] {
    [FLAT, NESTED, LAYOUTS, BATCHES, FORMATS, COMPRESSED]
}

/// Returns the rows of a sample as lines.
fn lines_of(alloc: Global, sample: &Sample) -> Result<Vec<u8>, BatchError> {
    let device = Cursor::new(sample.bytes);
    let input = if is_file(sample.bytes) {
        Input::File(device)
    } else {
        Input::Stream(device)
    };
    let mut lines = Vec::new(alloc);
    let request = Request::Rows(Selection::All);
    print(alloc, Projection::All, request, input, &mut lines)?;
    Ok(lines)
}

/// Returns what the table says of a sample: `rows` if the rows are those of its text, or the name of the error.
fn state_of(alloc: Global, sample: &Sample) -> Result<String, AllocError> {
    match lines_of(alloc, sample) {
        Ok(lines) => {
            let state = if lines.as_slice() == sample.text.as_bytes() {
                "rows"
            } else {
                "other-rows"
            };
            String::from_str(alloc, state)
        }
        Err(failed) => match failed.error {
            CliError::Read(error) => format!(in alloc; "{error:?}"),
            error => format!(in alloc; "{error:?}"),
        },
    }
}

/// Prints each state of samples that differs from the table, and returns how many differ.
fn print_differences(rt: &HostRuntime, samples: &[Sample]) -> Result<usize, Fail> {
    let mut differences = 0;
    for sample in samples {
        let state = state_of(rt.alloc(), sample)?;
        let of_file = is_file(sample.bytes);
        let expected = match line_of(sample.name) {
            None => "",
            Some(line) if of_file => line.file,
            Some(line) => line.stream,
        };
        if state.as_str() != expected {
            let form = if of_file { "file" } else { "stream" };
            println!(rt; "{} {form}: {state}, not {expected}", sample.name)?;
            differences += 1;
        }
    }
    Ok(differences)
}

#[test]
fn each_sample_is_as_in_the_table(rt: HostRuntime) -> Result<(), Fail> {
    let mut differences = 0;
    for samples in all_samples() {
        differences += print_differences(&rt, samples)?;
    }
    assert!(rt;
        differences == 0,
        "{differences} states differ from table.txt"
    );
    Ok(())
}

#[test]
fn each_line_has_its_samples(rt: HostRuntime) {
    let mut count = 0;
    for samples in all_samples() {
        count += samples.len();
    }
    assert!(rt; sample_count() == count, "{count}");
}

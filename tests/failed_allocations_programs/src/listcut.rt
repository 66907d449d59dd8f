//! Runs of `listcut`, over bytes in memory. A run of which an allocation fails returns `Memory` and writes nothing; the same run
//! succeeds when it is made again.

use crate::buffer::FixedBuffer;
use failed_allocations::failures::{Failure, Failures, expect};
use listcut_rows::command::run;
use listcut_rows::error::ListcutError;
use nest_memory::error::Error;
use std::alloc::Global;

const ROWS: &str = "[1,2]\nnull\n[]\n[3,null]\n";

fn arguments_of(alloc: Global, words: &[&str]) -> Result<Vec<String>, Error> {
    let mut all = Vec::new(alloc);
    for word in words {
        all.push(String::from_str(alloc, word)?)?;
    }
    Ok(all)
}

/// The result of a run. A run that succeeds writes the whole output, and one that fails writes nothing.
fn outcome(
    alloc: Global,
    words: &[String],
    want: &str,
) -> Result<Result<(), ListcutError>, Failure> {
    let mut reader = ROWS.as_bytes();
    let mut writer = FixedBuffer::new();
    let result = run(alloc, words, &mut reader, &mut writer);
    let text = if result.is_ok() { want } else { "" };
    expect(writer.written() == text.as_bytes(), "what a run wrote")?;
    Ok(result)
}

pub fn both_forms(failures: &mut Failures, alloc: Global) -> Result<(), Failure> {
    for (words, want) in [
        (["1", "2"].as_slice(), "null\n[]\n"),
        (["take", "3", "0"].as_slice(), "[3,null]\n[1,2]\n"),
    ] {
        let words = failures.retry(|| arguments_of(alloc, words))?;
        let first = outcome(alloc, &words, want)?;
        if first == Err(ListcutError::Memory) {
            failures.count_failure()?;
            expect(outcome(alloc, &words, want)? == Ok(()), "a run made again")?;
        } else {
            expect(first == Ok(()), "a run with memory")?;
        }
    }
    Ok(())
}

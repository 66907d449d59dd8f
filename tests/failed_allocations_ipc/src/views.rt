//! A stream of views and of decimals of 32 and 64 bits, compressed and not, which are converted where they are read.

use crate::streams::from_read_error;
use failed_allocations::failures::{Failure, Failures, expect};
use ipc::read_stream;
use std::alloc::Global;

const STREAMS: [&[u8]; 2] = [
    include_bytes!("views/views.arrows"),
    include_bytes!("views/views_lz4.arrows"),
];

pub fn read(failures: &mut Failures, alloc: Global) -> Result<(), Failure> {
    for bytes in STREAMS {
        let stream = failures.retry(|| read_stream(alloc, bytes).map_err(from_read_error))?;
        expect(
            stream.batches.len() == 2 && stream.batches[0].rows == 6,
            "other batches",
        )?;
    }
    Ok(())
}

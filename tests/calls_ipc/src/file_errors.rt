//! Each error of files once, and files that nobody wrote.
//!
//! Each error of files once; each prefix of a file, and each of its bytes changed, is decoded, by `read_file` and by a
//! reader alike.
use crate::files::{blocks_of, file_with};
use crate::stream_text::is_file_read;
use crate::streams::WORKED;
use ipc::read_file;
use ipc_flatbuf::IpcReadError;
use ipc_schema::footer::Block;
use std::alloc::Global;

// The file of one batch: its footer is at 304.
const FOOTER: usize = 304;

// The block of the batch, and of the schema, and of the end mark.
const BATCH: Block = Block {
    offset: 136,
    metadata_length: 144,
    body_length: 16,
};

const SCHEMA: Block = Block {
    offset: 8,
    metadata_length: 128,
    body_length: 0,
};

const END: Block = Block {
    offset: 296,
    metadata_length: 8,
    body_length: 0,
};

fn file(alloc: Global) -> Result<Vec<u8>, IpcReadError> {
    file_with(alloc, &WORKED, &[], &[BATCH])
}

fn count_batches(alloc: Global, bytes: &[u8]) -> Result<usize, IpcReadError> {
    let file = read_file(alloc, bytes)?;
    Ok(file.batches.len())
}

#[test]
fn the_blocks_of_the_stream(rt: HostRuntime) {
    let blocks = blocks_of(rt.alloc(), &WORKED).expect(&rt, "blocks");
    assert!(rt; blocks.len() == 1 && blocks[0] == BATCH);
    let bytes = file(rt.alloc()).expect(&rt, "a file");
    assert!(rt; bytes[FOOTER] == 16 && count_batches(rt.alloc(), &bytes) == Ok(1));
}

// What the file results once some of its bytes are others.
fn changed(alloc: Global, indices: &[(usize, u8)]) -> Result<usize, IpcReadError> {
    let mut bytes = file(alloc)?;
    for (index, byte) in indices {
        bytes[*index] = *byte;
    }
    count_batches(alloc, &bytes)
}

#[test]
fn bytes_changed(rt: HostRuntime) {
    let alloc = rt.alloc();
    let end = file(alloc).expect(&rt, "a file").len();
    assert!(rt; changed(alloc, &[]) == Ok(1));
    assert!(rt; changed(alloc, &[(6, 1), (7, 1)]) == Ok(1));
    // A footer without a version, and those of each version.
    assert!(rt; changed(alloc, &[(FOOTER + 8, 0)]) == Ok(1));
    for version in 0..5 {
        assert!(rt; changed(alloc, &[(FOOTER + 32, version)]) == Ok(1));
    }
    for index in [0usize, 5, end - 6, end - 1] {
        assert!(rt; changed(alloc, &[(index, 0)]) == Err(IpcReadError::Magic));
    }
    for (index, byte) in [(end - 7, 128u8), (end - 8, 1)] {
        assert!(rt; changed(alloc, &[(index, byte)]) == Err(IpcReadError::FooterLength));
    }
    for (index, byte, want) in [
        (FOOTER, 255u8, IpcReadError::Flatbuffer),
        (FOOTER + 32, 5, IpcReadError::Version),
        (FOOTER + 33, 128, IpcReadError::Version),
        (FOOTER + 10, 0, IpcReadError::MissingSchema),
        (FOOTER + 10, 2, IpcReadError::Flatbuffer),
        (FOOTER + 36, 255, IpcReadError::Flatbuffer),
        (FOOTER + 44, 255, IpcReadError::Flatbuffer),
        // The block's offset, the length of its message, that of its body.
        (FOOTER + 48, 7, IpcReadError::Block),
        (FOOTER + 55, 128, IpcReadError::Block),
        (FOOTER + 49, 1, IpcReadError::Block),
        (FOOTER + 56, 7, IpcReadError::Block),
        (FOOTER + 59, 128, IpcReadError::Block),
        (FOOTER + 56, 152, IpcReadError::Block),
        (FOOTER + 71, 128, IpcReadError::Block),
        (FOOTER + 64, 8, IpcReadError::Truncated),
        (FOOTER + 64, 24, IpcReadError::Block),
        (FOOTER + 64, 25, IpcReadError::Block),
        // The batch's message.
        (136, 0, IpcReadError::MetadataLength),
        (143, 128, IpcReadError::MetadataLength),
        (141, 1, IpcReadError::Truncated),
        (145, 255, IpcReadError::Flatbuffer),
        (180, 2, IpcReadError::Version),
        (182, 4, IpcReadError::HeaderType),
        (182, 1, IpcReadError::HeaderType),
        (182, 2, IpcReadError::HeaderType),
        (175, 128, IpcReadError::BodyLength),
        (207, 128, IpcReadError::RowCount),
    ] {
        let got = changed(alloc, &[(index, byte)]);
        assert!(rt; got == Err(want), "{index} {byte}: {got:?}");
    }
}

// What the file results whose footer has these blocks.
fn blocks(alloc: Global, dictionaries: &[Block], batches: &[Block]) -> Result<usize, IpcReadError> {
    let bytes = file_with(alloc, &WORKED, dictionaries, batches)?;
    count_batches(alloc, &bytes)
}

#[test]
fn other_blocks(rt: HostRuntime) {
    let alloc = rt.alloc();
    assert!(rt; blocks(alloc, &[], &[]) == Ok(0));
    assert!(rt; blocks(alloc, &[], &[SCHEMA]) == Err(IpcReadError::HeaderType));
    assert!(rt; blocks(alloc, &[], &[END]) == Err(IpcReadError::Block));
    assert!(rt; blocks(alloc, &[BATCH], &[]) == Err(IpcReadError::HeaderType));
    assert!(rt; blocks(alloc, &[SCHEMA], &[BATCH]) == Err(IpcReadError::HeaderType));
    // Each is before the footer, together they do not.
    assert!(rt; blocks(alloc, &[], &[BATCH, BATCH]) == Err(IpcReadError::Block));
    // The message is shorter than its block, or longer.
    let long = Block {
        metadata_length: 152,
        body_length: 8,
        ..BATCH
    };
    assert!(rt; blocks(alloc, &[], &[long]) == Err(IpcReadError::Block));
    let short = Block {
        body_length: 8,
        ..BATCH
    };
    assert!(rt; blocks(alloc, &[], &[short]) == Err(IpcReadError::Truncated));
    let more = Block {
        body_length: 24,
        ..BATCH
    };
    assert!(rt; blocks(alloc, &[], &[more]) == Err(IpcReadError::Block));
    let other = Block {
        offset: 128,
        ..BATCH
    };
    assert!(rt; blocks(alloc, &[], &[other]) == Err(IpcReadError::Flatbuffer));
}

#[test]
fn a_dictionary(rt: HostRuntime) {
    let alloc = rt.alloc();
    let mut bytes = file_with(alloc, &WORKED, &[BATCH], &[]).expect(&rt, "a file");
    bytes[182] = 2;
    assert!(rt; count_batches(alloc, &bytes) == Err(IpcReadError::UnknownDictionary));
}

#[test]
fn each_beginning(rt: HostRuntime) {
    let bytes = file(rt.alloc()).expect(&rt, "a file");
    for len in 0..bytes.len() {
        let want = if len < 18 {
            IpcReadError::Truncated
        } else {
            IpcReadError::Magic
        };
        assert!(rt; count_batches(rt.alloc(), &bytes[..len]) == Err(want));
    }
}

// How many files are read that differ from one in a byte: it is 0, 255 or one more. Each is decoded alike.
fn count_read(alloc: Global, bytes: &mut [u8]) -> Option<usize> {
    let mut count = 0;
    for index in 0..bytes.len() {
        let old = bytes[index];
        for new in [0, 255, old.wrapping_add(1)] {
            bytes[index] = new;
            if is_file_read(alloc, bytes)? {
                count += 1;
            }
        }
        bytes[index] = old;
    }
    Some(count)
}

#[test]
fn each_byte_changed(rt: HostRuntime) {
    let mut bytes = file(rt.alloc()).expect(&rt, "a file");
    let count = count_read(rt.alloc(), &mut bytes).expect(&rt, "other results");
    // What is before the batch isn't read.
    assert!(rt; count > 128 * 3);
}

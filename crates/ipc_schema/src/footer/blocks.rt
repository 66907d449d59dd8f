//! Blocks of a file footer.
ghost use Rattle.std.specs.Prelude.{◌≡◌, ◌≤◌, ◌-◌, ◌++◌, map, sum, length, nat_le, true, Some, None, if◌then◌else◌};
ghost use Rattle.std.specs.List.{list_all};
ghost use Rattle.ipc_schema.specs.Footers.{is_block_before, spec_block_length, spec_blocks_before, spec_block_bytes};

use crate::footer::types::Block;

// Whether a block begins after the first 8 bytes of the file and ends before a position.
fn is_before(end: usize, block: Block) -> bool
    ensures { result ≡ is_block_before end block }
{
    if block.offset < 8 || block.metadata_length < 8 || block.body_length < 0 {
        return false;
    }
    let offset = block.offset as usize;
    let metadata = block.metadata_length as usize;
    let body = block.body_length as usize;
    offset <= end && metadata <= end - offset && body <= end - offset - metadata
}

fn each_before(end: usize, blocks: &[Block]) -> bool
    ensures { result ≡ list_all (is_block_before end) blocks.now }
{
    for block in blocks {
        if !is_before(end, *block) {
            return false;
        }
    }
    true
}

/// Returns the length of the message of a block with its body, in bytes.
pub fn block_length(block: Block) -> usize
    ensures { result ≡ spec_block_length block }
{
    block.metadata_length.unsigned_abs() as usize + block.body_length.unsigned_abs() as usize
}

// The number of bytes without the blocks, `None` where their total length exceeds it.
fn left_by(bytes: usize, blocks: &[Block]) -> Option<usize>
    ensures { result ≡ (if nat_le (sum (map spec_block_length blocks.now)) bytes then Some (bytes - sum (map spec_block_length blocks.now)) else None) }
{
    let mut left = bytes;
    for block in blocks {
        let length = block_length(*block);
        if length > left {
            return None;
        }
        left = left - length;
    }
    Some(left)
}

// Whether the total length of all blocks does not exceed the end.
fn total_before(end: usize, dictionaries: &[Block], batches: &[Block]) -> bool
    ensures { result ≡ nat_le (sum (map spec_block_length (dictionaries.now ++ batches.now))) end }
{
    match left_by(end, dictionaries) {
        None => false,
        Some(left) => left_by(left, batches).is_some(),
    }
}

/// Returns whether each block ends before a position, and their total length does not exceed it.
pub fn blocks_before(end: usize, dictionaries: &[Block], batches: &[Block]) -> bool
    ensures { result ≡ spec_blocks_before end (dictionaries.now ++ batches.now) }
{
    each_before(end, dictionaries)
        && each_before(end, batches)
        && total_before(end, dictionaries, batches)
}

/// Returns the bytes of the message of a block with its body, of a file that contains it.
pub fn block_bytes(bytes: &[u8], block: Block) -> &[u8]
    requires { is_block_before (length bytes.now) block ≡ true }
    ensures { result.now ≡ spec_block_bytes bytes.now block }
{
    let start = block.offset.unsigned_abs() as usize;
    let (_, from) = bytes.split_at(start);
    let (message, _) = from.split_at(block_length(block));
    message
}

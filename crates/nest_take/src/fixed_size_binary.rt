//! `take` for fixed-size binary arrays.
ghost use Rattle.std.specs.Prelude.{◌≡◌, ◌+◌, ◌*◌, ◌≤◌, IfErr, IfOk, IsOkUnless, alloc_error, length};
ghost use Rattle.std.specs.List.{All};
ghost use Rattle.nest_array.specs.Seen.{layout_of};
ghost use Rattle.nest_take.specs.Words.{AreBelow, IsTaken, Memory, RefusesTake, blocks_at, len};

use crate::indices;
use nest_array::{AnyArray, FixedSizeBinaryArray};
use nest_memory::buffer::Buffer;
use nest_memory::error::Error;
use std::alloc::Global;

/// Returns the bytes of the rows at `indices`, of `size` bytes each, `count` in all.
fn bytes_at(
    alloc: Global,
    bytes: &[u8],
    size: usize,
    indices: &[usize],
    count: usize,
) -> Result<Buffer<u8>, Error>
    requires { All (λ i. i * size + size ≤ length bytes.now) indices.now }
    ensures ok { IfOk result (λ b. b ≡ blocks_at bytes.now size indices.now) }
    ensures err { IsOkUnless result (Memory alloc_error) }
{
    let mut taken = Vec::with_capacity(alloc, count)?;
    for place in indices {
        let start = *place * size;
        taken.extend_from_slice(&bytes[start..start + size])?;
    }
    Buffer::from_vec(alloc, taken)
}

/// Takes the slots at `indices`.
#[inline(never)]
pub(crate) fn take(
    alloc: Global,
    array: &FixedSizeBinaryArray,
    indices: &[usize],
) -> Result<AnyArray, Error>
    requires { AreBelow indices.now (len array.now) }
    ensures ok { IfOk result (λ a. IsTaken array.now indices.now (layout_of a)) }
    ensures err { IfErr result (λ e. RefusesTake e array.now indices.now) }
{
    array.known();
    let size = array.size();
    let count = indices::count_blocks(size, indices)?;
    let bytes = bytes_at(alloc, array.values().as_slice(), size, indices, count)?;
    let validity = indices::validity_at(alloc, array.validity(), indices)?;
    let data_type = array.data_type().clone(alloc)?;
    Ok(AnyArray::FixedSizeBinary(FixedSizeBinaryArray::new(data_type, bytes, validity)))
}

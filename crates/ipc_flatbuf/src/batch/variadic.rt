//! The counts of the variadic buffers of view arrays.
ghost use Rattle.std.specs.Prelude.{◌≡◌, ◌<◌, ◌≤◌, ◌^◌, ◌+◌, ◌*◌, ◌++◌, ◌∷◌, [], length, OnOk, IfErr};
ghost use Rattle.ipc_flatbuf.specs.declared.error.IpcReadError.TheVariants.{Memory};
ghost use Rattle.std.specs.Int.{w64, cast_signed};
ghost use Rattle.ipc_flatbuf.specs.ReadResults.{ReturnsOrRunsOut};
ghost use Rattle.ipc_flatbuf.specs.Flatbuffers.{signed_at, structs_at};
ghost use Rattle.ipc_flatbuf.specs.VariadicBuffers.{variadic_buffer_counts_at};

use crate::{IpcReadError, VectorItems, items_at, offset_field, read_table, u64_at};
use std::alloc::Global;

fn push(counts: &mut Vec<i64>, number: u64) -> Result<(), IpcReadError>
    ensures ok { OnOk result (counts.new.items ≡ counts.old.items ++ cast_signed w64 number ∷ []) }
    ensures memory { IfErr result (λ why. why ≡ Memory) }
{
    counts.push(number.cast_signed())?;
    Ok(())
}

fn counts_of(alloc: Global, bytes: &[u8], items: VectorItems) -> Result<Vec<i64>, IpcReadError>
    requires length { length bytes.now < 2 ^ 32 }
    requires within { items.first + items.count * 8 ≤ length bytes.now }
    ensures { ReturnsOrRunsOut (λ v. v.items) result (structs_at (signed_at w64 bytes.now) 8 items.count items.first) }
{
    let mut counts = Vec::new(alloc);
    for i in 0..items.count {
        let number = u64_at(bytes, items.first + 8 * i)?;
        push(&mut counts, number)?;
    }
    Ok(counts)
}

/// Returns `variadicBufferCounts` of the record batch whose table is at a position: the number of data buffers of
/// each view array, in pre-order.
///
/// # Errors
/// [`IpcReadError::Flatbuffer`], [`IpcReadError::ApparentSize`], and [`IpcReadError::Memory`] where an allocation
/// fails.
///
/// Source: Message.fbs, table `RecordBatch`.
#[tactic(auto, unfolding(crate::specs::VariadicBuffers::variadic_buffer_counts_at, crate::specs::Flatbuffers::vector_at))]
pub fn read_variadic_buffer_counts(
    alloc: Global,
    bytes: &[u8],
    position: usize,
    left: usize,
) -> Result<Vec<i64>, IpcReadError>
    requires { length bytes.now < 2 ^ 32 }
    ensures { ReturnsOrRunsOut (λ v. v.items) result (variadic_buffer_counts_at bytes.now position left) }
{
    let (table, left) = read_table(bytes, position, left)?;
    let (items, _) = items_at(8, bytes, offset_field(bytes, table, 4)?, left)?;
    counts_of(alloc, bytes, items)
}

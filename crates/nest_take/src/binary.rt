//! `take` for binary arrays.
ghost use Rattle.std.specs.Prelude.{IfErr, IfOk};
ghost use Rattle.nest_take.specs.Words.{AreBelow, IsTaken, RefusesTake, len};

use crate::spans;
use nest_flat::binary::BinaryArray;
use nest_memory::error::Error;
use nest_memory::offset::Offset;
use std::alloc::Global;

/// Takes the slots at `indices`.
pub(crate) fn take<O: Offset>(
    alloc: Global,
    array: &BinaryArray<O>,
    indices: &[usize],
) -> Result<BinaryArray<O>, Error>
    requires { AreBelow indices.now (len array.now) }
    ensures ok { IfOk result (λ b. IsTaken array.now indices.now b) }
    ensures err { IfErr result (λ e. RefusesTake e array.now indices.now) }
{
    array.known();
    array.offsets().known();
    let bytes = array.values().as_slice();
    match spans::take(alloc, array.offsets(), array.validity(), bytes, indices) {
        Ok(spans) => {
            let data_type = array.data_type().clone(alloc)?;
            BinaryArray::try_new(data_type, spans.offsets, spans.bytes, spans.validity)
        }
        Err(error) => Err(error),
    }
}

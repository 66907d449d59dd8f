//! `take` for null arrays.
ghost use Rattle.std.specs.Prelude.{IfErr, IfOk};
ghost use Rattle.nest_array.specs.Seen.{layout_of};
ghost use Rattle.nest_take.specs.Words.{AreBelow, IsTaken, RefusesTake, len};

use nest_array::{AnyArray, NullArray};
use nest_memory::error::Error;
use std::alloc::Global;

/// Takes the slots at `indices`.
#[inline(never)]
pub(crate) fn take(alloc: Global, array: &NullArray, indices: &[usize]) -> Result<AnyArray, Error>
    requires { AreBelow indices.now (len array.now) }
    ensures ok { IfOk result (λ a. IsTaken array.now indices.now (layout_of a)) }
    ensures err { IfErr result (λ e. RefusesTake e array.now indices.now) }
{
    array.known();
    let data_type = array.data_type().clone(alloc)?;
    Ok(AnyArray::Null(NullArray::new(data_type, indices.len())))
}

//! `take` for UTF-8 arrays.
ghost use Rattle.std.specs.Prelude.{IfErr, IfOk};
ghost use Rattle.nest_take.specs.Words.{AreBelow, IsTaken, RefusesTake, len};

use crate::spans;
use nest_flat::utf8::Utf8Array;
use nest_memory::error::Error;
use nest_memory::offset::Offset;
use std::alloc::Global;

/// Takes the slots at `indices`.
pub(crate) fn take<O: Offset>(
    alloc: Global,
    array: &Utf8Array<O>,
    indices: &[usize],
) -> Result<Utf8Array<O>, Error>
    requires { AreBelow indices.now (len array.now) }
    ensures ok { IfOk result (λ b. IsTaken array.now indices.now b) }
    ensures err { IfErr result (λ e. RefusesTake e array.now indices.now) }
{
    array.known();
    array.offsets().known();
    let bytes = array.values().as_slice();
    match spans::take(alloc, array.offsets(), array.validity(), bytes, indices) {
        Ok(spans) => {
            let data_type = array.data_type().clone(alloc)?;
            Ok(Utf8Array::new(data_type, spans.offsets, spans.bytes, spans.validity))
        }
        Err(error) => Err(error),
    }
}

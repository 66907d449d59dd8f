//! `take` for Boolean arrays.
ghost use Rattle.std.specs.Prelude.{IfOk, IsOkUnless, alloc_error};
ghost use Rattle.nest_take.specs.Words.{AreBelow, IsTaken, Memory, len};

use crate::indices;
use nest_flat::boolean::BooleanArray;
use nest_memory::error::Error;
use std::alloc::Global;

/// Takes the slots at `indices`.
pub(crate) fn take(
    alloc: Global,
    array: &BooleanArray,
    indices: &[usize],
) -> Result<BooleanArray, Error>
    requires { AreBelow indices.now (len array.now) }
    ensures ok { IfOk result (λ b. IsTaken array.now indices.now b) }
    ensures err { IsOkUnless result (Memory alloc_error) }
{
    array.known();
    let bits = indices::bits_at(alloc, array.values(), indices)?;
    let validity = indices::validity_at(alloc, array.validity(), indices)?;
    let data_type = array.data_type().clone(alloc)?;
    BooleanArray::try_new(data_type, bits, validity)
}

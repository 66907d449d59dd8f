//! A null array of a given type, and parts that do not fit.
ghost use Rattle.std.specs.Prelude.{◌≡◌, IfOk};
ghost use Rattle.guide.specs.Words.{layout_of, slots_of, three_nulls};

use crate::arrays::flat::boxed_numbers;
use crate::arrays::parts::offsets;
use std::alloc::Global;
use tiekvorn::error::Error;
use tiekvorn::{AnyArray, DataType, ListArray, new_null_array};

/// Returns three nulls of type `Int64`.
pub fn null_numbers(alloc: Global) -> Result<AnyArray, Error>
    ensures { IfOk result (λ a. slots_of (layout_of a) ≡ three_nulls) }
{
    new_null_array(alloc, DataType::Int64, 3)
}

/// Returns `OutOfSpec(OffsetPastChild)`: the last offset is 5, and there are four values.
pub fn offset_past_values(alloc: Global) -> Result<ListArray, Error>
    ensures { IfOk result (λ _. ⊥) }
{
    let offsets = offsets(alloc, &[0, 2, 5])?;
    let values = boxed_numbers(alloc)?;
    match ListArray::default_datatype(alloc, DataType::Int64) {
        Ok(data_type) => ListArray::try_new(alloc, data_type, offsets, values, None),
        Err(error) => {
            drop(values);
            Err(error)
        }
    }
}

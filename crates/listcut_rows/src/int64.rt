//! Items as 64-bit integers.
ghost use Rattle.std.specs.Prelude.{◌≡◌};
ghost use Rattle.nest_memory.specs.TypeTree as types;
ghost use Rattle.listcut_rows.specs.Words.{layout_of, layout_type};

use nest_array::AnyArray;
use nest_flat::primitive::PrimitiveArray;

/// Returns an array of type `Int64` as a `PrimitiveArray`.
pub fn numbers(items: &AnyArray) -> &PrimitiveArray<i64>
    requires { layout_type (layout_of items.now) ≡ types.int64 }
    ensures { result.now ≡ layout_of items.now }
{
    match items.as_primitive::<i64>() {
        Some(items) => items,
        None => unreachable!(),
    }
}

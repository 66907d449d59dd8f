//! Concatenation of arrays of any type.
ghost use Rattle.std.specs.Prelude.{◌≡◌, ◌<◌, IfErr, IfOk, MatchResult, length};
ghost use Rattle.nest_array.specs.Seen.{layout_of};
ghost use Rattle.nest_flat.specs.AnyPrimitive.{primitive_layout};
ghost use Rattle.nest_concat.specs.Words.{AreWithin, IsJoined, Overflow, PassesLength, RefusesJoin, count_slots, first_array, layout_type, laid, PassesLimits};

use crate::{
    binary, boolean, dictionary, fixed_size_binary, fixed_size_list, list, map, null, primitive,
    struct_, union, utf8,
};
use nest_array::{AnyArray, Window};
use nest_memory::error::Error;
use std::alloc::Global;

/// Returns the number of slots of the windows.
///
/// # Errors
/// `Overflow` where it is 2^64 or more.
pub(crate) fn count(windows: &[Window<'_>]) -> Result<usize, Error>
    ensures { MatchResult result (λ n. n ≡ count_slots windows.now) (λ e. (e ≡ Overflow) × PassesLength windows.now) }
{
    let mut count: usize = 0;
    for window in windows {
        let Some(sum) = count.checked_add(window.len()) else {
            return Err(Error::Overflow);
        };
        count = sum;
    }
    Ok(count)
}

/// Concatenates windows over arrays whose data types are equal but for outer extension types.
///
/// The result has the data type of the first array.
#[cycle(join)]
pub(crate) fn join(alloc: Global, windows: &[Window<'_>]) -> Result<AnyArray, Error>
    requires some { 0 < length windows.now }
    requires within { AreWithin (layout_type (first_array windows.now)) windows.now }
    ensures ok { IfOk result (λ a. IsJoined (layout_type (first_array windows.now)) windows.now (layout_of a)) }
    ensures laid { IfOk result (λ a. layout_of a ≡ laid (first_array windows.now) windows.now) }
    ensures room { IfOk result (λ a. PassesLimits (first_array windows.now) windows.now → ⊥) }
    ensures err { IfErr result (λ e. RefusesJoin e (first_array windows.now) windows.now) }
{
    let total = count(windows)?;
    match windows[0].array() {
        AnyArray::Null(array) => null::join(alloc, array, windows, total),
        AnyArray::Boolean(array) => boolean::join(alloc, array, windows, total),
        AnyArray::Primitive(array) => primitive::join(alloc, array, windows, total),
        AnyArray::Binary(array) => binary::join(alloc, array, windows, total),
        AnyArray::LargeBinary(array) => binary::join_large(alloc, array, windows, total),
        AnyArray::Utf8(array) => utf8::join(alloc, array, windows, total),
        AnyArray::LargeUtf8(array) => utf8::join_large(alloc, array, windows, total),
        AnyArray::FixedSizeBinary(array) => fixed_size_binary::join(alloc, array, windows, total),
        AnyArray::FixedSizeList(array) => fixed_size_list::join_lists(alloc, array, windows, total),
        AnyArray::List(array) => list::join_lists(alloc, array, windows, total),
        AnyArray::LargeList(array) => list::join_large_lists(alloc, array, windows, total),
        AnyArray::Struct(array) => struct_::join_records(alloc, array, windows, total),
        AnyArray::Map(array) => map::join_maps(alloc, array, windows, total),
        AnyArray::Union(array) => union::join_unions(alloc, array, windows, total),
        AnyArray::Dictionary(array) => dictionary::join_keyed(alloc, array, windows, total),
    }
}

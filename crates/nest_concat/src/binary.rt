//! Concatenation of binary arrays.
ghost use Rattle.std.specs.Prelude.{◌≡◌, ◌⊎◌, IfErr, IfOk, alloc_error};
ghost use Rattle.nest_memory.specs.declared.datatypes.physical_type.PhysicalType.TheVariants as physical;
ghost use Rattle.nest_array.specs.Seen.{layout_of};
ghost use Rattle.nest_concat.specs.Words.{AreWithin, IsJoined, Memory, Overflow, PassesOffsets, RefusesJoin, binary_of_width, count_slots, layout_type, physical_type, laid, PassesLimits};

use crate::bits;
use crate::spans::{self, Spanned, SpannedBytes};
use nest_array::{AnyArray, Window};
use nest_flat::binary::BinaryArray;
use nest_memory::error::Error;
use nest_memory::offset::Offset;
use nest_memory::offsets::OffsetsBuffer;
use std::alloc::Global;

/// Binary arrays with 32-bit offsets.
struct Small;

/// Binary arrays with 64-bit offsets.
struct Large;

impl Spanned<i32> for Small {
    ghost kind = { physical.Binary };

    fn offsets(array: &AnyArray) -> &OffsetsBuffer<i32> {
        let Some(array) = array.as_binary() else {
            unreachable!()
        };
        array.known();
        array.offsets()
    }
}

impl SpannedBytes<i32> for Small {
    fn bytes(array: &AnyArray) -> &[u8] {
        let Some(array) = array.as_binary() else {
            unreachable!()
        };
        array.known();
        array.values().as_slice()
    }
}

impl Spanned<i64> for Large {
    ghost kind = { physical.LargeBinary };

    fn offsets(array: &AnyArray) -> &OffsetsBuffer<i64> {
        let Some(array) = array.as_large_binary() else {
            unreachable!()
        };
        array.known();
        array.offsets()
    }
}

impl SpannedBytes<i64> for Large {
    fn bytes(array: &AnyArray) -> &[u8] {
        let Some(array) = array.as_large_binary() else {
            unreachable!()
        };
        array.known();
        array.values().as_slice()
    }
}

/// Concatenates windows over binary arrays, with the data type of one of them. `total` is the number of slots.
fn joined<O: Offset, K: SpannedBytes<O>>(
    alloc: Global,
    array: &BinaryArray<O>,
    windows: &[Window<'_>],
    total: usize,
) -> Result<BinaryArray<O>, Error>
    requires kind { K.kind ≡ binary_of_width O.IS_LARGE }
    requires within { AreWithin (layout_type array.now) windows.now }
    requires total { total ≡ count_slots windows.now }
    ensures ok { IfOk result (λ a. IsJoined (layout_type array.now) windows.now a) }
    ensures laid { IfOk result (λ a. a ≡ laid array.now windows.now) }
    ensures room { IfOk result (λ a. PassesOffsets O.IS_LARGE windows.now → ⊥) }
    ensures err { IfErr result (λ e. (e ≡ Memory alloc_error) ⊎ ((e ≡ Overflow) × PassesOffsets O.IS_LARGE windows.now)) }
{
    array.known();
    let count = spans::count::<O, K>(windows)?;
    let offsets = spans::offsets::<O, K>(alloc, windows, total)?;
    let bytes = spans::bytes::<O, K>(alloc, windows, count)?;
    let validity = bits::validity(alloc, windows, total)?;
    let data_type = array.data_type().clone(alloc)?;
    BinaryArray::try_new(data_type, offsets, bytes, validity)
}

/// Concatenates windows over binary arrays with 32-bit offsets.
#[inline(never)]
pub(crate) fn join(
    alloc: Global,
    array: &BinaryArray<i32>,
    windows: &[Window<'_>],
    total: usize,
) -> Result<AnyArray, Error>
    requires within { AreWithin (layout_type array.now) windows.now }
    requires total { total ≡ count_slots windows.now }
    ensures ok { IfOk result (λ a. IsJoined (layout_type array.now) windows.now (layout_of a)) }
    ensures laid { IfOk result (λ a. layout_of a ≡ laid array.now windows.now) }
    ensures room { IfOk result (λ a. PassesLimits array.now windows.now → ⊥) }
    ensures err { IfErr result (λ e. RefusesJoin e array.now windows.now) }
{
    array.known();
    match joined::<i32, Small>(alloc, array, windows, total) {
        Ok(joined) => Ok(AnyArray::Binary(joined)),
        Err(error) => Err(error),
    }
}

/// Concatenates windows over binary arrays with 64-bit offsets.
#[inline(never)]
pub(crate) fn join_large(
    alloc: Global,
    array: &BinaryArray<i64>,
    windows: &[Window<'_>],
    total: usize,
) -> Result<AnyArray, Error>
    requires within { AreWithin (layout_type array.now) windows.now }
    requires total { total ≡ count_slots windows.now }
    ensures ok { IfOk result (λ a. IsJoined (layout_type array.now) windows.now (layout_of a)) }
    ensures laid { IfOk result (λ a. layout_of a ≡ laid array.now windows.now) }
    ensures room { IfOk result (λ a. PassesLimits array.now windows.now → ⊥) }
    ensures err { IfErr result (λ e. RefusesJoin e array.now windows.now) }
{
    array.known();
    match joined::<i64, Large>(alloc, array, windows, total) {
        Ok(joined) => Ok(AnyArray::LargeBinary(joined)),
        Err(error) => Err(error),
    }
}

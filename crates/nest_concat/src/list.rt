//! Concatenation of list arrays with 32-bit and 64-bit offsets.
ghost use Rattle.std.specs.Prelude.{◌≡◌, ◌<◌, IfErr, IfOk, IsOkUnless, alloc_error, false, length, true};
ghost use Rattle.nest_memory.specs.declared.datatypes.physical_type.PhysicalType.TheVariants as physical;
ghost use Rattle.nest_model.specs.Layout as layouts;
ghost use Rattle.nest_array.specs.Seen.{layout_of};
ghost use Rattle.nest_concat.specs.Words.{AreWithin, Fits, IsJoined, Memory, RefusesJoin, count_slots, first_array, layout_type, physical_type, type_of, laid, PassesLimits};

use crate::any::join;
use crate::bits;
use crate::spans::{self, Spanned, SpannedItems};
use nest_array::{AnyArray, LargeListArray, ListArray, Window};
use nest_memory::bitmap::immutable::Bitmap;
use nest_memory::datatypes::DataType;
use nest_memory::error::Error;
use nest_memory::offsets::OffsetsBuffer;
use std::alloc::Global;

/// List arrays with 32-bit offsets.
pub(crate) struct Small;

/// List arrays with 64-bit offsets.
pub(crate) struct Large;

impl Spanned<i32> for Small {
    ghost kind = { physical.List };

    fn offsets(array: &AnyArray) -> &OffsetsBuffer<i32> {
        let Some(array) = array.as_list() else {
            unreachable!()
        };
        array.known();
        array.offsets()
    }
}

impl SpannedItems<i32> for Small {
    fn items(array: &AnyArray) -> &AnyArray {
        let Some(array) = array.as_list() else {
            unreachable!()
        };
        array.known();
        array.values()
    }
}

impl Spanned<i64> for Large {
    ghost kind = { physical.LargeList };

    fn offsets(array: &AnyArray) -> &OffsetsBuffer<i64> {
        let Some(array) = array.as_large_list() else {
            unreachable!()
        };
        array.known();
        array.offsets()
    }
}

impl SpannedItems<i64> for Large {
    fn items(array: &AnyArray) -> &AnyArray {
        let Some(array) = array.as_large_list() else {
            unreachable!()
        };
        array.known();
        array.values()
    }
}

/// Concatenates windows over list arrays, with the data type of `array`, the first array.
/// `total` is the number of slots.
#[cycle(join)]
#[inline(never)]
pub(crate) fn join_lists(
    alloc: Global,
    array: &ListArray,
    windows: &[Window<'_>],
    total: usize,
) -> Result<AnyArray, Error>
    requires some { 0 < length windows.now }
    requires first { array.now ≡ first_array windows.now }
    requires within { AreWithin (layout_type array.now) windows.now }
    requires total { total ≡ count_slots windows.now }
    ensures ok { IfOk result (λ a. IsJoined (layout_type array.now) windows.now (layout_of a)) }
    ensures laid { IfOk result (λ a. layout_of a ≡ laid array.now windows.now) }
    ensures room { IfOk result (λ a. PassesLimits array.now windows.now → ⊥) }
    ensures err { IfErr result (λ e. RefusesJoin e array.now windows.now) }
{
    array.known();
    spans::count::<i32, Small>(windows)?;
    let offsets = spans::offsets::<i32, Small>(alloc, windows, total)?;
    offsets.known();
    let validity = bits::validity(alloc, windows, total)?;
    let items = spans::items::<i32, Small>(alloc, windows)?;
    match join(alloc, &items) {
        Ok(values) => lists_of(alloc, array.data_type(), offsets, values, validity),
        Err(error) => Err(error),
    }
}

/// Returns the array with these parts.
fn lists_of(
    alloc: Global,
    data_type: &DataType,
    offsets: OffsetsBuffer<i32>,
    values: AnyArray,
    validity: Option<Bitmap>,
) -> Result<AnyArray, Error>
    requires { Fits (layouts.list false (type_of data_type.now) offsets (layout_of values) validity) }
    ensures ok { IfOk result (λ a. layout_of a ≡ layouts.list false (type_of data_type.now) offsets (layout_of values) validity) }
    ensures err { IsOkUnless result (Memory alloc_error) }
{
    match data_type.clone(alloc) {
        Ok(data_type) => match ListArray::new(alloc, data_type, offsets, values, validity) {
            Ok(array) => Ok(AnyArray::List(array)),
            Err(error) => Err(error),
        },
        Err(error) => {
            drop(validity);
            drop(values);
            drop(offsets);
            Err(error)
        }
    }
}

/// Concatenates windows over large list arrays, with the data type of `array`, the first array.
/// `total` is the number of slots.
#[cycle(join)]
#[inline(never)]
pub(crate) fn join_large_lists(
    alloc: Global,
    array: &LargeListArray,
    windows: &[Window<'_>],
    total: usize,
) -> Result<AnyArray, Error>
    requires some { 0 < length windows.now }
    requires first { array.now ≡ first_array windows.now }
    requires within { AreWithin (layout_type array.now) windows.now }
    requires total { total ≡ count_slots windows.now }
    ensures ok { IfOk result (λ a. IsJoined (layout_type array.now) windows.now (layout_of a)) }
    ensures laid { IfOk result (λ a. layout_of a ≡ laid array.now windows.now) }
    ensures room { IfOk result (λ a. PassesLimits array.now windows.now → ⊥) }
    ensures err { IfErr result (λ e. RefusesJoin e array.now windows.now) }
{
    array.known();
    spans::count::<i64, Large>(windows)?;
    let offsets = spans::offsets::<i64, Large>(alloc, windows, total)?;
    offsets.known();
    let validity = bits::validity(alloc, windows, total)?;
    let items = spans::items::<i64, Large>(alloc, windows)?;
    match join(alloc, &items) {
        Ok(values) => large_lists_of(alloc, array.data_type(), offsets, values, validity),
        Err(error) => Err(error),
    }
}

/// Returns the array with these parts.
fn large_lists_of(
    alloc: Global,
    data_type: &DataType,
    offsets: OffsetsBuffer<i64>,
    values: AnyArray,
    validity: Option<Bitmap>,
) -> Result<AnyArray, Error>
    requires { Fits (layouts.list true (type_of data_type.now) offsets (layout_of values) validity) }
    ensures ok { IfOk result (λ a. layout_of a ≡ layouts.list true (type_of data_type.now) offsets (layout_of values) validity) }
    ensures err { IsOkUnless result (Memory alloc_error) }
{
    match data_type.clone(alloc) {
        Ok(data_type) => match LargeListArray::new(alloc, data_type, offsets, values, validity) {
            Ok(array) => Ok(AnyArray::LargeList(array)),
            Err(error) => Err(error),
        },
        Err(error) => {
            drop(validity);
            drop(values);
            drop(offsets);
            Err(error)
        }
    }
}

//! Concatenation of dictionary arrays.
ghost use Rattle.std.specs.Prelude.{◌≡◌, ◌<◌, ◌↔◌, IfErr, IfOk, IsOkUnless, IsTrue, alloc_error, length, map};
ghost use Rattle.nest_model.specs.Layout as layouts;
ghost use Rattle.nest_array.specs.Kinds.{IsKeyed};
ghost use Rattle.nest_array.specs.Seen.{layout_of};
ghost use Rattle.nest_array.specs.SeenKeys.{keys_layout};
ghost use Rattle.nest_concat.specs.Words.{AreArrays, HaveKeys, AreWithin, Fits, HaveValues, IsJoined, Memory, RefusesJoin, child_of, count_slots, first_array, layout_type, physical_type, type_of, values_in, laid, PassesLimits};

use crate::any::join;
use crate::keys;
use nest_array::equal::equal;
use nest_array::{AnyArray, AnyKeys, DictionaryArray, Window};
use nest_memory::datatypes::DataType;
use nest_memory::error::Error;
use std::alloc::Global;

/// Returns the values of the array of a window.
pub(crate) fn values_of_window<'a>(window: &Window<'a>) -> &'a AnyArray
    requires { IsKeyed (physical_type (layout_type window.now.array)) }
    ensures { layout_of result.now ≡ child_of window.now.array }
{
    let Some(array) = window.array().as_dictionary() else {
        unreachable!()
    };
    array.known();
    array.values()
}

/// Returns whether the arrays of all windows have values equal to `values`. Each array is compared once.
fn have_values(windows: &[Window<'_>], values: &AnyArray) -> bool
    requires { HaveKeys windows.now }
    ensures { IsTrue result ↔ HaveValues (layout_of values.now) windows.now }
{
    for window in windows {
        if !equal(values_of_window(window), values) {
            return false;
        }
    }
    true
}

/// Returns the windows over all values of the arrays of windows.
fn whole_values<'a>(alloc: Global, windows: &[Window<'a>]) -> Result<Vec<Window<'a>>, Error>
    requires { HaveKeys windows.now }
    ensures ok { IfOk result (λ v. v.items ≡ map values_in windows.now) }
    ensures fit { IfOk result (λ v. AreArrays v.items) }
    ensures err { IsOkUnless result (Memory alloc_error) }
{
    let mut values = Vec::with_capacity(alloc, windows.len())?;
    for window in windows {
        let array = values_of_window(window);
        array.known();
        values.push_reserved(Window::of(array));
    }
    Ok(values)
}

/// Concatenates windows over dictionary arrays, with the data type of `array`, the first array.
/// `total` is the number of slots.
///
/// If all arrays have equal values, the result has those of `array`.
/// Otherwise the values of all arrays are concatenated.
#[cycle(join)]
#[inline(never)]
pub(crate) fn join_keyed(
    alloc: Global,
    array: &DictionaryArray,
    windows: &[Window<'_>],
    total: usize,
) -> Result<AnyArray, Error>
    requires some { 0 < length windows.now }
    requires first { array.now ≡ first_array windows.now }
    requires within { AreWithin (layout_type array.now) windows.now }
    requires total { total ≡ count_slots windows.now }
    ensures ok { IfOk result (λ a. IsJoined (layout_type array.now) windows.now (layout_of a)) }
    ensures laid { IfOk result (λ a. layout_of a ≡ laid array.now windows.now) }
    ensures room { IfOk result (λ a. PassesLimits array.now windows.now → ⊥) }
    ensures err { IfErr result (λ e. RefusesJoin e array.now windows.now) }
{
    array.known();
    if have_values(windows, array.values()) {
        return keep_values(alloc, array, windows, total);
    }
    let values = whole_values(alloc, windows)?;
    let keys = keys::joined(alloc, array.keys(), windows, total, true)?;
    match join(alloc, &values) {
        Ok(values) => array_of(alloc, array.data_type(), keys, values),
        Err(error) => {
            drop(keys);
            Err(error)
        }
    }
}

/// Concatenates windows over dictionary arrays with equal values, which the result keeps.
/// `total` is the number of slots.
fn keep_values(
    alloc: Global,
    array: &DictionaryArray,
    windows: &[Window<'_>],
    total: usize,
) -> Result<AnyArray, Error>
    requires first { array.now ≡ first_array windows.now }
    requires within { AreWithin (layout_type array.now) windows.now }
    requires total { total ≡ count_slots windows.now }
    requires same { HaveValues (child_of array.now) windows.now }
    ensures ok { IfOk result (λ a. IsJoined (layout_type array.now) windows.now (layout_of a)) }
    ensures laid { IfOk result (λ a. layout_of a ≡ laid array.now windows.now) }
    ensures room { IfOk result (λ a. PassesLimits array.now windows.now → ⊥) }
    ensures err { IsOkUnless result (Memory alloc_error) }
{
    array.known();
    let keys = keys::joined(alloc, array.keys(), windows, total, false)?;
    match array.values().clone(alloc) {
        Ok(values) => array_of(alloc, array.data_type(), keys, values),
        Err(error) => {
            drop(keys);
            Err(error)
        }
    }
}

/// Returns the array with these parts.
fn array_of(
    alloc: Global,
    data_type: &DataType,
    keys: AnyKeys,
    values: AnyArray,
) -> Result<AnyArray, Error>
    requires { Fits (layouts.dictionary (type_of data_type.now) (keys_layout keys) (layout_of values)) }
    ensures ok { IfOk result (λ a. layout_of a ≡ layouts.dictionary (type_of data_type.now) (keys_layout keys) (layout_of values)) }
    ensures err { IsOkUnless result (Memory alloc_error) }
{
    match data_type.clone(alloc) {
        Ok(data_type) => match DictionaryArray::new(alloc, data_type, keys, values) {
            Ok(array) => Ok(AnyArray::Dictionary(array)),
            Err(error) => Err(error),
        },
        Err(error) => {
            drop(values);
            drop(keys);
            Err(error)
        }
    }
}

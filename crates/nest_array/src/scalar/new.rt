//! Scalars of arrays.
ghost use Rattle.std.specs.Prelude.{◌≡◌, ◌+◌, ◌<◌, IfOk, IsOkUnless, alloc_error};
ghost use Rattle.nest_memory.specs.TypeTree.{TypeTree};
ghost use Rattle.nest_model.specs.Fits.{EachCovers};
ghost use Rattle.nest_model.specs.Meaning.{each};
ghost use Rattle.nest_model.specs.Slot as slots;
ghost use Rattle.nest_flat.specs.AnyPrimitive.{primitive_layout};
ghost use Rattle.nest_flat.specs.FlatParts.{optional};
ghost use Rattle.nest_array.specs.ScalarParts.{child_types, scalar_parts, slots_in, types_in};
ghost use Rattle.nest_array.specs.SeenLists.{lists_layout};
ghost use Rattle.nest_array.specs.SeenScalar.{IsValue, ValueFits, slot_of_value};
ghost use Rattle.nest_array.specs.Words.{Memory, layout_of, layout_type, layouts_of, len, slot};

use crate::any::AnyArray;
use crate::dictionary::DictionaryArray;
use crate::equal::rows::{Lists, Rows};
use crate::scalar::{AnyScalar, ScalarValue};
use crate::struct_::StructArray;
use crate::union::UnionArray;
use nest_flat::any_primitive::AnyPrimitive;
use nest_flat::boolean::BooleanArray;
use nest_memory::error::Error;
use std::alloc::Global;

/// Returns slot `i` of an array as a scalar of the array's data type: arrow2's `new_scalar`.
///
/// # Errors
/// `Memory` if an allocation fails.
#[cycle(new_scalar)]
pub fn new_scalar(alloc: Global, array: &AnyArray, i: usize) -> Result<AnyScalar, Error>
    requires { i < len (layout_of array.now) }
    ensures ok { IfOk result (λ s. s ≡ scalar_parts (layout_type (layout_of array.now)) (slot (layout_of array.now) i)) }
    ensures err { IsOkUnless result (Memory alloc_error) }
{
    let value = value_at(alloc, array, i)?;
    match array.data_type().clone(alloc) {
        Ok(data_type) => Ok(AnyScalar { data_type, value }),
        Err(error) => {
            drop(value);
            Err(error)
        }
    }
}

/// Returns the value of slot `i`.
#[cycle(new_scalar)]
fn value_at(alloc: Global, array: &AnyArray, i: usize) -> Result<ScalarValue, Error>
    requires { i < len (layout_of array.now) }
    ensures ok { IfOk result (λ v. IsValue (layout_of array.now) i v) }
    ensures err { IsOkUnless result (Memory alloc_error) }
{
    match array {
        AnyArray::Null(nulls) => {
            nulls.known();
            Ok(ScalarValue::Null)
        }
        AnyArray::Boolean(truths) => Ok(truth_at(truths, i)),
        AnyArray::Primitive(natives) => Ok(native_at(natives, i)),
        AnyArray::Binary(strings) => bytes_value(alloc, strings.get(i)),
        AnyArray::LargeBinary(strings) => bytes_value(alloc, strings.get(i)),
        AnyArray::Utf8(texts) => text_value(alloc, texts.get(i)),
        AnyArray::LargeUtf8(texts) => text_value(alloc, texts.get(i)),
        AnyArray::FixedSizeBinary(strings) => bytes_value(alloc, strings.get(i)),
        AnyArray::FixedSizeList(lists) => list_at(alloc, &Lists::FixedSizeList(lists), i),
        AnyArray::List(lists) => list_at(alloc, &Lists::List(lists), i),
        AnyArray::LargeList(lists) => list_at(alloc, &Lists::LargeList(lists), i),
        AnyArray::Struct(records) => record_at(alloc, records, i),
        AnyArray::Map(maps) => list_at(alloc, &Lists::Map(maps), i),
        AnyArray::Union(picks) => pick_at(alloc, picks, i),
        AnyArray::Dictionary(keyed) => keyed_at(alloc, keyed, i),
    }
}

fn truth_at(truths: &BooleanArray, i: usize) -> ScalarValue
    requires { i < len truths.now }
    ensures { IsValue truths.now i result }
{
    match truths.get(i) {
        Some(truth) => ScalarValue::Boolean(truth),
        None => ScalarValue::Null,
    }
}

fn native_at(natives: &AnyPrimitive, i: usize) -> ScalarValue
    requires { i < len (primitive_layout natives.now) }
    ensures { IsValue (primitive_layout natives.now) i result }
{
    natives.known();
    if natives.is_null(i) {
        return ScalarValue::Null;
    }
    ScalarValue::Native(natives.value(i))
}

fn bytes_value(alloc: Global, bytes: Option<&[u8]>) -> Result<ScalarValue, Error>
    ensures ok { IfOk result (λ v. slot_of_value v ≡ optional (λ x. slots.bytes x.now) bytes.entry) }
    ensures fits { IfOk result (λ v. (t : TypeTree) → ValueFits t v) }
    ensures err { IsOkUnless result (Memory alloc_error) }
{
    let Some(bytes) = bytes else {
        return Ok(ScalarValue::Null);
    };
    Ok(ScalarValue::Bytes(bytes.to_vec(alloc)?))
}

fn text_value(alloc: Global, text: Option<&str>) -> Result<ScalarValue, Error>
    ensures ok { IfOk result (λ v. slot_of_value v ≡ optional (λ x. slots.utf8 x.now) text.entry) }
    ensures fits { IfOk result (λ v. (t : TypeTree) → ValueFits t v) }
    ensures err { IsOkUnless result (Memory alloc_error) }
{
    let Some(text) = text else {
        return Ok(ScalarValue::Null);
    };
    Ok(ScalarValue::Text(String::from_str(alloc, text)?))
}

fn list_at(alloc: Global, lists: &Lists, i: usize) -> Result<ScalarValue, Error>
    requires { i < len (lists_layout lists.now) }
    ensures ok { IfOk result (λ v. IsValue (lists_layout lists.now) i v) }
    ensures err { IsOkUnless result (Memory alloc_error) }
{
    let Some(row) = lists.row(i) else {
        return Ok(ScalarValue::Null);
    };
    let items = lists.items().part(alloc, row.0, row.1)?;
    Ok(ScalarValue::List(items))
}

#[cycle(new_scalar)]
fn record_at(alloc: Global, records: &StructArray, i: usize) -> Result<ScalarValue, Error>
    requires { i < len records.now }
    ensures ok { IfOk result (λ v. IsValue records.now i v) }
    ensures err { IsOkUnless result (Memory alloc_error) }
{
    records.known();
    if records.is_null(i) {
        return Ok(ScalarValue::Null);
    }
    match scalars_at(alloc, records.values(), i) {
        Ok(scalars) => Ok(ScalarValue::Struct(scalars)),
        Err(error) => Err(error),
    }
}

/// Returns the scalar of slot `i` of each array, as a struct has them.
///
/// # Errors
/// `Memory` if an allocation fails.
#[cycle(new_scalar)]
pub fn scalars_at(alloc: Global, arrays: &[AnyArray], i: usize) -> Result<Vec<AnyScalar>, Error>
    requires { EachCovers (layouts_of arrays.now) (i + 1) }
    ensures slots { IfOk result (λ v. slots_in v.items ≡ each (layouts_of arrays.now) i) }
    ensures types { IfOk result (λ v. types_in v.items ≡ child_types (layouts_of arrays.now)) }
    ensures err { IsOkUnless result (Memory alloc_error) }
{
    let mut scalars = Vec::with_capacity(alloc, arrays.len())?;
    for k in 0..arrays.len() {
        scalars.push(new_scalar(alloc, &arrays[k], i)?)?;
    }
    Ok(scalars)
}

/// Returns the value of slot `i` of a union.
#[cycle(new_scalar)]
fn pick_at(alloc: Global, picks: &UnionArray, i: usize) -> Result<ScalarValue, Error>
    requires { i < len picks.now }
    ensures ok { IfOk result (λ v. IsValue picks.now i v) }
    ensures err { IsOkUnless result (Memory alloc_error) }
{
    let (field, place) = picks.index(i);
    match new_scalar(alloc, picks.field_at(field), place) {
        Ok(scalar) => Ok(ScalarValue::Pick(field, Box::new(alloc, scalar)?)),
        Err(error) => Err(error),
    }
}

/// Returns the value at the key of slot `i`, or null if the key is null.
#[cycle(new_scalar)]
fn keyed_at(alloc: Global, keyed: &DictionaryArray, i: usize) -> Result<ScalarValue, Error>
    requires { i < len keyed.now }
    ensures ok { IfOk result (λ v. IsValue keyed.now i v) }
    ensures err { IsOkUnless result (Memory alloc_error) }
{
    keyed.known();
    if keyed.is_null(i) {
        return Ok(ScalarValue::Null);
    }
    value_at(alloc, keyed.values(), keyed.place(i))
}

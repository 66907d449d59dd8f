//! The new and replacement dictionaries that a record batch needs before it.
ghost use Rattle.std.specs.Prelude.{◌≡◌, ◌<◌, ◌^◌, pos, map, IfOk};
ghost use Rattle.std.specs.List.{AllByRecursion};
ghost use Rattle.nest_array.specs.Seen.{layout_of, layouts_of};
ghost use Rattle.nest_array.specs.Kinds.{has_leaves};
ghost use Rattle.nest_model.specs.Array.{IsArray, TopFits};
ghost use Rattle.ipc.specs.PendingDictionaries.{pending, entry_at, is_same};
ghost use Rattle.ipc.specs.EntriesOf.{by_id, entry_of, borrowed_entries_of};
ghost use Rattle.ipc.specs.Visited.{is_leaf, IsVisited, AreVisited};

use nest_array::any::AnyArray;
use nest_array::dictionary::DictionaryArray;
use std::alloc::{AllocError, Global};
use std::collections::BTreeMap;

// Returns the id with this number, which must be below 2^63.
fn id_of(next: usize) -> Result<i64, AllocError>
    ensures id { IfOk result (λ id. id ≡ pos next) }
    ensures small { IfOk result (λ id. next < 2 ^ 63) }
{
    if next >= 1 << 63 {
        return Err(AllocError);
    }
    Ok(next as i64)
}

// Returns whether these values were emitted last for an id.
fn is_emitted(emitted: &BTreeMap<i64, AnyArray>, id: i64, values: &AnyArray) -> bool
    ensures { result ≡ is_same (entry_at (by_id emitted.now.entries) id) (layout_of values.now) }
{
    match emitted.get(&id) {
        None => false,
        Some(last) => last == values,
    }
}

/// Does nothing: its contract shows the prover what the variant of an array says of its child arrays.
pub(crate) fn show_kind(array: &AnyArray)
    ensures fit { TopFits (layout_of array.now) }
    ensures leaf { is_leaf (layout_of array.now) ≡ has_leaves array.now }
{
    match array {
        AnyArray::Null(array) => array.known(),
        AnyArray::Boolean(array) => array.known(),
        AnyArray::Primitive(array) => array.known(),
        AnyArray::Binary(array) => array.known(),
        AnyArray::LargeBinary(array) => array.known(),
        AnyArray::Utf8(array) => array.known(),
        AnyArray::LargeUtf8(array) => array.known(),
        AnyArray::FixedSizeBinary(array) => array.known(),
        AnyArray::FixedSizeList(array) => array.known(),
        AnyArray::List(array) => array.known(),
        AnyArray::LargeList(array) => array.known(),
        AnyArray::Struct(array) => array.known(),
        AnyArray::Map(array) => array.known(),
        AnyArray::Union(array) => array.known(),
        AnyArray::Dictionary(array) => array.known(),
    }
}

// Visits a dictionary array: its nested dictionaries first, then its own values, unless they were emitted.
#[cycle(visit)]
fn visit_dictionary<'a>(
    emitted: &BTreeMap<i64, AnyArray>,
    next: usize,
    array: &'a DictionaryArray,
    found: &mut Vec<(i64, &'a AnyArray)>,
) -> Result<usize, AllocError>
    ensures { IfOk result (IsVisited (by_id emitted.now.entries) next array.now (borrowed_entries_of found.old.items) (borrowed_entries_of found.new.items)) }
{
    array.known();
    let id = id_of(next)?;
    let values = array.values();
    let before = found.len();
    let behind = visit(emitted, next + 1, values, found)?;
    if found.len() > before || !is_emitted(emitted, id, values) {
        found.push((id, values))?;
    }
    Ok(behind)
}

// Appends the pending dictionaries of an array to `found`, and returns the next id.
#[cycle(visit)]
fn visit<'a>(
    emitted: &BTreeMap<i64, AnyArray>,
    next: usize,
    array: &'a AnyArray,
    found: &mut Vec<(i64, &'a AnyArray)>,
) -> Result<usize, AllocError>
    ensures { IfOk result (IsVisited (by_id emitted.now.entries) next (layout_of array.now) (borrowed_entries_of found.old.items) (borrowed_entries_of found.new.items)) }
{
    show_kind(array);
    match array {
        AnyArray::FixedSizeList(array) => {
            array.known();
            visit(emitted, next, array.values(), found)
        }
        AnyArray::List(array) => {
            array.known();
            visit(emitted, next, array.values(), found)
        }
        AnyArray::LargeList(array) => {
            array.known();
            visit(emitted, next, array.values(), found)
        }
        AnyArray::Map(array) => {
            array.known();
            visit(emitted, next, array.field(), found)
        }
        AnyArray::Struct(array) => {
            array.known();
            visit_each(emitted, next, array.values(), found)
        }
        AnyArray::Union(array) => {
            array.known();
            visit_each(emitted, next, array.fields(), found)
        }
        AnyArray::Dictionary(array) => visit_dictionary(emitted, next, array, found),
        AnyArray::Null(_)
        | AnyArray::Boolean(_)
        | AnyArray::Primitive(_)
        | AnyArray::FixedSizeBinary(_)
        | AnyArray::Binary(_)
        | AnyArray::LargeBinary(_)
        | AnyArray::Utf8(_)
        | AnyArray::LargeUtf8(_) => Ok(next),
    }
}

// Visits arrays in order.
#[cycle(visit)]
fn visit_each<'a>(
    emitted: &BTreeMap<i64, AnyArray>,
    next: usize,
    arrays: &'a [AnyArray],
    found: &mut Vec<(i64, &'a AnyArray)>,
) -> Result<usize, AllocError>
    ensures { IfOk result (AreVisited (by_id emitted.now.entries) next (layouts_of arrays.now) (borrowed_entries_of found.old.items) (borrowed_entries_of found.new.items)) }
{
    let mut next = next;
    for array in arrays {
        next = visit(emitted, next, array, found)?;
    }
    Ok(next)
}

/// Returns the new and replacement dictionaries of a record batch's columns with their ids, nested dictionaries first.
///
/// `emitted` has the values last emitted for each id. A dictionary is pending if its id has none, if its values differ, or if a dictionary
/// nested in them is pending. Ids are assigned in pre-order: 0, 1, 2 and so on.
///
/// # Errors
/// `AllocError`, where an allocation fails or an id would exceed 2^63 - 1.
pub fn pending_dictionaries<'a>(
    alloc: Global,
    emitted: &BTreeMap<i64, AnyArray>,
    columns: &'a [AnyArray],
) -> Result<Vec<(i64, &'a AnyArray)>, AllocError>
    ensures pending { IfOk result (λ v. map entry_of v.items ≡ pending (by_id emitted.now.entries) (map layout_of columns.now)) }
    ensures fit { IfOk result (λ v. AllByRecursion IsArray (map layout_of columns.now)) }
{
    let mut found = Vec::new(alloc);
    visit_each(emitted, 0, columns, &mut found)?;
    Ok(found)
}

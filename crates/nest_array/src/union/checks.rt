//! The checks of a union's parts, in order.
ghost use Rattle.std.specs.Prelude.{◌≡◌, ◌↔◌, ◌≤◌, IsTrue, MatchOption, length};
ghost use Rattle.std.specs.List.{All};
ghost use Rattle.nest_memory.specs.TypeTree.{ids_of, is_dense};
ghost use Rattle.nest_model.specs.Checks.{FailFirst, Pass, most_fields, type_count};
ghost use Rattle.nest_model.specs.Fits.{EachCovers, IdsCount, IdsInRange, MeansField, Names, OffsetsByMode, OffsetsCount, child_len};
ghost use Rattle.nest_model.specs.Layout as layouts;
ghost use Rattle.nest_array.specs.Positions.{EachNamed, SlotsMeant, id_checks, meant};
ghost use Rattle.nest_array.specs.Words.{FirstError, Fits, layouts_of, type_of};

use crate::any::AnyArray;
use crate::struct_::have_types;
use crate::union::table::{means_field, position, positions};
use nest_memory::buffer::Buffer;
use nest_memory::datatypes::physical_type::PhysicalType;
use nest_memory::datatypes::{DataType, UnionMode};
use nest_memory::error::{Error, SpecError};

/// Returns the error of the first check of the parts that fails.
pub(super) fn first_error(
    data_type: &DataType,
    types: &Buffer<i8>,
    fields: &[AnyArray],
    offsets: &Option<Buffer<i32>>,
) -> Option<Error>
    ensures { let parts = layouts.union (type_of data_type.now) types.now (layouts_of fields.now) offsets.now 0 in
        MatchOption result (Fits parts) (λ e. FirstError e parts) }
{
    if data_type.to_physical_type() != PhysicalType::Union {
        return Some(Error::OutOfSpec(SpecError::WrongType));
    }
    let named = data_type.fields();
    if named.len() != fields.len() {
        return Some(Error::OutOfSpec(SpecError::FieldCount));
    }
    if fields.len() > 127 {
        return Some(Error::OutOfSpec(SpecError::TooManyFields));
    }
    if !have_types(named, fields) {
        return Some(Error::OutOfSpec(SpecError::ChildType));
    }
    if !has_each_offset(offsets, types.len()) {
        return Some(Error::OutOfSpec(SpecError::OffsetCount));
    }
    if !has_mode(data_type, offsets) {
        return Some(Error::OutOfSpec(SpecError::UnionMode));
    }
    error_by_ids(data_type, types, fields, offsets)
}

/// Returns the error of the first check that fails, from the check of the ids on.
/// A table maps type ids to fields.
fn error_by_ids(
    data_type: &DataType,
    types: &Buffer<i8>,
    fields: &[AnyArray],
    offsets: &Option<Buffer<i32>>,
) -> Option<Error>
    requires few { length fields.now ≤ most_fields }
    requires each_offset { OffsetsCount offsets.now (length types.now) }
    ensures { let checks = id_checks (ids_of (type_of data_type.now)) types.now (layouts_of fields.now) offsets.now in
        MatchOption result (Pass checks) (λ e. FailFirst e checks) }
{
    if !has_each_id(data_type, fields.len()) {
        return Some(Error::OutOfSpec(SpecError::IdCount));
    }
    if !has_ids_in_range(data_type) {
        return Some(Error::OutOfSpec(SpecError::IdRange));
    }
    let table = positions(data_type, fields.len());
    if !mean_fields(&table, types.as_slice(), fields.len()) {
        return Some(Error::OutOfSpec(SpecError::UnionType));
    }
    if !has_slots(&table, types.as_slice(), fields, offsets) {
        return Some(Error::OutOfSpec(SpecError::UnionSlot));
    }
    None
}

/// Returns whether there are `n` offsets or none.
fn has_each_offset(offsets: &Option<Buffer<i32>>, n: usize) -> bool
    ensures { IsTrue result ↔ OffsetsCount offsets.now n }
{
    match offsets {
        None => true,
        Some(offsets) => offsets.len() == n,
    }
}

/// Returns whether there are offsets exactly if the union is dense.
fn has_mode(data_type: &DataType, offsets: &Option<Buffer<i32>>) -> bool
    ensures { IsTrue result ↔ OffsetsByMode offsets.now (is_dense (type_of data_type.now)) }
{
    match data_type.union_mode() {
        Some(UnionMode::Dense) => offsets.is_some(),
        _ => offsets.is_none(),
    }
}

/// Returns whether there are `n` ids or none.
fn has_each_id(data_type: &DataType, n: usize) -> bool
    ensures { IsTrue result ↔ IdsCount (ids_of (type_of data_type.now)) n }
{
    match data_type.union_ids() {
        None => true,
        Some(ids) => ids.len() == n,
    }
}

/// Returns whether each id is from 0 to 127.
fn has_ids_in_range(data_type: &DataType) -> bool
    ensures { IsTrue result ↔ IdsInRange (ids_of (type_of data_type.now)) }
{
    match data_type.union_ids() {
        None => true,
        Some(ids) => are_in_range(ids),
    }
}

fn are_in_range(ids: &[i32]) -> bool
    ensures { IsTrue result ↔ All (λ z. Names z type_count) ids.now }
{
    for i in 0..ids.len() {
        if ids[i] < 0 || 127 < ids[i] {
            return false;
        }
    }
    true
}

/// Returns whether each type id selects one of `n` fields.
fn mean_fields(table: &[u8; 128], types: &[i8], n: usize) -> bool
    requires { length table.now ≡ type_count }
    ensures { IsTrue result ↔ All (λ k. MeansField (meant table.now k) n) types.now }
{
    for i in 0..types.len() {
        if !means_field(table, types[i], n) {
            return false;
        }
    }
    true
}

/// Returns whether the slots that the type ids select exist.
fn has_slots(
    table: &[u8; 128],
    types: &[i8],
    fields: &[AnyArray],
    offsets: &Option<Buffer<i32>>,
) -> bool
    requires sized { length table.now ≡ type_count }
    requires each_offset { OffsetsCount offsets.now (length types.now) }
    ensures { IsTrue result ↔ SlotsMeant table.now types.now (layouts_of fields.now) offsets.now }
{
    match offsets {
        None => cover(fields, types.len()),
        Some(offsets) => name_slots(table, types, fields, offsets.as_slice()),
    }
}

/// Returns whether each field has at least `n` slots.
fn cover(fields: &[AnyArray], n: usize) -> bool
    ensures { IsTrue result ↔ EachCovers (layouts_of fields.now) n }
{
    for i in 0..fields.len() {
        if fields[i].len() < n {
            return false;
        }
    }
    true
}

/// Returns whether each offset is within the field that its type id selects.
fn name_slots(table: &[u8; 128], types: &[i8], fields: &[AnyArray], offsets: &[i32]) -> bool
    requires sized { length table.now ≡ type_count }
    requires each_offset { length offsets.now ≡ length types.now }
    ensures { IsTrue result ↔ EachNamed table.now types.now (layouts_of fields.now) offsets.now }
{
    for i in 0..types.len() {
        if !names_slot(fields, position(table, types[i]), offsets[i]) {
            return false;
        }
    }
    true
}

/// Returns whether the field exists and the offset is within it.
fn names_slot(fields: &[AnyArray], field: Option<usize>, offset: i32) -> bool
    ensures { IsTrue result ↔ Names offset (child_len (layouts_of fields.now) field) }
{
    match field {
        Some(field) if field < fields.len() && 0 <= offset => {
            (offset as usize) < fields[field].len()
        }
        _ => false,
    }
}

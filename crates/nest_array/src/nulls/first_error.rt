//! Errors of null and empty arrays, found in the data type before anything is allocated.
ghost use Rattle.std.specs.Prelude.{◌≡◌, ◌&&◌, ◌+◌, MatchOption, None, nat_eq, nat_lt, option_map, true};
ghost use Rattle.nest_memory.specs.TypeOf.{field_list_of, field_of};
ghost use Rattle.nest_memory.specs.TypeTree as types;
ghost use Rattle.nest_memory.specs.TypeTree.{is_dense_mode};
ghost use Rattle.nest_memory.specs.declared.error.Error.TheVariants.{OutOfSpec, Overflow};
ghost use Rattle.nest_memory.specs.declared.error.SpecError.TheVariants.{WrongType};
ghost use Rattle.nest_model.specs.Checks.{is_past, most_picks, refuse_if};
ghost use Rattle.nest_model.specs.Nulls.{union_error as own_error_of, are_ids, error_of, field_error, fields_error, has_bad_id, ids_count_differs, is_id};
ghost use Rattle.nest_model.specs.Fits.{is_dictionary};
ghost use Rattle.nest_model.specs.declared.fill.Fill.TheVariants.{Nothing};
ghost use Rattle.nest_array.specs.Keys.{RefusesDictionary};
ghost use Rattle.nest_array.specs.Words.{AcceptsKind, RefusesKind, physical_type, type_of};

use crate::nulls::values_below;
use crate::types::is_dictionary;
use nest_memory::datatypes::field::Field;
use nest_memory::datatypes::physical_type::PhysicalType;
use nest_memory::datatypes::{DataType, UnionMode};
use nest_memory::error::{ArgumentError, Error, SpecError};
use nest_model::fill::Fill;

/// Returns why there is no array of `length` slots of this data type and fill, or `None` if there is one.
/// The first error counts: of a type, then of its number of items or bytes, then of its children from the left.
#[cycle(first_error)]
pub(crate) fn first_error(data_type: &DataType, length: usize, fill: Fill) -> Option<Error>
    ensures { result ≡ error_of (type_of data_type.now) length fill }
{
    match data_type {
        DataType::Float16 | DataType::Float32 | DataType::Float64 => Some(Error::NotYetImplemented),
        DataType::Binary | DataType::LargeBinary | DataType::Utf8 | DataType::LargeUtf8 => {
            offsets_error(length)
        }
        DataType::FixedSizeBinary(size) => bytes_error(*size, length),
        DataType::List(field) | DataType::LargeList(field) => list_error(field, length),
        DataType::FixedSizeList(field, size) => sized_error(field, *size, length, fill),
        DataType::Map(entries, _sorted) => {
            if !data_type.has_pairs() {
                return Some(Error::InvalidArgumentError(ArgumentError::MapInner));
            }
            list_error(entries, length)
        }
        DataType::Struct(fields) => struct_error(fields, length, fill),
        DataType::Union(fields, ids, mode) => union_error(fields, ids, *mode, length, fill),
        DataType::Dictionary(_key, inner, _ordered) => first_error(inner, values_below(fill), fill),
        DataType::Extension(_name, inner, _metadata) => first_error(inner, length, fill),
        _ => None,
    }
}

/// Returns `WrongType` if the physical type is not `kind`, otherwise the result of `first_error`.
pub(crate) fn kind_error(
    data_type: &DataType,
    kind: PhysicalType,
    length: usize,
    fill: Fill,
) -> Option<Error>
    ensures { let first = error_of (type_of data_type.now) length fill in
        MatchOption result (AcceptsKind kind (type_of data_type.now) first) (λ e. RefusesKind e kind (type_of data_type.now) first) }
{
    match kind_refusal(data_type, kind) {
        Some(error) => Some(error),
        None => first_error(data_type, length, fill),
    }
}

// Returns `WrongType` if the physical type is not `kind`.
fn kind_refusal(data_type: &DataType, kind: PhysicalType) -> Option<Error>
    ensures { MatchOption result
        (physical_type (type_of data_type.now) ≡ kind)
        (λ e. (e ≡ OutOfSpec WrongType) × ¬ (physical_type (type_of data_type.now) ≡ kind)) }
{
    if data_type.to_physical_type() != kind {
        return Some(Error::OutOfSpec(SpecError::WrongType));
    }
    None
}

/// Returns `WrongType` if this is not a dictionary type, whatever its key type, otherwise the result of `first_error`.
pub(crate) fn dictionary_error(data_type: &DataType, length: usize, fill: Fill) -> Option<Error>
    ensures { let t = type_of data_type.now in let first = error_of t length fill in
        MatchOption result ((is_dictionary t ≡ true) × (first ≡ None)) (λ e. RefusesDictionary e t first) }
{
    if !is_dictionary(data_type) {
        return Some(Error::OutOfSpec(SpecError::WrongType));
    }
    first_error(data_type, length, fill)
}

// Returns `Overflow` if the number of offsets, `length + 1`, overflows.
fn offsets_error(length: usize) -> Option<Error>
    ensures { result ≡ refuse_if (is_past (length + 1)) Overflow None }
{
    if length == usize::MAX {
        return Some(Error::Overflow);
    }
    None
}

fn bytes_error(size: usize, length: usize) -> Option<Error>
    ensures { result ≡ error_of (types.fixed_size_binary size) length Nothing }
{
    if size == 0 {
        return Some(Error::OutOfSpec(SpecError::ZeroSize));
    }
    match length.checked_mul(size) {
        Some(_bytes) => None,
        None => Some(Error::Overflow),
    }
}

#[cycle(first_error)]
fn list_error(field: &Field, length: usize) -> Option<Error>
    ensures { result ≡ error_of (types.list (field_of field.now)) length Nothing }
{
    match offsets_error(length) {
        Some(error) => Some(error),
        None => item_error(field, 0, Fill::Nothing),
    }
}

#[cycle(first_error)]
fn sized_error(field: &Field, size: usize, length: usize, fill: Fill) -> Option<Error>
    ensures { result ≡ error_of (types.fixed_size_list (field_of field.now) size) length fill }
{
    if size == 0 {
        return Some(Error::OutOfSpec(SpecError::ZeroSize));
    }
    match length.checked_mul(size) {
        Some(items) => item_error(field, items, fill),
        None => Some(Error::Overflow),
    }
}

#[cycle(first_error)]
fn struct_error(fields: &Vec<Field>, length: usize, fill: Fill) -> Option<Error>
    ensures { result ≡ error_of (types.struct (field_list_of fields.now.items)) length fill }
{
    if fields.is_empty() {
        return Some(Error::OutOfSpec(SpecError::NoFields));
    }
    each_error(fields, length, fill)
}

#[cycle(first_error)]
fn union_error(
    fields: &Vec<Field>,
    ids: &Option<Vec<i32>>,
    mode: UnionMode,
    length: usize,
    fill: Fill,
) -> Option<Error>
    ensures { result ≡ error_of (types.union (field_list_of fields.now.items) (option_map (λ v. v.items) ids.now) mode) length fill }
{
    match own_error(fields.len(), ids, mode, length) {
        Some(error) => Some(error),
        None => each_error(fields, length, fill),
    }
}

// Returns the first error of a union of `count` fields, apart from those of its fields.
fn own_error(count: usize, ids: &Option<Vec<i32>>, mode: UnionMode, length: usize) -> Option<Error>
    ensures { result ≡ own_error_of count (option_map (λ v. v.items) ids.now) mode length None }
{
    if count > 127 {
        return Some(Error::OutOfSpec(SpecError::TooManyFields));
    }
    if has_other_count(ids, count) {
        return Some(Error::OutOfSpec(SpecError::IdCount));
    }
    if has_wrong_id(ids) {
        return Some(Error::OutOfSpec(SpecError::IdRange));
    }
    if names_nothing(count, length) {
        return Some(Error::OutOfSpec(SpecError::UnionType));
    }
    if is_too_long(mode, length) {
        return Some(Error::Overflow);
    }
    None
}

// Returns whether there are slots, but no field that they can select.
fn names_nothing(count: usize, length: usize) -> bool
    ensures { result ≡ (nat_eq count 0 && nat_lt 0 length) }
{
    count == 0 && length > 0
}

// Returns whether the offsets of a dense union overflow 32 bits.
fn is_too_long(mode: UnionMode, length: usize) -> bool
    ensures { result ≡ (is_dense_mode mode && nat_lt most_picks length) }
{
    match mode {
        UnionMode::Dense => length > 2147483648,
        UnionMode::Sparse => false,
    }
}

fn has_other_count(ids: &Option<Vec<i32>>, count: usize) -> bool
    ensures { result ≡ ids_count_differs (option_map (λ v. v.items) ids.now) count }
{
    match ids {
        None => false,
        Some(ids) => ids.len() != count,
    }
}

fn has_wrong_id(ids: &Option<Vec<i32>>) -> bool
    ensures { result ≡ has_bad_id (option_map (λ v. v.items) ids.now) }
{
    match ids {
        None => false,
        Some(ids) => !are_types(ids),
    }
}

// Returns whether each id is from 0 to 127.
fn are_types(ids: &[i32]) -> bool
    ensures { result ≡ are_ids ids.now }
{
    for i in 0..ids.len() {
        if !is_type(ids[i]) {
            return false;
        }
    }
    true
}

fn is_type(id: i32) -> bool
    ensures { result ≡ is_id id }
{
    0 <= id && id < 128
}

// Returns the first error of children of `length` slots.
#[cycle(first_error)]
fn each_error(fields: &Vec<Field>, length: usize, fill: Fill) -> Option<Error>
    ensures { result ≡ fields_error (field_list_of fields.now.items) length fill }
{
    for field in fields {
        let first = item_error(field, length, fill);
        if first.is_some() {
            return first;
        }
    }
    None
}

#[cycle(first_error)]
fn item_error(field: &Field, length: usize, fill: Fill) -> Option<Error>
    ensures { result ≡ field_error (field_of field.now) length fill }
{
    first_error(&field.data_type, length, fill)
}

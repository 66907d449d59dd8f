//! Unions by their examples slots, and what their constructor rejects.
mod counts;
mod scalars;

use crate::array::arrays::memory::unless_without_memory;
use crate::array::arrays::{
    any_list, are_same, both, buffer, list_array, numbers, offsets_of, two, validity,
};
use nest_array::{AnyArray, Array, UnionArray};
use nest_flat::any_primitive::AnyPrimitive;
use nest_flat::utf8::Utf8Array;
use nest_memory::buffer::Buffer;
use nest_memory::datatypes::field::Field;
use nest_memory::datatypes::physical_type::PhysicalType;
use nest_memory::datatypes::{DataType, UnionMode};
use nest_memory::error::{ArgumentError, Error, SpecError};
use std::alloc::Global;

/// The items and one more, or the first error.
fn with<T: Drop>(items: Result<Vec<T>, Error>, item: Result<T, Error>) -> Result<Vec<T>, Error> {
    let mut items = items?;
    items.push(item?)?;
    Ok(items)
}

/// So many fields of numbers.
fn number_fields(alloc: Global, n: usize) -> Result<Vec<Field>, Error> {
    let mut fields = Ok(Vec::new(alloc));
    for _ in 0..n {
        fields = with(fields, Field::new(alloc, "n", DataType::Int32, true));
    }
    fields
}

/// So many arrays without a number.
fn no_numbers(alloc: Global, n: usize) -> Result<Vec<AnyArray>, Error> {
    let mut arrays = Ok(Vec::new(alloc));
    for _ in 0..n {
        arrays = with(arrays, numbers(alloc, &[]));
    }
    arrays
}

/// A field of numbers and one of strings.
fn number_and_string(alloc: Global) -> Result<Vec<Field>, Error> {
    let number = Field::new(alloc, "n", DataType::Int32, true);
    let text = Field::new(alloc, "t", DataType::Utf8, true);
    two(alloc, number, text)
}

/// Strings of one letter each.
fn letters(alloc: Global, offsets: &[i32], bytes: &[u8]) -> Result<AnyArray, Error> {
    match both(offsets_of(alloc, offsets), buffer(alloc, bytes)) {
        Ok((offsets, values)) => {
            Utf8Array::try_new(DataType::Utf8, offsets, values, None).map(|texts| AnyArray::Utf8(
                texts,
            ))
        }
        Err(error) => Err(error),
    }
}

fn copied(alloc: Global, ids: Option<&[i32]>) -> Result<Option<Vec<i32>>, Error> {
    match ids {
        None => Ok(None),
        Some(ids) => Ok(Some(Vec::from_slice(alloc, ids)?)),
    }
}

fn shared(alloc: Global, offsets: Option<&[i32]>) -> Result<Option<Buffer<i32>>, Error> {
    match offsets {
        None => Ok(None),
        Some(offsets) => Ok(Some(buffer(alloc, offsets)?)),
    }
}

/// The type of unions of these fields.
fn union_type(
    alloc: Global,
    fields: Result<Vec<Field>, Error>,
    ids: Option<&[i32]>,
    mode: UnionMode,
) -> Result<DataType, Error> {
    both(fields, copied(alloc, ids)).map(|(fields, ids)| DataType::Union(fields, ids, mode))
}

/// The union under this type.
fn union_under(
    alloc: Global,
    data_type: Result<DataType, Error>,
    types: &[i8],
    fields: Result<Vec<AnyArray>, Error>,
    offsets: Option<&[i32]>,
) -> Result<UnionArray, Error> {
    let indices = both(buffer(alloc, types), shared(alloc, offsets));
    match both(both(data_type, fields), indices) {
        Ok(((data_type, fields), (types, offsets))) => {
            UnionArray::try_new(data_type, types, fields, offsets)
        }
        Err(error) => Err(error),
    }
}

/// A sparse union of two fields of numbers.
fn sparse(
    alloc: Global,
    ids: Option<&[i32]>,
    types: &[i8],
    first: &[i32],
    second: &[i32],
) -> Result<UnionArray, Error> {
    let data_type = union_type(alloc, number_fields(alloc, 2), ids, UnionMode::Sparse);
    let fields = two(alloc, numbers(alloc, first), numbers(alloc, second));
    union_under(alloc, data_type, types, fields, None)
}

/// A union of one field of numbers.
fn single(
    alloc: Global,
    ids: Option<&[i32]>,
    types: &[i8],
    items: &[i32],
    offsets: Option<&[i32]>,
) -> Result<UnionArray, Error> {
    let mode = match offsets {
        Some(_) => UnionMode::Dense,
        None => UnionMode::Sparse,
    };
    let data_type = union_type(alloc, number_fields(alloc, 1), ids, mode);
    let fields = with(Ok(Vec::new(alloc)), numbers(alloc, items));
    union_under(alloc, data_type, types, fields, offsets)
}

/// A sparse union of numbers and strings.
fn mixed(
    alloc: Global,
    ids: Option<&[i32]>,
    types: &[i8],
    items: &[i32],
    texts: Result<AnyArray, Error>,
) -> Result<UnionArray, Error> {
    let data_type = union_type(alloc, number_and_string(alloc), ids, UnionMode::Sparse);
    let fields = two(alloc, numbers(alloc, items), texts);
    union_under(alloc, data_type, types, fields, None)
}

/// The numbers from 10 to 13 and the letters from a to d in turn.
pub(crate) fn in_turn(alloc: Global) -> Result<UnionArray, Error> {
    let texts = letters(alloc, &[0, 1, 2, 3, 4], b"abcd");
    mixed(alloc, None, &[0, 1, 0, 1], &[10, 11, 12, 13], texts)
}

/// The n slots of an array from place o; a error where it hasn't them.
fn cut(array: Result<UnionArray, Error>, o: usize, n: usize) -> Result<UnionArray, Error> {
    match array {
        Ok(array) => {
            let len = array.len();
            if o > len || n > len - o {
                drop(array);
                return Err(Error::Overflow);
            }
            Ok(array.sliced(o, n))
        }
        Err(error) => Err(error),
    }
}

/// The second and the third of four picks.
fn middle(alloc: Global) -> Result<UnionArray, Error> {
    cut(in_turn(alloc), 1, 2)
}

/// What slot i picks: a field, and a slot of it.
fn pick(array: &UnionArray, i: usize) -> Option<(usize, usize)> {
    if i < array.len() {
        return Some(array.index(i));
    }
    None
}

/// The number that slot i picks.
fn number_at(array: &UnionArray, i: usize) -> Option<i32> {
    let (field, place) = pick(array, i)?;
    match array.fields().get(field)? {
        AnyArray::Primitive(AnyPrimitive::Int32(numbers)) if place < numbers.len() => {
            Some(numbers.value(place))
        }
        _ => None,
    }
}

/// Whether slot i picks this text.
fn is_string_at(array: &UnionArray, i: usize, text: &str) -> bool {
    match pick(array, i) {
        Some((field, place)) => match array.fields().get(field) {
            Some(AnyArray::Utf8(texts)) if place < texts.len() => texts.value(place) == text,
            _ => false,
        },
        None => false,
    }
}

/// What a constructor rejected.
fn refusal(array: Result<UnionArray, Error>) -> Option<Error> {
    match array {
        Ok(array) => {
            drop(array);
            None
        }
        Err(error) => Some(error),
    }
}

const NO_TYPE: Option<Error> = Some(Error::OutOfSpec(SpecError::UnionType));

const NO_SLOT: Option<Error> = Some(Error::OutOfSpec(SpecError::UnionSlot));

const NO_ID: Option<Error> = Some(Error::OutOfSpec(SpecError::IdRange));

/// Unions: of two fields of numbers by the ids 5 and 7; numbers and strings in turn, cut and cut again; one number at an
/// offset.
#[test]
fn fields_by_ids(rt: HostRuntime) {
    let alloc = rt.alloc();
    let types = [5, 7, 5, 7, 7, 7, 5, 7, 7, 5, 5].as_slice();
    let items = [0, 1, 2, 3, 4, 5, 6, 7, 8, 9, 10].as_slice();
    let array = sparse(alloc, Some(&[5, 7]), types, items, items).expect(&rt, "eleven picks");
    let fields = [0usize, 1, 0, 1, 1, 1, 0, 1, 1, 0, 0];
    for i in 0..11 {
        assert!(rt; pick(&array, i) == Some((fields[i], i)));
    }
}

#[test]
fn type_ids_in_and_out_of_order(rt: HostRuntime) {
    let alloc = rt.alloc();
    let types = [0, 1, 1].as_slice();
    let items = [0, 1, 2].as_slice();
    let counted = sparse(alloc, Some(&[0, 1]), types, items, items).expect(&rt, "ids 0 and 1");
    assert!(rt; pick(&counted, 2) == Some((1, 2)));
    let swapped = sparse(alloc, Some(&[1, 0]), types, items, items).expect(&rt, "ids 1 and 0");
    assert!(rt; pick(&swapped, 2) == Some((0, 2)));
}

#[test]
fn ids_out_of_range(rt: HostRuntime) {
    let alloc = rt.alloc();
    let refused = sparse(alloc, Some(&[5, 7]), &[5, 6], &[1, 2], &[1, 2]);
    assert!(rt; refusal(refused) == NO_TYPE);
    let refused = sparse(alloc, Some(&[5, 128]), &[5], &[1], &[1]);
    assert!(rt; refusal(refused) == NO_ID);
    let refused = sparse(alloc, Some(&[-1, 5]), &[5], &[1], &[1]);
    assert!(rt; refusal(refused) == NO_ID);
    let array = sparse(alloc, Some(&[0, 127]), &[0, 127], &[1, 2], &[3, 4]);
    let array = array.expect(&rt, "two picks");
    assert!(rt; number_at(&array, 0) == Some(1));
    assert!(rt; number_at(&array, 1) == Some(4));
}

#[test]
fn a_slice_begins_at_its_index(rt: HostRuntime) {
    let cut = middle(rt.alloc()).expect(&rt, "two picks");
    assert!(rt; cut.len() == 2);
    assert!(rt; pick(&cut, 0) == Some((1, 1)));
    assert!(rt; is_string_at(&cut, 0, "b"));
    assert!(rt; number_at(&cut, 1) == Some(12));
    let cut = cut.sliced(1, 1);
    assert!(rt; number_at(&cut, 0) == Some(12));
}

#[test]
fn dense_slots_are_there(rt: HostRuntime) {
    let alloc = rt.alloc();
    assert!(rt; refusal(single(alloc, None, &[0], &[7], Some(&[1]))) == NO_SLOT);
    assert!(rt; refusal(single(alloc, None, &[0], &[7], Some(&[-1]))) == NO_SLOT);
    let array = single(alloc, None, &[0, 0], &[8, 7], Some(&[1, 0])).expect(&rt, "two picks");
    assert!(rt; array.len() == 2);
    assert!(rt; number_at(&array, 0) == Some(7));
    let cut = array.sliced(1, 1);
    assert!(rt; number_at(&cut, 0) == Some(8));
    assert!(rt; cut.offsets().is_some());
}

/// Of two fields with one id the later is meant; ids that count up from 0 and others; ids 0, 127 and beside them; types and
/// fields at their limits.
#[test]
fn the_later_of_two_fields_with_one_id(rt: HostRuntime) {
    let alloc = rt.alloc();
    let texts = letters(alloc, &[0, 1], b"a");
    let array = mixed(alloc, Some(&[5, 5]), &[5], &[1], texts).expect(&rt, "a pick");
    assert!(rt; pick(&array, 0) == Some((1, 0)));
    assert!(rt; is_string_at(&array, 0, "a"));
}

#[test]
fn each_field_covers_a_sparse_union(rt: HostRuntime) {
    let alloc = rt.alloc();
    let texts = letters(alloc, &[0, 1], b"a");
    assert!(rt; refusal(mixed(alloc, None, &[0, 0], &[1, 2], texts)) == NO_SLOT);
}

#[test]
fn types_at_the_ends(rt: HostRuntime) {
    let alloc = rt.alloc();
    let array = single(alloc, Some(&[127]), &[127], &[7], None).expect(&rt, "a pick");
    assert!(rt; number_at(&array, 0) == Some(7));
    assert!(rt; refusal(single(alloc, Some(&[127]), &[-1], &[7], None)) == NO_TYPE);
    assert!(rt; refusal(single(alloc, None, &[-1], &[7], None)) == NO_TYPE);
    assert!(rt; refusal(single(alloc, None, &[1], &[7], None)) == NO_TYPE);
}

/// So many fields without a slot.
fn wide(alloc: Global, n: usize) -> Result<UnionArray, Error> {
    let data_type = union_type(alloc, number_fields(alloc, n), None, UnionMode::Sparse);
    union_under(alloc, data_type, &[], no_numbers(alloc, n), None)
}

#[test]
fn as_many_fields_as_types(rt: HostRuntime) {
    let alloc = rt.alloc();
    assert!(rt; refusal(wide(alloc, 127)).is_none());
    let many = Some(Error::OutOfSpec(SpecError::TooManyFields));
    assert!(rt; refusal(wide(alloc, 128)) == many);
    assert!(rt; refusal(wide(alloc, 0)).is_none());
}

/// Each error of a union's constructor, and of a new validity.
#[test]
fn other_errors(rt: HostRuntime) {
    let alloc = rt.alloc();
    let wrong = union_under(alloc, Ok(DataType::Int32), &[], Ok(Vec::new(alloc)), None);
    assert!(rt; refusal(wrong) == Some(Error::OutOfSpec(SpecError::WrongType)));
    let two_fields = union_type(alloc, number_fields(alloc, 2), None, UnionMode::Sparse);
    let fewer = union_under(alloc, two_fields, &[], no_numbers(alloc, 1), None);
    assert!(rt; refusal(fewer) == Some(Error::OutOfSpec(SpecError::FieldCount)));
    let other = union_type(alloc, number_and_string(alloc), None, UnionMode::Sparse);
    let other = union_under(alloc, other, &[], no_numbers(alloc, 2), None);
    assert!(rt; refusal(other) == Some(Error::OutOfSpec(SpecError::ChildType)));
    let longer = single(alloc, None, &[0], &[7], Some(&[0, 0]));
    assert!(rt; refusal(longer) == Some(Error::OutOfSpec(SpecError::OffsetCount)));
    let ids = single(alloc, Some(&[1, 2]), &[1], &[7], None);
    assert!(rt; refusal(ids) == Some(Error::OutOfSpec(SpecError::IdCount)));
}

#[test]
fn offsets_by_the_mode(rt: HostRuntime) {
    let alloc = rt.alloc();
    let mode = Some(Error::OutOfSpec(SpecError::UnionMode));
    let dense = union_type(alloc, number_fields(alloc, 1), None, UnionMode::Dense);
    let without = union_under(alloc, dense, &[], no_numbers(alloc, 1), None);
    assert!(rt; refusal(without) == mode);
    let sparse = union_type(alloc, number_fields(alloc, 1), None, UnionMode::Sparse);
    let given = union_under(alloc, sparse, &[], no_numbers(alloc, 1), Some(&[]));
    assert!(rt; refusal(given) == mode);
}

/// Unions of two fields differ, also in lists, but not under nulls; what is not picked does not count; unions of unions.
#[test]
fn unions_of_two_fields_differ(rt: HostRuntime) {
    let alloc = rt.alloc();
    let first = sparse(alloc, None, &[0], &[7], &[7]);
    let second = sparse(alloc, None, &[1], &[7], &[7]);
    assert!(rt; are_same(first, second) == Ok(false));
    let first = sparse(alloc, None, &[0], &[7], &[7]);
    assert!(rt; are_same(first, sparse(alloc, None, &[0], &[7], &[8])) == Ok(true));
    let first = sparse(alloc, None, &[0], &[7], &[7]);
    assert!(rt; are_same(first, sparse(alloc, None, &[0], &[8], &[7])) == Ok(false));
}

/// A list of one pick.
fn listed(alloc: Global, types: &[i8], bits: Option<&[bool]>) -> Result<AnyArray, Error> {
    let picks = sparse(alloc, None, types, &[7], &[7]).map(|array| array.boxed());
    any_list(list_array(alloc, picks, &[0, 1], bits))
}

#[test]
fn lists_of_unions(rt: HostRuntime) {
    let alloc = rt.alloc();
    let first = listed(alloc, &[0], None);
    assert!(rt; are_same(first, listed(alloc, &[1], None)) == Ok(false));
    let null = [false].as_slice();
    let first = listed(alloc, &[0], Some(null));
    assert!(rt; are_same(first, listed(alloc, &[1], Some(null))) == Ok(true));
}

/// Two dense picks of the first slot of the first of two fields.
fn first_twice(alloc: Global, first: &[i32], second: &[i32]) -> Result<UnionArray, Error> {
    let data_type = union_type(alloc, number_fields(alloc, 2), None, UnionMode::Dense);
    let fields = two(alloc, numbers(alloc, first), numbers(alloc, second));
    union_under(alloc, data_type, &[0, 0], fields, Some(&[0, 0]))
}

#[test]
fn skipped_columns_are_not_checked(rt: HostRuntime) {
    let alloc = rt.alloc();
    let array = first_twice(alloc, &[7, 8], &[7]);
    assert!(rt; are_same(array, first_twice(alloc, &[7, 9], &[5])) == Ok(true));
    let array = first_twice(alloc, &[7, 8], &[7]);
    assert!(rt; are_same(array, first_twice(alloc, &[8, 8], &[7])) == Ok(false));
}

/// A sparse union of one field, which is a union.
fn nested(alloc: Global, types: &[i8]) -> Result<UnionArray, Error> {
    let inner = union_type(alloc, number_fields(alloc, 2), None, UnionMode::Sparse);
    let field = match inner {
        Ok(inner) => Field::new(alloc, "u", inner, true),
        Err(error) => Err(error),
    };
    let fields = with(Ok(Vec::new(alloc)), field);
    let data_type = union_type(alloc, fields, None, UnionMode::Sparse);
    let picks = sparse(alloc, None, types, &[1, 2], &[1, 2]).map(|array| array.boxed());
    union_under(
        alloc,
        data_type,
        &[0, 0],
        with(Ok(Vec::new(alloc)), picks),
        None,
    )
}

#[test]
fn unions_of_unions(rt: HostRuntime) {
    let alloc = rt.alloc();
    assert!(rt; are_same(nested(alloc, &[0, 1]), nested(alloc, &[0, 1])) == Ok(true));
    assert!(rt; are_same(nested(alloc, &[0, 1]), nested(alloc, &[0, 0])) == Ok(false));
    let last = cut(nested(alloc, &[0, 1]), 1, 1);
    assert!(rt; are_same(last, cut(nested(alloc, &[1, 1]), 1, 1)) == Ok(true));
}

/// Whether a call gave an array that is equal; it is dropped.
fn is_given<A: PartialEq + Drop>(given: Result<A, Error>, array: &A) -> bool {
    match given {
        Ok(given) => {
            let same = given == *array;
            drop(given);
            same
        }
        Err(_) => false,
    }
}

/// Copies and slices of unions with memory; their types.
#[test]
fn copies_with_memory(rt: HostRuntime) {
    let alloc = rt.alloc();
    let array = in_turn(alloc).expect(&rt, "four picks");
    assert!(rt; is_given(array.clone(alloc), &array));
    let any = array.to_boxed(alloc).expect(&rt, "a copy");
    assert!(rt; is_given(any.clone(alloc), &any));
    assert!(rt; any.null_count() == 0);
    assert!(rt; any.validity().is_none());
    assert!(rt; array.len() == 4);
    let cut = Array::sliced(&array, alloc, 1, 2).expect(&rt, "a cut");
    assert!(rt; cut.len() == 2);
    assert!(rt; !cut.is_null(0));
    let shared = array.arced(alloc).expect(&rt, "a shared array");
    assert!(rt; shared.len() == 4);
}

// The test passes whichever allocation fails.
#[test]
fn without_memory(rt: HostRuntime) {
    let Some(array) = unless_without_memory(&rt, in_turn(rt.alloc())) else {
        return;
    };
    if let Some(copy) = unless_without_memory(&rt, array.clone(rt.alloc())) {
        assert!(rt; copy == array);
    }
    assert!(rt; array.len() == 4);
    if let Some(scalar) = unless_without_memory(&rt, array.value(rt.alloc(), 1)) {
        assert!(rt; scalar.is_valid());
    }
    if let Some(shared) = unless_without_memory(&rt, array.arced(rt.alloc())) {
        assert!(rt; shared.len() == 4);
    }
}

#[test]
fn a_union_takes_no_validity(rt: HostRuntime) {
    let alloc = rt.alloc();
    let refused = Some(Error::InvalidArgumentError(ArgumentError::NoValidity));
    let array = in_turn(alloc).expect(&rt, "four picks");
    assert!(rt; array.with_validity(alloc, None).err() == refused);
    let bits = validity(alloc, Some(&[true; 4])).expect(&rt, "four bits");
    let mut any = array.boxed();
    assert!(rt; any.set_validity(bits).err() == refused);
    assert!(rt; any.len() == 4);
}

#[test]
fn what_a_type_has(rt: HostRuntime) {
    let alloc = rt.alloc();
    let array = in_turn(alloc).expect(&rt, "four picks");
    let data_type = array.data_type();
    assert!(rt; data_type.to_physical_type() == PhysicalType::Union);
    assert!(rt; UnionArray::is_sparse(data_type));
    assert!(rt; UnionArray::get_fields(data_type).len() == 2);
    assert!(rt; array.types().len() == 4);
    assert!(rt; array.fields().len() == 2);
    let array = single(alloc, None, &[0], &[7], Some(&[0])).expect(&rt, "a pick");
    let data_type = array.data_type();
    assert!(rt; data_type.to_physical_type() == PhysicalType::Union);
    assert!(rt; !UnionArray::is_sparse(data_type));
}

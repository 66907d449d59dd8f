//! Null and empty arrays of any data type: arrow2's `new_null_array` and `new_empty_array`.
mod first_error;
mod none;

ghost use Rattle.std.specs.Prelude.{◌≡◌, IfOk, IsOkUnless, MatchResult, None, IsErrOf, alloc_error};
ghost use Rattle.nest_memory.specs.TypeOf.{field_list_of};
ghost use Rattle.nest_memory.specs.declared.datatypes.physical_type.PhysicalType.{PhysicalType as Physical};
ghost use Rattle.nest_model.specs.Nulls.{Fills, values_below, empty_error, error_of, fields_error, type_error};
ghost use Rattle.nest_model.specs.NullLayout.{null_array as nulls_of, null_children};
ghost use Rattle.nest_flat.specs.AnyPrimitive.{primitive_layout};
ghost use Rattle.nest_flat.specs.NewArrays.{IsNewArray};
ghost use Rattle.nest_array.specs.Words.{AcceptsKind, HasNone, HasNulls, Memory, RefusesKind, RefusesType, layout_of, layouts_of, physical_type, type_of};

use crate::any::AnyArray;
use crate::array::{ArrayParts, ArrayVariant};
use crate::dictionary::DictionaryArray;
use crate::fixed_size_binary::FixedSizeBinaryArray;
use crate::fixed_size_list::FixedSizeListArray;
use crate::list::ListArray;
use crate::list::large::LargeListArray;
use crate::map::MapArray;
use crate::null::NullArray;
use crate::struct_::StructArray;
use crate::union::UnionArray;
pub(crate) use first_error::dictionary_error;
use first_error::{first_error, kind_error};
use nest_flat::any_primitive::AnyPrimitive;
use nest_flat::binary::BinaryArray;
use nest_flat::boolean::BooleanArray;
use nest_flat::utf8::Utf8Array;
use nest_memory::datatypes::DataType;
use nest_memory::datatypes::field::Field;
use nest_memory::datatypes::physical_type::PhysicalType;
use nest_memory::error::Error;
use nest_model::fill::Fill;
use std::alloc::Global;

/// Returns an empty array of this data type. Its children are empty, and no array in it has a validity.
///
/// # Errors
/// The first in the data type, a type before its children, and these from the left:
/// - `NotYetImplemented` for a floating-point type.
/// - `ZeroSize` for a fixed size of 0.
/// - `MapInner` for a map whose entries are not a struct of two fields.
/// - `NoFields` for a struct without fields.
/// - `TooManyFields` for a union of more than 127 fields.
/// - `IdCount` for a union with another number of ids than fields.
/// - `IdRange` for a union with an id that is not from 0 to 127.
///
/// Then `Memory` if an allocation fails.
pub fn new_empty_array(alloc: Global, data_type: DataType) -> Result<AnyArray, Error>
    ensures { let t = type_of data_type in MatchResult result
        (λ a. (empty_error t ≡ None) × HasNone t (layout_of a))
        (λ e. RefusesType e (empty_error t)) }
{
    checked(alloc, data_type, 0, Fill::Nothing)
}

/// Returns an array of `length` nulls of this data type.
///
/// The slots of a union select a null of the field of its first id, or of its first field if it has no ids.
/// The child of a list or a map is empty. The values of a dictionary are one null.
///
/// # Errors
/// Those of `new_empty_array`, and for each type after its own:
/// - `UnionType` for a union without fields, if `length` is not 0.
/// - `Overflow` if a number of items, bytes or offsets overflows `usize`, or the length of a dense union is past 2^31.
///
/// Then `Memory` if an allocation fails.
pub fn new_null_array(alloc: Global, data_type: DataType, length: usize) -> Result<AnyArray, Error>
    ensures { let t = type_of data_type in MatchResult result
        (λ a. (type_error t length ≡ None) × HasNulls t length (layout_of a))
        (λ e. RefusesType e (type_error t length)) }
{
    checked(alloc, data_type, length, Fill::Nulls)
}

// Returns the number of values of a dictionary array of this fill.
pub(crate) fn values_below(fill: Fill) -> usize
    ensures { result ≡ values_below fill }
{
    match fill {
        Fill::Nulls => 1,
        Fill::Nothing => 0,
    }
}

fn checked(alloc: Global, data_type: DataType, length: usize, fill: Fill) -> Result<AnyArray, Error>
    requires { Fills fill length }
    ensures { let t = type_of data_type in MatchResult result
        (λ a. (error_of t length fill ≡ None) × (layout_of a ≡ nulls_of t length fill))
        (λ e. RefusesType e (error_of t length fill)) }
{
    let array = match first_error(&data_type, length, fill) {
        Some(error) => Err(error),
        None => null_array(alloc, &data_type, length, fill),
    };
    drop(data_type);
    array
}

/// An array type of one physical type, with a constructor of nulls.
pub(crate) trait Nulls: ArrayParts {
    ghost KIND: { Physical };

    const KIND: PhysicalType;

    /// Returns `length` nulls of a data type that is already checked.
    fn of_nulls(
        alloc: Global,
        data_type: &DataType,
        length: usize,
        fill: Fill,
    ) -> Result<Self, Error>
        requires kind { physical_type (type_of data_type.now) ≡ KIND }
        requires unrefused { error_of (type_of data_type.now) length fill ≡ None }
        requires valid { Fills fill length }
        ensures ok { IfOk result (λ a. Self.ArrayParts.parts a ≡ nulls_of (type_of data_type.now) length fill) }
        ensures err { IsOkUnless result (Memory alloc_error) };
}

/// `new_empty` of each array type.
pub(crate) fn empty<A: Nulls>(alloc: Global, data_type: DataType) -> Result<A, Error>
    ensures { let t = type_of data_type in MatchResult result
        (λ a. AcceptsKind A.KIND t (empty_error t) × HasNone t (A.ArrayParts.parts a))
        (λ e. RefusesKind e A.KIND t (empty_error t)) }
{
    checked_kind(alloc, data_type, 0, Fill::Nothing)
}

/// `new_null` of each array type.
pub(crate) fn null<A: Nulls>(alloc: Global, data_type: DataType, length: usize) -> Result<A, Error>
    ensures { let t = type_of data_type in MatchResult result
        (λ a. AcceptsKind A.KIND t (type_error t length) × HasNulls t length (A.ArrayParts.parts a))
        (λ e. RefusesKind e A.KIND t (type_error t length)) }
{
    checked_kind(alloc, data_type, length, Fill::Nulls)
}

fn checked_kind<A: Nulls>(
    alloc: Global,
    data_type: DataType,
    length: usize,
    fill: Fill,
) -> Result<A, Error>
    requires { Fills fill length }
    ensures { let t = type_of data_type in MatchResult result
        (λ a. IsNewArray A.KIND t length fill (A.ArrayParts.parts a)) (λ e. RefusesKind e A.KIND t (error_of t length fill)) }
{
    let array = match kind_error(&data_type, A::KIND, length, fill) {
        Some(error) => Err(error),
        None => A::of_nulls(alloc, &data_type, length, fill),
    };
    drop(data_type);
    array
}

// Returns an array as an `AnyArray`, or the error.
fn boxed<A: ArrayVariant>(made: Result<A, Error>) -> Result<AnyArray, Error>
    ensures { MatchResult made
        (λ a. MatchResult result (λ b. layout_of b ≡ A.ArrayParts.parts a) (λ _. ⊥))
        (λ e. IsErrOf result e) }
{
    match made {
        Ok(array) => Ok(array.into_any()),
        Err(error) => Err(error),
    }
}

fn boxed_primitive(made: Result<AnyPrimitive, Error>) -> Result<AnyArray, Error>
    ensures { MatchResult made
        (λ a. MatchResult result (λ b. layout_of b ≡ primitive_layout a) (λ _. ⊥))
        (λ e. IsErrOf result e) }
{
    match made {
        Ok(array) => Ok(AnyArray::Primitive(array)),
        Err(error) => Err(error),
    }
}

/// Returns `length` nulls of a data type that is already checked.
#[cycle(nulls)]
pub(crate) fn null_array(
    alloc: Global,
    data_type: &DataType,
    length: usize,
    fill: Fill,
) -> Result<AnyArray, Error>
    requires unrefused { error_of (type_of data_type.now) length fill ≡ None }
    requires valid { Fills fill length }
    ensures ok { IfOk result (λ a. layout_of a ≡ nulls_of (type_of data_type.now) length fill) }
    ensures err { IsOkUnless result (Memory alloc_error) }
{
    match data_type.to_physical_type() {
        PhysicalType::Null => boxed(NullArray::nulls(alloc, data_type, length, fill)),
        PhysicalType::Boolean => { boxed(BooleanArray::of_nulls(alloc, data_type, length, fill)) }
        PhysicalType::Primitive(kind) => {
            boxed_primitive(AnyPrimitive::of_nulls(alloc, kind, data_type, length, fill))
        }
        PhysicalType::Binary => {
            boxed(BinaryArray::<i32>::of_nulls(alloc, data_type, length, fill))
        }
        PhysicalType::LargeBinary => {
            boxed(BinaryArray::<i64>::of_nulls(alloc, data_type, length, fill))
        }
        PhysicalType::Utf8 => boxed(Utf8Array::<i32>::of_nulls(alloc, data_type, length, fill)),
        PhysicalType::LargeUtf8 => {
            boxed(Utf8Array::<i64>::of_nulls(alloc, data_type, length, fill))
        }
        PhysicalType::FixedSizeBinary => {
            boxed(FixedSizeBinaryArray::nulls(alloc, data_type, length, fill))
        }
        PhysicalType::FixedSizeList => {
            boxed(FixedSizeListArray::nulls(alloc, data_type, length, fill))
        }
        PhysicalType::List => boxed(ListArray::nulls(alloc, data_type, length, fill)),
        PhysicalType::LargeList => boxed(LargeListArray::nulls(alloc, data_type, length, fill)),
        PhysicalType::Struct => boxed(StructArray::nulls(alloc, data_type, length, fill)),
        PhysicalType::Map => boxed(MapArray::nulls(alloc, data_type, length, fill)),
        PhysicalType::Union => boxed(UnionArray::nulls(alloc, data_type, length, fill)),
        PhysicalType::Dictionary(_key) => {
            boxed(DictionaryArray::nulls(alloc, data_type, length, fill))
        }
    }
}

/// Returns an array of `length` nulls for each field.
#[cycle(nulls)]
pub(crate) fn null_fields(
    alloc: Global,
    fields: &[Field],
    length: usize,
    fill: Fill,
) -> Result<Vec<AnyArray>, Error>
    requires unrefused { fields_error (field_list_of fields.now) length fill ≡ None }
    requires valid { Fills fill length }
    ensures ok { IfOk result (λ v. layouts_of v.items ≡ null_children (field_list_of fields.now) length fill) }
    ensures err { IsOkUnless result (Memory alloc_error) }
{
    let mut children = Vec::with_capacity(alloc, fields.len())?;
    for i in 0..fields.len() {
        children.push(null_array(alloc, fields[i].data_type(), length, fill)?)?;
    }
    Ok(children)
}

//! Empty builders of a data type.
ghost use Rattle.std.specs.Prelude.{◌≡◌, ◌∷◌, ◌++◌, [], IfErr, IfOk, IsOkAnd, IsOkUnless, None, OnOk, alloc_error, false, true};
ghost use Rattle.nest_any.specs.Flat.{flat_layout};
ghost use Rattle.nest_any.specs.Trees.{tree_of, trees_of};
ghost use Rattle.nest_any.specs.Words.{IsComplete, Memory, Pass, builder_len, builder_type, is_flat, nested_checks, nested_over, own_slots, physical_type, type_of};
ghost use Rattle.json_read.specs.DistinctNames.{HasDistinctFieldNames};
ghost use Rattle.json_read.specs.EmptyBuilders.{AreEmptyOf, HoldsEmpty, IsEmptyOf};
ghost use Rattle.json_read.specs.UnsupportedTypes.{IsNewBuilderError, unsupported_fields, unsupported_type};
ghost use Rattle.nest_memory.specs.TypeOf.{field_list_of};
ghost use Rattle.nest_memory.specs.declared.datatypes.physical_type.PhysicalType.TheVariants as physical;
ghost use Rattle.nest_model.specs.Fits.{Fits};
ghost use Rattle.nest_model.specs.Layout as layouts;
ghost use Rattle.nest_model.specs.Layout.{layout_type};
ghost use Rattle.nest_model.specs.Meaning.{slots_of};

use crate::error::NewBuilderError;
use crate::natives::natives;
use crate::unsupported::check_type;
use nest_any::{AnyMutableArray, AnyMutableFlat, MutableStructArray};
use nest_build::fixed_size_binary::MutableFixedSizeBinaryArray;
use nest_build::null::MutableNullArray;
use nest_flat::binary::mutable::MutableBinaryArray;
use nest_flat::boolean::mutable::MutableBooleanArray;
use nest_flat::utf8::mutable::MutableUtf8Array;
use nest_memory::datatypes::DataType;
use nest_memory::datatypes::field::Field;
use nest_memory::datatypes::physical_type::PhysicalType;
use nest_memory::error::Error;
use std::alloc::Global;

/// Returns an empty builder of the data type.
///
/// # Errors
/// - `Type`: JSON of the type cannot be read. Of several reasons it is the first, a type before its children, these in order.
/// - `Memory`: an allocation fails.
pub fn new_builder(alloc: Global, data_type: &DataType) -> Result<AnyMutableArray, NewBuilderError>
    ensures supported { OnOk result (unsupported_type (type_of data_type.now) ≡ None) }
    ensures complete { IfOk result (λ b. IsComplete (tree_of b)) }
    ensures no_slot { IfOk result (λ b. own_slots (tree_of b) ≡ []) }
    ensures no_row { IfOk result (λ b. builder_len (tree_of b) ≡ 0) }
    ensures same_type { IfOk result (λ b. builder_type (tree_of b) ≡ type_of data_type.now) }
    ensures distinct { OnOk result (HasDistinctFieldNames (type_of data_type.now)) }
    ensures error { IfErr result (λ e. IsNewBuilderError e (unsupported_type (type_of data_type.now))) }
{
    if let Err(error) = check_type(alloc, data_type) {
        return Err(error);
    }
    match made(alloc, data_type) {
        Ok(builder) => Ok(builder),
        Err(_) => Err(NewBuilderError::Memory),
    }
}

/// Returns an empty builder of a supported data type.
#[cycle(made)]
fn made(alloc: Global, data_type: &DataType) -> Result<AnyMutableArray, Error>
    requires { unsupported_type (type_of data_type.now) ≡ None }
    ensures ok { IfOk result (λ b. IsEmptyOf (type_of data_type.now) (tree_of b)) }
    ensures memory { IsOkUnless result (Memory alloc_error) }
{
    match data_type.to_physical_type() {
        PhysicalType::List | PhysicalType::LargeList | PhysicalType::FixedSizeList => {
            match data_type.item_type() {
                Some(items) => nested(alloc, data_type, items),
                None => unreachable!(),
            }
        }
        PhysicalType::Dictionary(_) => match data_type.value_type() {
            Some(values) => nested(alloc, data_type, values),
            None => unreachable!(),
        },
        PhysicalType::Struct => records(alloc, data_type),
        PhysicalType::Union | PhysicalType::Map => unreachable!(),
        PhysicalType::Null => nulls(alloc, data_type),
        PhysicalType::Boolean
        | PhysicalType::Primitive(_)
        | PhysicalType::Binary
        | PhysicalType::FixedSizeBinary
        | PhysicalType::LargeBinary
        | PhysicalType::Utf8
        | PhysicalType::LargeUtf8 => leaf(alloc, data_type),
    }
}

/// Returns an empty builder of lists or dictionaries, with a child builder of their items or values.
#[cycle(made)]
fn nested(alloc: Global, data_type: &DataType, inner: &DataType) -> Result<AnyMutableArray, Error>
    requires holds { HoldsEmpty (type_of data_type.now) (type_of inner.now) }
    requires supported { unsupported_type (type_of inner.now) ≡ None }
    ensures ok { IfOk result (λ b. IsEmptyOf (type_of data_type.now) (tree_of b)) }
    ensures memory { IsOkUnless result (Memory alloc_error) }
{
    match made(alloc, inner) {
        Ok(child) => over(alloc, data_type, child),
        Err(error) => Err(error),
    }
}

/// Returns an empty builder of the data type over its child builder.
fn over(
    alloc: Global,
    data_type: &DataType,
    child: AnyMutableArray,
) -> Result<AnyMutableArray, Error>
    requires complete { IsComplete (tree_of child) }
    requires fits { Pass (nested_checks (type_of data_type.now) (tree_of child)) }
    ensures ok { IfOk result (λ b. tree_of b ≡ nested_over (type_of data_type.now) (tree_of child)) }
    ensures memory { IsOkUnless result (Memory alloc_error) }
{
    match data_type.clone(alloc) {
        Ok(owned) => AnyMutableArray::try_nested(alloc, owned, child),
        Err(error) => {
            drop(child);
            Err(error)
        }
    }
}

/// Returns an empty builder of structs, with a child builder for each field.
#[cycle(made)]
fn records(alloc: Global, data_type: &DataType) -> Result<AnyMutableArray, Error>
    requires kind { physical_type (type_of data_type.now) ≡ physical.Struct }
    requires supported { unsupported_type (type_of data_type.now) ≡ None }
    ensures ok { IfOk result (λ b. IsEmptyOf (type_of data_type.now) (tree_of b)) }
    ensures memory { IsOkUnless result (Memory alloc_error) }
{
    match children(alloc, data_type.fields()) {
        Ok(children) => match data_type.clone(alloc) {
            Ok(owned) => {
                let records = MutableStructArray::new(alloc, owned, children);
                Ok(AnyMutableArray::Struct(records))
            }
            Err(error) => {
                drop(children);
                Err(error)
            }
        },
        Err(error) => Err(error),
    }
}

/// Returns an empty builder for each field.
#[cycle(made)]
fn children(alloc: Global, fields: &[Field]) -> Result<Vec<AnyMutableArray>, Error>
    requires { unsupported_fields (field_list_of fields.now) ≡ None }
    ensures ok { IfOk result (λ v. AreEmptyOf (field_list_of fields.now) (trees_of v.items)) }
    ensures memory { IsOkUnless result (Memory alloc_error) }
{
    let mut children = Vec::new(alloc);
    for i in 0..fields.len() {
        let child = made(alloc, fields[i].data_type());
        if let Err(error) = add(&mut children, child) {
            drop(children);
            return Err(error);
        }
    }
    Ok(children)
}

/// Adds a builder to the children, or returns the error that it is.
fn add(
    children: &mut Vec<AnyMutableArray>,
    made: Result<AnyMutableArray, Error>,
) -> Result<(), Error>
    requires { IsOkUnless made (Memory alloc_error) }
    ensures ok { OnOk result (IsOkAnd made (λ b. children.new.items ≡ children.old.items ++ b ∷ [])) }
    ensures memory { IsOkUnless result (Memory alloc_error) }
{
    match made {
        Ok(child) => match children.push(child) {
            Ok(()) => Ok(()),
            Err(refused) => Err(refused.into()),
        },
        Err(error) => Err(error),
    }
}

/// Returns an empty builder of nulls.
fn nulls(alloc: Global, data_type: &DataType) -> Result<AnyMutableArray, Error>
    requires { physical_type (type_of data_type.now) ≡ physical.Null }
    ensures ok { IfOk result (λ b. IsEmptyOf (type_of data_type.now) (tree_of b)) }
    ensures memory { IsOkUnless result (Memory alloc_error) }
{
    let owned = data_type.clone(alloc)?;
    Ok(AnyMutableArray::Null(MutableNullArray::new(alloc, owned, 0)))
}

/// Returns an empty builder of a type without children.
fn leaf(alloc: Global, data_type: &DataType) -> Result<AnyMutableArray, Error>
    requires kind { is_flat (physical_type (type_of data_type.now)) ≡ true }
    requires supported { unsupported_type (type_of data_type.now) ≡ None }
    ensures ok { IfOk result (λ b. IsEmptyOf (type_of data_type.now) (tree_of b)) }
    ensures memory { IsOkUnless result (Memory alloc_error) }
{
    match flat(alloc, data_type) {
        Ok(builder) => Ok(AnyMutableArray::Flat(builder)),
        Err(error) => Err(error),
    }
}

/// Returns an empty builder of a primitive, boolean or binary type.
fn flat(alloc: Global, data_type: &DataType) -> Result<AnyMutableFlat, Error>
    requires kind { is_flat (physical_type (type_of data_type.now)) ≡ true }
    requires supported { unsupported_type (type_of data_type.now) ≡ None }
    ensures none { IfOk result (λ b. slots_of (flat_layout b) ≡ []) }
    ensures same_type { IfOk result (λ b. layout_type (flat_layout b) ≡ type_of data_type.now) }
    ensures memory { IsOkUnless result (Memory alloc_error) }
{
    match data_type.to_physical_type() {
        PhysicalType::Boolean => {
            let owned = data_type.clone(alloc)?;
            Ok(AnyMutableFlat::Boolean(MutableBooleanArray::new(alloc).to(owned)))
        }
        PhysicalType::Primitive(kind) => {
            let owned = data_type.clone(alloc)?;
            Ok(AnyMutableFlat::Primitive(natives(alloc, kind, owned)))
        }
        PhysicalType::Binary => Ok(AnyMutableFlat::Binary(MutableBinaryArray::new(alloc)?)),
        PhysicalType::LargeBinary => {
            Ok(AnyMutableFlat::LargeBinary(MutableBinaryArray::new(alloc)?))
        }
        PhysicalType::Utf8 => Ok(AnyMutableFlat::Utf8(MutableUtf8Array::new(alloc)?)),
        PhysicalType::LargeUtf8 => Ok(AnyMutableFlat::LargeUtf8(MutableUtf8Array::new(alloc)?)),
        PhysicalType::FixedSizeBinary => Ok(AnyMutableFlat::FixedSizeBinary(bytes(
            alloc, data_type,
        )?)),
        _ => unreachable!(),
    }
}

/// Returns an empty builder of fixed-size binary.
fn bytes(alloc: Global, data_type: &DataType) -> Result<MutableFixedSizeBinaryArray, Error>
    requires { Fits (layouts.fixed_size_binary (type_of data_type.now) [] None) }
    ensures ok { IfOk result (λ b. b ≡ layouts.fixed_size_binary (type_of data_type.now) [] None) }
    ensures memory { IsOkUnless result (Memory alloc_error) }
{
    let owned = data_type.clone(alloc)?;
    MutableFixedSizeBinaryArray::try_new(owned, Vec::new(alloc), None)
}

//! Builders of records of a number and a text, and of lists of them.
ghost use Rattle.std.specs.Prelude.{IfOk};
ghost use Rattle.nest_any.specs.Trees.{tree_of, trees_of};
ghost use Rattle.nest_model.specs.BuilderAddRow.{AreEachComplete, HasCompleteChildren};
ghost use Rattle.nest_model.specs.BuilderComplete.{IsComplete};

use nest_any::{AnyMutableArray, AnyMutableFlat, MutableStructArray};
use nest_build::array::MutableArray;
use nest_flat::any_primitive::mutable::AnyMutablePrimitive;
use nest_flat::primitive::mutable::MutablePrimitiveArray;
use nest_flat::utf8::mutable::MutableUtf8Array;
use nest_memory::datatypes::DataType;
use nest_memory::datatypes::field::Field;
use nest_memory::error::{ArgumentError, Error};
use std::alloc::{AllocError, Global};

pub const UNFINISHED: Error = Error::InvalidArgumentError(ArgumentError::Incomplete);

fn texts(alloc: Global) -> Result<AnyMutableArray, Error>
    ensures { IfOk result (λ b. IsComplete (tree_of b)) }
{
    Ok(AnyMutableArray::Flat(AnyMutableFlat::Utf8(MutableUtf8Array::new(alloc)?)))
}

fn numbers(alloc: Global) -> AnyMutableArray
    ensures { IsComplete (tree_of result) }
{
    AnyMutableArray::Flat(AnyMutableFlat::Primitive(AnyMutablePrimitive::Int64(
        MutablePrimitiveArray::new(alloc),
    )))
}

/// Records of a number and a text.
fn record_type(alloc: Global) -> Result<DataType, Error> {
    let number = Field::new(alloc, "number", DataType::Int64, true)?;
    let text = Field::new(alloc, "text", DataType::Utf8, true)?;
    Ok(DataType::Struct(vec![in alloc; number, text]?))
}

/// Lists of such records.
fn list_type(alloc: Global) -> Result<DataType, Error> {
    let records = record_type(alloc)?;
    let items = Field::new(alloc, "item", records, true)?;
    Ok(DataType::List(Box::new(alloc, items)?))
}

/// The builder of records over children, if there is memory for them.
fn over<E: Drop>(
    alloc: Global,
    data_type: DataType,
    values: Result<Vec<AnyMutableArray>, E>,
) -> Result<MutableStructArray, Error>
    requires { IfOk values (λ vs. AreEachComplete (trees_of vs.items)) }
    ensures { IfOk result (λ b. HasCompleteChildren b) }
{
    match values {
        Ok(values) => MutableStructArray::try_new(alloc, data_type, values, None),
        Err(refused) => {
            drop(refused);
            drop(data_type);
            Err(Error::Memory(AllocError))
        }
    }
}

/// Builds records of a number and a text.
pub fn records(alloc: Global) -> Result<MutableStructArray, Error>
    ensures { IfOk result (λ b. HasCompleteChildren b) }
{
    let data_type = record_type(alloc)?;
    match texts(alloc) {
        Ok(texts) => over(alloc, data_type, vec![in alloc; numbers(alloc), texts]),
        Err(error) => {
            drop(data_type);
            Err(error)
        }
    }
}

/// Lists over a child that is whole.
fn nested(
    alloc: Global,
    data_type: DataType,
    child: AnyMutableArray,
) -> Result<AnyMutableArray, Error> {
    if !child.is_complete() {
        drop(child);
        drop(data_type);
        return Err(UNFINISHED);
    }
    AnyMutableArray::try_nested(alloc, data_type, child)
}

/// Builds lists of records of a number and a text.
pub fn lists(alloc: Global) -> Result<AnyMutableArray, Error> {
    let data_type = list_type(alloc)?;
    match records(alloc) {
        Ok(records) => nested(alloc, data_type, AnyMutableArray::Struct(records)),
        Err(error) => {
            drop(data_type);
            Err(error)
        }
    }
}

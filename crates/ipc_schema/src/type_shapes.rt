//! Data types without their children.
ghost use Rattle.std.specs.Prelude.{◌≡◌, map};
ghost use Rattle.nest_memory.specs.TypeOf.{type_of, field_of};
ghost use Rattle.nest_memory.specs.TypeTree.{is_pair};
ghost use Rattle.ipc_flatbuf.specs.ReadResults.{ReturnsOrRunsOut};
ghost use Rattle.ipc_schema.specs.Types.{spec_can_have, spec_only_child, spec_map_with, spec_with_children};
ghost use Rattle.ipc_schema.specs.ShapeModels.{shape_tree};

use crate::leaf_types::{Leaf, data_type_of};
use ipc_flatbuf::IpcReadError;
use nest_memory::datatypes::{DataType, Field, UnionMode};
use std::alloc::Global;

/// A data type without its children.
#[derive(Drop)]
pub enum Shape<'a> {
    /// A type that has no children.
    Leaf(Leaf<'a>),
    List,
    LargeList,
    /// The size of the lists.
    FixedSizeList(usize),
    Struct,
    /// Whether the keys are sorted.
    Map(bool),
    /// The type ids, where they are present, and the mode.
    Union(Option<Vec<i32>>, UnionMode),
}

/// Returns whether a type can have this number of children.
pub fn can_have(shape: &Shape<'_>, count: usize) -> bool
    ensures { result ≡ spec_can_have (shape_tree shape.now) count }
{
    match shape {
        Shape::Leaf(_) => count == 0,
        Shape::List | Shape::LargeList | Shape::FixedSizeList(_) | Shape::Map(_) => count == 1,
        Shape::Struct => count != 0,
        Shape::Union(_, _) => true,
    }
}

// The only child of a type.
fn only(alloc: Global, fields: Vec<Field>) -> Result<Box<Field>, IpcReadError>
    ensures { ReturnsOrRunsOut (λ b. field_of b.value) result (spec_only_child (map field_of fields.items)) }
{
    let mut fields = fields;
    if fields.len() != 1 {
        return Err(IpcReadError::ChildCount);
    }
    match fields.pop() {
        None => Err(IpcReadError::ChildCount),
        Some(field) => Ok(Box::new(alloc, field)?),
    }
}

/// Returns whether a type is a struct of two fields; an extension type of one is not.
pub fn is_pair(data_type: &DataType) -> bool
    ensures { result ≡ is_pair (type_of data_type.now) }
{
    match data_type {
        DataType::Struct(fields) => fields.len() == 2,
        _ => false,
    }
}

fn map_with(alloc: Global, fields: Vec<Field>, sorted: bool) -> Result<DataType, IpcReadError>
    ensures { ReturnsOrRunsOut type_of result (spec_map_with sorted (map field_of fields.items)) }
{
    let entries = only(alloc, fields)?;
    if is_pair(&entries.data_type) {
        Ok(DataType::Map(entries, sorted))
    } else {
        Err(IpcReadError::MapEntries)
    }
}

/// Returns the data type with its children.
///
/// # Errors
/// [`IpcReadError::ChildCount`], and [`IpcReadError::MapEntries`] where the child of a map is not a struct of two fields.
pub fn with_children(
    alloc: Global,
    shape: Shape<'_>,
    fields: Vec<Field>,
) -> Result<DataType, IpcReadError>
    ensures { ReturnsOrRunsOut type_of result (spec_with_children (shape_tree shape.entry) (map field_of fields.items)) }
{
    match shape {
        Shape::Leaf(leaf) => data_type_of(alloc, leaf),
        Shape::List => Ok(DataType::List(only(alloc, fields)?)),
        Shape::LargeList => Ok(DataType::LargeList(only(alloc, fields)?)),
        Shape::FixedSizeList(size) => Ok(DataType::FixedSizeList(only(alloc, fields)?, size)),
        Shape::Struct => Ok(DataType::Struct(fields)),
        Shape::Map(sorted) => map_with(alloc, fields, sorted),
        Shape::Union(ids, mode) => Ok(DataType::Union(fields, ids, mode)),
    }
}

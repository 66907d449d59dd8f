//! Readers of the tables of nested types.
ghost use Rattle.std.specs.Prelude.{◌≡◌, ◌<◌, ◌≤◌, ◌^◌, ◌+◌, ◌*◌, ◌++◌, ◌∷◌, [], length, option_map, OnOk, IfErr};
ghost use Rattle.ipc_flatbuf.specs.declared.error.IpcReadError.TheVariants.{Memory};
ghost use Rattle.std.specs.Int.{w32, cast_signed};
ghost use Rattle.std.specs.List.{list_all};
ghost use Rattle.ipc_flatbuf.specs.ReadResults.{ReturnsOrRunsOut, Returns};
ghost use Rattle.ipc_flatbuf.specs.Flatbuffers.{signed_at, structs_at};
ghost use Rattle.ipc_schema.specs.Types.{fixed_size_list, map as map_shape, union, spec_fixed_size_list_at, spec_map_at, spec_ids_at, spec_mode_of, spec_is_union_id, spec_are_union_ids, spec_union_at, spec_shape_at};
ghost use Rattle.ipc_schema.specs.ShapeModels.{shape_tree};

use crate::type_shapes::Shape;
use crate::type_tags::Tag;
use crate::types::{size_of, type_at};
use ipc_flatbuf::{
    IpcReadError, VectorItems, i16_field, i32_field, non_negative, offset_field, read_table,
    read_vector, u8_field, u32_at,
};
use nest_memory::datatypes::UnionMode;
use std::alloc::Global;

// The size of the lists.
#[tactic(auto, unfolding(crate::specs::Types::spec_fixed_size_list_at))]
fn fixed_size_list_at(
    bytes: &[u8],
    position: usize,
    left: usize,
) -> Result<(usize, usize), IpcReadError>
    requires { length bytes.now < 2 ^ 32 }
    ensures { Returns (λ x. (fixed_size_list x.0, x.1)) result (spec_fixed_size_list_at bytes.now position left) }
{
    let (table, left) = read_table(bytes, position, left)?;
    let width = i32_field(bytes, table, 0, 0)?;
    let size = size_of(non_negative(IpcReadError::TypeRange, width as i64)?)?;
    Ok((size, left))
}

// Whether the keys of a map are sorted.
#[tactic(auto, unfolding(crate::specs::Types::spec_map_at))]
fn map_at(bytes: &[u8], position: usize, left: usize) -> Result<(bool, usize), IpcReadError>
    requires { length bytes.now < 2 ^ 32 }
    ensures { Returns (λ x. (map_shape x.0, x.1)) result (spec_map_at bytes.now position left) }
{
    let (table, left) = read_table(bytes, position, left)?;
    let sorted = u8_field(bytes, table, 0)?;
    Ok((sorted > 0, left))
}

fn push_id(ids: &mut Vec<i32>, number: u32) -> Result<(), IpcReadError>
    ensures ok { OnOk result (ids.new.items ≡ ids.old.items ++ cast_signed w32 number ∷ []) }
    ensures memory { IfErr result (λ why. why ≡ Memory) }
{
    ids.push(number.cast_signed())?;
    Ok(())
}

fn ids_of(alloc: Global, bytes: &[u8], items: VectorItems) -> Result<Vec<i32>, IpcReadError>
    requires length { length bytes.now < 2 ^ 32 }
    requires within { items.first + items.count * 4 ≤ length bytes.now }
    ensures { ReturnsOrRunsOut (λ v. v.items) result (structs_at (signed_at w32 bytes.now) 4 items.count items.first) }
{
    let mut ids = Vec::new(alloc);
    for i in 0..items.count {
        let number = u32_at(bytes, items.first + 4 * i)?;
        push_id(&mut ids, number)?;
    }
    Ok(ids)
}

// The type ids of a union, `None` where they are absent.
#[tactic(auto, unfolding(crate::specs::Types::spec_ids_at, ipc_flatbuf::specs::Flatbuffers::vector_at, ipc_flatbuf::specs::Flatbuffers::spec_items_at))]
fn ids_at(
    alloc: Global,
    bytes: &[u8],
    position: Option<usize>,
    left: usize,
) -> Result<(Option<Vec<i32>>, usize), IpcReadError>
    requires { length bytes.now < 2 ^ 32 }
    ensures { ReturnsOrRunsOut (λ x. (option_map (λ v. v.items) x.0, x.1)) result (spec_ids_at bytes.now position left) }
{
    match position {
        None => Ok((None, left)),
        Some(position) => {
            let (items, left) = read_vector(4, bytes, position, left)?;
            let ids = ids_of(alloc, bytes, items)?;
            Ok((Some(ids), left))
        }
    }
}

/// Returns the union mode of a number (Schema.fbs, enum `UnionMode`).
pub fn mode_of(number: usize) -> Result<UnionMode, IpcReadError>
    ensures { result ≡ spec_mode_of number }
{
    match number {
        0 => Ok(UnionMode::Sparse),
        1 => Ok(UnionMode::Dense),
        _ => Err(IpcReadError::TypeRange),
    }
}

fn is_union_id(id: i32) -> bool
    ensures { result ≡ spec_is_union_id id }
{
    0 <= id && id < 128
}

fn is_each_union_id(ids: &[i32]) -> bool
    ensures { result ≡ list_all spec_is_union_id ids.now }
{
    ids.iter().all(|id| is_union_id(*id))
}

/// Returns whether there is a type id from 0 to 127 for each of `count` fields, of which there are at most 127.
///
/// Absent type ids are the indices of the fields.
pub fn are_union_ids(ids: &Option<Vec<i32>>, count: usize) -> bool
    ensures { result ≡ spec_are_union_ids (option_map (λ v. v.items) ids.now) count }
{
    match ids {
        None => count < 128,
        Some(ids) => count < 128 && ids.len() == count && is_each_union_id(ids),
    }
}

#[tactic(auto, unfolding(crate::specs::Types::spec_union_at))]
fn union_at(
    alloc: Global,
    count: usize,
    bytes: &[u8],
    position: usize,
    left: usize,
) -> Result<(Option<Vec<i32>>, UnionMode, usize), IpcReadError>
    requires { length bytes.now < 2 ^ 32 }
    ensures { ReturnsOrRunsOut (λ x. (union (option_map (λ v. v.items) x.0) x.1, x.2)) result (spec_union_at count bytes.now position left) }
{
    let (table, left) = read_table(bytes, position, left)?;
    let number = i16_field(bytes, table, 0, 0)?;
    let to = offset_field(bytes, table, 1)?;
    let (ids, left) = ids_at(alloc, bytes, to, left)?;
    let mode = mode_of(non_negative(IpcReadError::TypeRange, number as i64)?)?;
    if are_union_ids(&ids, count) {
        Ok((ids, mode, left))
    } else {
        Err(IpcReadError::UnionIds)
    }
}

/// Returns the type of a type table without its children, of which there are `count`, and the budget left.
#[tactic(auto, unfolding(crate::specs::Types::spec_bare_at))]
pub fn shape_at(
    alloc: Global,
    tag: Tag,
    count: usize,
    bytes: &[u8],
    position: usize,
    left: usize,
) -> Result<(Shape<'_>, usize), IpcReadError>
    requires { length bytes.now < 2 ^ 32 }
    ensures { ReturnsOrRunsOut (λ x. (shape_tree x.0, x.1)) result (spec_shape_at tag count bytes.now position left) }
{
    match tag {
        Tag::Leaf(tag) => {
            let (leaf, left) = type_at(tag, bytes, position, left)?;
            Ok((Shape::Leaf(leaf), left))
        }
        Tag::List => {
            let (_, left) = read_table(bytes, position, left)?;
            Ok((Shape::List, left))
        }
        Tag::LargeList => {
            let (_, left) = read_table(bytes, position, left)?;
            Ok((Shape::LargeList, left))
        }
        Tag::FixedSizeList => {
            let (size, left) = fixed_size_list_at(bytes, position, left)?;
            Ok((Shape::FixedSizeList(size), left))
        }
        Tag::Struct => {
            let (_, left) = read_table(bytes, position, left)?;
            Ok((Shape::Struct, left))
        }
        Tag::Map => {
            let (sorted, left) = map_at(bytes, position, left)?;
            Ok((Shape::Map(sorted), left))
        }
        Tag::Union => {
            let (ids, mode, left) = union_at(alloc, count, bytes, position, left)?;
            Ok((Shape::Union(ids, mode), left))
        }
    }
}

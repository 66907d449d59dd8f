//! Invalid parts of unions.

use crate::refusals::records::clones;
use crate::refusals::{Trial, other_layout, other_type, shortened, spec, trial};
use nest_array::{AnyArray, UnionArray, new_null_array};
use nest_memory::buffer::Buffer;
use nest_memory::datatypes::{DataType, Field, UnionMode};
use nest_memory::error::{Error, SpecError};
use random::numbers::Generator;
use random::types::{logical, meant_field};
use std::alloc::Global;

/// What a union is made of.
#[derive(Drop)]
struct Parts {
    own: DataType,
    types: Buffer<i8>,
    fields: Vec<AnyArray>,
    offsets: Option<Buffer<i32>>,
}

fn parts(alloc: Global, a: &UnionArray) -> Result<Parts, Error> {
    Ok(Parts {
        own: a.data_type().clone(alloc)?,
        types: a.types().clone()?,
        fields: clones(alloc, a.fields())?,
        offsets: match a.offsets() {
            Some(offsets) => Some(offsets.clone()?),
            None => None,
        },
    })
}

pub fn picks(alloc: Global, rng: &mut Generator, a: &UnionArray) -> Result<Trial, Error> {
    let mut parts = parts(alloc, a)?;
    let expected = if rng.boolean() {
        invalid_type(alloc, rng, a, &mut parts)?
    } else {
        invalid_unions(alloc, rng, a, &mut parts)?
    };
    let answer = UnionArray::try_new(parts.own, parts.types, parts.fields, parts.offsets);
    Ok(trial(answer, expected))
}

/// The same fields under other ids.
fn under_ids(alloc: Global, own: &DataType, ids: Vec<i32>) -> Result<DataType, Error> {
    let DataType::Union(fields, _, mode) = logical(own) else {
        return Ok(DataType::Null);
    };
    let mut copies = Vec::with_capacity(alloc, fields.len())?;
    for field in fields {
        copies.push(field.clone(alloc)?)?;
    }
    Ok(DataType::Union(copies, Some(ids), *mode))
}

/// A field too many for types of 8 bits, each with a child.
fn too_many(alloc: Global, a: &UnionArray, parts: &mut Parts) -> Result<(), Error> {
    let mut fields = Vec::new(alloc);
    parts.fields.truncate(0);
    for _ in 0..128 {
        fields.push(Field::new(alloc, "a", DataType::Null, true)?)?;
        parts
            .fields
            .push(new_null_array(alloc, DataType::Null, a.len())?)?;
    }
    let mode = logical(a.data_type())
        .union_mode()
        .unwrap_or(UnionMode::Sparse);
    parts.own = DataType::Union(fields, None, mode);
    Ok(())
}

/// Makes invalid the type, the ids or the children.
fn invalid_type(
    alloc: Global,
    rng: &mut Generator,
    a: &UnionArray,
    parts: &mut Parts,
) -> Result<Option<Error>, Error> {
    let count = a.fields().len();
    let place = rng.below(count);
    Ok(match rng.below(7) {
        0 => {
            parts.own = other_layout(alloc, rng, a.data_type())?;
            spec(SpecError::WrongType)
        }
        1 => {
            let left_out = parts.fields.pop();
            drop(left_out);
            spec(SpecError::FieldCount)
        }
        2 => {
            let other = other_type(alloc, rng, a.fields()[place].data_type())?;
            parts.fields[place] = new_null_array(alloc, other, a.fields()[place].len())?;
            spec(SpecError::ChildType)
        }
        3 => {
            too_many(alloc, a, parts)?;
            spec(SpecError::TooManyFields)
        }
        4 => {
            let ids = vec![in alloc; 0; count + 1]?;
            parts.own = under_ids(alloc, a.data_type(), ids)?;
            spec(SpecError::IdCount)
        }
        5 => {
            let mut ids = vec![in alloc; 0; count]?;
            ids[place] = [-1, 128, 1000][rng.below(3)];
            parts.own = under_ids(alloc, a.data_type(), ids)?;
            spec(SpecError::IdRange)
        }
        _ => None,
    })
}

/// Makes invalid the types, the offsets, or how many slots a field has.
fn invalid_unions(
    alloc: Global,
    rng: &mut Generator,
    a: &UnionArray,
    parts: &mut Parts,
) -> Result<Option<Error>, Error> {
    let n = a.len();
    match rng.below(4) {
        0 if n > 0 => invalid_kind(alloc, rng, a, parts),
        1 if n > 0 => invalid_slot(alloc, rng, a, parts),
        2 if n > 0 => Ok(match a.offsets() {
            Some(offsets) => {
                parts.offsets = Some(shortened(offsets, n - 1)?);
                spec(SpecError::OffsetCount)
            }
            None => {
                parts.offsets = Some(Buffer::filled(alloc, 0, n + 1)?);
                spec(SpecError::OffsetCount)
            }
        }),
        3 => Ok(match a.offsets() {
            Some(_) => {
                parts.offsets = None;
                spec(SpecError::UnionMode)
            }
            None => {
                parts.offsets = Some(Buffer::filled(alloc, 0, n)?);
                spec(SpecError::UnionMode)
            }
        }),
        _ => Ok(None),
    }
}

/// A type that means no field.
fn invalid_kind(
    alloc: Global,
    rng: &mut Generator,
    a: &UnionArray,
    parts: &mut Parts,
) -> Result<Option<Error>, Error> {
    let DataType::Union(fields, ids, _) = logical(a.data_type()) else {
        return Ok(None);
    };
    let mut kinds = Vec::from_slice(alloc, a.types().as_slice())?;
    let kind = [-1i8, -128, 3, 7, 100][rng.below(5)];
    if meant_field(ids, kind).is_some_and(|field| field < fields.len()) {
        return Ok(None);
    }
    kinds[rng.below(a.len())] = kind;
    parts.types = Buffer::from_vec(alloc, kinds)?;
    Ok(spec(SpecError::UnionType))
}

/// An offset that names no slot of its field, or a field of a sparse union that has too few.
fn invalid_slot(
    alloc: Global,
    rng: &mut Generator,
    a: &UnionArray,
    parts: &mut Parts,
) -> Result<Option<Error>, Error> {
    let slot = rng.below(a.len());
    match a.offsets() {
        Some(offsets) => {
            let mut indices = Vec::from_slice(alloc, offsets.as_slice())?;
            let count = a.fields()[a.index(slot).0].len();
            indices[slot] = [-1, count as i32, count as i32 + 9][rng.below(3)];
            parts.offsets = Some(Buffer::from_vec(alloc, indices)?);
        }
        None => {
            let field = rng.below(parts.fields.len());
            parts.fields[field].slice(0, slot);
        }
    }
    Ok(spec(SpecError::UnionSlot))
}

//! Arrays of nulls, and arrays without a slot.
//!
//! Arrays of nulls and without a slot, and of types that have none.

use crate::cases::{CASES, Case, is_array_of};
use nest_array::{new_empty_array, new_null_array};
use nest_memory::datatypes::{DataType, Field, UnionMode};
use nest_memory::error::{ArgumentError, Error, SpecError};
use random::numbers::Generator;
use random::slot::Slot;
use random::start::START;
use random::types::{logical, meant_field, random_key_type};
use std::alloc::Global;
use std::test::Fail;

/// A null slot of a type: of a union a null of the field that its first type means.
fn null_slot(alloc: Global, data_type: &DataType) -> Result<Slot, Error> {
    let DataType::Union(fields, ids, _) = logical(data_type) else {
        return Ok(Slot::Null);
    };
    let first = ids.as_ref().map_or(0, |ids| ids[0] as i8);
    let field = meant_field(ids, first).unwrap_or(0);
    let own = null_slot(alloc, fields[field].data_type())?;
    Ok(Slot::Pick(field, Box::new(alloc, own)?))
}

#[test]
fn nulls_and_none_of_random_types(rt: HostRuntime) -> Result<(), Fail> {
    let alloc = rt.alloc();
    for case in 0..CASES {
        let mut random = Case::new(alloc, 11, case)?;
        let count = random.rng.below(9);
        let mut slots = Vec::new(alloc);
        for _ in 0..count {
            slots.push(null_slot(alloc, &random.data_type)?)?;
        }
        let nulls = new_null_array(alloc, random.data_type.clone(alloc)?, count)?;
        let fits = is_array_of(alloc, &nulls, &random.data_type, slots.as_slice())?;
        assert!(rt; fits, "{count} nulls: start {START}, case {case}");
        let none = new_empty_array(alloc, random.data_type.clone(alloc)?)?;
        let fits = is_array_of(alloc, &none, &random.data_type, &[])?;
        assert!(rt; fits, "none: start {START}, case {case}");
    }
    Ok(())
}

fn field(alloc: Global, data_type: DataType) -> Result<Field, Error> {
    Field::new(alloc, "item", data_type, true)
}

fn boxed(alloc: Global, data_type: DataType) -> Result<Box<Field>, Error> {
    Ok(Box::new(alloc, field(alloc, data_type)?)?)
}

/// So many fields of booleans.
fn booleans(alloc: Global, count: usize) -> Result<Vec<Field>, Error> {
    let mut fields = Vec::with_capacity(alloc, count)?;
    for _ in 0..count {
        fields.push(field(alloc, DataType::Boolean)?)?;
    }
    Ok(fields)
}

fn union_of(
    alloc: Global,
    rng: &mut Generator,
    count: usize,
    ids: Option<&[i32]>,
) -> Result<DataType, Error> {
    let ids = match ids {
        Some(ids) => Some(Vec::from_slice(alloc, ids)?),
        None => None,
    };
    let mode = if rng.boolean() {
        UnionMode::Dense
    } else {
        UnionMode::Sparse
    };
    Ok(DataType::Union(booleans(alloc, count)?, ids, mode))
}

/// A type of which there is no array, and why.
fn faulty(alloc: Global, rng: &mut Generator) -> Result<(DataType, Error), Error> {
    let spec = Error::OutOfSpec;
    Ok(match rng.below(10) {
        0 => (DataType::Float16, Error::NotYetImplemented),
        1 => (DataType::Float64, Error::NotYetImplemented),
        2 => (DataType::FixedSizeBinary(0), spec(SpecError::ZeroSize)),
        3 => {
            let item = boxed(alloc, DataType::Utf8)?;
            (DataType::FixedSizeList(item, 0), spec(SpecError::ZeroSize))
        }
        4 => (DataType::Struct(Vec::new(alloc)), spec(SpecError::NoFields)),
        5 => {
            let pairs = DataType::Struct(booleans(alloc, [1, 3][rng.below(2)])?);
            let map = DataType::Map(boxed(alloc, pairs)?, false);
            (map, Error::InvalidArgumentError(ArgumentError::MapInner))
        }
        6 => {
            let map = DataType::Map(boxed(alloc, DataType::Null)?, true);
            (map, Error::InvalidArgumentError(ArgumentError::MapInner))
        }
        7 => (
            union_of(alloc, rng, 128, None)?,
            spec(SpecError::TooManyFields),
        ),
        8 => {
            let count = [1, 3][rng.below(2)];
            (
                union_of(alloc, rng, count, Some(&[0, 1]))?,
                spec(SpecError::IdCount),
            )
        }
        _ => {
            let id = [-1, 128, 256][rng.below(3)];
            (
                union_of(alloc, rng, 2, Some(&[0, id]))?,
                spec(SpecError::IdRange),
            )
        }
    })
}

/// A type with that type below.
fn wrapped(alloc: Global, rng: &mut Generator, inner: DataType) -> Result<DataType, Error> {
    Ok(match rng.below(8) {
        0 => DataType::List(boxed(alloc, inner)?),
        1 => DataType::LargeList(boxed(alloc, inner)?),
        2 => DataType::FixedSizeList(boxed(alloc, inner)?, rng.between(1, 3)),
        3 => DataType::Extension(String::from_str(alloc, "e")?, Box::new(alloc, inner)?, None),
        4 => DataType::Dictionary(random_key_type(rng), Box::new(alloc, inner)?, false),
        kind => {
            let mut fields = booleans(alloc, 1)?;
            fields.push(field(alloc, inner)?)?;
            match kind {
                5 => DataType::Struct(fields),
                6 => DataType::Union(fields, None, UnionMode::Sparse),
                _ => DataType::Map(boxed(alloc, DataType::Struct(fields))?, false),
            }
        }
    })
}

#[test]
fn types_without_arrays(rt: HostRuntime) -> Result<(), Fail> {
    let alloc = rt.alloc();
    for case in 0..CASES {
        let mut rng = Generator::new(START, 12, case);
        let (mut data_type, expected) = faulty(alloc, &mut rng)?;
        for _ in 0..rng.below(4) {
            data_type = wrapped(alloc, &mut rng, data_type)?;
        }
        let count = rng.below(4);
        let nulls = new_null_array(alloc, data_type.clone(alloc)?, count).err();
        assert_eq!(rt;
            nulls,
            Some(expected),
            "{count} nulls: start {START}, case {case}"
        );
        let none = new_empty_array(alloc, data_type).err();
        assert_eq!(rt; none, Some(expected), "none: start {START}, case {case}");
    }
    Ok(())
}

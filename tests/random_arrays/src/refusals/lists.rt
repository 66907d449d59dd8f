//! Invalid parts of lists and of maps.

use crate::refusals::{
    Trial, copied, invalid_offsets, other_layout, other_length, other_type, spec, trial,
};
use nest_array::{
    AnyArray, FixedSizeListArray, LargeListArray, ListArray, MapArray, new_null_array,
};
use nest_memory::datatypes::{DataType, Field};
use nest_memory::error::{ArgumentError, Error, SpecError};
use random::numbers::Generator;
use random::types::logical;
use std::alloc::Global;

/// The type of lists of other items, as wide and as long.
fn of_other_items(
    alloc: Global,
    rng: &mut Generator,
    own: &DataType,
    items: &AnyArray,
) -> Result<DataType, Error> {
    let other = other_type(alloc, rng, items.data_type())?;
    let field = Box::new(alloc, Field::new(alloc, "item", other, true)?)?;
    Ok(match logical(own) {
        DataType::LargeList(_) => DataType::LargeList(field),
        DataType::FixedSizeList(_, size) => DataType::FixedSizeList(field, *size),
        _ => DataType::List(field),
    })
}

pub fn lists(alloc: Global, rng: &mut Generator, a: &ListArray) -> Result<Trial, Error> {
    let mut own = a.data_type().clone(alloc)?;
    let mut validity = copied(a.validity())?;
    let mut items = a.values().clone(alloc)?;
    let last = a.offsets().last();
    let expected = match rng.below(6) {
        0 => return invalid_offsets(alloc, rng, a.offsets()),
        1 => {
            own = other_layout(alloc, rng, a.data_type())?;
            spec(SpecError::WrongType)
        }
        2 => {
            validity = other_length(alloc, rng, a.len())?;
            spec(SpecError::ValidityLength)
        }
        3 if last > 0 => {
            items.slice(0, last - 1);
            spec(SpecError::OffsetPastChild)
        }
        4 => {
            own = of_other_items(alloc, rng, a.data_type(), &items)?;
            spec(SpecError::ChildType)
        }
        _ => None,
    };
    let answer = ListArray::try_new(alloc, own, a.offsets().clone()?, items, validity);
    Ok(trial(answer, expected))
}

pub fn large_lists(alloc: Global, rng: &mut Generator, a: &LargeListArray) -> Result<Trial, Error> {
    let mut own = a.data_type().clone(alloc)?;
    let mut validity = copied(a.validity())?;
    let mut items = a.values().clone(alloc)?;
    let last = a.offsets().last();
    let expected = match rng.below(6) {
        0 => return invalid_offsets(alloc, rng, a.offsets()),
        1 => {
            own = other_layout(alloc, rng, a.data_type())?;
            spec(SpecError::WrongType)
        }
        2 => {
            validity = other_length(alloc, rng, a.len())?;
            spec(SpecError::ValidityLength)
        }
        3 if last > 0 => {
            items.slice(0, last - 1);
            spec(SpecError::OffsetPastChild)
        }
        4 => {
            own = of_other_items(alloc, rng, a.data_type(), &items)?;
            spec(SpecError::ChildType)
        }
        _ => None,
    };
    let answer = LargeListArray::try_new(alloc, own, a.offsets().clone()?, items, validity);
    Ok(trial(answer, expected))
}

pub fn sized_lists(
    alloc: Global,
    rng: &mut Generator,
    a: &FixedSizeListArray,
) -> Result<Trial, Error> {
    let mut own = a.data_type().clone(alloc)?;
    let mut validity = copied(a.validity())?;
    let mut items = a.values().clone(alloc)?;
    let expected = match rng.below(6) {
        0 => {
            let field = Field::new(alloc, "item", items.data_type().clone(alloc)?, true)?;
            own = DataType::FixedSizeList(Box::new(alloc, field)?, 0);
            spec(SpecError::ZeroSize)
        }
        1 => {
            own = other_layout(alloc, rng, a.data_type())?;
            spec(SpecError::WrongType)
        }
        2 => {
            validity = other_length(alloc, rng, a.len())?;
            spec(SpecError::ValidityLength)
        }
        3 if a.size() > 1 && a.len() > 0 => {
            items.slice(0, a.values().len() - 1);
            spec(SpecError::NotMultiple)
        }
        4 => {
            own = of_other_items(alloc, rng, a.data_type(), &items)?;
            spec(SpecError::ChildType)
        }
        _ => None,
    };
    Ok(trial(
        FixedSizeListArray::try_new(alloc, own, items, validity),
        expected,
    ))
}

/// A type of maps whose entries are no pairs.
fn no_pairs(alloc: Global, rng: &mut Generator) -> Result<DataType, Error> {
    let mut fields = Vec::new(alloc);
    for _ in 0..[1, 3][rng.below(2)] {
        fields.push(Field::new(alloc, "a", DataType::Boolean, true)?)?;
    }
    let entries = Field::new(alloc, "entries", DataType::Struct(fields), false)?;
    Ok(DataType::Map(Box::new(alloc, entries)?, false))
}

pub fn maps(alloc: Global, rng: &mut Generator, a: &MapArray) -> Result<Trial, Error> {
    let mut own = a.data_type().clone(alloc)?;
    let mut validity = copied(a.validity())?;
    let mut entries = a.field().clone(alloc)?;
    let last = a.offsets().last();
    let expected = match rng.below(7) {
        0 => return invalid_offsets(alloc, rng, a.offsets()),
        1 => {
            own = other_layout(alloc, rng, a.data_type())?;
            spec(SpecError::WrongType)
        }
        2 => {
            validity = other_length(alloc, rng, a.len())?;
            spec(SpecError::ValidityLength)
        }
        3 if last > 0 => {
            entries.slice(0, last - 1);
            spec(SpecError::OffsetPastChild)
        }
        4 => {
            own = no_pairs(alloc, rng)?;
            Some(Error::InvalidArgumentError(ArgumentError::MapInner))
        }
        5 => {
            let other = other_type(alloc, rng, a.field().data_type())?;
            entries = new_null_array(alloc, other, a.field().len())?;
            Some(Error::InvalidArgumentError(ArgumentError::ChildType))
        }
        _ => None,
    };
    let answer = MapArray::try_new(alloc, own, a.offsets().clone()?, entries, validity);
    Ok(trial(answer, expected))
}

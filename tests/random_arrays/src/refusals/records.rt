//! Invalid parts of records.

use crate::refusals::{Trial, copied, other_layout, other_length, other_type, spec, trial};
use nest_array::{AnyArray, StructArray, new_null_array};
use nest_memory::datatypes::DataType;
use nest_memory::error::{Error, SpecError};
use random::numbers::Generator;
use std::alloc::Global;

/// The same children, on shared memory.
pub fn clones(alloc: Global, children: &[AnyArray]) -> Result<Vec<AnyArray>, Error> {
    let mut copies = Vec::with_capacity(alloc, children.len())?;
    for child in children {
        copies.push(child.clone(alloc)?)?;
    }
    Ok(copies)
}

pub fn records(alloc: Global, rng: &mut Generator, a: &StructArray) -> Result<Trial, Error> {
    let mut own = a.data_type().clone(alloc)?;
    let mut validity = copied(a.validity())?;
    let mut children = clones(alloc, a.values())?;
    let index = rng.below(children.len());
    let expected = match rng.below(7) {
        0 => {
            own = DataType::Struct(Vec::new(alloc));
            spec(SpecError::NoFields)
        }
        1 => {
            own = other_layout(alloc, rng, a.data_type())?;
            spec(SpecError::WrongType)
        }
        2 => {
            validity = other_length(alloc, rng, a.len())?;
            spec(SpecError::ValidityLength)
        }
        3 => {
            let left_out = children.pop();
            drop(left_out);
            spec(SpecError::FieldCount)
        }
        4 => {
            let other = other_type(alloc, rng, children[index].data_type())?;
            children[index] = new_null_array(alloc, other, a.len())?;
            spec(SpecError::ChildType)
        }
        5 if a.len() > 0 && children.len() > 1 => {
            children[index].slice(0, a.len() - 1);
            spec(SpecError::ChildLength)
        }
        _ => None,
    };
    Ok(trial(StructArray::try_new(own, children, validity), expected))
}

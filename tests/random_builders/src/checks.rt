//! A builder beside its model, level by level.

use crate::failure::{Failure, expect};
use crate::level::{Level, Rows};
use crate::values::plain;
use nest_any::{AnyMutableArray, AnyMutableDictionary};
use nest_build::array::MutableArray;
use nest_flat::plain::Plain;
use nest_memory::datatypes::physical_type::PhysicalType;
use random::slot::Slot;

/// That a builder and those below it are as the model says.
pub fn same_levels(builder: &mut AnyMutableArray, level: &Level) -> Result<(), Failure> {
    same_rows(builder, level)?;
    expect(
        builder.has_complete_children() == level.has_complete_children(),
        "has_complete_children",
    )?;
    if let AnyMutableArray::Dictionary(keyed) = builder {
        return same_values(keyed, level);
    }
    for (i, child) in level.children.iter().enumerate() {
        match builder.child(i) {
            Some(lent) => same_levels(lent, child)?,
            None => return Err(Failure::Mismatch("child")),
        }
    }
    expect(
        builder.child(level.children.len()).is_none(),
        "a child more",
    )
}

/// That a builder and those below it are of the model's types.
pub fn same_types(builder: &mut AnyMutableArray, level: &Level) -> Result<(), Failure> {
    expect(*builder.data_type() == level.data_type, "data_type")?;
    if let AnyMutableArray::Dictionary(keyed) = builder {
        return expect(
            *keyed.values().data_type() == level.children[0].data_type,
            "the values' data_type",
        );
    }
    for (i, child) in level.children.iter().enumerate() {
        if let Some(lent) = builder.child(i) {
            same_types(lent, child)?;
        }
    }
    Ok(())
}

/// That the rows of a builder are those of the model.
pub fn same_rows<B: MutableArray>(builder: &B, level: &Level) -> Result<(), Failure> {
    expect(builder.len() == level.len(), "len")?;
    expect(builder.is_empty() == (level.len() == 0), "is_empty")?;
    expect(builder.is_complete() == level.is_complete(), "is_complete")?;
    for i in 0..level.len() {
        expect(builder.is_valid(i) == level.is_valid(i), "is_valid")?;
        same_value(builder, level, i)?;
    }
    same_validity(builder, level)
}

/// That the validity, where there is one, says which rows are null.
fn same_validity<B: MutableArray>(builder: &B, level: &Level) -> Result<(), Failure> {
    let nulls = (0..level.len()).filter(|i| !level.is_valid(*i)).count();
    let Some(bits) = builder.validity() else {
        let is_null = level.data_type.to_physical_type() == PhysicalType::Null;
        return expect(nulls == 0 || is_null, "no validity");
    };
    expect(bits.len() == level.len(), "the validity's length")?;
    expect(bits.unset_bits() == nulls, "the validity's nulls")?;
    for i in 0..level.len() {
        expect(bits.get(i) == level.is_valid(i), "a bit of the validity")?;
    }
    Ok(())
}

/// That a row without children holds its value and no other one.
fn same_value<B: MutableArray>(builder: &B, level: &Level, i: usize) -> Result<(), Failure> {
    let Some((values, at)) = held(level, i) else {
        return Ok(());
    };
    let Rows::Values(slots) = &values.rows else {
        return Ok(());
    };
    match plain(&values.data_type, &slots[at]) {
        Some(value) => expect(builder.holds(i, &value), "holds")?,
        None => return Ok(()),
    }
    let other = (at + 1) % slots.len();
    match plain(&values.data_type, &slots[other]) {
        Some(value) => expect(
            builder.holds(i, &value) == (slots[other] == slots[at]),
            "holds another value",
        ),
        None => Ok(()),
    }
}

/// The level whose slot a row without children is, and the index there; none of a null.
fn held(level: &Level, i: usize) -> Option<(&Level, usize)> {
    match &level.rows {
        Rows::Values(_) => Some((level, i)),
        Rows::Dictionaries { indices, .. } => indices[i].map(|index| (&level.children[0], index)),
        _ => None,
    }
}

/// That the values of dictionaries are those of the model, each at its key.
fn same_values(keyed: &AnyMutableDictionary, level: &Level) -> Result<(), Failure> {
    let values = &level.children[0];
    same_rows(keyed.values(), values)?;
    let Rows::Values(slots) = &values.rows else {
        return Ok(());
    };
    for (index, slot) in slots.iter().enumerate() {
        expect(
            key_of(keyed, values, slot).unwrap_or(Some(index)) == Some(index),
            "key_of",
        )?;
    }
    Ok(())
}

/// The key of a text or of bytes, where the value is one.
fn key_of(keyed: &AnyMutableDictionary, values: &Level, slot: &Slot) -> Option<Option<usize>> {
    match plain(&values.data_type, slot) {
        Some(Plain::Text(text)) => Some(keyed.key_of(&text)),
        Some(Plain::Bytes(bytes)) => Some(keyed.key_of(&bytes)),
        Some(Plain::Boolean(boolean)) => Some(keyed.key_of(&boolean)),
        _ => None,
    }
}
